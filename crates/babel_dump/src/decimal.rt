//! Numbers in words: decimal digits, and a fraction after a point.
ghost use Rattle.std.specs.Prelude.{◌≡◌, ℕ, List, ◌^◌, ◌≤◌, ◌<◌, ◌++◌, IfSome, MatchOption};
ghost use Rattle.std.specs.Prelude.{SomeIff};
ghost use Rattle.std.specs.Str.Parse.{AllDigits, IsNumeral};
ghost use Rattle.babel_dump.specs.Decimals.{AreDigits, ArePlaces, DecimalText, FractionText};
ghost use Rattle.babel_dump.specs.Decimals.{number, units_of};

/// A number with a fraction.
#[derive(Clone, Copy)]
pub(crate) struct Decimal {
    pub whole: u64,
    /// In units of the last place that the fraction may have.
    pub units: u32,
}

/// The number that a word writes: digits, perhaps with a point and at most so many digits after it.
pub(crate) fn parse_decimal(word: &str, most: usize) -> Option<Decimal>
    requires { most ≤ 9 }
    ensures is { IfSome result (λ d. DecimalText most word.now d.whole d.units) }
    ensures reads { (whole units : ℕ) → DecimalText most word.now whole units → whole < 2 ^ 64
        → result ≡ Some (record { whole = whole; units = units }) }
{
    let (digits, units) = cut_fraction(word, most)?;
    Some(Decimal {
        whole: parse_digits(digits)?,
        units,
    })
}

/// What is before the fraction of a word, and the fraction, in units of the last of so many places:
/// 0 where there is none.
pub(crate) fn cut_fraction(word: &str, most: usize) -> Option<(&str, u32)>
    requires { most ≤ 9 }
    ensures is { IfSome result (λ found. (fraction : List ℕ)
        × (word.now ≡ found.0.now ++ fraction) × FractionText most fraction found.1) }
    ensures reads { (digits fraction : List ℕ) (units : ℕ) → AllDigits 10 digits
        → word.now ≡ digits ++ fraction → FractionText most fraction units
        → MatchOption result ⊥ (λ found. (found.0.now ≡ digits) × (found.1 ≡ units)) }
{
    match word.split_once('.') {
        Some((front, digits)) => Some((front, parse_places(digits, most)?)),
        None => Some((word, 0)),
    }
}

/// The number of the digits after a point, in units of the last of so many places.
fn parse_places(digits: &str, most: usize) -> Option<u32>
    requires { most ≤ 9 }
    ensures { SomeIff result (ArePlaces most digits.now) (units_of most digits.now) }
{
    let zeros = most.checked_sub(digits.len())?;
    let number = parse_digits(digits)? as u32;
    Some(number * 10u32.pow(zeros as u32))
}

/// The number that so many digits write.
pub(crate) fn parse_padded(word: &str, count: usize) -> Option<u16>
    requires some { 1 ≤ count }
    requires few { count ≤ 4 }
    ensures { SomeIff result (AreDigits count word.now) (number word.now) }
{
    if word.len() != count {
        return None;
    }
    Some(parse_digits(word)? as u16)
}

/// The number that digits write.
fn parse_digits(word: &str) -> Option<u64>
    ensures { SomeIff result (IsNumeral 10 word.now × (number word.now < 2 ^ 64))
        (number word.now) }
{
    if word.starts_with('+') {
        return None;
    }
    word.parse().ok()
}
