//! After how many times its Interval a route is gone, as `--expiry` has it.
ghost use Rattle.std.specs.Prelude.{◌≡◌, ℕ, ◌<◌, ◌≤◌, IfSome, SomeIff};
ghost use Rattle.babel_dump.specs.Factors.{FactorText};

use crate::decimal::{Decimal, parse_decimal};
use std::marker::Model;

/// The ten-millionths of one.
const ONE: u64 = 10_000_000;

/// The ten-millionths of the greatest factor, which is 1,000.
const MOST: u64 = 1_000 * ONE;

/// The digits after the point at most.
const PLACES: usize = 7;

/// After how many times its Interval a route is gone (RFC 8966, appendix B): a number of
/// ten-millionths, above 0 and at most 1,000.
#[derive(Clone, Copy)]
pub struct Factor {
    ten_millionths: u64,
}

impl Model for Factor {
    ghost use Rattle.std.specs.Prelude.{ℕ, ◌<◌, ◌≤◌};

    ghost Value = { ℕ };

    ghost view = { λ f. f.ten_millionths };

    ghost invariant = { λ f. (0 < f.ten_millionths) × (f.ten_millionths ≤ 10000000000) };

    ghost inverse = { λ f. record { ten_millionths = f } };
}

impl Factor {
    /// So many ten-millionths; `None` exactly if they are 0, or more than 1,000.
    pub fn new(ten_millionths: u64) -> Option<Factor>
        ensures { SomeIff result ((0 < ten_millionths) × (ten_millionths ≤ 10000000000))
            ten_millionths }
    {
        if ten_millionths == 0 || ten_millionths > MOST {
            return None;
        }
        Some(Factor { ten_millionths })
    }

    /// That of RFC 8966, appendix B, which is 3.5.
    pub fn usual() -> Factor
        ensures { result ≡ 35000000 }
    {
        Factor {
            ten_millionths: 35_000_000,
        }
    }

    /// How many ten-millionths it has.
    pub fn ten_millionths(self) -> u64
        ensures { result ≡ self }
    {
        self.ten_millionths
    }
}

/// The factor that a word names: digits, or digits with a point and one to seven digits after it,
/// as `3.5`. `None` for any other word, for 0, and for more than 1,000.
pub fn parse_factor(word: &str) -> Option<Factor>
    ensures is { IfSome result (FactorText word.now) }
    ensures reads { (factor : ℕ) → FactorText word.now factor → result ≡ Some factor }
{
    let Decimal { whole, units } = parse_decimal(word, PLACES)?;
    Factor::new(whole.saturating_mul(ONE).saturating_add(u64::from(units)))
}
