//! Times, as `--since` and `--until` name them.
ghost use Rattle.std.specs.Prelude.{◌≡◌, ℕ, List, ℤ, pos, ◌+◌, ◌*◌, ◌<◌, ◌≤◌, ◌++◌, ◌*ℤ◌, Some};
ghost use Rattle.std.specs.Prelude.{◌+ℤ◌, IfSome, MatchOption, SomeIff};
ghost use Rattle.std.specs.Int.{IsInRange};
ghost use Rattle.std.specs.List.{AllByRecursion};
ghost use Rattle.std.specs.Str.Parse.{AllDigits};
ghost use Rattle.jiff_core.specs.Calendar.{IsCivilDate, IsEpochDay, days_from_civil};
ghost use Rattle.babel_capture.specs.declared.window.Moment.{Moment};
ghost use Rattle.babel_dump.specs.MomentWords.{ClockText, DateText, DateTimeText, HoursText};
ghost use Rattle.babel_dump.specs.MomentWords.{IsClock, MomentText, OffsetText, SecondText};
ghost use Rattle.babel_dump.specs.MomentWords.{SecondsText};
ghost use Rattle.babel_dump.specs.MomentWords.{TimeText, minutes_of};

use crate::decimal::{Decimal, cut_fraction, parse_decimal, parse_padded};
use babel_capture::{Moment, Time};
use jiff_core::civil::Date;

/// The nanoseconds of a second.
const SECOND: u128 = 1_000_000_000;

/// The digits of a fraction of a second at most.
const PLACES: usize = 9;

/// The moment that a word names: a time with an offset, as `2026-11-25T13:30:22.5Z` or
/// `2026-11-25T14:30+01:00`; seconds since the start of 1970, as `@1764077422.5`; or seconds since
/// a capture's first record, as `+90`. `None` for any other word, and for a time before 1970 or
/// after the year 9999.
pub fn parse_moment(word: &str) -> Option<Moment>
    ensures is { IfSome result (MomentText word.now) }
    ensures reads { (moment : Moment) → MomentText word.now moment → result ≡ Some moment }
{
    match word.strip_prefix('+') {
        Some(seconds) => {
            let Decimal { whole, units } = parse_decimal(seconds, PLACES)?;
            Some(Moment::After {
                seconds: whole,
                nanoseconds: units,
            })
        }
        None => Some(Moment::At(Time::new(parse_time(word)?)?)),
    }
}

/// How many nanoseconds after the start of 1970 a time is: `@` and seconds, or a date and a time.
fn parse_time(word: &str) -> Option<u128>
    ensures is { IfSome result (TimeText word.now) }
    ensures reads { (time : ℕ) → TimeText word.now time → time < 253402300800000000000
        → result ≡ Some time }
{
    match word.strip_prefix('@') {
        Some(seconds) => Some(nanoseconds_of(parse_decimal(seconds, PLACES)?)),
        None => parse_date_time(word),
    }
}

/// Seconds in nanoseconds.
fn nanoseconds_of(seconds: Decimal) -> u128
    ensures { result ≡ seconds.whole * 1000000000 + seconds.units }
{
    u128::from(seconds.whole) * SECOND + u128::from(seconds.units)
}

/// How many nanoseconds after the start of 1970 a time is: `YYYY-MM-DDTHH:MM`, perhaps seconds and
/// a fraction, and the offset.
fn parse_date_time(word: &str) -> Option<u128>
    ensures is { IfSome result (DateTimeText word.now) }
    ensures reads { (time : ℕ) → DateTimeText word.now time → result ≡ Some time }
{
    let (date, rest) = word.split_once('T')?;
    let (clock, offset) = cut_offset(rest)?;
    let (minutes, seconds) = parse_clock(clock)?;
    let since = minutes_since(parse_day(date)?, minutes, offset)?;
    Some(nanoseconds_of(Decimal {
        whole: since * 60 + seconds.whole,
        units: seconds.units,
    }))
}

/// How many minutes after the start of 1970 it is; `None` before it.
fn minutes_since(day: i64, minutes: u16, offset: i16) -> Option<u64>
    requires { IsEpochDay day }
    ensures is { IfSome result (λ since.
        (pos since +ℤ offset) ≡ (day *ℤ pos 1440 +ℤ pos minutes)) }
    ensures reads { (since : ℕ) → (pos since +ℤ offset) ≡ (day *ℤ pos 1440 +ℤ pos minutes)
        → result ≡ Some since }
{
    u64::try_from(day * 1_440 + i64::from(minutes) - i64::from(offset)).ok()
}

/// How many days after the start of 1970 a date is: `YYYY-MM-DD`.
fn parse_day(word: &str) -> Option<i64>
    ensures is { IfSome result (DateText word.now) }
    ensures reads { (day : ℤ) → DateText word.now day → result ≡ Some day }
    ensures few { IfSome result IsEpochDay }
{
    let (year, rest) = word.split_once('-')?;
    let (month, day) = rest.split_once('-')?;
    epoch_day(
        parse_padded(year, 4)?,
        parse_padded(month, 2)?,
        parse_padded(day, 2)?,
    )
}

/// How many days after the start of 1970 a day is; `None` if the calendar does not have it.
fn epoch_day(year: u16, month: u16, day: u16) -> Option<i64>
    requires { (year < 10000) × (month < 100) × (day < 100) }
    ensures is { SomeIff result (IsCivilDate (pos year) month day)
        (days_from_civil (pos year) month day) }
    ensures few { IfSome result IsEpochDay }
{
    let date = Date::new(year as i16, month as i8, day as i8).ok()?;
    Some(i64::from(date.to_unix_epoch_day()))
}

/// The minute of a day, and the seconds after it: `HH:MM`, `HH:MM:SS`, or `HH:MM:SS.FRACTION`.
fn parse_clock(word: &str) -> Option<(u16, Decimal)>
    ensures is { IfSome result (λ found.
        ClockText word.now found.0 found.1.whole found.1.units) }
    ensures reads { (minutes seconds nanoseconds : ℕ)
        → ClockText word.now minutes seconds nanoseconds
        → result ≡ Some (minutes, record { whole = seconds; units = nanoseconds }) }
    ensures few { IfSome result (λ found. (found.0 < 1440) × (found.1.whole < 60)) }
{
    let (hour, rest) = word.split_once(':')?;
    let (minute, seconds) = cut_seconds(rest)?;
    Some((parse_minutes(hour, minute)?, seconds))
}

/// What is before the seconds of a word, and the seconds: 0 where there are none.
fn cut_seconds(word: &str) -> Option<(&str, Decimal)>
    ensures is { IfSome result (λ found. (rest : List ℕ)
        × (word.now ≡ found.0.now ++ rest) × SecondsText rest found.1.whole found.1.units) }
    ensures reads { (front rest : List ℕ) (seconds nanoseconds : ℕ) → AllDigits 10 front
        → word.now ≡ front ++ rest → SecondsText rest seconds nanoseconds
        → MatchOption result ⊥ (λ found. (found.0.now ≡ front)
        × (found.1 ≡ record { whole = seconds; units = nanoseconds })) }
{
    match word.split_once(':') {
        Some((front, second)) => Some((front, parse_second(second)?)),
        None => Some((word, Decimal { whole: 0, units: 0 })),
    }
}

/// The seconds of a minute: `SS`, or `SS.FRACTION`.
fn parse_second(word: &str) -> Option<Decimal>
    ensures is { IfSome result (λ found. SecondText word.now found.whole found.units) }
    ensures reads { (seconds nanoseconds : ℕ) → SecondText word.now seconds nanoseconds
        → result ≡ Some (record { whole = seconds; units = nanoseconds }) }
{
    let (second, units) = cut_fraction(word, PLACES)?;
    let second = parse_padded(second, 2)?;
    if second > 59 {
        return None;
    }
    Some(Decimal {
        whole: u64::from(second),
        units,
    })
}

/// What comes before an offset, and the offset in minutes: `Z`, `+HH:MM` or `-HH:MM`.
fn cut_offset(word: &str) -> Option<(&str, i16)>
    ensures is { IfSome result (λ found. (zone : List ℕ)
        × (word.now ≡ found.0.now ++ zone) × OffsetText zone found.1) }
    ensures reads { (front zone : List ℕ) (offset : ℤ) → AllByRecursion (IsInRange 46 58) front
        → word.now ≡ front ++ zone → OffsetText zone offset
        → MatchOption result ⊥ (λ found. (found.0.now ≡ front) × (found.1 ≡ offset)) }
{
    if let Some(front) = word.strip_suffix('Z') {
        return Some((front, 0));
    }
    if let Some((front, hours)) = word.split_once('+') {
        return Some((front, parse_hours(hours)?));
    }
    let (front, hours) = word.split_once('-')?;
    Some((front, -parse_hours(hours)?))
}

/// The minutes of an offset: `HH:MM`.
fn parse_hours(word: &str) -> Option<i16>
    ensures is { IfSome result (λ found. (minutes : ℕ) × HoursText word.now minutes
        × (found ≡ pos minutes)) }
    ensures reads { (minutes : ℕ) → HoursText word.now minutes → result ≡ Some (pos minutes) }
{
    let (hour, minute) = word.split_once(':')?;
    Some(parse_minutes(hour, minute)? as i16)
}

/// Hours and minutes, of two digits each, in minutes.
fn parse_minutes(hour: &str, minute: &str) -> Option<u16>
    ensures { SomeIff result (IsClock hour.now minute.now) (minutes_of hour.now minute.now) }
{
    let (hour, minute) = (parse_padded(hour, 2)?, parse_padded(minute, 2)?);
    if hour > 23 || minute > 59 {
        return None;
    }
    Some(hour * 60 + minute)
}
