//! The text of a time, appended to a buffer that has room for it.
ghost use Rattle.std.specs.Prelude.{◌≡◌, ◌+◌, ◌++◌, ◌<◌};
ghost use Rattle.babel_dump.specs.Slices.{HasRoom, TookRoom};
ghost use Rattle.babel_dump.specs.TimeText.{clock_text, date_text, day_of_month, digit};
ghost use Rattle.babel_dump.specs.TimeText.{four_digits, month_of, nine_digits, time_json, time_or};
ghost use Rattle.babel_dump.specs.TimeText.{time_text, two_digits, year_of};

use crate::push::{push_octet, push_text};
use babel_capture::Time;
use jiff_core::civil;

/// The nanoseconds of a day, an hour, a minute, and a second.
pub(crate) const DAY: u64 = 86_400_000_000_000;

pub(crate) const HOUR: u64 = 3_600_000_000_000;

pub(crate) const MINUTE: u64 = 60_000_000_000;

pub(crate) const SECOND: u64 = 1_000_000_000;

/// How many days after the first date of the calendar's crate 1 January 1970 is.
const EPOCH: u32 = 4_371_587;

/// A date, in numbers.
#[derive(Clone, Copy)]
pub(crate) struct Date {
    pub year: u32,
    pub month: u32,
    pub day: u32,
}

/// Appends a time.
pub(crate) fn push_time(buffer: &mut Vec<u8>, time: Time)
    requires { HasRoom buffer.old 30 }
    ensures text { buffer.new.items ≡ buffer.old.items ++ time_text time }
    ensures room { TookRoom buffer.old buffer.new 30 }
{
    let nanoseconds = time.nanoseconds();
    push_day(buffer, (nanoseconds / u128::from(DAY)) as u32);
    push_text(buffer, "T");
    push_clock(buffer, (nanoseconds % u128::from(DAY)) as u64);
    push_text(buffer, "Z");
}

/// Appends the date so many days after 1 January 1970.
fn push_day(buffer: &mut Vec<u8>, day: u32)
    requires room { HasRoom buffer.old 10 }
    requires in_years { day < 2932897 }
    ensures text { buffer.new.items
        ≡ buffer.old.items ++ date_text (year_of day) (month_of day) (day_of_month day) }
    ensures room { TookRoom buffer.old buffer.new 10 }
{
    let date = date_of(day);
    push_four_digits(buffer, date.year);
    push_text(buffer, "-");
    push_two_digits(buffer, date.month);
    push_text(buffer, "-");
    push_two_digits(buffer, date.day);
}

/// The date so many days after 1 January 1970.
pub(crate) fn date_of(day: u32) -> Date
    requires { day < 2932897 }
    ensures year { result.year ≡ year_of day }
    ensures month { result.month ≡ month_of day }
    ensures day { result.day ≡ day_of_month day }
{
    let date = civil::Date::from_days_since_min(day + EPOCH);
    Date {
        year: u32::from(date.year.unsigned_abs()),
        month: u32::from(date.month),
        day: u32::from(date.day),
    }
}

/// Appends the time of day, so many nanoseconds after midnight.
fn push_clock(buffer: &mut Vec<u8>, nanoseconds: u64)
    requires room { HasRoom buffer.old 18 }
    requires in_day { nanoseconds < 86400000000000 }
    ensures text { buffer.new.items ≡ buffer.old.items ++ clock_text nanoseconds }
    ensures room { TookRoom buffer.old buffer.new 18 }
{
    push_two_digits(buffer, (nanoseconds / HOUR) as u32);
    push_text(buffer, ":");
    push_two_digits(buffer, (nanoseconds / MINUTE % 60) as u32);
    push_text(buffer, ":");
    push_two_digits(buffer, (nanoseconds / SECOND % 60) as u32);
    push_text(buffer, ".");
    push_nine_digits(buffer, (nanoseconds % SECOND) as u32);
}

/// The last digit of a number.
fn digit(number: u32) -> u8
    ensures { result ≡ digit number }
{
    b'0' + (number % 10) as u8
}

/// Appends the last two digits of a number.
pub(crate) fn push_two_digits(buffer: &mut Vec<u8>, number: u32)
    requires { HasRoom buffer.old 2 }
    ensures text { buffer.new.items ≡ buffer.old.items ++ two_digits number }
    ensures room { TookRoom buffer.old buffer.new 2 }
{
    push_octet(buffer, digit(number / 10));
    push_octet(buffer, digit(number));
}

/// Appends the last four digits of a number.
fn push_four_digits(buffer: &mut Vec<u8>, number: u32)
    requires { HasRoom buffer.old 4 }
    ensures text { buffer.new.items ≡ buffer.old.items ++ four_digits number }
    ensures room { TookRoom buffer.old buffer.new 4 }
{
    push_octet(buffer, digit(number / 1_000));
    push_octet(buffer, digit(number / 100));
    push_octet(buffer, digit(number / 10));
    push_octet(buffer, digit(number));
}

/// Appends the last nine digits of a number.
fn push_nine_digits(buffer: &mut Vec<u8>, number: u32)
    requires { HasRoom buffer.old 9 }
    ensures text { buffer.new.items ≡ buffer.old.items ++ nine_digits number }
    ensures room { TookRoom buffer.old buffer.new 9 }
{
    push_octet(buffer, digit(number / 100_000_000));
    push_octet(buffer, digit(number / 10_000_000));
    push_octet(buffer, digit(number / 1_000_000));
    push_octet(buffer, digit(number / 100_000));
    push_octet(buffer, digit(number / 10_000));
    push_octet(buffer, digit(number / 1_000));
    push_octet(buffer, digit(number / 100));
    push_octet(buffer, digit(number / 10));
    push_octet(buffer, digit(number));
}

/// Appends a time, or `-` where there is none.
pub(crate) fn push_time_or(buffer: &mut Vec<u8>, time: Option<Time>)
    requires { HasRoom buffer.old 30 }
    ensures text { buffer.new.items ≡ buffer.old.items ++ time_or time }
    ensures room { TookRoom buffer.old buffer.new 30 }
{
    match time {
        Some(time) => push_time(buffer, time),
        None => push_text(buffer, "-"),
    }
}

/// Appends a time, or `null` where there is none.
pub(crate) fn push_time_json(buffer: &mut Vec<u8>, time: Option<Time>)
    requires { HasRoom buffer.old 32 }
    ensures text { buffer.new.items ≡ buffer.old.items ++ time_json time }
    ensures room { TookRoom buffer.old buffer.new 32 }
{
    match time {
        Some(time) => {
            push_text(buffer, "\"");
            push_time(buffer, time);
            push_text(buffer, "\"");
        }
        None => push_text(buffer, "null"),
    }
}
