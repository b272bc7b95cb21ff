ghost use Rattle.std.specs.Prelude.{◌≡◌, ◌<◌};
ghost use Rattle.babel_capture.specs.Times.{within_years};

use std::marker::Model;

/// The start of the year 10000, in nanoseconds since the start of 1970.
const END: u128 = 253_402_300_800_000_000_000;

/// A moment of the years 1970 to 9999, in UTC, to the nanosecond.
#[derive(Clone, Copy, PartialEq, Eq, PartialOrd, Ord)]
pub struct Time {
    nanoseconds: u128,
}

impl Model for Time {
    ghost use Rattle.std.specs.Prelude.{ℕ, ◌<◌};

    ghost Value = { ℕ };

    ghost view = { λ t. t.nanoseconds };

    ghost invariant = { λ t. t.nanoseconds < 253402300800000000000 };

    ghost inverse = { λ t. record { nanoseconds = t } };
}

impl Time {
    /// The start of 1970.
    pub fn first() -> Time
        ensures { result ≡ 0 }
    {
        Time { nanoseconds: 0 }
    }

    /// The moment so many nanoseconds after the start of 1970; `None` exactly if it is after the
    /// year 9999.
    pub fn new(nanoseconds: u128) -> Option<Time>
        ensures { result ≡ within_years nanoseconds }
    {
        if nanoseconds < END {
            Some(Time { nanoseconds })
        } else {
            None
        }
    }

    /// How many nanoseconds after the start of 1970 it is.
    pub fn nanoseconds(self) -> u128
        ensures value { result ≡ self }
        ensures fits { result < 253402300800000000000 }
    {
        self.nanoseconds
    }
}
