ghost use Rattle.std.specs.Prelude.{◌≡◌, ◌<◌, ◌^◌, ◌*◌, ◌/◌, SomeIff};
ghost use Rattle.babel_capture.specs.Times.{in_years, moment_of, per_second, resolution_of};

use crate::time::Time;

/// The nanoseconds of a second.
const SECOND: u128 = 1_000_000_000;

/// The octet of `if_tsresol` says a power of two from here on: draft-ietf-opsawg-pcapng, 4.2.
const POWERS_OF_TWO: u8 = 128;

/// How many units of time a second has.
#[derive(Clone, Copy)]
pub enum Resolution {
    /// This power of ten.
    Ten(u8),
    /// This power of two.
    Two(u8),
}

/// How the times of an interface's packets are counted: draft-ietf-opsawg-pcap, 4;
/// draft-ietf-opsawg-pcapng, 4.2.
#[derive(Clone, Copy)]
pub struct Clock {
    pub resolution: Resolution,
    /// The seconds that are added to each time.
    pub offset: i64,
}

/// The time of a packet, as its record has it: seconds, and then units of its interface.
#[derive(Clone, Copy)]
pub struct Stamp {
    pub seconds: u64,
    pub units: u64,
}

impl Resolution {
    /// The resolution that an octet says.
    pub fn of(octet: u8) -> Resolution
        ensures { result ≡ resolution_of octet }
    {
        if octet < POWERS_OF_TWO {
            Resolution::Ten(octet)
        } else {
            Resolution::Two(octet - POWERS_OF_TWO)
        }
    }

    /// How many units a second has; `None` if they are 2^128 or more.
    fn per_second(self) -> Option<u128>
        ensures { SomeIff result (per_second self < 2 ^ 128) (per_second self) }
    {
        match self {
            Resolution::Ten(power) => 10u128.checked_pow(u32::from(power)),
            Resolution::Two(power) => 2u128.checked_pow(u32::from(power)),
        }
    }

    /// So many units in nanoseconds, rounded down.
    fn nanoseconds(self, units: u64) -> u128
        ensures value { result ≡ units * 1000000000 / per_second self }
        ensures fits { result < 2 ^ 94 }
    {
        match self {
            // Micro- and nanoseconds, as nearly all captures have them, take no division.
            Resolution::Ten(6) => u128::from(units) * 1_000,
            Resolution::Ten(9) => u128::from(units),
            _ => self.divided(units),
        }
    }

    /// The same by a division, whatever the resolution.
    #[tactic(auto, using(crate::proofs::TimeLaws::some_units))]
    fn divided(self, units: u64) -> u128
        ensures value { result ≡ units * 1000000000 / per_second self }
        ensures fits { result < 2 ^ 94 }
    {
        match self.per_second() {
            Some(per_second) => u128::from(units) * SECOND / per_second,
            None => 0,
        }
    }
}

impl Clock {
    /// When a packet with this stamp came; `None` before 1970 and after the year 9999.
    pub fn time(self, stamp: Stamp) -> Option<Time>
        ensures { result ≡ in_years (moment_of self stamp) }
    {
        let since = u128::from(stamp.seconds) * SECOND + self.resolution.nanoseconds(stamp.units);
        let offset = u128::from(self.offset.unsigned_abs()) * SECOND;
        if self.offset < 0 {
            Time::new(since.checked_sub(offset)?)
        } else {
            Time::new(since + offset)
        }
    }
}
