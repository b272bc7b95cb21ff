ghost use Rattle.std.specs.Prelude.{◌≡◌, ◌<◌, ◌^◌};
ghost use Rattle.babel_table.specs.Moments.{end_after, has_expired};

use std::marker::Model;

/// How many numbers the low part of a time can be.
const LOW: u128 = 1 << 64;

/// When something was said, in nanoseconds since the start of 1970, and the Interval that was said
/// with it, in hundredths of a second (RFC 8966, 4.6.9): in 16 octets.
#[derive(Clone, Copy)]
pub struct Stamp {
    low: u64,
    high: u32,
    interval: u16,
}

impl Model for Stamp {
    ghost use Rattle.std.specs.Prelude.{◌<◌, ◌+◌, ◌*◌, ◌/◌, ◌%◌, ◌^◌};
    ghost use Rattle.std.proofs.lemmas.Nat.{div-mul-add, mod-mul-add};
    ghost use Rattle.babel_table.specs.Moments.{Stamp as Said};

    ghost Value = { Said };

    ghost view = { λ s. record { time = s.high * 2 ^ 64 + s.low; interval = s.interval } };

    ghost invariant = { λ s. (s.high < 2 ^ 32) × (s.low < 2 ^ 64) };

    ghost inverse = { λ w. record {
      low = w.time % 2 ^ 64;
      high = w.time / 2 ^ 64;
      interval = w.interval;
    } };

    ghost inverse_ok = { λ s fits i. record {
      low = mod-mul-add s.high (2 ^ 64) s.low fits.1 i;
      high = div-mul-add s.high (2 ^ 64) s.low fits.1 i;
      interval = s.interval;
    } };
}

impl Stamp {
    /// The stamp of what was said then.
    pub fn new(time: u128, interval: u16) -> Stamp
        requires { time < 2 ^ 96 }
        ensures { result ≡ record { time = time; interval = interval } }
    {
        Stamp {
            low: (time % LOW) as u64,
            high: (time / LOW) as u32,
            interval,
        }
    }

    /// When it was said.
    pub fn time(&self) -> u128
        ensures value { result ≡ self.now.time }
        ensures small { result < 2 ^ 96 }
    {
        u128::from(self.high) * LOW + u128::from(self.low)
    }

    /// When what was said then ends, so many ten-millionths of its Interval later: RFC 8966,
    /// appendix B. `None` with an Interval of 0.
    pub fn end(&self, factor: u128) -> Option<u128>
        requires { factor < 2 ^ 65 }
        ensures { result ≡ end_after factor self.now }
    {
        if self.interval == 0 {
            return None;
        }
        Some(self.time() + factor * u128::from(self.interval))
    }

    /// Whether what was said then has expired at the moment.
    pub fn has_expired(&self, factor: u128, moment: u128) -> bool
        requires { factor < 2 ^ 65 }
        ensures { result ≡ has_expired factor moment self.now }
    {
        self.end(factor).is_some_and(|end| end <= moment)
    }
}
