//! The number of an address, as two words of 64 bits.
ghost use Rattle.std.specs.Prelude.{◌≡◌, ◌==◌, ◌/◌, ◌%◌, ◌^◌};
ghost use Rattle.std.proofs.Common.{rules};
ghost use Rattle.std.specs.Cmp.{partial_order_from_own_ties};
ghost use Rattle.std.specs.Cmp.Rules.{comparing};
ghost use Rattle.std.specs.Ordering.{nat_cmp, as_partial_cmp};

use std::cmp::Ordering;
use std::marker::Model;

/// A number of 128 bits in two halves. A `u128` begins at a multiple of 16 octets, so that beside a
/// family and a length it would leave 14 octets empty, which every copy moves too.
#[derive(Clone, Copy)]
pub struct Halves {
    high: u64,
    low: u64,
}

impl Model for Halves {
    ghost use Rattle.std.specs.Prelude.{ℕ, ◌+◌, ◌*◌, ◌/◌, ◌%◌, ◌^◌, ◌<◌};
    ghost use Rattle.std.proofs.lemmas.Nat.{div-mul-add, mod-mul-add};

    ghost Value = { ℕ };

    ghost view = { λ h. h.high * 2 ^ 64 + h.low };

    ghost invariant = { λ h. h.low < 2 ^ 64 };

    ghost inverse = { λ n. record { high = n / 2 ^ 64; low = n % 2 ^ 64 } };

    ghost inverse_ok = { λ h low_fits i. record {
      high = div-mul-add h.high (2 ^ 64) h.low low_fits i;
      low = mod-mul-add h.high (2 ^ 64) h.low low_fits i;
    } };
}

impl Halves {
    /// The number in halves.
    pub fn new(number: u128) -> Halves
        ensures { result ≡ number }
    {
        Halves {
            high: (number >> 64) as u64,
            low: (number & 0xffff_ffff_ffff_ffff) as u64,
        }
    }

    /// The higher half of the number, 64 bits.
    pub fn high(&self) -> u64
        ensures { result ≡ self.now / 2 ^ 64 }
    {
        self.high
    }

    /// The lower half of the number, 64 bits.
    pub fn low(&self) -> u64
        ensures { result ≡ self.now % 2 ^ 64 }
    {
        self.low
    }

    /// The number that the halves are of.
    pub fn number(&self) -> u128
        ensures { result ≡ self.now }
    {
        (self.high as u128) << 64 | self.low as u128
    }
}

impl PartialEq for Halves {
    ghost eq = { ◌==◌ };

    ghost laws = { Prim.search (comparing, rules) };

    fn eq(&self, other: &Halves) -> bool {
        self.high == other.high && self.low == other.low
    }
}

impl Eq for Halves {
    ghost laws = { Prim.search (comparing, rules) };
}

impl Ord for Halves {
    ghost cmp = { nat_cmp };

    ghost total = { Prim.search (comparing, rules) };

    ghost matches_partial_cmp = { Prim.search (comparing, rules) };

    ghost matches_eq = { Prim.search (comparing, rules) };

    fn cmp(&self, other: &Halves) -> Ordering {
        self.high.cmp(&other.high).then(self.low.cmp(&other.low))
    }
}

impl PartialOrd for Halves {
    ghost partial_cmp = { as_partial_cmp nat_cmp };

    ghost laws = { partial_order_from_own_ties (Prim.search (comparing, rules))
        (Prim.search (comparing, rules)) };

    fn partial_cmp(&self, other: &Halves) -> Option<Ordering> {
        Some(self.cmp(other))
    }
}
