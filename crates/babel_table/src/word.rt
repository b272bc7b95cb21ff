//! The numbers that rows keep the addresses of a family in.
ghost use Rattle.std.specs.Prelude.{◌≡◌, ◌≤◌, ◌↔◌, ℕ, IsTrue};
ghost use Rattle.std.specs.Ordering.{nat_cmp, ordering_then};
ghost use Rattle.babel_prefix.specs.declared.family.Family.{Family as AddressFamily};
ghost use Rattle.babel_prefix.specs.declared.family.Family.TheVariants.{V4, V6};
ghost use Rattle.babel_prefix.specs.Block.{leading_bits};
ghost use Rattle.babel_prefix.specs.Width.{width_of};
ghost use Rattle.babel_table.specs.Said.{folded};

use crate::compact_key::mixed;
use babel_prefix::{Addr, Family, Halves};
use std::cmp::Ordering;

/// The bits of an address of one family, no wider than they have to be.
pub trait Word: Copy {
    ghost family: { AddressFamily };

    ghost number: { Self → ℕ };

    /// The bits of an address of the family.
    fn of(addr: Addr) -> Self
        requires { addr.family ≡ family }
        ensures { number result ≡ addr.bits };

    /// The address with these bits.
    fn addr(self) -> Addr
        ensures { result ≡ record { family = family; bits = number self } };

    /// The bits, mixed with the seed in 64 of them.
    fn fold(self, seed: u128) -> u64
        ensures { result ≡ folded seed (number self) };

    /// Whether the two agree in their first bits, so many of them.
    fn agrees(self, other: Self, len: u8) -> bool
        requires { len ≤ width_of family }
        ensures { IsTrue result ↔ (leading_bits (width_of family) len (number self)
            ≡ leading_bits (width_of family) len (number other)) };

    /// The order of the two with these lengths, which is that of the bits, then of the lengths.
    fn order(self, len: u8, other: Self, other_len: u8) -> Ordering
        ensures { result ≡ ordering_then (nat_cmp (number self) (number other))
            (nat_cmp len other_len) };
}

impl Word for u32 {
    ghost family = { V4 };

    ghost number = { λ w. w };

    fn of(addr: Addr) -> u32 {
        addr.bits() as u32
    }

    fn addr(self) -> Addr {
        Addr::new(Family::V4, u128::from(self)).unwrap()
    }

    fn fold(self, seed: u128) -> u64 {
        mixed(seed, 0, u64::from(self))
    }

    fn agrees(self, other: u32, len: u8) -> bool {
        let rest = 32 - len;
        u64::from(self) >> rest == u64::from(other) >> rest
    }

    fn order(self, len: u8, other: u32, other_len: u8) -> Ordering {
        // One comparison of both, where rows are sorted.
        let one = u64::from(self) * 256 + u64::from(len);
        let two = u64::from(other) * 256 + u64::from(other_len);
        one.cmp(&two)
    }
}

impl Word for Halves {
    ghost family = { V6 };

    ghost number = { λ w. w };

    fn of(addr: Addr) -> Halves {
        Halves::new(addr.bits())
    }

    fn addr(self) -> Addr {
        Addr::new(Family::V6, self.number()).unwrap()
    }

    #[tactic(auto, unfolding(crate::specs::Said::folded))]
    fn fold(self, seed: u128) -> u64 {
        mixed(seed, self.high(), self.low())
    }

    fn agrees(self, other: Halves, len: u8) -> bool {
        len == 0 || self.number() >> (128 - len) == other.number() >> (128 - len)
    }

    fn order(self, len: u8, other: Halves, other_len: u8) -> Ordering {
        self.cmp(&other).then(len.cmp(&other_len))
    }
}
