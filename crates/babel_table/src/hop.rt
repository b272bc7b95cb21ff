//! The forms that rows keep next hops in.
ghost use Rattle.std.specs.Prelude.{◌≡◌, ⊤, IsTrue};
ghost use Rattle.babel_prefix.specs.Address.{Address};
ghost use Rattle.babel_prefix.specs.declared.family.Family.TheVariants.{V4, V6};
ghost use Rattle.babel_table.specs.Compact.{address_in};

use crate::word::Word;
use babel_prefix::{Addr, Family, Halves, Prefix};

/// A next hop, in no more octets than it needs where all are of one family.
pub trait Hop: Copy {
    ghost address: { Self → Address };

    // The addresses that can be kept so.
    ghost fits: { Address → Type 0 };

    /// Some address, in place of none.
    fn none() -> Self;

    /// The address, kept so.
    fn kept(addr: Addr) -> Self
        requires { fits addr }
        ensures { address result ≡ addr };

    /// The address that is kept.
    fn address(self) -> Addr
        ensures value { result ≡ address self }
        ensures fits { fits result };

    /// Whether both are kept in the same octets, so that they are one address.
    fn is(self, other: Self) -> bool
        ensures { IsTrue result → address self ≡ address other };
}

impl Hop for u32 {
    ghost address = { λ hop. address_in V4 hop };

    ghost fits = { λ addr. addr.family ≡ V4 };

    fn none() -> u32 {
        0
    }

    fn kept(addr: Addr) -> u32 {
        u32::of(addr)
    }

    fn address(self) -> Addr {
        self.addr()
    }

    fn is(self, other: u32) -> bool {
        self == other
    }
}

impl Hop for Halves {
    ghost address = { λ hop. address_in V6 hop };

    ghost fits = { λ addr. addr.family ≡ V6 };

    fn none() -> Halves {
        Halves::new(0)
    }

    fn kept(addr: Addr) -> Halves {
        Halves::of(addr)
    }

    fn address(self) -> Addr {
        self.addr()
    }

    fn is(self, other: Halves) -> bool {
        self == other
    }
}

impl Hop for Addr {
    ghost address = { λ hop. hop };

    ghost fits = { λ _. ⊤ };

    fn none() -> Addr {
        Prefix::whole(Family::V4).addr()
    }

    fn kept(addr: Addr) -> Addr {
        addr
    }

    fn address(self) -> Addr {
        self
    }

    fn is(self, other: Addr) -> bool {
        self == other
    }
}
