ghost use Rattle.std.specs.Prelude.{◌≡◌, None};
ghost use Rattle.babel_tlv.specs.Kept.{IsOfFamily};
ghost use Rattle.babel_tlv.specs.Kept.{kept_for, kept_with};

use babel_prefix::{Addr, Family};
use std::marker::Model;

/// An address of each family, if one is known: RFC 8966, 4.5.
#[derive(Clone, Copy)]
pub(crate) struct PerFamily {
    v4: Option<Addr>,
    v6: Option<Addr>,
}

impl Model for PerFamily {
    ghost use Rattle.babel_tlv.specs.Kept.{Kept, IsKept};

    ghost Value = { Kept };

    ghost view = { λ p. record { v4 = p.v4; v6 = p.v6 } };

    ghost invariant = { λ p. IsKept (record { v4 = p.v4; v6 = p.v6 }) };

    ghost inverse = { λ p. record { v4 = p.v4; v6 = p.v6 } };
}

impl PerFamily {
    /// No address.
    pub fn none() -> PerFamily
        ensures { result ≡ record { v4 = None; v6 = None } }
    {
        PerFamily { v4: None, v6: None }
    }

    /// The address of a family.
    pub fn get(&self, family: Family) -> Option<Addr>
        ensures value { result ≡ kept_for family self.now }
        ensures of_family { IsOfFamily family result }
    {
        match family {
            Family::V4 => self.v4,
            Family::V6 => self.v6,
        }
    }

    /// Keeps an address for its family.
    pub fn set(&mut self, addr: Addr)
        ensures { self.new ≡ kept_with addr.family addr self.old }
    {
        match addr.family() {
            Family::V4 => self.v4 = Some(addr),
            Family::V6 => self.v6 = Some(addr),
        }
    }
}
