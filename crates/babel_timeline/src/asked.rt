ghost use Rattle.std.specs.Prelude.{◌≡◌};
ghost use Rattle.babel_timeline.specs.Telling.{counts, key_alone};
ghost use Rattle.std.specs.Prelude.{Some};
ghost use Rattle.babel_prefix.specs.Address.{prefix_at};
ghost use Rattle.babel_prefix.specs.Width.{width_of};

use babel_prefix::{Addr, Prefix};
use babel_tlv::Key;
use std::marker::Model;

/// The destination and the source that are asked for, of one family.
#[derive(Clone, Copy)]
pub(crate) struct Asked {
    dst: Addr,
    src: Addr,
}

impl Model for Asked {
    ghost use Rattle.std.specs.Prelude.{◌≡◌};
    ghost use Rattle.babel_prefix.specs.Address.{Address};

    ghost Value = { Address × Address };

    ghost view = { λ a. (a.dst, a.src) };

    ghost invariant = { λ a. a.dst.family ≡ a.src.family };

    ghost inverse = { λ a. record { dst = a.0; src = a.1 } };
}

/// The prefix of this address alone.
fn alone(addr: Addr) -> Prefix
    ensures { result ≡ prefix_at (width_of addr.family) addr }
{
    Prefix::new(addr, addr.family().width()).unwrap()
}

impl Asked {
    /// These two.
    pub(crate) fn new(dst: Addr, src: Addr) -> Asked
        requires { dst.family ≡ src.family }
        ensures { result ≡ (dst, src) }
    {
        Asked { dst, src }
    }

    /// Whether both prefixes of the key contain their address.
    pub(crate) fn is_in(&self, key: &Key) -> bool
        ensures { result ≡ counts (Some self.now) key.now }
    {
        key.dst().contains(&self.dst) && key.src().contains(&self.src)
    }

    /// The key of the two alone.
    pub(crate) fn key(&self) -> Key
        ensures { result ≡ key_alone self.now }
    {
        Key::new(alone(self.dst), alone(self.src)).unwrap()
    }
}
