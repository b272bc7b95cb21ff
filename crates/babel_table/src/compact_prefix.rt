ghost use Rattle.std.specs.Prelude.{◌≡◌, ◌↔◌, IsTrue};
ghost use Rattle.babel_prefix.specs.Covers.{Covers};
ghost use Rattle.babel_prefix.specs.Order.{prefix_cmp};
ghost use Rattle.babel_prefix.specs.Width.{width_of};
ghost use Rattle.babel_table.specs.Compact.{address_in};

use crate::word::Word;
use babel_prefix::{Addr, Prefix};
use std::cmp::Ordering;
use std::marker::Model;

/// A prefix of the family whose addresses are kept in these words.
#[derive(Drop)]
pub struct CompactPrefix<W: Word> {
    pub word: W,
    pub len: u8,
}

impl<W: Word> Model for CompactPrefix<W> {
    ghost use Rattle.babel_prefix.specs.Address.{AddressPrefix};
    ghost use Rattle.babel_prefix.specs.Covers.{IsAddressPrefix};
    ghost use Rattle.babel_table.specs.Compact.{prefix_in};

    ghost Value = { AddressPrefix };

    ghost view = { λ p. prefix_in W.family (W.number p.word) p.len };

    ghost invariant = { λ p. IsAddressPrefix (prefix_in W.family (W.number p.word) p.len) };
}

impl<W: Word> PartialEq for CompactPrefix<W> {
    ghost use Rattle.std.specs.Ordering.{eq_by_cmp};
    ghost use Rattle.std.specs.Cmp.{partial_equiv_from_equiv, eq_by_cmp_equiv};
    ghost use Rattle.babel_prefix.specs.TotalOrder.{prefix_total};

    ghost eq = { eq_by_cmp prefix_cmp };

    ghost laws = { partial_equiv_from_equiv (eq_by_cmp_equiv prefix_total) };

    fn eq(&self, other: &CompactPrefix<W>) -> bool {
        self.order(other) == Ordering::Equal
    }
}

impl<W: Word> CompactPrefix<W> {
    /// The order of the two, which is that of the prefixes.
    pub fn order(&self, other: &CompactPrefix<W>) -> Ordering
        ensures { result ≡ prefix_cmp self.now other.now }
    {
        self.word.order(self.len, other.word, other.len)
    }

    /// The prefix, kept so.
    pub fn of(prefix: &Prefix) -> CompactPrefix<W>
        requires { prefix.now.address.family ≡ W.family }
        ensures { result ≡ prefix.now }
    {
        let addr = prefix.addr();
        CompactPrefix {
            word: W::of(addr),
            len: prefix.len(),
        }
    }

    /// The prefix that has this address alone.
    pub fn host(addr: &Addr) -> CompactPrefix<W>
        requires { addr.now.family ≡ W.family }
        ensures { result ≡ record { address = addr.now; len = width_of addr.now.family } }
    {
        let prefix = Prefix::new(*addr, addr.family().width()).unwrap();
        CompactPrefix::of(&prefix)
    }

    /// The prefix that is kept.
    pub fn prefix(&self) -> Prefix
        ensures { result ≡ self.now }
    {
        Prefix::new(self.word.addr(), self.len).unwrap()
    }

    /// Whether the prefix has the address of its family with these bits.
    pub fn contains(&self, addr: W) -> bool
        ensures { IsTrue result ↔ Covers self.now (address_in W.family (W.number addr)) }
    {
        addr.agrees(self.word, self.len)
    }

    /// Whether the prefix has the other's first address.
    pub fn has_start_of(&self, other: &CompactPrefix<W>) -> bool
        ensures { IsTrue result ↔ Covers self.now other.now.address }
    {
        self.contains(other.word)
    }
}
