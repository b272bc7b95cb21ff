ghost use Rattle.std.specs.Prelude.{◌≡◌, ◌↔◌, IsTrue};
ghost use Rattle.std.specs.Cmp.Rules.{comparing};
ghost use Rattle.std.proofs.Common.{rules};
ghost use Rattle.babel_tlv.specs.Keys.{IsKey};
ghost use Rattle.babel_table.specs.BestMatch.{ContainsBoth, IsMoreSpecific};
ghost use Rattle.babel_table.specs.Compact.{address_in};
ghost use Rattle.babel_table.specs.Said as said;

use crate::compact_prefix::CompactPrefix;
use crate::word::Word;
use babel_prefix::Family;
use babel_tlv::Key;
use std::cmp::Ordering;
use std::marker::Model;

/// A key of the family whose addresses are kept in these words: 12 octets for IPv4, 40 for IPv6.
#[derive(Drop)]
pub struct CompactKey<W: Word> {
    dst: W,
    src: W,
    dst_len: u8,
    src_len: u8,
}

impl<W: Word> Model for CompactKey<W> {
    ghost use Rattle.babel_table.specs.Compact.{key_in};
    ghost use Rattle.babel_tlv.specs.Route.{RouteKey};
    ghost use Rattle.babel_tlv.specs.Keys.{IsKey};

    ghost Value = { RouteKey };

    ghost view = { λ k. key_in W.family (W.number k.dst) k.dst_len (W.number k.src) k.src_len };

    ghost invariant = { λ k. IsKey
        (key_in W.family (W.number k.dst) k.dst_len (W.number k.src) k.src_len) };
}

impl<W: Word> PartialEq for CompactKey<W> {
    ghost use Rattle.std.specs.Ordering.{eq_by_cmp};
    ghost use Rattle.babel_tlv.specs.Keys.{key_cmp};
    ghost use Rattle.std.specs.Cmp.{partial_equiv_from_equiv, eq_by_cmp_equiv};
    ghost use Rattle.babel_table.specs.Compact.{key_total};

    ghost eq = { eq_by_cmp key_cmp };

    ghost laws = { partial_equiv_from_equiv (eq_by_cmp_equiv key_total) };

    fn eq(&self, other: &CompactKey<W>) -> bool {
        self.cmp(other) == Ordering::Equal
    }
}

impl<W: Word> Eq for CompactKey<W> {
    ghost use Rattle.std.specs.Cmp.{eq_by_cmp_equiv};
    ghost use Rattle.babel_table.specs.Compact.{key_total};

    ghost laws = { eq_by_cmp_equiv key_total };
}

impl<W: Word> Ord for CompactKey<W> {
    ghost use Rattle.babel_tlv.specs.Keys.{key_cmp};
    ghost use Rattle.babel_table.specs.Compact.{key_total};

    ghost cmp = { key_cmp };

    ghost total = { key_total };

    ghost matches_partial_cmp = { Prim.search (comparing, rules) };

    ghost matches_eq = { Prim.search (comparing, rules) };

    fn cmp(&self, other: &CompactKey<W>) -> Ordering {
        match self.dst().order(&other.dst()) {
            Ordering::Equal => self.src().order(&other.src()),
            order => order,
        }
    }
}

impl<W: Word> PartialOrd for CompactKey<W> {
    ghost use Rattle.std.specs.Ordering.{as_partial_cmp};
    ghost use Rattle.std.specs.Cmp.{partial_order_from_own_ties, partial_order_from_total};
    ghost use Rattle.babel_tlv.specs.Keys.{key_cmp};
    ghost use Rattle.babel_table.specs.Compact.{key_total};

    ghost partial_cmp = { as_partial_cmp key_cmp };

    ghost laws = { partial_order_from_own_ties (partial_order_from_total key_total)
        (Prim.search (comparing, rules)) };

    fn partial_cmp(&self, other: &CompactKey<W>) -> Option<Ordering> {
        Some(self.cmp(other))
    }
}

impl<W: Word> CompactKey<W> {
    /// The key of the two prefixes.
    pub fn new(dst: &CompactPrefix<W>, src: &CompactPrefix<W>) -> CompactKey<W>
        ensures { result ≡ record { dst = dst.now; src = src.now } }
    {
        CompactKey {
            dst: dst.word,
            src: src.word,
            dst_len: dst.len,
            src_len: src.len,
        }
    }

    /// The same key.
    pub fn copied(&self) -> CompactKey<W>
        ensures { result ≡ self.now }
    {
        CompactKey::new(&self.dst(), &self.src())
    }

    /// The key, kept so.
    pub fn of(key: &Key) -> CompactKey<W>
        requires { key.now.dst.address.family ≡ W.family }
        ensures { result ≡ key.now }
    {
        let dst = key.dst();
        let src = key.src();
        CompactKey::new(&CompactPrefix::of(&dst), &CompactPrefix::of(&src))
    }

    /// The destination prefix.
    pub fn dst(&self) -> CompactPrefix<W>
        ensures { result ≡ self.now.dst }
    {
        CompactPrefix {
            word: self.dst,
            len: self.dst_len,
        }
    }

    /// The source prefix.
    pub fn src(&self) -> CompactPrefix<W>
        ensures { result ≡ self.now.src }
    {
        CompactPrefix {
            word: self.src,
            len: self.src_len,
        }
    }

    /// The family of its prefixes.
    pub fn family(&self) -> Family
        ensures value { result ≡ W.family }
        ensures of_key { self.now.dst.address.family ≡ W.family }
    {
        self.dst.addr().family()
    }

    /// The key that is kept.
    pub fn key(&self) -> Key
        ensures value { result ≡ self.now }
        ensures valid { IsKey self.now }
    {
        let dst = self.dst().prefix();
        let src = self.src().prefix();
        Key::new(dst, src).unwrap()
    }

    /// Whether both prefixes have their address, of the two with these bits.
    pub fn contains(&self, dst: W, src: W) -> bool
        ensures { IsTrue result ↔ ContainsBoth (address_in W.family (W.number dst))
            (address_in W.family (W.number src)) self.now }
    {
        self.dst().contains(dst) && self.src().contains(src)
    }

    /// Whether the destination prefix is longer, or is as long and the source prefix is longer.
    pub fn is_more_specific(&self, other: &CompactKey<W>) -> bool
        ensures { IsTrue result ↔ IsMoreSpecific self.now other.now }
    {
        self.dst_len > other.dst_len
            || (self.dst_len == other.dst_len && self.src_len > other.src_len)
    }

    /// 32 bits, each of which any bit of the key may change, in a way that only the seed tells.
    pub fn tag(&self, seed: u128) -> u32
        ensures { result ≡ said.tag_of seed self.now }
    {
        let lens = u64::from(self.dst_len) * 256 + u64::from(self.src_len);
        let dst = self.dst.fold(seed).wrapping_add(lens);
        (mixed(seed, dst, self.src.fold(seed)) >> 32) as u32
    }
}

/// Two numbers as one: each with a half of the seed, multiplied.
pub(crate) fn mixed(seed: u128, one: u64, other: u64) -> u64
    ensures { result ≡ said.mixed seed one other }
{
    let high = (seed >> 64) as u64 ^ one;
    let low = (seed % (1 << 64)) as u64 ^ other;
    let product = u128::from(high).wrapping_mul(u128::from(low));
    (product >> 64) as u64 ^ (product % (1 << 64)) as u64
}
