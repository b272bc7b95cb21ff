//! Where two tries first differ.
ghost use Rattle.std.specs.Prelude.{◌≡◌, ℕ, ◌+◌, ◌-◌, ◌^◌, ◌<◌, ◌≤◌, List, IsTrue, IfSome, IfNone};
ghost use Rattle.babel_trie.specs.Differs.{IsFirstDifference};
ghost use Rattle.babel_trie.specs.Interned.{Stands, IsTrie, Represents, HasTrie};
ghost use Rattle.babel_trie.specs.Shape.{Shape, value_at};
ghost use Rattle.babel_trie.specs.declared.difference.Tables.TheVariants.{One};
ghost use Rattle.babel_trie.specs.declared.table.Node.{Node};
ghost use Rattle.babel_trie.specs.declared.table.Loose.TheVariants.{Same};

use crate::lawful::{LawfulOrd, are_same};
use crate::table::{Loose, Node, Sources, Table};

/// Whether two tries that are compared have their nodes in one table, in which equal tries have
/// equal sources.
#[derive(Clone, Copy)]
pub enum Tables {
    One,
    Two,
}

impl Tables {
    /// Whether the two are known to stand for one trie.
    fn are_one_trie<V: LawfulOrd>(self, whole: Loose<V>, other: Loose<V>) -> bool
        ensures one { IsTrue result → self ≡ One }
        ensures same { IsTrue result → whole ≡ other }
    {
        match self {
            Tables::One => are_one(&whole, &other),
            Tables::Two => false,
        }
    }
}

/// An address of the upper half of a block, counted from the block's start.
fn in_upper_half(at: u128, bits: u8) -> u128
    requires some { 0 < bits }
    requires width { bits ≤ 128 }
    requires room { 2 ^ (bits - 1) + at < 2 ^ 128 }
    ensures { result ≡ 2 ^ (bits - 1) + at }
{
    (1 << (bits - 1)) + at
}

/// Whether the two are one.
pub fn are_one<V: LawfulOrd>(whole: &Loose<V>, other: &Loose<V>) -> bool
    ensures { IsTrue result → whole.now ≡ other.now }
{
    match (whole, other) {
        (Loose::Same(value), Loose::Same(other)) => are_same(*value, *other),
        (Loose::Split(node), Loose::Split(other)) => are_same(*node, *other),
        _ => false,
    }
}

/// The two values, where both are one value for all sources.
pub fn both_same<V: Copy>(whole: &Loose<V>, other: &Loose<V>) -> Option<(V, V)>
    ensures constants { IfSome result (λ p. (whole.now ≡ Same p.0) × (other.now ≡ Same p.1)) }
    ensures fork { IfNone result ((bits : ℕ) (nodes others : List (Node V))
        → IsTrie bits nodes whole.now → IsTrie bits others other.now → 0 < bits) }
{
    match (whole, other) {
        (Loose::Same(left), Loose::Same(right)) => Some((*left, *right)),
        _ => None,
    }
}

impl<V: LawfulOrd> Table<V> {
    /// The lowest address of a block, counted from its start, at which two tries have different
    /// values.
    fn first_apart(
        &self,
        whole: Loose<V>,
        other: &Table<V>,
        other_whole: Loose<V>,
        tables: Tables,
        bits: u8,
    ) -> Option<u128>
        requires trie { IsTrie bits self.now.nodes.items whole }
        requires other_trie { IsTrie bits other.now.nodes.items other_whole }
        requires one { tables ≡ One → self.now.nodes.items ≡ other.now.nodes.items }
        requires width { bits ≤ 128 }
        ensures { (t u : Shape V) → Stands self.now.nodes.items whole t
            → Stands other.now.nodes.items other_whole u
            → IsFirstDifference (2 ^ bits) (value_at t bits) (value_at u bits) result }
    {
        if tables.are_one_trie(whole, other_whole) {
            return None;
        }
        if let Some((left, right)) = both_same(&whole, &other_whole) {
            return if are_same(left, right) { None } else { Some(0) };
        }
        let (low, high) = self.halves(whole);
        let (other_low, other_high) = other.halves(other_whole);
        if let Some(at) = self.first_apart(low, other, other_low, tables, bits - 1) {
            return Some(at);
        }
        let at = self.first_apart(high, other, other_high, tables, bits - 1)?;
        Some(in_upper_half(at, bits))
    }

    /// The lowest address at which two tries have different values.
    pub fn first_difference(
        &self,
        sources: Sources<V>,
        other: &Table<V>,
        other_sources: Sources<V>,
        tables: Tables,
        bits: u8,
    ) -> Option<u128>
        requires trie { HasTrie bits self.now.nodes.items sources }
        requires other_trie { HasTrie bits other.now.nodes.items other_sources }
        requires one { tables ≡ One → self.now.nodes.items ≡ other.now.nodes.items }
        requires width { bits ≤ 128 }
        ensures { (t u : Shape V) → Represents self.now.nodes.items sources t
            → Represents other.now.nodes.items other_sources u
            → IsFirstDifference (2 ^ bits) (value_at t bits) (value_at u bits) result }
    {
        self.first_apart(
            self.opened(sources),
            other,
            other.opened(other_sources),
            tables,
            bits,
        )
    }
}
