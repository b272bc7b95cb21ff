//! Where two lists of changes first answer differently.
ghost use Rattle.std.specs.Prelude.{◌≡◌, ℕ, ◌^◌, ◌<◌, ◌≤◌, IfSome, MatchOption, Option};
ghost use Rattle.babel_prefix.specs.Width.{width_of};
ghost use Rattle.babel_trie.specs.Boxes.{Answers, SameAnswers, IsLeastDifference};
ghost use Rattle.babel_trie.specs.Differs.{IsFirstPair};
ghost use Rattle.babel_trie.specs.Runs.{said_at, AreRuns, StartAfter, StartFrom, HasRuns};

use crate::difference::Tables;
use crate::fit::last_address;
use crate::lawful::LawfulOrd;
use crate::runs::Change;
use crate::table::{Sources, Table};
use babel_prefix::{Addr, Family};

/// The changes after an address, and what is said there.
pub fn behind<V: Copy>(
    list: &[Change<Sources<V>>],
    at: u128,
    before: Sources<V>,
) -> (&[Change<Sources<V>>], Sources<V>)
    requires runs { AreRuns list.now }
    requires from { StartFrom at list.now }
    ensures runs { AreRuns result.0.now }
    ensures behind { StartAfter at result.0.now }
    ensures same { (d : ℕ) → at ≤ d → said_at result.1 result.0.now d ≡ said_at before list.now d }
{
    if list.is_empty() {
        return (list, before);
    }
    let change = list[0];
    if at < change.start {
        return (list, before);
    }
    (&list[1..], change.sources)
}

/// The last address before the next change.
pub fn last_before<V>(list: &[Change<Sources<V>>], at: u128) -> u128
    requires runs { AreRuns list.now }
    requires behind { StartAfter at list.now }
    ensures from { at ≤ result }
    ensures behind { StartAfter result list.now }
{
    if list.is_empty() {
        return u128::MAX;
    }
    list[0].start - 1
}

/// The lesser of two addresses.
pub fn nearer(end: u128, other: u128) -> u128
    ensures first { result ≤ end }
    ensures second { result ≤ other }
    ensures from { (at : ℕ) → at ≤ end → at ≤ other → at ≤ result }
{
    if end < other { end } else { other }
}

impl<V: LawfulOrd> Table<Option<V>> {
    /// The first destination that two lists of changes answer differently, and for it the first
    /// source.
    fn first_pair(
        &self,
        left: &[Change<Sources<Option<V>>>],
        other: &Table<Option<V>>,
        right: &[Change<Sources<Option<V>>>],
        width: u8,
    ) -> Option<(u128, u128)>
        requires left { (f : Answers V) × HasRuns width self.now.nodes.items left.now f }
        requires right { (g : Answers V) × HasRuns width other.now.nodes.items right.now g }
        requires width { width ≤ 128 }
        ensures { (f g : Answers V) → HasRuns width self.now.nodes.items left.now f
            → HasRuns width other.now.nodes.items right.now g
            → IsFirstPair (2 ^ width) (2 ^ width) f g result }
    {
        let last = last_address(0, width);
        let (mut lefts, mut rights) = (left, right);
        let (mut here, mut there) = (left[0].sources, right[0].sources);
        let mut at = 0u128;
        loop {
            let (rest, says) = behind(lefts, at, here);
            let (other_rest, other_says) = behind(rights, at, there);
            if let Some(src) = self.first_difference(says, other, other_says, Tables::Two, width) {
                return Some((at, src));
            }
            let end = nearer(last_before(rest, at), last_before(other_rest, at));
            if last <= end {
                return None;
            }
            at = end + 1;
            (lefts, rights) = (rest, other_rest);
            (here, there) = (says, other_says);
        }
    }

    /// The least pair of a destination and a source of the family, by destination, then source,
    /// that two lists of changes answer differently; `None` if there is none.
    pub fn least_difference(
        &self,
        left: &[Change<Sources<Option<V>>>],
        other: &Table<Option<V>>,
        right: &[Change<Sources<Option<V>>>],
        family: Family,
    ) -> Option<(Addr, Addr)>
        requires left { (f : Answers V)
            × HasRuns (width_of family) self.now.nodes.items left.now f }
        requires right { (g : Answers V)
            × HasRuns (width_of family) other.now.nodes.items right.now g }
        ensures family { IfSome result (λ p. (p.0.family ≡ family) × (p.1.family ≡ family)) }
        ensures least { (f g : Answers V)
            → HasRuns (width_of family) self.now.nodes.items left.now f
            → HasRuns (width_of family) other.now.nodes.items right.now g
            → MatchOption result (SameAnswers (width_of family) f g)
            (λ p. IsLeastDifference (width_of family) f g p.0.bits p.1.bits) }
    {
        let (dst, src) = self.first_pair(left, other, right, family.width())?;
        let dst = Addr::new(family, dst).unwrap();
        let src = Addr::new(family, src).unwrap();
        Some((dst, src))
    }
}
