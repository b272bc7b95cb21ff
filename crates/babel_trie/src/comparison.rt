//! What two lists of rows answer differently, as a list of changes.
ghost use Rattle.std.specs.Prelude.{◌≡◌, ℕ, ◌-◌, ◌^◌, ◌<◌, ◌≤◌, List, length, map, true, Option};
ghost use Rattle.std.specs.Prelude.{IfOk, IsSome, MatchOption, OnOk};
ghost use Rattle.babel_prefix.specs.Best.{Row, answer};
ghost use Rattle.babel_prefix.specs.BestRow.{IsTable};
ghost use Rattle.babel_prefix.specs.Entries.{row_of};
ghost use Rattle.babel_trie.specs.Boxes.{Answers, IsBoxList};
ghost use Rattle.babel_trie.specs.Early.{AgreeUpTo, HasMoreDifferences};
ghost use Rattle.babel_trie.specs.Held.{RowOrder};
ghost use Rattle.babel_trie.specs.Interned.{IsTrie, HasTrie, IsNormalLoose};
ghost use Rattle.babel_trie.specs.Rows.{InOrder};
ghost use Rattle.babel_trie.specs.Runs.{HasRuns};
ghost use Rattle.babel_trie.specs.Sound.{IsSound, KeepsNodes};
ghost use Rattle.babel_trie.specs.Told.{IsTold, AreTold, HasDifference};

use crate::difference::{are_one, both_same};
use crate::differing::{Differing, told_apart};
use crate::lawful::LawfulOrd;
use crate::least::reach_both;
use crate::pass::{Pass, say};
use crate::rows::Rows;
use crate::runs::Change;
use crate::table::{Loose, Sources, Table};
use std::alloc::{AllocError, Global};

/// What tries of one table tell apart, as tries of another table.
#[derive(Drop)]
pub struct Comparison<V: Ord> {
    differences: Table<Option<Differing<V>>>,
    /// How many tries have been compared, at blocks of any size.
    compared: u64,
    /// How many will have been when boxes are counted next.
    due: u64,
}

impl<V: LawfulOrd> Comparison<V> {
    pub fn new(alloc: Global) -> Comparison<V>
        ensures sound { IsSound ⟦<Sources<Option<Differing<V>>> as Ord>⟧.cmp
            ⟦<Sources<Option<Differing<V>>> as LawfulOrd>⟧.mark
            result.differences.nodes.items result.differences.numbers }
    {
        Comparison {
            differences: Table::new(alloc),
            compared: 0,
            due: 0,
        }
    }

    /// The table of the tries that tell others apart.
    pub fn into_differences(self) -> Table<Option<Differing<V>>>
        ensures { result ≡ self.differences }
    {
        self.differences
    }

    /// The trie of what two tries of a table tell apart. Two that are one are not gone into: so
    /// there is a difference in each block that is, and the cost goes with what is told.
    fn told(
        &mut self,
        table: &Table<Option<V>>,
        left: &Loose<Option<V>>,
        right: &Loose<Option<V>>,
        bits: u8,
    ) -> Result<Loose<Option<Differing<V>>>, AllocError>
        requires sound { IsSound ⟦<Sources<Option<Differing<V>>> as Ord>⟧.cmp
            ⟦<Sources<Option<Differing<V>>> as LawfulOrd>⟧.mark
            self.old.differences.nodes.items self.old.differences.numbers }
        requires left { IsTrie bits table.now.nodes.items left.now }
        requires right { IsTrie bits table.now.nodes.items right.now }
        requires width { bits ≤ 128 }
        ensures sound { OnOk result (IsSound ⟦<Sources<Option<Differing<V>>> as Ord>⟧.cmp
            ⟦<Sources<Option<Differing<V>>> as LawfulOrd>⟧.mark
            self.new.differences.nodes.items self.new.differences.numbers) }
        ensures keeps { OnOk result (KeepsNodes self.old.differences.nodes.items
            self.new.differences.nodes.items) }
        ensures normal { IfOk result (IsNormalLoose self.new.differences.nodes.items) }
        ensures told { IfOk result (IsTold table.now.nodes.items left.now right.now
            self.new.differences.nodes.items) }
    {
        self.compared = self.compared.saturating_add(1);
        if are_one(left, right) {
            return Ok(Loose::Same(None));
        }
        if let Some((value, other)) = both_same(left, right) {
            return Ok(Loose::Same(told_apart(value, other)));
        }
        let (left_low, left_high) = table.halves(*left);
        let (right_low, right_high) = table.halves(*right);
        let low = self.told(table, &left_low, &right_low, bits - 1)?;
        let high = self.told(table, &left_high, &right_high, bits - 1)?;
        let mut whole = Loose::Same(None);
        self.differences.join(&low, &high, &mut whole)?;
        Ok(whole)
    }

    /// The sources that stand for what two sources of a table tell apart.
    fn told_sources(
        &mut self,
        table: &Table<Option<V>>,
        left: Sources<Option<V>>,
        right: Sources<Option<V>>,
        bits: u8,
    ) -> Result<Sources<Option<Differing<V>>>, AllocError>
        requires sound { IsSound ⟦<Sources<Option<Differing<V>>> as Ord>⟧.cmp
            ⟦<Sources<Option<Differing<V>>> as LawfulOrd>⟧.mark
            self.old.differences.nodes.items self.old.differences.numbers }
        requires left { HasTrie bits table.now.nodes.items left }
        requires right { HasTrie bits table.now.nodes.items right }
        requires width { bits ≤ 128 }
        ensures sound { OnOk result (IsSound ⟦<Sources<Option<Differing<V>>> as Ord>⟧.cmp
            ⟦<Sources<Option<Differing<V>>> as LawfulOrd>⟧.mark
            self.new.differences.nodes.items self.new.differences.numbers) }
        ensures keeps { OnOk result (KeepsNodes self.old.differences.nodes.items
            self.new.differences.nodes.items) }
        ensures told { IfOk result (AreTold table.now.nodes.items left right
            self.new.differences.nodes.items) }
    {
        let told = self.told(table, &table.opened(left), &table.opened(right), bits)?;
        let sources = self.differences.stored(&told)?;
        Ok(sources)
    }

    /// Whether a list of changes is known to have more boxes than so many. They are counted each
    /// time that a quarter more tries have been compared: all counts together cost no more than the
    /// comparisons.
    fn has_more(
        &mut self,
        alloc: Global,
        list: &[Change<Sources<Option<Differing<V>>>>],
        most: u64,
    ) -> Result<bool, AllocError>
        requires sound { IsSound ⟦<Sources<Option<Differing<V>>> as Ord>⟧.cmp
            ⟦<Sources<Option<Differing<V>>> as LawfulOrd>⟧.mark
            self.old.differences.nodes.items self.old.differences.numbers }
        requires runs { (w : ℕ) × (g : Answers (Differing V))
            × HasRuns w self.old.differences.nodes.items list.now g }
        ensures same { OnOk result (self.new.differences ≡ self.old.differences) }
        ensures more { IfOk result (λ more. more ≡ true → (w : ℕ) (f g : Answers (Differing V))
            (boxes : List (Row (Differing V)))
            → HasRuns w self.old.differences.nodes.items list.now g → AgreeUpTo w list.now f g
            → IsBoxList w f boxes → most < length boxes) }
        ensures any { most ≡ 2 ^ 64 - 1 → IfOk result (λ more. more ≡ true → ⊥) }
    {
        if self.compared < self.due {
            return Ok(false);
        }
        self.due = self.compared.saturating_add(self.compared / 4);
        let count = self.differences.early_count(alloc, list)?;
        Ok(count > most)
    }

    /// The changes of what two lists of rows in order answer differently, or `None` as soon as
    /// these are known to have more boxes than so many. Both are walked side by side.
    pub fn runs<L: Rows<V>, R: Rows<V>>(
        &mut self,
        alloc: Global,
        width: u8,
        left: L,
        right: R,
        most: u64,
    ) -> Result<Option<Vec<Change<Sources<Option<Differing<V>>>>>>, AllocError>
        requires sound { IsSound ⟦<Sources<Option<Differing<V>>> as Ord>⟧.cmp
            ⟦<Sources<Option<Differing<V>>> as LawfulOrd>⟧.mark
            self.old.differences.nodes.items self.old.differences.numbers }
        requires left_order { InOrder RowOrder (L.rows left) }
        requires left_table { IsTable width (map row_of (L.rows left)) }
        requires right_order { InOrder RowOrder (R.rows right) }
        requires right_table { IsTable width (map row_of (R.rows right)) }
        requires width { width ≤ 128 }
        ensures sound { OnOk result (IsSound ⟦<Sources<Option<Differing<V>>> as Ord>⟧.cmp
            ⟦<Sources<Option<Differing<V>>> as LawfulOrd>⟧.mark
            self.new.differences.nodes.items self.new.differences.numbers) }
        ensures difference { let f = answer width (map row_of (L.rows left)) in
            let g = answer width (map row_of (R.rows right)) in
            IfOk result (λ runs. MatchOption runs (HasMoreDifferences most width f g)
            (λ list. HasDifference width f g self.new.differences.nodes.items list.items)) }
        ensures all { most ≡ 2 ^ 64 - 1 → IfOk result IsSome }
    {
        let mut table = Table::new(alloc);
        let mut pass = Pass::new(alloc, left);
        let mut other = Pass::new(alloc, right);
        let mut list = Vec::new(alloc);
        let mut at = 0u128;
        loop {
            let next = reach_both(&mut table, &mut pass, &mut other, width, at)?;
            let (here, there) = (pass.sources(), other.sources());
            let sources = self.told_sources(&table, here, there, width)?;
            say(&mut list, Change { start: at, sources })?;
            let Some(start) = next else {
                return Ok(Some(list));
            };
            if self.has_more(alloc, &list, most)? {
                return Ok(None);
            }
            at = start;
        }
    }
}
