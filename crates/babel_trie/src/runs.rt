//! The addresses at which the answers change from one destination to the next.
ghost use Rattle.std.specs.Prelude.{◌≡◌, ℕ, ◌+◌, ◌-◌, ◌*◌, ◌^◌, ◌≤◌, length};
ghost use Rattle.std.specs.Prelude.{Option, All, IfOk, IfSome, IsSome, MatchOption, OnOk};
ghost use Rattle.babel_prefix.specs.BestRow.{AreOfFamily, HasDistinctPrefixes};
ghost use Rattle.babel_prefix.specs.Entries.{answers_in};
ghost use Rattle.babel_prefix.specs.Width.{width_of};
ghost use Rattle.babel_trie.specs.Early.{HasMoreBoxes};
ghost use Rattle.babel_trie.specs.Runs.{said_at, AreRuns, HasRuns};
ghost use Rattle.babel_trie.specs.Sound.{IsSound, KeepsNodes};
ghost use Rattle.babel_trie.specs.Spans.{start_or};
ghost use Rattle.babel_trie.specs.declared.table.Sources.{Sources};

use crate::lawful::LawfulOrd;
use crate::rows::{Rows, sorted_rows};
use crate::table::{Node, Sources, Table};
use babel_prefix::Family;
use std::alloc::{AllocError, Global};

/// What is answered for each source from this destination on.
#[derive(Copy)]
pub struct Change<F> {
    pub start: u128,
    pub sources: F,
}

impl<F: Copy> Clone for Change<F> {
    fn clone(&self) -> Result<Change<F>, AllocError> {
        Ok(*self)
    }
}

/// What is answered for a destination.
pub fn sources_of<V>(list: &[Change<Sources<V>>], dst: u128) -> &Sources<V>
    requires runs { AreRuns list.now }
    requires from_zero { start_or 1 list.now ≡ 0 }
    ensures { (none : Sources V) → result.now ≡ said_at none list.now dst }
{
    let behind = list.partition_point(|change| change.start <= dst);
    &list[behind - 1].sources
}

impl<V: LawfulOrd> Table<Option<V>> {
    /// The changes of the answers of these rows, in whatever order they stand, or `None` as soon as
    /// these are known to have more boxes than so many. Rows in order are used as they are.
    pub fn runs<R: Rows<V>>(
        &mut self,
        alloc: Global,
        family: Family,
        rows: R,
        most: u64,
    ) -> Result<Option<Vec<Change<Sources<Option<V>>>>>, AllocError>
        requires sound { IsSound ⟦<Sources<Option<V>> as Ord>⟧.cmp
            ⟦<Sources<Option<V>> as LawfulOrd>⟧.mark self.old.nodes.items self.old.numbers }
        requires family { All (AreOfFamily family) (R.rows rows) }
        requires prefixes { HasDistinctPrefixes (R.rows rows) }
        ensures sound { OnOk result (IsSound ⟦<Sources<Option<V>> as Ord>⟧.cmp
            ⟦<Sources<Option<V>> as LawfulOrd>⟧.mark self.new.nodes.items self.new.numbers) }
        ensures keeps { OnOk result (KeepsNodes self.old.nodes.items self.new.nodes.items) }
        ensures runs { IfOk result (λ runs. MatchOption runs
            (HasMoreBoxes most (width_of family) (answers_in family (R.rows rows)))
            (λ list. HasRuns (width_of family) self.new.nodes.items list.items
            (answers_in family (R.rows rows)))) }
        ensures few { IfOk result (λ runs. IfSome runs (λ list.
            length list.items ≤ 2 * length (R.rows rows) + 1)) }
        ensures all { most ≡ 2 ^ 64 - 1 → IfOk result IsSome }
    {
        if rows.are_in_order() {
            return self.table_runs(alloc, family.width(), rows, most);
        }
        let sorted = sorted_rows(alloc, rows)?;
        self.table_runs(alloc, family.width(), sorted.as_slice(), most)
    }

    /// All changes of the answers of these rows.
    pub fn all_runs<R: Rows<V>>(
        &mut self,
        alloc: Global,
        family: Family,
        rows: R,
    ) -> Result<Vec<Change<Sources<Option<V>>>>, AllocError>
        requires sound { IsSound ⟦<Sources<Option<V>> as Ord>⟧.cmp
            ⟦<Sources<Option<V>> as LawfulOrd>⟧.mark self.old.nodes.items self.old.numbers }
        requires family { All (AreOfFamily family) (R.rows rows) }
        requires prefixes { HasDistinctPrefixes (R.rows rows) }
        ensures sound { OnOk result (IsSound ⟦<Sources<Option<V>> as Ord>⟧.cmp
            ⟦<Sources<Option<V>> as LawfulOrd>⟧.mark self.new.nodes.items self.new.numbers) }
        ensures keeps { OnOk result (KeepsNodes self.old.nodes.items self.new.nodes.items) }
        ensures runs { IfOk result (λ list. HasRuns (width_of family) self.new.nodes.items
            list.items (answers_in family (R.rows rows))) }
        ensures few { IfOk result (λ list. length list.items ≤ 2 * length (R.rows rows) + 1) }
    {
        let runs = self.runs(alloc, family, rows, u64::MAX)?;
        Ok(runs.unwrap())
    }
}
