//! The addresses at which the answers change from one destination to the next, found in one pass
//! over sorted rows.
ghost use Rattle.std.specs.Prelude.{◌≡◌, ◌≢◌, ◌↔◌, ◌⊎◌, ℕ, ◌+◌, ◌-◌, ◌*◌, ◌^◌, ◌<◌, ◌≤◌, ◌∷◌};
ghost use Rattle.std.specs.Prelude.{◌++◌};
ghost use Rattle.std.specs.Prelude.{List, map, length, take, reverse, slice_get, Option, Some};
ghost use Rattle.std.specs.Prelude.{true, false, IfOk, IfSome, IsSome, MatchOption, OnOk};
ghost use Rattle.babel_prefix.specs.Address.{block_of};
ghost use Rattle.babel_prefix.specs.Best.{answer};
ghost use Rattle.babel_prefix.specs.BestRow.{IsTable};
ghost use Rattle.babel_prefix.specs.Entries.{Entry, row_of};
ghost use Rattle.babel_prefix.specs.Members.{Listed};
ghost use Rattle.babel_trie.specs.Early.{HasMoreBoxes};
ghost use Rattle.babel_trie.specs.Held.{RowOrder};
ghost use Rattle.babel_trie.specs.Pass.{IsFilled, StartInOrder, IsPassOver, IsQuietUpTo};
ghost use Rattle.babel_trie.specs.Pass.{StartRowsFrom, ahead_of, changes_left, rows_left};
ghost use Rattle.babel_trie.specs.Split.{rows_of_split};
ghost use Rattle.babel_trie.specs.Rows.{InOrder};
ghost use Rattle.babel_trie.specs.Runs.{AreRuns, StartBelow, StartAfter, HasRuns};
ghost use Rattle.babel_trie.specs.Sound.{IsSound, KeepsNodes};
ghost use Rattle.babel_trie.specs.declared.runs.Change.{Change};
ghost use Rattle.babel_trie.specs.declared.table.Node.{Node};
ghost use Rattle.babel_trie.specs.declared.table.Sources.{Sources};
ghost use Rattle.babel_trie.specs.declared.table.Sources.TheVariants.{Constant, Stored};

use crate::fit::last_address;
use crate::lawful::{LawfulOrd, are_same};
use crate::rows::{Row, Rows};
use crate::runs::Change;
use crate::table::{FEW_NODES, Node, Sources, Table};
use std::alloc::{AllocError, Global};

/// How many changes there are when their boxes are counted for the first time: never so many, where
/// there may be any number of boxes.
fn first_due(most: u64) -> usize
    ensures { 0 < result }
{
    if most == u64::MAX { usize::MAX } else { 2 }
}

/// Whether the last change is to these answers.
fn ends_with<F: LawfulOrd>(list: &[Change<F>], sources: F) -> bool
    ensures same { result ≡ true
        → (x : Change F) × (slice_get list.now (length list.now - 1) ≡ Some x)
        × (x.sources ≡ sources) }
    ensures other { result ≡ false → (x : Change F)
        → slice_get list.now (length list.now - 1) ≡ Some x → x.sources ≢ sources }
{
    let Some(last) = list.last() else {
        return false;
    };
    are_same(last.sources, sources)
}

/// Says what is answered from an address on, after all that was said.
pub fn say<F: LawfulOrd>(out: &mut Vec<Change<F>>, change: Change<F>) -> Result<(), AllocError>
    requires runs { AreRuns out.old.items }
    requires below { StartBelow change.start out.old.items }
    ensures filled { OnOk result ((to : ℕ) → change.start < to
        → IsFilled change.start to change.sources out.old.items out.new.items) }
    ensures one { OnOk result (length out.new.items ≤ length out.old.items + 1) }
{
    if ends_with(out, change.sources) {
        return Ok(());
    }
    out.push(change)?;
    Ok(())
}

/// Copies the rows of the destination of the first row, and answers the rows after them, split.
/// Each row is asked for once.
fn first_destination<V: Copy, R: Rows<V>>(
    first: Row<V>,
    behind: R,
    own: &mut Vec<Row<V>>,
) -> Result<Option<(Row<V>, R)>, AllocError>
    ensures parts { IfOk result (λ others. first ∷ R.rows behind
        ≡ own.new.items ++ rows_of_split R.rows others) }
    ensures some { OnOk result (0 < length own.new.items) }
    ensures one { OnOk result ((x : _) → Listed own.new.items x
        → block_of x.0 ≡ block_of first.0) }
{
    own.clear();
    own.push(first)?;
    let mut others = behind.split();
    while let Some((row, behind)) = &others {
        if row.0 != first.0 {
            break;
        }
        own.push(*row)?;
        others = behind.split();
    }
    Ok(others)
}

/// What a pass comes to: a trie of sources, and how many nodes at the front of the table are enough
/// for it and for each that comes again after a block which is open there.
#[derive(Copy)]
pub struct Reached<V> {
    trie: Sources<Option<V>>,
    made: usize,
}

impl<V: Copy> Clone for Reached<V> {
    fn clone(&self) -> Result<Reached<V>, AllocError> {
        Ok(*self)
    }
}

/// A pass over rows in order: the change come to, the changes back after the blocks that are open,
/// of which the last comes next, and the rows of which no block was come to.
#[derive(Drop)]
pub struct Pass<V, R> {
    now: Change<Reached<V>>,
    ahead: Vec<Change<Reached<V>>>,
    rest: Option<(Row<V>, R)>,
    own: Vec<Row<V>>,
}

/// Where the nearest of the changes ahead starts, which is the last of them.
fn last_start<F: Copy>(ahead: &[Change<F>]) -> Option<u128>
    requires { StartInOrder (reverse ahead.now) }
    ensures nearest { (at : ℕ) → StartAfter at (reverse ahead.now)
        ↔ IfSome result (λ start. at < start) }
    ensures one { IfSome result (λ start. (x : Change F) × Listed (reverse ahead.now) x
        × (x.start ≡ start)) }
{
    let next = ahead.last()?;
    Some(next.start)
}

/// Where the destination of the first of rows in order starts.
pub fn first_start<V: Copy, R: Rows<V>>(split: Option<(Row<V>, R)>) -> Option<u128>
    requires { InOrder RowOrder (rows_of_split R.rows split) }
    ensures first { (at : ℕ) → ((row : Entry V) → Listed (rows_of_split R.rows split) row
        → at < (block_of row.0).start) ↔ IfSome result (λ start. at < start) }
    ensures one { IfSome result (λ start. (row : Entry V)
        × Listed (rows_of_split R.rows split) row × ((block_of row.0).start ≡ start)) }
{
    let (first, _) = split?;
    Some(first.0.addr().bits())
}

/// The nearer of where two changes start, if they come.
pub fn nearer_start(back: Option<u128>, row: Option<u128>) -> Option<u128>
    ensures behind { (at : ℕ) → IfSome result (λ start. at < start)
        ↔ (IfSome back (λ start. at < start) × IfSome row (λ start. at < start)) }
    ensures within { (end : ℕ) → IfSome back (λ start. start < end)
        → IfSome row (λ start. start < end) → IfSome result (λ start. start < end) }
{
    match (back, row) {
        (Some(back), Some(row)) => Some(back.min(row)),
        (Some(back), None) => Some(back),
        (None, row) => row,
    }
}

impl<V: LawfulOrd, R: Rows<V>> Pass<V, R> {
    /// A pass at the first address, before all rows.
    pub fn new(alloc: Global, rows: R) -> Pass<V, R>
        ensures start { result.now.start ≡ 0 }
        ensures pass { (width : ℕ) (nodes : List (Node (Option V)))
            → InOrder RowOrder (R.rows rows) → IsTable width (map row_of (R.rows rows))
            → IsPassOver width R.rows (R.rows rows) nodes result }
        ensures few { changes_left R.rows result ≡ 2 * length (R.rows rows) }
    {
        Pass {
            now: Change {
                start: 0,
                sources: Reached {
                    trie: Sources::Constant(None),
                    made: 0,
                },
            },
            ahead: Vec::new(alloc),
            rest: rows.split(),
            own: Vec::new(alloc),
        }
    }

    /// What is answered where the pass has come to.
    pub fn sources(&self) -> Sources<Option<V>>
        ensures { result ≡ self.entry.now.now.sources.trie }
    {
        self.now.sources.trie
    }

    /// So many nodes at the front of the table are enough for all that it comes to without a new
    /// row.
    pub fn made(&self) -> usize
        ensures enough { (width len : ℕ) (rows : List (Entry V)) (nodes : List (Node (Option V)))
            → result ≤ len → IsPassOver width R.rows rows nodes self.entry.now
            → IsPassOver width R.rows rows (take len nodes) self.entry.now }
    {
        self.now.sources.made
    }

    /// Where the next change comes, if one does.
    fn next_start(&self) -> Option<u128>
        requires pass { (width : ℕ) × (rows : List (Entry V)) × (nodes : List (Node (Option V)))
            × IsPassOver width R.rows rows nodes self.now }
        ensures next { (at : ℕ) → IsQuietUpTo at R.rows self.entry.now
            ↔ IfSome result (λ next. at < next) }
        ensures within { (width : ℕ) (rows : List (Entry V)) (nodes : List (Node (Option V)))
            → IsPassOver width R.rows rows nodes self.entry.now
            → IfSome result (λ next. next < 2 ^ width) }
    {
        nearer_start(last_start(&self.ahead), first_start(self.rest))
    }

    /// Comes to each change back up to an address.
    pub fn leave(&mut self, at: u128)
        requires pass { (width : ℕ) × (rows : List (Entry V)) × (nodes : List (Node (Option V)))
            × IsPassOver width R.rows rows nodes self.old }
        requires order { self.old.now.start ≤ at }
        requires rows { StartRowsFrom at (rows_left R.rows self.old) }
        ensures pass { (width : ℕ) (rows : List (Entry V)) (nodes : List (Node (Option V)))
            → IsPassOver width R.rows rows nodes self.old
            → IsPassOver width R.rows rows nodes self.new }
        ensures reached { self.new.now.start ≤ at }
        ensures behind { StartAfter at (ahead_of self.new) }
        ensures rest { self.new.rest ≡ self.old.rest }
        ensures few { length self.new.ahead.items ≤ length self.old.ahead.items }
        ensures fewer { (StartAfter at (ahead_of self.old) → ⊥)
            → length self.new.ahead.items < length self.old.ahead.items }
    {
        while let Some(next) = self.ahead.last() {
            let next = *next;
            if at < next.start {
                break;
            }
            let _ = self.ahead.pop();
            self.now = next;
        }
    }

    /// Comes to the destination of the first of the rows that are left; after its block, if that
    /// does not end with the last address, come the sources of now again.
    fn enter(
        &mut self,
        table: &mut Table<Option<V>>,
        width: u8,
        first: Row<V>,
        behind: R,
    ) -> Result<(), AllocError>
        requires sound { IsSound ⟦<Sources<Option<V>> as Ord>⟧.cmp
            ⟦<Sources<Option<V>> as LawfulOrd>⟧.mark table.old.nodes.items table.old.numbers }
        requires pass { (rows : List (Entry V))
            × IsPassOver width R.rows rows table.old.nodes.items self.old }
        requires next { self.old.rest ≡ Some (first, behind) }
        requires reached { StartAfter (block_of first.0).start (ahead_of self.old) }
        requires width { width ≤ 128 }
        ensures sound { OnOk result (IsSound ⟦<Sources<Option<V>> as Ord>⟧.cmp
            ⟦<Sources<Option<V>> as LawfulOrd>⟧.mark table.new.nodes.items table.new.numbers) }
        ensures keeps { OnOk result (KeepsNodes table.old.nodes.items table.new.nodes.items) }
        ensures pass { OnOk result ((rows : List (Entry V))
            → IsPassOver width R.rows rows table.old.nodes.items self.old
            → IsPassOver width R.rows rows table.new.nodes.items self.new) }
        ensures start { OnOk result (self.new.now.start ≡ (block_of first.0).start) }
        ensures fewer { OnOk result (changes_left R.rows self.new < changes_left R.rows self.old) }
        ensures rows { OnOk result (length (rows_left R.rows self.new)
            < length (rows_left R.rows self.old)) }
    {
        let others = first_destination(first, behind, &mut self.own)?;
        let start = first.0.addr().bits();
        let end = last_address(start, width - first.0.len());
        let trie = table.overlaid(&self.own, width, self.now.sources.trie)?;
        let made = table.nodes().len();
        if end < last_address(0, width) {
            self.ahead.push(Change {
                start: end + 1,
                sources: self.now.sources,
            })?;
        }
        self.now = Change {
            start,
            sources: Reached { trie, made },
        };
        self.rest = others;
        Ok(())
    }

    /// Comes to each change up to an address, and answers where the next one comes.
    pub fn reach(
        &mut self,
        table: &mut Table<Option<V>>,
        width: u8,
        at: u128,
    ) -> Result<Option<u128>, AllocError>
        requires sound { IsSound ⟦<Sources<Option<V>> as Ord>⟧.cmp
            ⟦<Sources<Option<V>> as LawfulOrd>⟧.mark table.old.nodes.items table.old.numbers }
        requires pass { (rows : List (Entry V))
            × IsPassOver width R.rows rows table.old.nodes.items self.old }
        requires order { self.old.now.start ≤ at }
        requires width { width ≤ 128 }
        ensures sound { OnOk result (IsSound ⟦<Sources<Option<V>> as Ord>⟧.cmp
            ⟦<Sources<Option<V>> as LawfulOrd>⟧.mark table.new.nodes.items table.new.numbers) }
        ensures keeps { OnOk result (KeepsNodes table.old.nodes.items table.new.nodes.items) }
        ensures pass { OnOk result ((rows : List (Entry V))
            → IsPassOver width R.rows rows table.old.nodes.items self.old
            → IsPassOver width R.rows rows table.new.nodes.items self.new) }
        ensures reached { OnOk result (self.new.now.start ≤ at) }
        ensures next { IfOk result (λ next. (to : ℕ) → IsQuietUpTo to R.rows self.new
            ↔ IfSome next (λ start. to < start)) }
        ensures behind { IfOk result (λ next. IfSome next (λ start. at < start)) }
        ensures within { IfOk result (λ next. IfSome next (λ start. start < 2 ^ width)) }
        ensures few { OnOk result (changes_left R.rows self.new ≤ changes_left R.rows self.old) }
        ensures fewer { OnOk result ((IsQuietUpTo at R.rows self.old → ⊥)
            → changes_left R.rows self.new < changes_left R.rows self.old) }
    {
        while let Some((first, behind)) = self.rest {
            let start = first.0.addr().bits();
            if at < start {
                break;
            }
            self.leave(start);
            self.enter(table, width, first, behind)?;
        }
        self.leave(at);
        Ok(self.next_start())
    }

    /// The same, where nodes that are neither among so many at the front nor needed by the pass can
    /// be given up first.
    pub fn reach_keeping(
        &mut self,
        table: &mut Table<Option<V>>,
        kept: usize,
        width: u8,
        at: u128,
    ) -> Result<Option<u128>, AllocError>
        requires sound { IsSound ⟦<Sources<Option<V>> as Ord>⟧.cmp
            ⟦<Sources<Option<V>> as LawfulOrd>⟧.mark table.old.nodes.items table.old.numbers }
        requires pass { (rows : List (Entry V))
            × IsPassOver width R.rows rows table.old.nodes.items self.old }
        requires order { self.old.now.start ≤ at }
        requires rows { StartRowsFrom at (rows_left R.rows self.old) }
        requires width { width ≤ 128 }
        ensures sound { OnOk result (IsSound ⟦<Sources<Option<V>> as Ord>⟧.cmp
            ⟦<Sources<Option<V>> as LawfulOrd>⟧.mark table.new.nodes.items table.new.numbers) }
        ensures keeps { OnOk result
            (KeepsNodes (take kept table.old.nodes.items) table.new.nodes.items) }
        ensures pass { OnOk result ((rows : List (Entry V))
            → IsPassOver width R.rows rows table.old.nodes.items self.old
            → IsPassOver width R.rows rows table.new.nodes.items self.new) }
        ensures reached { OnOk result (self.new.now.start ≤ at) }
        ensures next { IfOk result (λ next. (to : ℕ) → IsQuietUpTo to R.rows self.new
            ↔ IfSome next (λ start. to < start)) }
        ensures behind { IfOk result (λ next. IfSome next (λ start. at < start)) }
        ensures within { IfOk result (λ next. IfSome next (λ start. start < 2 ^ width)) }
        ensures few { OnOk result (changes_left R.rows self.new ≤ changes_left R.rows self.old) }
        ensures fewer { OnOk result ((IsQuietUpTo at R.rows self.old → ⊥)
            → changes_left R.rows self.new < changes_left R.rows self.old) }
    {
        self.leave(at);
        table.give_up_from(kept.max(self.made()));
        let next = self.reach(table, width, at)?;
        Ok(next)
    }
}

/// How many nodes at the front are kept once these sources are said too: all, if they name one.
fn kept_with<V: Copy>(kept: usize, sources: Sources<V>, all: usize) -> usize
    ensures { ((v : V) × (sources ≡ Constant v) × (result ≡ kept))
        ⊎ ((n : _) × (sources ≡ Stored n) × (result ≡ all)) }
{
    match sources {
        Sources::Constant(_) => kept,
        Sources::Stored(_) => all,
    }
}

impl<V: LawfulOrd> Table<Option<V>> {
    /// The changes of the answers of rows in order that are a table of this width, or `None` as
    /// soon as these are known to have more boxes than so many: where there are many nodes, boxes
    /// are counted each time that there are twice as many changes. Nodes that were made for hidden
    /// blocks are given up, unless what was said after them names one.
    pub fn table_runs<R: Rows<V>>(
        &mut self,
        alloc: Global,
        width: u8,
        rows: R,
        most: u64,
    ) -> Result<Option<Vec<Change<Sources<Option<V>>>>>, AllocError>
        requires sound { IsSound ⟦<Sources<Option<V>> as Ord>⟧.cmp
            ⟦<Sources<Option<V>> as LawfulOrd>⟧.mark self.old.nodes.items self.old.numbers }
        requires order { InOrder RowOrder (R.rows rows) }
        requires table { IsTable width (map row_of (R.rows rows)) }
        requires width { width ≤ 128 }
        ensures sound { OnOk result (IsSound ⟦<Sources<Option<V>> as Ord>⟧.cmp
            ⟦<Sources<Option<V>> as LawfulOrd>⟧.mark self.new.nodes.items self.new.numbers) }
        ensures keeps { OnOk result (KeepsNodes self.old.nodes.items self.new.nodes.items) }
        ensures runs { IfOk result (λ runs. MatchOption runs
            (HasMoreBoxes most width (answer width (map row_of (R.rows rows))))
            (λ list. HasRuns width self.new.nodes.items list.items
            (answer width (map row_of (R.rows rows))))) }
        ensures few { IfOk result (λ runs. IfSome runs (λ list.
            length list.items ≤ 2 * length (R.rows rows) + 1)) }
        ensures all { most ≡ 2 ^ 64 - 1 → IfOk result IsSome }
    {
        let room = rows.room().saturating_mul(2).saturating_add(1);
        let mut pass = Pass::new(alloc, rows);
        let mut list = Vec::with_capacity(alloc, room)?;
        let mut at = 0u128;
        let mut due = first_due(most);
        let mut kept = self.nodes().len();
        loop {
            if due <= list.len() && FEW_NODES <= self.nodes().len() {
                if self.early_count(alloc, &list)? > most {
                    return Ok(None);
                }
                due = list.len().saturating_mul(2);
            }
            let next = pass.reach_keeping(self, kept, width, at)?;
            let sources = pass.sources();
            say(&mut list, Change { start: at, sources })?;
            kept = kept_with(kept, sources, self.nodes().len());
            let Some(start) = next else {
                return Ok(Some(list));
            };
            at = start;
        }
    }
}
