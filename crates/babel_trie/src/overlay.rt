//! The rows of one destination, laid over a trie of sources.
ghost use Rattle.std.specs.Prelude.{◌≡◌, ℕ, ◌+◌, ◌-◌, ◌^◌, ◌<◌, ◌≤◌, ◌∷◌, ◌++◌};
ghost use Rattle.std.specs.Prelude.{List, [], map, length, IfOk, IfSome, OnOk, Option, true};
ghost use Rattle.babel_trie.specs.Shape.{Shape};
ghost use Rattle.babel_trie.specs.Interned.{Stands, IsNormalLoose, IsTrie, Represents, HasTrie};
ghost use Rattle.babel_trie.specs.Laid.{HasOneDestination, IsSet, IsLaid, IsOverlaid, SaysOf};
ghost use Rattle.babel_prefix.specs.BestRow.{IsTable};
ghost use Rattle.babel_prefix.specs.Entries.{Entry, row_of};
ghost use Rattle.babel_prefix.specs.Members.{Listed};
ghost use Rattle.babel_trie.specs.Inner.{IsInner, IsInside};
ghost use Rattle.babel_trie.specs.Rows.{source_block, AreParted, InBlock, IsPlace};
ghost use Rattle.babel_trie.specs.Sound.{IsSound, KeepsNodes};
ghost use Rattle.babel_trie.specs.declared.table.Node.{Node};

use crate::lawful::{LawfulOrd, are_same};
use crate::rows::{Halves, Inner, Row, inner_block, parts};
use crate::table::{Loose, Sources, Table, alone};
use std::alloc::AllocError;

/// Sets the value of the rows of a whole block, if there are any.
fn set<V: Copy>(rows: &[Row<V>], trie: &mut Loose<Option<V>>)
    ensures is { (nodes : List (Node (Option V))) (t : Shape (Option V)) → Stands nodes trie.old t
        → IsSet rows.now nodes trie.new t }
    ensures normal { (nodes : List (Node (Option V))) → IsNormalLoose nodes trie.old
        → IsNormalLoose nodes trie.new }
{
    if let Some(row) = rows.first() {
        *trie = Loose::Same(Some(row.2));
    }
}

/// The value of the row with a source of this length, where that is the only row.
fn only_value<V: Copy>(rows: &[Row<V>], len: u8) -> Option<V>
    ensures { IfSome result (λ value. (row : Entry V) × (rows.now ≡ row ∷ [])
        × ((source_block row).len ≡ len) × (row.2 ≡ value)) }
{
    match rows {
        [row] if row.1.len() == len => Some(row.2),
        _ => None,
    }
}

/// A block inside another, the trie there, and the one value beside it.
#[derive(Drop)]
struct Narrowed<V> {
    block: Inner,
    trie: Loose<V>,
    beside: V,
}

/// The smallest block that all rows lie in and the bits before the trie's block lead to, if it is
/// not the whole block and one value is beside it.
fn narrow<V: LawfulOrd>(
    rows: &[Row<V>],
    width: u8,
    bits: u8,
    start: u128,
    trie: &Loose<Option<V>>,
) -> Option<Narrowed<Option<V>>>
    requires place { IsPlace width bits start }
    requires rows { InBlock source_block width bits start rows.now }
    requires width { width ≤ 128 }
    requires trie { (nodes : List (Node (Option V))) × IsTrie bits nodes trie.now }
    ensures inner { IfSome result (λ r. IsInner source_block width bits start rows.now
        r.block.bits r.block.start r.block.path) }
    ensures normal { IfSome result (λ r. (nodes : List (Node (Option V)))
        → IsNormalLoose nodes trie.now → IsNormalLoose nodes r.trie) }
    ensures inside { IfSome result (λ r. (nodes : List (Node (Option V))) (t : Shape (Option V))
        → IsNormalLoose nodes trie.now → Stands nodes trie.now t
        → IsInside nodes r.trie (bits - r.block.bits) r.block.path r.beside t) }
{
    match trie {
        Loose::Same(value) => {
            let block = inner_block(rows, width, bits, start)?;
            Some(Narrowed {
                block,
                trie: *trie,
                beside: *value,
            })
        }
        Loose::Split(node) => {
            let Sources::Constant(beside) = node.outside else {
                return None;
            };
            if node.skip == 0 {
                return None;
            }
            let inner = inner_block(rows, width, bits, start)?;
            let block = inner.shared(bits, start, node.skip, node.path)?;
            Some(Narrowed {
                block,
                trie: Loose::Split(node.past(bits - block.bits)),
                beside,
            })
        }
    }
}

impl<V: LawfulOrd> Table<Option<V>> {
    /// Whether all sources of each row are given its value already.
    fn says_all(&self, rows: &[Row<V>], width: u8, sources: &Sources<Option<V>>) -> bool
        requires trie { HasTrie width self.now.nodes.items sources.now }
        requires width { width ≤ 128 }
        ensures { result ≡ true → (row : Entry V) → Listed rows.now row
            → SaysOf width self.now.nodes.items sources.now row }
    {
        let mut left = rows;
        while let Some((row, others)) = left.split_first() {
            let (value, bits) = self.get(sources, 0, width, row.1.addr().bits());
            if bits < width.saturating_sub(row.1.len()) || !are_same(*value, Some(row.2)) {
                return false;
            }
            left = others;
        }
        true
    }

    /// Lays the rows of both halves of a block over its trie.
    #[cycle(lay)]
    fn lay_halves(
        &mut self,
        rows: &Halves<'_, V>,
        width: u8,
        bits: u8,
        start: u128,
        trie: &mut Loose<Option<V>>,
    ) -> Result<(), AllocError>
        requires sound { IsSound ⟦<Sources<Option<V>> as Ord>⟧.cmp
            ⟦<Sources<Option<V>> as LawfulOrd>⟧.mark self.old.nodes.items self.old.numbers }
        requires trie { IsTrie bits self.old.nodes.items trie.old }
        requires normal { IsNormalLoose self.old.nodes.items trie.old }
        requires middle { rows.now.middle ≡ start + 2 ^ (bits - 1) }
        requires rows { AreParted source_block width bits start (rows.now.low.now
            ++ rows.now.high.now) [] rows.now.low.now rows.now.high.now }
        requires one { HasOneDestination (rows.now.low.now ++ rows.now.high.now) }
        requires width { width ≤ 128 }
        ensures sound { OnOk result (IsSound ⟦<Sources<Option<V>> as Ord>⟧.cmp
            ⟦<Sources<Option<V>> as LawfulOrd>⟧.mark self.new.nodes.items self.new.numbers) }
        ensures keeps { OnOk result (KeepsNodes self.old.nodes.items self.new.nodes.items) }
        ensures normal { OnOk result (IsNormalLoose self.new.nodes.items trie.new) }
        ensures laid { OnOk result ((t : Shape (Option V))
            → Stands self.old.nodes.items trie.old t
            → IsLaid width bits start (map row_of (rows.now.low.now ++ rows.now.high.now))
            self.new.nodes.items trie.new t) }
    {
        let (mut low, mut high) = self.halves(*trie);
        self.lay(rows.low, width, bits - 1, start, &mut low)?;
        self.lay(rows.high, width, bits - 1, rows.middle, &mut high)?;
        self.join(&low, &high, trie)
    }

    /// Writes what rows make of the trie of a block around the block that they lie in. A row alone
    /// is what the bits to its sources lead to.
    #[cycle(lay)]
    fn lay_inside(
        &mut self,
        rows: &[Row<V>],
        width: u8,
        bits: u8,
        narrowed: &Narrowed<Option<V>>,
        trie: &mut Loose<Option<V>>,
    ) -> Result<(), AllocError>
        requires sound { IsSound ⟦<Sources<Option<V>> as Ord>⟧.cmp
            ⟦<Sources<Option<V>> as LawfulOrd>⟧.mark self.old.nodes.items self.old.numbers }
        requires inner { (start : ℕ) × IsInner source_block width bits start rows.now
            narrowed.now.block.bits narrowed.now.block.start narrowed.now.block.path }
        requires trie { IsTrie narrowed.now.block.bits self.old.nodes.items narrowed.now.trie }
        requires normal { IsNormalLoose self.old.nodes.items narrowed.now.trie }
        requires one { HasOneDestination rows.now }
        requires width { width ≤ 128 }
        requires bits { bits ≤ width }
        ensures sound { OnOk result (IsSound ⟦<Sources<Option<V>> as Ord>⟧.cmp
            ⟦<Sources<Option<V>> as LawfulOrd>⟧.mark self.new.nodes.items self.new.numbers) }
        ensures keeps { OnOk result (KeepsNodes self.old.nodes.items self.new.nodes.items) }
        ensures normal { OnOk result (IsNormalLoose self.new.nodes.items trie.new) }
        ensures laid { OnOk result ((start : ℕ) (t : Shape (Option V))
            → IsInner source_block width bits start rows.now narrowed.now.block.bits
            narrowed.now.block.start narrowed.now.block.path
            → IsInside self.old.nodes.items narrowed.now.trie (bits - narrowed.now.block.bits)
            narrowed.now.block.path narrowed.now.beside t
            → IsLaid width bits start (map row_of rows.now) self.new.nodes.items trie.new t) }
    {
        let block = narrowed.block;
        let skip = bits - block.bits;
        if let Some(only) = only_value(rows, width - block.bits) {
            *trie = alone(Some(only), narrowed.beside, skip, block.path);
            return Ok(());
        }
        *trie = narrowed.trie;
        self.lay(rows, width, block.bits, block.start, trie)?;
        self.lead_to(trie, narrowed.beside, skip, block.path)
    }

    /// Lays rows of one destination, if there are any, over the trie of a block.
    #[cycle(lay)]
    fn lay(
        &mut self,
        rows: &[Row<V>],
        width: u8,
        bits: u8,
        start: u128,
        trie: &mut Loose<Option<V>>,
    ) -> Result<(), AllocError>
        requires sound { IsSound ⟦<Sources<Option<V>> as Ord>⟧.cmp
            ⟦<Sources<Option<V>> as LawfulOrd>⟧.mark self.old.nodes.items self.old.numbers }
        requires trie { IsTrie bits self.old.nodes.items trie.old }
        requires normal { IsNormalLoose self.old.nodes.items trie.old }
        requires place { IsPlace width bits start }
        requires rows { InBlock source_block width bits start rows.now }
        requires one { HasOneDestination rows.now }
        requires width { width ≤ 128 }
        ensures sound { OnOk result (IsSound ⟦<Sources<Option<V>> as Ord>⟧.cmp
            ⟦<Sources<Option<V>> as LawfulOrd>⟧.mark self.new.nodes.items self.new.numbers) }
        ensures keeps { OnOk result (KeepsNodes self.old.nodes.items self.new.nodes.items) }
        ensures normal { OnOk result (IsNormalLoose self.new.nodes.items trie.new) }
        ensures laid { OnOk result ((t : Shape (Option V))
            → Stands self.old.nodes.items trie.old t
            → IsLaid width bits start (map row_of rows.now) self.new.nodes.items trie.new t) }
    {
        if rows.is_empty() {
            return Ok(());
        }
        if let Some(narrowed) = narrow(rows, width, bits, start, trie) {
            return self.lay_inside(rows, width, bits, &narrowed, trie);
        }
        let (own, rest) = parts(rows, width, bits, start);
        set(own, trie);
        let Some(rest) = rest else {
            return Ok(());
        };
        if let (Loose::Split(node), Some(only)) = (&*trie, rest.only_half(start)) {
            if let Some((mut inside, beside)) = self.half(node, only.low) {
                self.lay(only.rows, width, bits - 1, only.start, &mut inside)?;
                return self.join_beside(only.low, &inside, beside, trie);
            }
        }
        self.lay_halves(&rest, width, bits, start, trie)
    }

    /// The trie with rows of one destination laid over it. Of one row from all sources nothing is
    /// stored, and of rows that say nothing new.
    pub fn overlaid(
        &mut self,
        rows: &[Row<V>],
        width: u8,
        old: Sources<Option<V>>,
    ) -> Result<Sources<Option<V>>, AllocError>
        requires sound { IsSound ⟦<Sources<Option<V>> as Ord>⟧.cmp
            ⟦<Sources<Option<V>> as LawfulOrd>⟧.mark self.old.nodes.items self.old.numbers }
        requires trie { HasTrie width self.old.nodes.items old }
        requires rows { InBlock source_block width width 0 rows.now }
        requires table { IsTable width (map row_of rows.now) }
        requires one { HasOneDestination rows.now }
        requires width { width ≤ 128 }
        ensures sound { OnOk result (IsSound ⟦<Sources<Option<V>> as Ord>⟧.cmp
            ⟦<Sources<Option<V>> as LawfulOrd>⟧.mark self.new.nodes.items self.new.numbers) }
        ensures keeps { OnOk result (KeepsNodes self.old.nodes.items self.new.nodes.items) }
        ensures overlaid { IfOk result (λ new. (t : Shape (Option V))
            → Represents self.old.nodes.items old t
            → IsOverlaid width width 0 (map row_of rows.now) self.new.nodes.items new t) }
    {
        if let Some(value) = only_value(rows, 0) {
            return Ok(Sources::Constant(Some(value)));
        }
        if self.says_all(rows, width, &old) {
            return Ok(old);
        }
        let mut trie = self.opened(old);
        self.lay(rows, width, width, 0, &mut trie)?;
        let sources = self.stored(&trie)?;
        Ok(sources)
    }
}
