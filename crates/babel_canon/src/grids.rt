ghost use Rattle.std.specs.Prelude.{◌≡◌, ◌+◌, ◌-◌, ◌^◌, ◌++◌, List, All, None, IfOk};
ghost use Rattle.std.specs.Prelude.{IfSome, OnOk, OnErr, length};
ghost use Rattle.std.specs.Prelude.{map, min};
ghost use Rattle.babel_prefix.specs.declared.family.Family.TheVariants.{V4, V6};
ghost use Rattle.babel_prefix.specs.BestRow.{HasPrefixes, HasDistinctPrefixes};
ghost use Rattle.babel_prefix.specs.Entries.{Entry};
ghost use Rattle.babel_table.specs.TableRows.{AreRows, family_rows};
ghost use Rattle.babel_prefix.specs.Width.{width_of};
ghost use Rattle.babel_trie.specs.Early.{HasMoreBoxes};
ghost use Rattle.babel_trie.specs.Held.{RowOrder};
ghost use Rattle.babel_trie.specs.Nested.{entry_at};
ghost use Rattle.babel_trie.specs.OneOrder.{rows_in_order-prop};
ghost use Rattle.babel_trie.specs.Rows.{InOrder};
ghost use Rattle.babel_trie.specs.Sinks.{StopsAmong};
ghost use Rattle.babel_canon.specs.Boxes.{answers_of};
ghost use Rattle.babel_canon.specs.Canonical.{HasManyBoxes};
ghost use Rattle.babel_canon.specs.Values.{AreNumbered, AreNumberedBoxes, AreNumberedEntries};
ghost use Rattle.babel_canon.specs.Values.{KeepsValues, entries_left, packed_entries};
ghost use Rattle.babel_canon.specs.declared.values.PackedValue.{PackedValue};

use crate::values::{PackedValue, Values};
use babel_prefix::{Family, Prefix};
use babel_table::{Limits, Table, TableRows};
use babel_tlv::{Held, Key};
use babel_trie::{Grid, LawfulOrd, Rows, Sink};
use std::alloc::{AllocError, Global};

/// A destination prefix, a source prefix, and what is answered there, packed.
pub(crate) type Row = (Prefix, Prefix, PackedValue);

/// What is answered for the addresses of each family.
#[derive(Drop)]
pub(crate) struct Grids<V: LawfulOrd> {
    pub v4: Grid<V>,
    pub v6: Grid<V>,
}

/// The rows of one family of a table, in order, with packed values in place of theirs. No row is
/// spelled out before it is asked for.
#[derive(Clone, Copy)]
pub(crate) struct PackedRows<'a> {
    rows: TableRows<'a>,
    values: &'a [PackedValue],
    ghost in_order: { InOrder RowOrder (entries_left rows values.now) } by { rows_in_order-prop _ },
    ghost prefixes: { All HasPrefixes (entries_left rows values.now) },
}

impl<'a> PackedRows<'a> {
    /// The rows of a family of the table, with these values.
    pub(crate) fn of(family: Family, table: &'a Table, values: &'a [PackedValue]) -> PackedRows<'a>
        ensures { entries_left result.rows result.values.now
            ≡ packed_entries (family_rows family table.now.rows) values.now }
    {
        PackedRows {
            rows: table.rows_of(family),
            values,
        }
    }
}

impl<'a> Rows<PackedValue> for PackedRows<'a> {
    ghost rows = { λ r. entries_left r.rows r.values.now };

    fn split(self) -> Option<(Row, PackedRows<'a>)> {
        let PackedRows { mut rows, values } = self;
        let key = rows.next_key()?;
        let (value, values) = values.split_first()?;
        Some(((key.dst(), key.src(), *value), PackedRows { rows, values }))
    }

    fn room(self) -> usize {
        self.values.len()
    }

    fn are_in_order(self) -> bool {
        true
    }
}

/// The packed values of the rows of one family of a table.
pub(crate) fn family_values(
    alloc: Global,
    family: Family,
    table: &Table,
    values: &mut Values,
) -> Result<Vec<PackedValue>, AllocError>
    requires { AreNumbered values.old.list.items values.old.numbers }
    ensures numbered { OnOk result (AreNumbered values.new.list.items values.new.numbers) }
    ensures keeps { OnOk result (KeepsValues values.old.list.items values.new.list.items) }
    ensures prefixes { IfOk result (λ packed.
        HasDistinctPrefixes (packed_entries (family_rows family table.now.rows) packed.items)) }
    ensures entries { IfOk result (λ packed.
        AreNumberedEntries family table.now.rows values.new.list.items
        (packed_entries (family_rows family table.now.rows) packed.items)) }
{
    let rows = table.rows_of(family);
    let mut packed = Vec::with_capacity(alloc, rows.len())?;
    for (key, held) in rows {
        let _valid = key.dst();
        let value = values.packed(&held)?;
        packed.push(value)?;
    }
    Ok(packed)
}

/// What a table answers for the addresses of one family; `None` as soon as that is known to have
/// more boxes than the entries of the limits.
fn family_grid(
    alloc: Global,
    limits: Limits,
    family: Family,
    table: &Table,
    values: &mut Values,
) -> Result<Option<Grid<PackedValue>>, AllocError>
    requires { AreNumbered values.old.list.items values.old.numbers }
    ensures numbered { OnOk result (AreNumbered values.new.list.items values.new.numbers) }
    ensures keeps { OnOk result (KeepsValues values.old.list.items values.new.list.items) }
    ensures many { IfOk result (λ grid. grid ≡ None
        → HasMoreBoxes limits.entries (width_of family) (answers_of family table.now.rows)) }
    ensures family { IfOk result (λ grid. IfSome grid (λ grid. grid.family ≡ family)) }
    ensures boxes { IfOk result (λ grid. IfSome grid (λ grid.
        AreNumberedBoxes family table.now.rows values.new.list.items grid.boxes)) }
{
    let packed = family_values(alloc, family, table, values)?;
    let rows = PackedRows::of(family, table, packed.as_slice());
    let grid = Grid::within(alloc, family, rows, limits.entries() as u64)?;
    Ok(grid)
}

impl Grids<PackedValue> {
    /// What a table answers, with these values; `None` as soon as that is known to have more boxes
    /// in a family than the entries of the limits.
    pub(crate) fn of(
        alloc: Global,
        limits: Limits,
        table: &Table,
        values: &mut Values,
    ) -> Result<Option<Grids<PackedValue>>, AllocError>
        requires { AreNumbered values.old.list.items values.old.numbers }
        ensures numbered { OnOk result (AreNumbered values.new.list.items values.new.numbers) }
        ensures keeps { OnOk result (KeepsValues values.old.list.items values.new.list.items) }
        ensures rows { AreRows table.now.rows }
        ensures many { IfOk result (λ grids. grids ≡ None → HasManyBoxes limits table.now.rows) }
        ensures v4_family { IfOk result (λ grids. IfSome grids (λ grids. grids.v4.family ≡ V4)) }
        ensures v6_family { IfOk result (λ grids. IfSome grids (λ grids. grids.v6.family ≡ V6)) }
        ensures v4_boxes { IfOk result (λ grids. IfSome grids (λ grids.
            AreNumberedBoxes V4 table.now.rows values.new.list.items grids.v4.boxes)) }
        ensures v6_boxes { IfOk result (λ grids. IfSome grids (λ grids.
            AreNumberedBoxes V6 table.now.rows values.new.list.items grids.v6.boxes)) }
    {
        let _valid = table.rows();
        let Some(v4) = family_grid(alloc, limits, Family::V4, table, values)? else {
            return Ok(None);
        };
        let Some(v6) = family_grid(alloc, limits, Family::V6, table, values)? else {
            return Ok(None);
        };
        Ok(Some(Grids { v4, v6 }))
    }
}

impl<V: LawfulOrd> Grids<V> {
    /// How many boxes there are in both, or the greatest number if there are more.
    pub(crate) fn count(&self) -> u64
        ensures { result ≡ min (length self.now.v4.boxes + length self.now.v6.boxes) (2 ^ 64 - 1) }
    {
        self.v4.count().saturating_add(self.v6.count())
    }

    /// Puts the boxes out, IPv4 first. Those of IPv4 are gone before the first of IPv6 is put out.
    #[tactic(auto, using(crate::proofs::GridLaws::put_of_family))]
    pub(crate) fn put_boxes<S: Sink<V>>(self, out: &mut S) -> Result<(), S::Error>
        requires v4 { self.v4.family ≡ V4 }
        requires v6 { self.v6.family ≡ V6 }
        requires can { S.can_put out.old }
        ensures ok { OnOk result ((start : S) (rows : List (Entry V)) → S.has start out.old rows
            → S.has start out.new
            ((rows ++ map (entry_at V4) self.v4.boxes) ++ map (entry_at V6) self.v6.boxes)) }
        ensures err { OnErr result ((start : S) (rows : List (Entry V)) → S.has start out.old rows
            → StopsAmong (S.stopped start out.new) rows
            (map (entry_at V4) self.v4.boxes ++ map (entry_at V6) self.v6.boxes)) }
    {
        let Grids { v4, v6 } = self;
        v4.put_boxes(out)?;
        drop(v4);
        v6.put_boxes(out)?;
        Ok(())
    }
}
