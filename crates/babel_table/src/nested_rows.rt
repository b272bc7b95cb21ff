//! The rows of one family in rising order, and how far the rows around each of them reach. So a
//! lookup (RFC 9079, 4) is one search and one walk up for the destination, and one of each for the
//! sources of each destination that matches, however deep prefixes are nested.
ghost use Rattle.std.specs.Prelude.{◌≡◌, ◌≢◌, ◌<◌, ◌≤◌, ◌-◌, ◌^◌, [], IfOk, HoldsAt, length};
ghost use Rattle.std.specs.List.{AllWithin};
ghost use Rattle.std.specs.Map.{keys_of};
ghost use Rattle.babel_tlv.specs.Views.{no_address};
ghost use Rattle.babel_table.specs.RowFor.{IsBestOf, row_at};
ghost use Rattle.babel_table.specs.Compact.{AreOf};
ghost use Rattle.babel_table.specs.Nested.{AreUpTo, ArePast, IsNested, IsNestedAt, NoneWithin};
ghost use Rattle.babel_table.specs.Nested.{LeadsAround, LeadsFrom, LeadsTo};
ghost use Rattle.babel_table.specs.Rows.{IsRising};
ghost use Rattle.babel_table.specs.Seen.{seen_rows};
ghost use Rattle.babel_table.specs.TableRows.{AreRows};

use crate::compact_key::CompactKey;
use crate::compact_prefix::CompactPrefix;
use crate::compact_row::CompactRow;
use crate::hop::Hop;
use crate::row_place::{NOWHERE, RowPlace};
use crate::word::Word;
use babel_prefix::Addr;
use babel_tlv::{Held, Key, View};
use std::alloc::{AllocError, Global};
use std::marker::Model;

/// How far the rows around a row reach: so many rows at the front have all those to larger prefixes
/// around its destination, and all those to its destination from larger prefixes around its source.
#[derive(Clone, Copy)]
pub struct Around {
    dst: u32,
    src: u32,
}

/// Rows of one family in rising order.
#[derive(Drop)]
pub struct NestedRows<W: Word, H: Hop> {
    rows: Vec<CompactRow<W, H>>,
    around: Vec<Around>,
}

impl<W: Word, H: Hop> Model for NestedRows<W, H> {
    ghost use Rattle.std.specs.Prelude.{◌≡◌, ◌<◌, ◌^◌, List, length};
    ghost use Rattle.std.specs.Map.{keys_of};
    ghost use Rattle.babel_tlv.specs.Pair.{Pair};
    ghost use Rattle.babel_table.specs.Nested.{IsNested};

    ghost Value = { List Pair };

    ghost view = { λ r. r.rows.items };

    ghost invariant = { λ r. IsNested W.family (keys_of r.rows.items) r.around.items
        × (length r.around.items ≡ length r.rows.items) × (length r.rows.items < 2 ^ 32) };
}

impl<W: Word, H: Hop> NestedRows<W, H> {
    /// The rows, of which there are fewer than 2^32; out of memory where there are more.
    pub fn of(alloc: Global, rows: Vec<CompactRow<W, H>>) -> Result<NestedRows<W, H>, AllocError>
        requires rows { AreRows rows.items }
        requires family { AreOf W.family rows.items }
        ensures { IfOk result (λ nested. nested ≡ rows.items) }
    {
        if rows.len() > u32::MAX as usize {
            return Err(AllocError);
        }
        let mut around = Vec::with_capacity(alloc, rows.len())?;
        for place in 0..rows.len() {
            let next = around_row(&rows, &around, place);
            around.push(next)?;
        }
        Ok(NestedRows { rows, around })
    }

    /// No rows.
    pub fn none(alloc: Global) -> NestedRows<W, H>
        ensures { result ≡ [] }
    {
        NestedRows {
            rows: Vec::new(alloc),
            around: Vec::new(alloc),
        }
    }

    /// The rows in order.
    pub fn as_slice(&self) -> &[CompactRow<W, H>]
        ensures { result.now ≡ self.now }
    {
        &self.rows
    }

    /// Puts what the view sees in place of what each row holds.
    pub fn see(&mut self, view: View)
        requires { H.fits (no_address W.family) }
        ensures { self.new ≡ seen_rows view self.old }
    {
        see_rows(&mut self.rows, view);
    }

    /// The place of the best matching row, for two addresses of the family.
    pub fn best_place(&self, dst: &Addr, src: &Addr) -> RowPlace
        requires dst_family { dst.now.family ≡ W.family }
        requires src_family { src.now.family ≡ W.family }
        ensures { IsBestOf self.now dst.now src.now (row_at self.now result) }
    {
        best_place(&self.rows, &self.around, dst, src)
    }

    /// The row at a place, if one stands there.
    pub fn row_at(&self, place: RowPlace) -> Option<(Key, Held)>
        ensures { result ≡ row_at self.now place }
    {
        let (key, held) = self.rows.get(place.index as usize)?;
        Some((key.key(), held.held()))
    }
}

/// Puts what the view sees in place of what each row holds.
fn see_rows<W: Word, H: Hop>(rows: &mut [CompactRow<W, H>], view: View)
    requires { H.fits (no_address W.family) }
    ensures { rows.new ≡ seen_rows view rows.old }
{
    for row in rows.iter_mut() {
        row.1.see(view, row.0.family());
    }
}

/// The place of the best matching row: among the rows from the source to the longest destination
/// prefix that has one, the row of the longest source prefix.
fn best_place<W: Word, H: Hop>(
    rows: &[CompactRow<W, H>],
    around: &[Around],
    dst: &Addr,
    src: &Addr,
) -> RowPlace
    requires nested { IsNested W.family (keys_of rows.now) around.now }
    requires whole { length around.now ≡ length rows.now }
    requires few { length rows.now < 2 ^ 32 }
    requires dst_family { dst.now.family ≡ W.family }
    requires src_family { src.now.family ≡ W.family }
    ensures { IsBestOf rows.now dst.now src.now (row_at rows.now result) }
{
    let src = CompactPrefix::host(src);
    let asked = CompactKey::new(&CompactPrefix::host(dst), &src);
    let count = count_up_to(rows, &asked);
    let mut end = end_to(rows, around, count, &asked);
    while end > 0 {
        let key = CompactKey::new(&rows[end - 1].0.dst(), &src);
        let sources = count_up_to(rows, &key);
        let last = end_from(rows, around, sources, &key);
        if last > 0 {
            return RowPlace {
                index: (last - 1) as u32,
            };
        }
        end = end_to(rows, around, around[end - 1].dst as usize, &asked);
    }
    NOWHERE
}

/// How far the rows around the next row reach.
fn around_row<W: Word, H: Hop>(rows: &[CompactRow<W, H>], around: &[Around], place: usize) -> Around
    requires nested { IsNested W.family (keys_of rows.now) around.now }
    requires next { place ≡ length around.now }
    requires inside { place < length rows.now }
    requires few { length rows.now < 2 ^ 32 }
    ensures { IsNestedAt (keys_of rows.now) place result }
{
    let key = &rows[place].0;
    let dst = dst_around(rows, around, place, key);
    let src = end_from(rows, around, place, key);
    Around {
        dst: dst as u32,
        src: src as u32,
    }
}

/// How many rows at the front have those to larger prefixes around the destination of the next row.
fn dst_around<W: Word, H: Hop>(
    rows: &[CompactRow<W, H>],
    around: &[Around],
    place: usize,
    key: &CompactKey<W>,
) -> usize
    requires nested { IsNested W.family (keys_of rows.now) around.now }
    requires next { place ≡ length around.now }
    requires up_to { AreUpTo (keys_of rows.now) place key.now }
    ensures within { result ≤ place }
    ensures none { NoneWithin (LeadsAround key.now.dst) (keys_of rows.now) result place }
{
    if place > 0 && rows[place - 1].0.dst() == key.dst() {
        return around[place - 1].dst as usize;
    }
    end_to(rows, around, place, key)
}

/// How many rows have keys up to this one.
fn count_up_to<W: Word, H: Hop>(rows: &[CompactRow<W, H>], key: &CompactKey<W>) -> usize
    requires { IsRising rows.now }
    ensures within { result ≤ length rows.now }
    ensures up_to { AreUpTo (keys_of rows.now) result key.now }
    ensures past { ArePast (keys_of rows.now) result key.now }
{
    rows.partition_point(|row| row.0.cmp(key).is_le())
}

/// Of the first rows, so many, how many there are up to the last that leads to a prefix with the
/// address of the key's destination; none where no row does.
fn end_to<W: Word, H: Hop>(
    rows: &[CompactRow<W, H>],
    around: &[Around],
    end: usize,
    key: &CompactKey<W>,
) -> usize
    requires nested { IsNested W.family (keys_of rows.now) around.now }
    requires inside { end ≤ length around.now }
    requires up_to { AreUpTo (keys_of rows.now) end key.now }
    ensures within { result ≤ end }
    ensures none { NoneWithin (LeadsTo key.now.dst.address) (keys_of rows.now) result end }
    ensures last { result ≢ 0 →
        HoldsAt (LeadsTo key.now.dst.address) (keys_of rows.now) (result - 1) }
{
    let mut last = end;
    let dst = key.dst();
    while last > 0 && !rows[last - 1].0.dst().has_start_of(&dst) {
        last = around[last - 1].dst as usize;
    }
    last
}

/// The same of the last that leads to the key's destination, from a prefix with the address of its
/// source.
fn end_from<W: Word, H: Hop>(
    rows: &[CompactRow<W, H>],
    around: &[Around],
    end: usize,
    key: &CompactKey<W>,
) -> usize
    requires nested { IsNested W.family (keys_of rows.now) around.now }
    requires inside { end ≤ length around.now }
    requires up_to { AreUpTo (keys_of rows.now) end key.now }
    ensures within { result ≤ end }
    ensures none { NoneWithin (LeadsFrom key.now.dst key.now.src.address) (keys_of rows.now)
        result end }
    ensures last { result ≢ 0 →
        HoldsAt (LeadsFrom key.now.dst key.now.src.address) (keys_of rows.now) (result - 1) }
{
    let mut last = end;
    let (dst, src) = (key.dst(), key.src());
    while last > 0 && rows[last - 1].0.dst() == dst {
        if rows[last - 1].0.src().has_start_of(&src) {
            return last;
        }
        last = around[last - 1].src as usize;
    }
    0
}
