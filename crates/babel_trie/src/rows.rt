//! Rows in order, and their parts.
ghost use Rattle.std.specs.Prelude.{◌≡◌, ◌≢◌, ◌+◌, ◌-◌, ◌*◌, ◌/◌, ◌^◌, ◌++◌, ◌<◌, ◌≤◌, ◌==◌, ◌∷◌};
ghost use Rattle.std.specs.Prelude.{nat_lt, List, [], length, true, false};
ghost use Rattle.std.specs.Prelude.{All, IfOk, IfSome, IfNone, MatchOption};
ghost use Rattle.std.specs.List.Sorted.{IsPartitionedBy, IsPartitionPoint, IsPermutation};
ghost use Rattle.babel_prefix.specs.BestRow.{HasPrefixes};
ghost use Rattle.babel_prefix.specs.Entries.{Entry};
ghost use Rattle.babel_prefix.specs.Members.{Listed};
ghost use Rattle.babel_trie.specs.Held.{RowOrder, row_place};
ghost use Rattle.babel_trie.specs.Inner.{IsInner};
ghost use Rattle.babel_trie.specs.Rows.{InOrder, InBlock, IsPlace};
ghost use Rattle.babel_trie.specs.Rows.{IsOnlyHalf, AreParted, source_block};

use crate::cut::split;
use babel_prefix::Prefix;
use std::alloc::{AllocError, Global};

/// A row: a destination, a source and what they are given.
pub type Row<V> = (Prefix, Prefix, V);

/// The place of a row in the order of rows: by destination, then by source; a prefix stands before
/// those inside it.
fn place<V>(row: &Row<V>) -> ((u128, u8), (u128, u8))
    ensures place { result ≡ row_place row.now }
    ensures prefixes { HasPrefixes row.now }
{
    let (dst, src) = (&row.0, &row.1);
    (
        (dst.addr().bits(), dst.len()),
        (src.addr().bits(), src.len()),
    )
}

/// Rows one after another, which can be gone through more than once: a slice of them, or what each
/// row is made of.
pub trait Rows<V: Copy>: Copy {
    // The rows.
    ghost rows: { Self → List (Entry V) };

    /// The first row, and the others; `None` where there are none.
    fn split(self) -> Option<(Row<V>, Self)>
        ensures { MatchOption result (rows self ≡ []) (λ parts. rows self
            ≡ parts.0 ∷ rows parts.1) };

    /// How many rows there are, as far as is known: for so many room is kept.
    fn room(self) -> usize;

    /// Whether the rows stand in order: they are gone through, unless it is known.
    fn are_in_order(self) -> bool
        ensures in_order { result ≡ true → InOrder RowOrder (rows self) }
        ensures prefixes { result ≡ true → All HasPrefixes (rows self) }
    {
        let mut before = ((0, 0), (0, 0));
        let mut left = self;
        while let Some((row, others)) = left.split() {
            let here = place(&row);
            if here.cmp(&before).is_lt() {
                return false;
            }
            before = here;
            left = others;
        }
        true
    }
}

impl<'a, V: Copy> Rows<V> for &'a [Row<V>] {
    ghost rows = { λ slice. slice.now };

    fn split(self) -> Option<(Row<V>, &'a [Row<V>])> {
        let (first, others) = self.split_first()?;
        Some((*first, others))
    }

    fn room(self) -> usize {
        self.len()
    }
}

/// The rows in order: a prefix stands before those inside it.
pub fn sorted_rows<V: Copy, R: Rows<V>>(alloc: Global, rows: R) -> Result<Vec<Row<V>>, AllocError>
    ensures permutation { IfOk result (λ sorted. IsPermutation (R.rows rows) sorted.items) }
    ensures in_order { IfOk result (λ sorted. InOrder RowOrder sorted.items) }
    ensures prefixes { IfOk result (λ _. All HasPrefixes (R.rows rows)) }
{
    let mut sorted = Vec::with_capacity(alloc, rows.room())?;
    let mut left = rows;
    while let Some((row, others)) = left.split() {
        let _ = (row.0.len(), row.1.len());
        sorted.push(row)?;
        left = others;
    }
    sorted.sort_unstable_by_key(|row| {
        (
            (row.0.addr().bits(), row.0.len()),
            (row.1.addr().bits(), row.1.len()),
        )
    });
    Ok(sorted)
}

/// The rows that lie in the halves of a block, and the address at which the upper half starts.
#[derive(Drop)]
pub struct Halves<'a, V> {
    pub low: &'a [Row<V>],
    pub high: &'a [Row<V>],
    pub middle: u128,
}

/// The rows of one half of a block, and where it starts.
#[derive(Drop)]
pub struct OneHalf<'a, V> {
    pub low: bool,
    pub rows: &'a [Row<V>],
    pub start: u128,
}

impl<'a, V: Copy> Halves<'a, V> {
    /// The half with all rows of a block that starts here, if one half has none.
    pub fn only_half(&self, start: u128) -> Option<OneHalf<'a, V>>
        ensures { IfSome result (λ half. IsOnlyHalf self.now.low.now self.now.high.now start
            self.now.middle half.low half.rows.now half.start) }
    {
        if self.high.is_empty() {
            return Some(OneHalf {
                low: true,
                rows: self.low,
                start,
            });
        }
        if self.low.is_empty() {
            return Some(OneHalf {
                low: false,
                rows: self.high,
                start: self.middle,
            });
        }
        None
    }
}

/// The address at which the upper half of a block starts.
fn upper_start(start: u128, bits: u8) -> u128
    requires some { 0 < bits }
    requires width { bits ≤ 128 }
    requires room { start + 2 ^ bits ≤ 2 ^ 128 }
    ensures { result ≡ start + 2 ^ (bits - 1) }
{
    start + (1 << (bits - 1))
}

/// How many rows have a source of this length, which come first.
fn own_count<V>(rows: &[Row<V>], len: u8) -> usize
    requires { IsPartitionedBy (λ x. (source_block x).len == len) rows.now }
    ensures within { result ≤ length rows.now }
    ensures point { IsPartitionPoint (λ x. ((source_block x).len == len) ≡ true)
        (λ x. ((source_block x).len == len) ≡ false) rows.now result }
{
    if rows.is_empty() {
        return 0;
    }
    if rows[0].1.len() != len {
        return 0;
    }
    rows.partition_point(|row| row.1.len() == len)
}

/// How many rows have a source that starts below an address, which come first.
fn low_count<V>(rows: &[Row<V>], middle: u128) -> usize
    requires { IsPartitionedBy (λ x. nat_lt (source_block x).start middle) rows.now }
    ensures within { result ≤ length rows.now }
    ensures point { IsPartitionPoint (λ x. nat_lt (source_block x).start middle ≡ true)
        (λ x. nat_lt (source_block x).start middle ≡ false) rows.now result }
{
    if rows.is_empty() {
        return 0;
    }
    let last = rows.len() - 1;
    if rows[last].1.addr().bits() < middle {
        return rows.len();
    }
    if rows[0].1.addr().bits() >= middle {
        return 0;
    }
    rows.partition_point(|row| row.1.addr().bits() < middle)
}

/// The rows with a source of this length, which come first, and the others.
fn own_and_rest<V>(rows: &[Row<V>], len: u8) -> (&[Row<V>], &[Row<V>])
    requires { IsPartitionedBy (λ x. (source_block x).len == len) rows.now }
    ensures parts { rows.now ≡ result.0.now ++ result.1.now }
    ensures own { (x : _) → Listed result.0.now x → (source_block x).len ≡ len }
    ensures rest { (x : _) → Listed result.1.now x → (source_block x).len ≢ len }
{
    let own = own_count(rows, len);
    rows.split_at(own)
}

/// The rows with a source that starts below an address, which come first, and the others.
fn low_and_high<V>(rows: &[Row<V>], middle: u128) -> (&[Row<V>], &[Row<V>])
    requires { IsPartitionedBy (λ x. nat_lt (source_block x).start middle) rows.now }
    ensures parts { rows.now ≡ result.0.now ++ result.1.now }
    ensures low { (x : _) → Listed result.0.now x → (source_block x).start < middle }
    ensures high { (x : _) → Listed result.1.now x → middle ≤ (source_block x).start }
{
    let low = low_count(rows, middle);
    rows.split_at(low)
}

/// The rows of a block of sources: those of the whole block, and those of its halves, if there are
/// any.
pub fn parts<V>(
    rows: &[Row<V>],
    width: u8,
    bits: u8,
    start: u128,
) -> (&[Row<V>], Option<Halves<'_, V>>)
    requires place { IsPlace width bits start }
    requires rows { InBlock source_block width bits start rows.now }
    requires width { width ≤ 128 }
    ensures first { (rest : List _) × (rows.now ≡ result.0.now ++ rest) }
    ensures own { (x : _) → Listed result.0.now x → (source_block x).len ≡ width - bits }
    ensures none { IfNone result.1 (rows.now ≡ result.0.now) }
    ensures middle { IfSome result.1 (λ rest. rest.middle ≡ start + 2 ^ (bits - 1)) }
    ensures halves { IfSome result.1 (λ rest. AreParted source_block width bits start rows.now
        result.0.now rest.low.now rest.high.now) }
{
    let (own, rest) = own_and_rest(rows, width - bits);
    if rest.is_empty() {
        return (own, None);
    }
    let middle = upper_start(start, bits);
    let (low, high) = low_and_high(rest, middle);
    (own, Some(Halves { low, high, middle }))
}

/// In how many bits the addresses of the smallest block with both of these differ.
fn common_bits(from: u128, last: u128) -> u8
    requires { from ≤ last }
    ensures same { from / 2 ^ result ≡ last / 2 ^ result }
    ensures few { result ≤ 128 }
{
    if from == last {
        return 0;
    }
    split(from, last) as u8 + 1
}

/// A block inside another, and the bits that lead to it from there.
#[derive(Clone, Copy)]
pub struct Inner {
    pub bits: u8,
    pub start: u128,
    pub path: u128,
}

impl Inner {
    /// The block around this one that the bits lead to which its path and another one share, if
    /// they share some.
    pub fn shared(self, bits: u8, start: u128, skip: u8, path: u128) -> Option<Inner>
        requires some { 0 < skip }
        requires skip { skip ≤ 128 }
        requires bits { bits ≤ 128 }
        requires smaller { self.bits < bits }
        requires path_in { self.path < 2 ^ (bits - self.bits) }
        requires room { start + 2 ^ bits ≤ 2 ^ 128 }
        ensures around { IfSome result (λ r. self.bits ≤ r.bits) }
        ensures smaller { IfSome result (λ r. r.bits < bits) }
        ensures few { IfSome result (λ r. bits - r.bits ≤ skip) }
        ensures own { IfSome result (λ r. r.path ≡ self.path / 2 ^ (r.bits - self.bits)) }
        ensures other { IfSome result (λ r. r.path ≡ path / 2 ^ (skip - (bits - r.bits))) }
        ensures start { IfSome result (λ r. r.start ≡ start + r.path * 2 ^ r.bits) }
    {
        let len = bits - self.bits;
        let least = len.min(skip);
        let own = self.path >> (len - least);
        let other = path >> (skip - least);
        let differing = common_bits(own.min(other), own.max(other));
        let shared = least.checked_sub(differing)?;
        if shared == 0 {
            return None;
        }
        let bits = bits - shared;
        let path = own >> differing;
        Some(Inner {
            bits,
            start: start + (path << bits),
            path,
        })
    }
}

/// The smallest block that all rows of a block lie in, if there are rows and it is not the whole
/// block.
pub fn inner_block<V>(rows: &[Row<V>], width: u8, bits: u8, start: u128) -> Option<Inner>
    requires place { IsPlace width bits start }
    requires rows { InBlock source_block width bits start rows.now }
    requires width { width ≤ 128 }
    ensures { IfSome result (λ r. IsInner source_block width bits start rows.now
        r.bits r.start r.path) }
{
    let first = &rows.first()?.1;
    let from = first.addr().bits();
    let last = rows.last()?.1.addr().bits();
    let inner = common_bits(from, last).max(width - first.len());
    if inner >= bits {
        return None;
    }
    let place = from >> inner;
    let above = start >> inner;
    Some(Inner {
        bits: inner,
        start: place << inner,
        path: place - above,
    })
}
