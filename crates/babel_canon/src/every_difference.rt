//! All that two tables answer differently.
ghost use Rattle.std.specs.Prelude.{◌≡◌, ◌+◌, ◌++◌, ◌∷◌, ◌≤◌, ⊤, List, Option, None, IfOk};
ghost use Rattle.std.specs.Prelude.{IfErr, IfSome, OnOk, OnErr, [], length};
ghost use Rattle.std.specs.Option.{option_map};
ghost use Rattle.babel_prefix.specs.declared.family.Family.TheVariants.{V4, V6};
ghost use Rattle.babel_prefix.specs.Entries.{Entry};
ghost use Rattle.babel_prefix.specs.Width.{width_of};
ghost use Rattle.babel_trie.specs.Early.{HasMoreDifferences};
ghost use Rattle.babel_trie.specs.declared.differing.Differing.{Differing};
ghost use Rattle.babel_canon.specs.Boxes.{answers_of};
ghost use Rattle.babel_canon.specs.Differences.{AreDifferences, CountsDifferences};
ghost use Rattle.babel_canon.specs.Differences.{DifferencesFault};
ghost use Rattle.babel_canon.specs.PackedDifferences.{ArePackedDifferences, HasDifferences};
ghost use Rattle.babel_canon.specs.PackedDifferences.{valued_differences};
ghost use Rattle.babel_canon.specs.Values.{AreNumbered, KeepsValues, value_of};
ghost use Rattle.babel_canon.specs.declared.values.PackedValue.{PackedValue};

use crate::grids::{Grids, PackedRows, family_values};
use crate::values::{PackedValue, Values};
use babel_prefix::{Family, Prefix};
use babel_table::{Limits, Table};
use babel_tlv::{Fault, Held, Key};
use babel_trie::{Differing, Grid, Sink, differences_within};
use std::alloc::{AllocError, Global};

/// A destination prefix and a source prefix for whose addresses two tables answer these two, which
/// differ. `None` where a table has no route for them.
#[derive(Clone, Copy)]
pub struct Difference {
    pub key: Key,
    pub left: Option<Held>,
    pub right: Option<Held>,
}

/// A destination prefix, a source prefix, and the two answers, packed.
type Row = (Prefix, Prefix, Differing<PackedValue>);

/// A list of differences.
#[derive(Drop)]
struct DifferenceList<'a> {
    values: &'a Values,
    list: Vec<Difference>,
}

/// The answer, unpacked.
fn unpacked(values: &Values, answer: Option<PackedValue>) -> Option<Held>
    ensures { result ≡ option_map (value_of values.now.list.items) answer }
{
    match answer {
        Some(value) => Some(values.value(value)),
        None => None,
    }
}

impl<'a> Sink<Differing<PackedValue>> for DifferenceList<'a> {
    ghost use Rattle.babel_canon.specs.declared.every_difference.DifferenceList.{DifferenceList};

    type Error = AllocError;

    ghost has = { λ start list rows. HasDifferences start.values.now.list.items
        list.values.now.list.items list.list.items rows };

    ghost stopped = { λ _ _ _. ⊤ };

    fn put(&mut self, row: Row) -> Result<(), AllocError>
        requires { row.0.address.family ≡ row.1.address.family }
        ensures ok { OnOk result ((start : DifferenceList)
            (rows : List (Entry (Differing PackedValue)))
            → HasDifferences start.values.now.list.items
            self.old.values.now.list.items self.old.list.items rows
            → HasDifferences start.values.now.list.items
            self.new.values.now.list.items self.new.list.items (rows ++ row ∷ [])) }
        ensures err { OnErr result ⊤ }
    {
        let (dst, src, both) = row;
        let key = Key::new(dst, src).unwrap();
        let left = unpacked(self.values, both.left);
        let right = unpacked(self.values, both.right);
        self.list.push(Difference { key, left, right })?;
        Ok(())
    }
}

/// What two tables answer differently for the addresses of a family, with these values; `None` as
/// soon as that is known to have more boxes than the entries of the limits.
fn family_differences(
    alloc: Global,
    limits: Limits,
    family: Family,
    left: &Table,
    right: &Table,
    values: &mut Values,
) -> Result<Option<Grid<Differing<PackedValue>>>, AllocError>
    requires { AreNumbered values.old.list.items values.old.numbers }
    ensures numbered { OnOk result (AreNumbered values.new.list.items values.new.numbers) }
    ensures keeps { OnOk result (KeepsValues values.old.list.items values.new.list.items) }
    ensures many { IfOk result (λ grid. grid ≡ None
        → HasMoreDifferences limits.entries (width_of family)
        (answers_of family left.now.rows) (answers_of family right.now.rows)) }
    ensures family { IfOk result (λ grid. IfSome grid (λ grid. grid.family ≡ family)) }
    ensures boxes { IfOk result (λ grid. IfSome grid (λ grid.
        ArePackedDifferences family left.now.rows right.now.rows values.new.list.items
        grid.boxes)) }
{
    let mine = family_values(alloc, family, left, values)?;
    let theirs = family_values(alloc, family, right, values)?;
    let rows = PackedRows::of(family, left, mine.as_slice());
    let others = PackedRows::of(family, right, theirs.as_slice());
    let grid = differences_within(alloc, family, rows, others, limits.entries() as u64)?;
    Ok(grid)
}

/// What two tables answer differently, with these values. It is known to be no more than the limit
/// before any of it is made.
fn counted_differences(
    alloc: Global,
    limits: Limits,
    left: &Table,
    right: &Table,
    values: &mut Values,
) -> Result<Grids<Differing<PackedValue>>, Fault>
    requires { AreNumbered values.old.list.items values.old.numbers }
    ensures v4 { IfOk result (λ grids. grids.v4.family ≡ V4) }
    ensures v6 { IfOk result (λ grids. grids.v6.family ≡ V6) }
    ensures few { IfOk result (λ grids.
        length grids.v4.boxes + length grids.v6.boxes ≤ limits.entries) }
    ensures differences { IfOk result (λ grids. AreDifferences left.now.rows right.now.rows
        (valued_differences values.new.list.items grids.v4.boxes grids.v6.boxes)) }
    ensures err { IfErr result (DifferencesFault limits left.now.rows right.now.rows) }
{
    let Some(v4) = family_differences(alloc, limits, Family::V4, left, right, values)? else {
        return Err(Fault::TooManyPairs);
    };
    let Some(v6) = family_differences(alloc, limits, Family::V6, left, right, values)? else {
        return Err(Fault::TooManyPairs);
    };
    let grids = Grids { v4, v6 };
    if grids.count() > limits.entries() as u64 {
        return Err(Fault::TooManyPairs);
    }
    Ok(grids)
}

/// The boxes of grids as differences, IPv4 first, with their values unpacked.
fn listed(
    alloc: Global,
    grids: Grids<Differing<PackedValue>>,
    values: &Values,
) -> Result<Vec<Difference>, AllocError>
    requires v4 { grids.v4.family ≡ V4 }
    requires v6 { grids.v6.family ≡ V6 }
    ensures { IfOk result (λ list.
        list.items ≡ valued_differences values.now.list.items grids.v4.boxes grids.v6.boxes) }
{
    let count = grids.count() as usize;
    let mut list = DifferenceList {
        values,
        list: Vec::with_capacity(alloc, count)?,
    };
    grids.put_boxes(&mut list)?;
    Ok(list.list)
}

/// All that two tables answer differently: the largest blocks of destinations and sources on which
/// the two answers are the same two, by family, IPv4 first, then by destination, then by source.
/// `TooManyPairs` if they are more than the entries of the limits, which is known before any of
/// them is made; else `Memory`, if there is too little.
pub fn differences(
    alloc: Global,
    limits: Limits,
    left: &Table,
    right: &Table,
) -> Result<Vec<Difference>, Fault>
    ensures ok { IfOk result (λ list. AreDifferences left.now.rows right.now.rows list.items) }
    ensures few { IfOk result (λ list. length list.items ≤ limits.entries) }
    ensures err { IfErr result (DifferencesFault limits left.now.rows right.now.rows) }
{
    let mut values = Values::new(alloc);
    let grids = counted_differences(alloc, limits, left, right, &mut values)?;
    let list = listed(alloc, grids, &values)?;
    Ok(list)
}

/// How many these are. None of them is made. `Err` as of `differences`.
pub fn difference_count(
    alloc: Global,
    limits: Limits,
    left: &Table,
    right: &Table,
) -> Result<usize, Fault>
    ensures ok { IfOk result (CountsDifferences left.now.rows right.now.rows) }
    ensures few { IfOk result (λ count. count ≤ limits.entries) }
    ensures err { IfErr result (DifferencesFault limits left.now.rows right.now.rows) }
{
    let mut values = Values::new(alloc);
    let grids = counted_differences(alloc, limits, left, right, &mut values)?;
    let _valid = limits.entries();
    Ok(grids.count() as usize)
}
