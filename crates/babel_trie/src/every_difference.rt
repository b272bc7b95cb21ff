ghost use Rattle.std.specs.Prelude.{◌≡◌, ◌-◌, ◌^◌, All, None, IfOk, IfSome, IsSome};
ghost use Rattle.babel_prefix.specs.Width.{width_of};
ghost use Rattle.babel_prefix.specs.Entries.{answers_in};
ghost use Rattle.babel_prefix.specs.BestRow.{AreOfFamily, HasDistinctPrefixes};
ghost use Rattle.babel_trie.specs.Differences.{AreDifferences};
ghost use Rattle.babel_trie.specs.Early.{HasMoreDifferences};

use crate::comparison::Comparison;
use crate::differing::Differing;
use crate::grid::Grid;
use crate::lawful::LawfulOrd;
use crate::ordered::{in_order, sorted_copy};
use crate::rows::{Row, Rows};
use babel_prefix::Family;
use std::alloc::{AllocError, Global};

/// What two lists of rows answer differently: the boxes of the two answers, where they differ, and
/// their number. All prefixes are of the family, and no two rows of a list have the same two. `Err`
/// if memory runs out.
///
/// The lists are gone through side by side. The tries of sources of both stand in one table of
/// nodes, in which equal tries have one number, so only what differs is gone into; nodes of blocks
/// that have ended are given up.
pub fn differences<V: LawfulOrd>(
    alloc: Global,
    family: Family,
    left: &[Row<V>],
    right: &[Row<V>],
) -> Result<Grid<Differing<V>>, AllocError>
    requires left_family { All (AreOfFamily family) left.now }
    requires left_prefixes { HasDistinctPrefixes left.now }
    requires right_family { All (AreOfFamily family) right.now }
    requires right_prefixes { HasDistinctPrefixes right.now }
    ensures family { IfOk result (λ grid. grid.family ≡ family) }
    ensures boxes { IfOk result (λ grid. AreDifferences (width_of family)
        (answers_in family left.now) (answers_in family right.now) grid.boxes) }
{
    differences_of(alloc, family, left, right)
}

/// The same of rows that are no slices: they are gone through one by one, and not copied if they
/// stand in order.
pub fn differences_of<V: LawfulOrd, L: Rows<V>, R: Rows<V>>(
    alloc: Global,
    family: Family,
    left: L,
    right: R,
) -> Result<Grid<Differing<V>>, AllocError>
    requires left_family { All (AreOfFamily family) (L.rows left) }
    requires left_prefixes { HasDistinctPrefixes (L.rows left) }
    requires right_family { All (AreOfFamily family) (R.rows right) }
    requires right_prefixes { HasDistinctPrefixes (R.rows right) }
    ensures family { IfOk result (λ grid. grid.family ≡ family) }
    ensures boxes { IfOk result (λ grid. AreDifferences (width_of family)
        (answers_in family (L.rows left)) (answers_in family (R.rows right)) grid.boxes) }
{
    let grid = differences_within(alloc, family, left, right, u64::MAX)?;
    Ok(grid.unwrap())
}

/// The same within a number of boxes: `None` as soon as the differences are known to have more than
/// so many. The rest of the rows is then not gone through.
pub fn differences_within<V: LawfulOrd, L: Rows<V>, R: Rows<V>>(
    alloc: Global,
    family: Family,
    left: L,
    right: R,
    most: u64,
) -> Result<Option<Grid<Differing<V>>>, AllocError>
    requires left_family { All (AreOfFamily family) (L.rows left) }
    requires left_prefixes { HasDistinctPrefixes (L.rows left) }
    requires right_family { All (AreOfFamily family) (R.rows right) }
    requires right_prefixes { HasDistinctPrefixes (R.rows right) }
    ensures many { IfOk result (λ grid. grid ≡ None → HasMoreDifferences most (width_of family)
        (answers_in family (L.rows left)) (answers_in family (R.rows right))) }
    ensures family { IfOk result (λ grid. IfSome grid (λ grid. grid.family ≡ family)) }
    ensures boxes { IfOk result (λ grid. IfSome grid (λ grid. AreDifferences (width_of family)
        (answers_in family (L.rows left)) (answers_in family (R.rows right)) grid.boxes)) }
    ensures all { most ≡ 2 ^ 64 - 1 → IfOk result IsSome }
{
    let copy = sorted_copy(alloc, left)?;
    let other_copy = sorted_copy(alloc, right)?;
    let rows = in_order(left, &copy);
    let other_rows = in_order(right, &other_copy);
    let mut comparison = Comparison::new(alloc);
    let Some(runs) = comparison.runs(alloc, family.width(), rows, other_rows, most)? else {
        return Ok(None);
    };
    let grid = Grid::of_runs(alloc, family, comparison.into_differences(), runs)?;
    Ok(Some(grid))
}
