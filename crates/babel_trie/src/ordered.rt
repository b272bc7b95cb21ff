//! Rows put in order, unless they stand in it.
ghost use Rattle.std.specs.Prelude.{◌≡◌, All, List, MatchOption, IfOk, OnOk};
ghost use Rattle.std.specs.List.Sorted.{IsPermutation};
ghost use Rattle.babel_prefix.specs.BestRow.{HasPrefixes};
ghost use Rattle.babel_prefix.specs.Entries.{Entry};
ghost use Rattle.babel_trie.specs.Held.{RowOrder};
ghost use Rattle.babel_trie.specs.Ordered.{rows_of_ordered};
ghost use Rattle.babel_trie.specs.Rows.{InOrder};

use crate::rows::{Row, Rows, sorted_rows};
use std::alloc::{AllocError, Global};

/// Rows in order: as they are, or a sorted copy of them.
#[derive(Clone, Copy)]
pub enum Ordered<'a, V, R> {
    AsTheyAre(R),
    Sorted(&'a [Row<V>]),
}

impl<'a, V: Copy, R: Rows<V>> Rows<V> for Ordered<'a, V, R> {
    ghost rows = { rows_of_ordered R.rows };

    fn split(self) -> Option<(Row<V>, Ordered<'a, V, R>)> {
        match self {
            Ordered::AsTheyAre(rows) => {
                let (first, others) = rows.split()?;
                Some((first, Ordered::AsTheyAre(others)))
            }
            Ordered::Sorted(rows) => {
                let (first, others) = rows.split_first()?;
                Some((*first, Ordered::Sorted(others)))
            }
        }
    }

    fn room(self) -> usize {
        match self {
            Ordered::AsTheyAre(rows) => rows.room(),
            Ordered::Sorted(rows) => rows.len(),
        }
    }
}

/// A sorted copy of rows, unless they stand in order.
pub fn sorted_copy<V: Copy, R: Rows<V>>(
    alloc: Global,
    rows: R,
) -> Result<Option<Vec<Row<V>>>, AllocError>
    ensures prefixes { OnOk result (All HasPrefixes (R.rows rows)) }
    ensures copy { IfOk result (λ copy. MatchOption copy (InOrder RowOrder (R.rows rows))
        (λ sorted. IsPermutation (R.rows rows) sorted.items × InOrder RowOrder sorted.items)) }
{
    if rows.are_in_order() {
        return Ok(None);
    }
    let sorted = sorted_rows(alloc, rows)?;
    Ok(Some(sorted))
}

/// The rows in order, of which there is a sorted copy unless they stand so.
pub fn in_order<V: Copy, R: Rows<V>>(rows: R, copy: &Option<Vec<Row<V>>>) -> Ordered<'_, V, R>
    requires { MatchOption copy.now (InOrder RowOrder (R.rows rows))
        (λ sorted. IsPermutation (R.rows rows) sorted.items × InOrder RowOrder sorted.items) }
    ensures permutation { IsPermutation (R.rows rows) (rows_of_ordered R.rows result) }
    ensures in_order { InOrder RowOrder (rows_of_ordered R.rows result) }
{
    match copy {
        None => Ordered::AsTheyAre(rows),
        Some(sorted) => Ordered::Sorted(sorted.as_slice()),
    }
}
