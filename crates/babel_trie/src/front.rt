//! The rows that two lists begin with both. Up to the first other row the lists answer the same,
//! and after it only those of these rows matter whose destinations reach there.
ghost use Rattle.std.specs.Prelude.{◌≡◌, filter, IfSome, IfNone, true};
ghost use Rattle.babel_trie.specs.Front.{reaches, ShareFront};
ghost use Rattle.babel_trie.specs.Held.{RowOrder};
ghost use Rattle.babel_trie.specs.Rows.{InOrder};

use crate::lawful::{LawfulOrd, are_same};
use crate::pass::{first_start, nearer_start};
use crate::rows::{Row, Rows};
use std::alloc::AllocError;

/// Whether two rows are one.
fn are_one<V: LawfulOrd>(row: &Row<V>, other: &Row<V>) -> bool
    ensures { result ≡ true → row.now ≡ other.now }
{
    row.0 == other.0 && row.1 == other.1 && are_same(row.2, other.2)
}

/// Where the destination starts of the first row, by its start, that does not stand in both lists
/// after the same rows; `None` if the lists are one.
pub fn first_unshared<V: LawfulOrd, L: Rows<V>, R: Rows<V>>(left: L, right: R) -> Option<u128>
    requires left_order { InOrder RowOrder (L.rows left) }
    requires right_order { InOrder RowOrder (R.rows right) }
    ensures none { IfNone result (L.rows left ≡ R.rows right) }
    ensures some { IfSome result (ShareFront (L.rows left) (R.rows right)) }
{
    let mut rest = left;
    let mut other_rest = right;
    while let (Some((row, later)), Some((other, other_later))) = (
        rest.split(),
        other_rest.split(),
    ) {
        if !are_one(&row, &other) {
            break;
        }
        rest = later;
        other_rest = other_later;
    }
    nearer_start(first_start(rest.split()), first_start(other_rest.split()))
}

/// Whether the destination of a row, among addresses of this width, reaches this one or a later
/// one.
fn reaches<V>(row: &Row<V>, width: u8, at: u128) -> bool
    ensures { result ≡ reaches width at row.now }
{
    let bits = width.saturating_sub(row.0.len());
    bits >= 128 || at >> bits <= row.0.addr().bits() >> bits
}

/// The rows whose destinations, among addresses of this width, reach this one or a later one.
#[derive(Copy)]
pub struct Reaching<R> {
    pub rows: R,
    pub width: u8,
    pub at: u128,
}

impl<R: Copy> Clone for Reaching<R> {
    fn clone(&self) -> Result<Reaching<R>, AllocError> {
        Ok(*self)
    }
}

impl<V: Copy, R: Rows<V>> Rows<V> for Reaching<R> {
    ghost rows = { λ r. filter (reaches r.width r.at) (R.rows r.rows) };

    fn split(self) -> Option<(Row<V>, Reaching<R>)> {
        let mut left = self.rows;
        while let Some((row, others)) = left.split() {
            if reaches(&row, self.width, self.at) {
                let rest = Reaching {
                    rows: others,
                    ..self
                };
                return Some((row, rest));
            }
            left = others;
        }
        None
    }

    fn room(self) -> usize {
        self.rows.room()
    }
}
