ghost use Rattle.std.specs.Prelude.{◌≡◌, ◌∷◌, ◌++◌, List, [], MatchOption, length};
ghost use Rattle.babel_tlv.specs.Pair.{Pair};
ghost use Rattle.babel_tlv.specs.declared.held.Held.{Held};

use crate::compact_row::CompactRow;
use crate::hop::Hop;
use crate::word::Word;
use babel_prefix::{Addr, Halves};
use babel_tlv::{Held, Key};

/// The rows of a table in rising order, each once.
#[derive(Clone, Copy)]
pub struct TableRows<'a> {
    /// Of IPv4, with next hops of IPv4 alone.
    pub(crate) v4: &'a [CompactRow<u32, u32>],
    /// Of IPv4, with any next hops.
    pub(crate) v4_any_hop: &'a [CompactRow<u32, Addr>],
    pub(crate) v6: &'a [CompactRow<Halves, Halves>],
}

/// Both without the rows that both begin with and that are kept in the same octets.
fn past_alike<'a, W: Word, H: Hop>(
    rows: &'a [CompactRow<W, H>],
    others: &'a [CompactRow<W, H>],
) -> (&'a [CompactRow<W, H>], &'a [CompactRow<W, H>])
    ensures { (alike : List Pair) × (rows.now ≡ alike ++ result.0.now)
        × (others.now ≡ alike ++ result.1.now) }
{
    let (mut left, mut right) = (rows, others);
    while let [row, rest @ ..] = left {
        let [other, other_rest @ ..] = right else {
            break;
        };
        if row.0 != other.0 || !row.1.is(&other.1) {
            break;
        }
        left = rest;
        right = other_rest;
    }
    (left, right)
}

impl<'a> TableRows<'a> {
    ghost use Rattle.babel_table.specs.Left.{rows_left};

    /// How many rows are left.
    pub fn len(&self) -> usize
        ensures { result ≡ length (rows_left self.now) }
    {
        self.v4.len() + self.v4_any_hop.len() + self.v6.len()
    }

    /// Passes by the rows that both have next and that are kept in the same octets, up to the first
    /// that is not.
    pub fn pass_alike(&mut self, other: &mut TableRows<'a>)
        ensures { (alike : List Pair) × (rows_left self.old ≡ alike ++ rows_left self.new)
            × (rows_left other.old ≡ alike ++ rows_left other.new) }
    {
        (self.v4, other.v4) = past_alike(self.v4, other.v4);
        if !self.v4.is_empty() || !other.v4.is_empty() {
            return;
        }
        (self.v4_any_hop, other.v4_any_hop) = past_alike(self.v4_any_hop, other.v4_any_hop);
        if self.v4_any_hop.is_empty() && other.v4_any_hop.is_empty() {
            (self.v6, other.v6) = past_alike(self.v6, other.v6);
        }
    }

    /// The key of the next row, which is passed by with what it holds; `None` where no row is left.
    pub fn next_key(&mut self) -> Option<Key>
        ensures { MatchOption result
            ((rows_left self.old ≡ []) × (rows_left self.new ≡ []))
            (λ key. (held : Held) × (rows_left self.old ≡ (key, held) ∷ rows_left self.new)) }
    {
        if let [(key, _), rest @ ..] = self.v4 {
            self.v4 = rest;
            return Some(key.key());
        }
        if let [(key, _), rest @ ..] = self.v4_any_hop {
            self.v4_any_hop = rest;
            return Some(key.key());
        }
        let [(key, _), rest @ ..] = self.v6 else {
            return None;
        };
        self.v6 = rest;
        Some(key.key())
    }
}

impl<'a> Iterator for TableRows<'a> {
    ghost use Rattle.std.specs.Iterator.{YieldsFirst, item_count};
    ghost use Rattle.babel_table.specs.Left.{rows_left};

    type Item = (Key, Held);

    ghost next_gives = { YieldsFirst rows_left };

    ghost remaining = { item_count rows_left };

    fn next(&mut self) -> Option<(Key, Held)> {
        if let [(key, held), rest @ ..] = self.v4 {
            self.v4 = rest;
            return Some((key.key(), held.held()));
        }
        if let [(key, held), rest @ ..] = self.v4_any_hop {
            self.v4_any_hop = rest;
            return Some((key.key(), held.held()));
        }
        let [(key, held), rest @ ..] = self.v6 else {
            return None;
        };
        self.v6 = rest;
        Some((key.key(), held.held()))
    }
}
