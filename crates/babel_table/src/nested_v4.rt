ghost use Rattle.std.specs.Prelude.{◌≡◌, if◌then◌else◌, ◌++◌};
ghost use Rattle.babel_prefix.specs.declared.family.Family.TheVariants.{V4};
ghost use Rattle.babel_table.specs.RowFor.{IsBestOf, row_at};
ghost use Rattle.babel_table.specs.Seen.{seen_rows};

use crate::compact_row::CompactRow;
use crate::nested_rows::NestedRows;
use crate::row_place::RowPlace;
use babel_prefix::Addr;
use babel_tlv::{Held, Key, View};
use std::marker::Model;

/// The rows of IPv4 in rising order: with next hops of IPv4 alone in 4 octets each, or all of them
/// so that any next hop can be kept.
#[derive(Drop)]
pub struct NestedV4 {
    pub is_wide: bool,
    /// All rows, if no next hop is of IPv6.
    pub narrow: NestedRows<u32, u32>,
    /// All rows otherwise.
    pub wide: NestedRows<u32, Addr>,
}

impl Model for NestedV4 {
    ghost use Rattle.std.specs.Prelude.{List, if◌then◌else◌};
    ghost use Rattle.babel_tlv.specs.Pair.{Pair};

    ghost Value = { List Pair };

    ghost view = { λ r. if r.is_wide then r.wide else r.narrow };
}

impl NestedV4 {
    /// The rows in order: those with next hops of IPv4 alone, and those with any. One of the two
    /// is empty.
    pub fn slices(&self) -> (&[CompactRow<u32, u32>], &[CompactRow<u32, Addr>])
        ensures { result.0.now ++ result.1.now ≡ self.now }
    {
        if self.is_wide {
            (&[], self.wide.as_slice())
        } else {
            (self.narrow.as_slice(), &[])
        }
    }

    /// Puts what the view sees in place of what each row holds.
    pub fn see(&mut self, view: View)
        ensures { self.new ≡ seen_rows view self.old }
    {
        if self.is_wide {
            self.wide.see(view);
        } else {
            self.narrow.see(view);
        }
    }

    /// The place of the best matching row, for two addresses of IPv4.
    pub fn best_place(&self, dst: &Addr, src: &Addr) -> RowPlace
        requires dst_family { dst.now.family ≡ V4 }
        requires src_family { src.now.family ≡ V4 }
        ensures { IsBestOf self.now dst.now src.now (row_at self.now result) }
    {
        if self.is_wide {
            self.wide.best_place(dst, src)
        } else {
            self.narrow.best_place(dst, src)
        }
    }

    /// The row at a place, if one stands there.
    pub fn row_at(&self, place: RowPlace) -> Option<(Key, Held)>
        ensures { result ≡ row_at self.now place }
    {
        if self.is_wide {
            self.wide.row_at(place)
        } else {
            self.narrow.row_at(place)
        }
    }
}
