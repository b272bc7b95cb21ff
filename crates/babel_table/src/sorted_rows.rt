ghost use Rattle.std.specs.Prelude.{◌≡◌};
ghost use Rattle.babel_table.specs.RowFor.{IsBestOf, row_at};
ghost use Rattle.babel_table.specs.Left.{rows_left};
ghost use Rattle.babel_table.specs.Seen.{seen_rows};
ghost use Rattle.babel_table.specs.TableRows.{AreRows, family_rows};

use crate::nested_rows::NestedRows;
use crate::nested_v4::NestedV4;
use crate::row_place::RowPlace;
use crate::table_rows::TableRows;
use babel_prefix::{Addr, Family, Halves};
use babel_tlv::{Held, Key, View};
use std::marker::Model;

/// Rows in rising order: of IPv4, then of IPv6.
#[derive(Drop)]
pub struct SortedRows {
    pub v4: NestedV4,
    pub v6: NestedRows<Halves, Halves>,
}

impl Model for SortedRows {
    ghost use Rattle.std.specs.Prelude.{List, ◌++◌};
    ghost use Rattle.babel_prefix.specs.declared.family.Family.TheVariants.{V4, V6};
    ghost use Rattle.babel_tlv.specs.Pair.{Pair};
    ghost use Rattle.babel_table.specs.Compact.{AreOf};
    ghost use Rattle.babel_table.specs.TableRows.{AreRows};

    ghost Value = { List Pair };

    ghost view = { λ r. r.v4 ++ r.v6 };

    ghost invariant = { λ r. AreOf V4 r.v4 × AreOf V6 r.v6
        × AreRows (r.v4 ++ r.v6) };
}

impl SortedRows {
    /// The rows in order.
    pub fn iter(&self) -> TableRows<'_>
        ensures value { rows_left result ≡ self.now }
        ensures valid { AreRows self.now }
    {
        let (v4, v4_any_hop) = self.v4.slices();
        TableRows {
            v4,
            v4_any_hop,
            v6: self.v6.as_slice(),
        }
    }

    /// The rows of one family in order.
    pub fn of_family(&self, family: Family) -> TableRows<'_>
        ensures value { rows_left result ≡ family_rows family self.now }
        ensures valid { AreRows self.now }
    {
        match family {
            Family::V4 => {
                let (v4, v4_any_hop) = self.v4.slices();
                TableRows {
                    v4,
                    v4_any_hop,
                    v6: &[],
                }
            }
            Family::V6 => TableRows {
                v4: &[],
                v4_any_hop: &[],
                v6: self.v6.as_slice(),
            },
        }
    }

    /// The place of the best matching row among the rows of the family of two addresses.
    pub fn best_place(&self, dst: &Addr, src: &Addr) -> RowPlace
        requires one_family { dst.now.family ≡ src.now.family }
        ensures valid { AreRows self.now }
        ensures best { IsBestOf self.now dst.now src.now
            (row_at (family_rows dst.now.family self.now) result) }
    {
        match dst.family() {
            Family::V4 => self.v4.best_place(dst, src),
            Family::V6 => self.v6.best_place(dst, src),
        }
    }

    /// The row at a place among the rows of a family, if one stands there.
    pub fn row_at(&self, family: Family, place: RowPlace) -> Option<(Key, Held)>
        ensures { result ≡ row_at (family_rows family self.now) place }
    {
        match family {
            Family::V4 => self.v4.row_at(place),
            Family::V6 => self.v6.row_at(place),
        }
    }

    /// The same keys, with what the view sees of what they hold.
    #[tactic(auto, using(crate::proofs::SeenLaws::seeing))]
    pub fn seen(self, view: View) -> SortedRows
        ensures { result ≡ seen_rows view self }
    {
        let SortedRows { mut v4, mut v6 } = self;
        v4.see(view);
        v6.see(view);
        SortedRows { v4, v6 }
    }
}
