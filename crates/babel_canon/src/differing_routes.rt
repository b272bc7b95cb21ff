//! How the routes of two tables differ.
ghost use Rattle.std.specs.Prelude.{◌≡◌};
ghost use Rattle.std.specs.Iterator.{YieldsFirst};
ghost use Rattle.babel_canon.specs.Joined.{differ, differences_left, differing, joined_left};
ghost use Rattle.babel_canon.specs.Routes.{AreRouteDifferences};

use crate::every_difference::Difference;
use babel_table::{Table, TableRows};
use babel_tlv::{Held, Key};
use std::cmp::Ordering;

/// The keys that are left for which two tables hold different things, with what they hold, by
/// family, IPv4 first, then by destination, then by source. They are looked for one by one.
#[derive(Clone, Copy)]
pub struct RouteDifferences<'a> {
    left: TableRows<'a>,
    right: TableRows<'a>,
}

/// A key, and what two tables hold for it, if anything.
type Joined = (Key, (Option<Held>, Option<Held>));

/// Whether two tables hold different things.
fn differ(left: &Option<Held>, right: &Option<Held>) -> bool
    ensures { result ≡ differ (left.now, right.now) }
{
    left.cmp(right).is_ne()
}

impl<'a> RouteDifferences<'a> {
    /// Those of these two tables.
    pub fn of(left: &'a Table, right: &'a Table) -> RouteDifferences<'a>
        ensures are { AreRouteDifferences left.now.rows right.now.rows (differences_left result) }
        ensures value { differences_left result ≡ differing left.now.rows right.now.rows }
    {
        RouteDifferences {
            left: left.rows(),
            right: right.rows(),
        }
    }

    /// The next key that one of the tables has, and what both hold for it.
    fn next_key(&mut self) -> Option<Joined>
        ensures { YieldsFirst joined_left self.old result self.new }
    {
        let (mut left, mut right) = (self.left, self.right);
        match (left.next(), right.next()) {
            (None, None) => None,
            (Some((key, held)), None) => {
                self.left = left;
                Some((key, (Some(held), None)))
            }
            (None, Some((key, held))) => {
                self.right = right;
                Some((key, (None, Some(held))))
            }
            (Some((key, held)), Some((other_key, other_held))) => match key.cmp(&other_key) {
                Ordering::Less => {
                    self.left = left;
                    Some((key, (Some(held), None)))
                }
                Ordering::Equal => {
                    self.left = left;
                    self.right = right;
                    Some((key, (Some(held), Some(other_held))))
                }
                Ordering::Greater => {
                    self.right = right;
                    Some((other_key, (None, Some(other_held))))
                }
            },
        }
    }
}

impl<'a> Iterator for RouteDifferences<'a> {
    ghost use Rattle.std.specs.Iterator.{YieldsFirst, item_count};
    ghost use Rattle.babel_canon.specs.Joined.{differences_left};

    type Item = Difference;

    ghost next_gives = { YieldsFirst differences_left };

    ghost remaining = { item_count differences_left };

    fn next(&mut self) -> Option<Difference> {
        self.left.pass_alike(&mut self.right);
        while let Some((key, (left, right))) = self.next_key() {
            if differ(&left, &right) {
                return Some(Difference { key, left, right });
            }
        }
        None
    }
}
