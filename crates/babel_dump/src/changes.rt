//! What two dumps hold or answer differently, in a list, or looked for as it is written.
ghost use Rattle.std.specs.Prelude.{◌≡◌, ◌↔◌, [], IsTrue};
ghost use Rattle.babel_dump.specs.Changes.{changes_left, changes_of};

use crate::both::SeenTables;
use babel_canon::{Difference, RouteDifferences};

/// Differences in their order.
#[derive(Drop)]
pub(crate) enum Changes {
    Listed(Vec<Difference>),
    /// The keys for which two tables hold what differs. They are looked for one by one.
    OfRoutes(SeenTables),
}

impl Changes {
    /// Whether there are none.
    pub fn is_empty(&self) -> bool
        ensures { IsTrue result ↔ (changes_of self.now ≡ []) }
    {
        self.iter().next().is_none()
    }

    /// Each of them.
    pub fn iter(&self) -> ChangesLeft<'_>
        ensures { changes_left result ≡ changes_of self.now }
    {
        match self {
            Changes::Listed(list) => ChangesLeft::Listed(list),
            Changes::OfRoutes(seen) => ChangesLeft::OfRoutes(seen.route_differences()),
        }
    }
}

/// Those of them that are left.
#[derive(Clone, Copy)]
pub(crate) enum ChangesLeft<'a> {
    Listed(&'a [Difference]),
    OfRoutes(RouteDifferences<'a>),
}

impl<'a> Iterator for ChangesLeft<'a> {
    ghost use Rattle.std.specs.Iterator.{YieldsFirst, item_count};
    ghost use Rattle.babel_dump.specs.Changes.{changes_left};

    type Item = Difference;

    ghost next_gives = { YieldsFirst changes_left };

    ghost remaining = { item_count changes_left };

    fn next(&mut self) -> Option<Difference> {
        match *self {
            ChangesLeft::Listed(list) => {
                let [first, rest @ ..] = list else {
                    return None;
                };
                *self = ChangesLeft::Listed(rest);
                Some(*first)
            }
            ChangesLeft::OfRoutes(routes) => {
                let mut routes = routes;
                let next = routes.next();
                *self = ChangesLeft::OfRoutes(routes);
                next
            }
        }
    }
}
