//! Of which keys `select` tells, and what there is to know of them.
ghost use Rattle.std.specs.Prelude.{◌≡◌, IfOk};
ghost use Rattle.babel_dump.specs.SelectTold.{is_used, keeps_told, told_routes, told_status};
ghost use Rattle.babel_dump.specs.SelectTold.{used_keys};

use crate::addr_pair::AddrPair;
use crate::filter::Filter;
use crate::select_job::Select;
use crate::speaker::Speaker;
use babel_selection::{ChosenRoute, RouteState, Sources, UsedKey, best_used, is_told};
use babel_tlv::Key;
use std::alloc::{AllocError, Global};

/// Of which keys it is told: those that a filter keeps; or those of the answer for two addresses.
#[derive(Clone, Copy)]
pub(crate) struct ToldRoutes {
    filter: Filter,
    pair: Option<AddrPair>,
    /// The best match of the keys of which a route is used, if one is.
    best: Option<Key>,
}

/// How many keys have several routes of the least metric, of those that are told; how many have a
/// route of another sender; and for how many of these the router announced a route.
#[derive(Clone, Copy)]
pub(crate) struct KeyCounts {
    pub ties: u64,
    pub keys: u64,
    pub announced: u64,
}

impl ToldRoutes {
    /// Of which of these routes it is told.
    pub(crate) fn of(
        alloc: Global,
        select: &Select,
        routes: &[ChosenRoute<Speaker>],
    ) -> Result<ToldRoutes, AllocError>
        ensures { IfOk result
            (λ told. told ≡ told_routes select.now.filter select.now.pair routes.now) }
    {
        let best = match &select.pair {
            Some(pair) => best_used(&used_keys(alloc, pair, routes)?, &pair.dst, &pair.src),
            None => None,
        };
        Ok(ToldRoutes {
            filter: select.filter,
            pair: select.pair,
            best,
        })
    }

    /// Whether it is told of a key.
    pub(crate) fn keeps(&self, key: &Key) -> bool
        ensures { result ≡ keeps_told self.now key.now }
    {
        match &self.pair {
            Some(pair) => is_told(&self.best, key, &pair.dst, &pair.src),
            None => self.filter.keeps_key(key),
        }
    }

    /// The exit status: 1 where no route is used for the two addresses that are asked for.
    pub(crate) fn status(&self) -> u8
        ensures { result ≡ told_status self.now.pair self.now.best }
    {
        match (&self.pair, &self.best) {
            (Some(_), None) => 1,
            _ => 0,
        }
    }
}

impl KeyCounts {
    /// Those of these routes, of which so many are told, at the moment.
    pub(crate) fn of(
        alloc: Global,
        told: &ToldRoutes,
        routes: &[ChosenRoute<Speaker>],
        sources: &Sources,
        moment: u128,
    ) -> Result<KeyCounts, AllocError> {
        let announced = sources.keys(alloc, moment)?;
        let mut counts = KeyCounts {
            ties: 0,
            keys: 0,
            announced: 0,
        };
        let mut counting = Counting::none();
        for route in routes {
            let (key, state) = (route.offer.key, route.state);
            counting.begin(key);
            if state.is_some() && counting.others_begin() {
                counts.keys = counts.keys.wrapping_add(1);
                if announced.binary_search(&key).is_ok() {
                    counts.announced = counts.announced.wrapping_add(1);
                }
            }
            if is_selected(state) && counting.ties_begin() && told.keeps(&key) {
                counts.ties = counts.ties.wrapping_add(1);
            }
        }
        Ok(counts)
    }
}

/// How many routes of a key were counted.
#[derive(Clone, Copy)]
struct Counting {
    key: Option<Key>,
    others: u64,
    selected: u64,
}

impl Counting {
    /// None.
    fn none() -> Counting {
        Counting {
            key: None,
            others: 0,
            selected: 0,
        }
    }

    /// Begins with a key, unless it is the same.
    fn begin(&mut self, key: Key) {
        if self.key != Some(key) {
            *self = Counting {
                key: Some(key),
                others: 0,
                selected: 0,
            };
        }
    }

    /// One more of another sender: whether it is the first.
    fn others_begin(&mut self) -> bool {
        self.others = self.others.wrapping_add(1);
        self.others == 1
    }

    /// One more that is selected: whether it is the second.
    fn ties_begin(&mut self) -> bool {
        self.selected = self.selected.wrapping_add(1);
        self.selected == 2
    }
}

/// Whether the router selects a route.
fn is_selected(state: Option<RouteState>) -> bool {
    matches!(state, Some(RouteState::Selected))
}

/// The keys of these routes that match two addresses, and whether the router uses each route: one of
/// its own, or one that it selects.
fn used_keys(
    alloc: Global,
    pair: &AddrPair,
    routes: &[ChosenRoute<Speaker>],
) -> Result<Vec<UsedKey>, AllocError>
    ensures { IfOk result (λ keys. keys.items ≡ used_keys pair.now routes.now) }
{
    let mut keys = Vec::new(alloc);
    for route in routes {
        let key = route.offer.key;
        if is_told(&None, &key, &pair.dst, &pair.src) {
            keys.push(UsedKey {
                key,
                is_used: is_used(route.state),
            })?;
        }
    }
    Ok(keys)
}

/// Whether the router uses a route: one of its own, or one that it selects.
fn is_used(state: Option<RouteState>) -> bool
    ensures { result ≡ is_used state }
{
    match state {
        None | Some(RouteState::Selected) => true,
        Some(_) => false,
    }
}
