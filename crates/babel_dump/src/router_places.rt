//! The places at which a router that selects sends.
ghost use Rattle.std.specs.Prelude.{◌≡◌};
ghost use Rattle.babel_dump.specs.SelectHeard.{sends_somewhere};
ghost use Rattle.babel_dump.specs.SelectOffers.{is_at, sends_from};

use crate::select_job::Select;
use babel_capture::{Gathered, Origin, Place};
use babel_prefix::Addr;

/// Whether this address sends at this place.
pub(crate) fn sends_from(gathered: &Gathered, place: Place, sender: Addr) -> bool
    ensures { result ≡ sends_from gathered.now.senders place sender }
{
    gathered.senders().contains_key(&Origin { place, sender })
}

/// Whether the router sends at this place.
pub(crate) fn is_at(select: &Select, gathered: &Gathered, place: Place) -> bool
    ensures { result ≡ is_at select.now.routers.items gathered.now.senders place }
{
    let mut found = false;
    for router in &select.routers {
        found = found || sends_from(gathered, place, *router);
    }
    found
}

/// Whether an address sends at a place that is asked for.
pub(crate) fn sends(select: &Select, gathered: &Gathered, address: Addr) -> bool
    ensures { result ≡ sends_somewhere select.now.each.place gathered.now.senders address }
{
    for (origin, _) in gathered.senders() {
        if origin.sender == address && select.each.asks_for(origin) {
            return true;
        }
    }
    false
}

/// At how many places an address sends, of those that are asked for.
fn count_places(select: &Select, gathered: &Gathered, address: Addr) -> usize {
    let mut places: usize = 0;
    for origin in gathered.senders().keys() {
        if origin.sender == address && select.each.asks_for(origin) {
            places = places.wrapping_add(1);
        }
    }
    places
}

/// The greatest Interval of the Updates that announce, of the senders where the router sends.
pub(crate) fn greatest_interval(select: &Select, gathered: &Gathered) -> Option<u16> {
    let mut greatest = None;
    for (origin, tally) in gathered.senders() {
        if select.each.asks_for(origin) && is_at(select, gathered, origin.place) {
            greatest = greatest.max(tally.interval);
        }
    }
    greatest
}

/// The first address of the router that sends at several places, if one does.
pub(crate) fn at_several(select: &Select, gathered: &Gathered) -> Option<Addr> {
    for router in &select.routers {
        if count_places(select, gathered, *router) > 1 {
            return Some(*router);
        }
    }
    None
}
