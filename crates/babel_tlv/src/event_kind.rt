ghost use Rattle.std.specs.Prelude.{◌≡◌};
ghost use Rattle.babel_tlv.specs.EventKinds.{event_of};

use crate::event::Event;
use crate::reason::Reason;
use crate::route::Route;

/// What a TLV says, but for the route that it says it of: RFC 8966, 4.6.
#[derive(Clone, Copy)]
pub enum EventKind {
    /// An Update with a finite metric: the route.
    Announce,
    /// An Update with an infinite metric: no route for the key.
    Retract,
    /// A wildcard Update: no route of this sender at all.
    RetractAll,
    /// Nothing about routes.
    Nothing,
    /// A TLV that is ignored. It may have changed the parser state.
    Ignored(Reason),
}

impl EventKind {
    /// The event of this kind, of the route.
    pub fn event(self, route: &Route) -> Event
        ensures { result ≡ event_of self route.now }
    {
        match self {
            EventKind::Announce => Event::Announce(route.key, route.ann),
            EventKind::Retract => Event::Retract(route.key),
            EventKind::RetractAll => Event::RetractAll,
            EventKind::Nothing => Event::Nothing,
            EventKind::Ignored(reason) => Event::Ignored(reason),
        }
    }
}
