ghost use Rattle.std.specs.Prelude.{◌≡◌, ◌↔◌, IsTrue};
ghost use Rattle.babel_prefix.specs.Address.{IsAddress};
ghost use Rattle.babel_tlv.specs.Keys.{IsAnnouncement};
ghost use Rattle.babel_tlv.specs.Views.{keeps_all, no_address, seen, seen_announcement};

use crate::ann::Ann;
use crate::held::Held;
use babel_prefix::{Addr, Family, Prefix};

/// The router-id in place of one that is ignored. It is not reserved (RFC 8966, 4.1.3).
const STATED_ID: [u8; 8] = [0, 0, 0, 0, 0, 0, 0, 1];

/// Which fields of an announcement (RFC 8966, 4.6.9) count: those that are true are kept, and the
/// others ignored.
#[derive(Clone, Copy)]
pub struct View {
    /// Whether the address that packets are sent to counts.
    pub next_hop: bool,
    /// Whether the router that the route came from counts.
    pub router_id: bool,
    /// Whether the sequence number counts.
    pub seqno: bool,
    /// Whether the metric counts.
    pub metric: bool,
}

/// The address in place of a next hop that is ignored, by the key's family: `0.0.0.0` or `::`.
fn no_address(family: Family) -> Addr
    ensures { result ≡ no_address family }
{
    Prefix::whole(family).addr()
}

impl View {
    /// The view that keeps every field.
    pub fn all() -> View
        ensures { result ≡ keeps_all }
    {
        View {
            next_hop: true,
            router_id: true,
            seqno: true,
            metric: true,
        }
    }

    /// Whether the view keeps every field.
    pub fn is_all(self) -> bool
        ensures { IsTrue result ↔ (self ≡ keeps_all) }
    {
        self.next_hop && self.router_id && self.seqno && self.metric
    }

    /// What is held for a key of the family, with a stated value for each field that is ignored:
    /// next hop `0.0.0.0` or `::`, router-id `0000000000000001`, seqno 0, metric 0. What is seen of
    /// a route can be announced as a route.
    pub fn seen(self, family: Family, held: Held) -> Held
        ensures { result ≡ seen self family held }
    {
        match held {
            Held::Route(ann) => Held::Route(self.seen_announcement(family, ann)),
            Held::Unreachable => Held::Unreachable,
        }
    }

    /// An announcement for a key of the family, with these values.
    fn seen_announcement(self, family: Family, ann: Ann) -> Ann
        ensures { result ≡ seen_announcement self family ann }
    {
        let router_id = if self.router_id {
            ann.router_id()
        } else {
            STATED_ID
        };
        let next_hop = if self.next_hop {
            ann.next_hop()
        } else {
            no_address(family)
        };
        let seqno = if self.seqno { ann.seqno() } else { 0 };
        let metric = if self.metric { ann.metric() } else { 0 };
        Ann::of_route(router_id, seqno, metric, next_hop)
    }
}
