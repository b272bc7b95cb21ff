ghost use Rattle.std.specs.Prelude.{◌≡◌, IsTrue};
ghost use Rattle.babel_tlv.specs.Views.{no_address, seen};
ghost use Rattle.babel_table.specs.Compact.{CanKeep};
ghost use Rattle.babel_table.specs.Words.{is_route};

use crate::hop::Hop;
use babel_prefix::{Addr, Family};
use babel_tlv::{Ann, Held, View};
use std::marker::Model;

/// The metric of what holds no route: RFC 8966, 4.6.9.
const INFINITY: u16 = 0xffff;

/// What is held for a key, with next hops kept so: 16 octets for IPv4, 32 for IPv6, 48 for both.
/// Where the metric is infinite no route is held.
#[derive(Drop)]
pub struct CompactHeld<H: Hop> {
    next_hop: H,
    seqno: u16,
    metric: u16,
    router_id: [u8; 8],
}

impl<H: Hop> Model for CompactHeld<H> {
    ghost use Rattle.babel_tlv.specs.Reading.{announcement_of};
    ghost use Rattle.babel_table.specs.Compact.{held_by, IsHeldBy};
    ghost use Rattle.babel_tlv.specs.declared.held.Held.{Held as HeldValue};

    ghost Value = { HeldValue };

    ghost view = { λ h. held_by
        (announcement_of h.router_id h.seqno h.metric (H.address h.next_hop)) };

    ghost invariant = { λ h. IsHeldBy
        (announcement_of h.router_id h.seqno h.metric (H.address h.next_hop)) };
}

impl<H: Hop> CompactHeld<H> {
    /// What is held, kept so.
    pub fn of(held: Held) -> CompactHeld<H>
        requires { CanKeep H.fits held }
        ensures { result ≡ held }
    {
        match held {
            Held::Route(ann) => CompactHeld {
                next_hop: H::kept(ann.next_hop()),
                seqno: ann.seqno(),
                metric: ann.metric(),
                router_id: ann.router_id(),
            },
            Held::Unreachable => CompactHeld {
                next_hop: H::none(),
                seqno: 0,
                metric: INFINITY,
                router_id: [0; 8],
            },
        }
    }

    /// What is held.
    pub fn held(&self) -> Held
        ensures value { result ≡ self.now }
        ensures fits { CanKeep H.fits self.now }
    {
        let next_hop = self.next_hop.address();
        match Ann::new(self.router_id, self.seqno, self.metric, next_hop) {
            Some(ann) => Held::Route(ann),
            None => Held::Unreachable,
        }
    }

    /// Whether a route is held.
    pub fn is_route(&self) -> bool
        ensures { result ≡ is_route self.now }
    {
        self.metric != INFINITY
    }

    /// Whether both are kept in the same octets, so that both hold the same.
    pub fn is(&self, other: &CompactHeld<H>) -> bool
        ensures { IsTrue result → self.now ≡ other.now }
    {
        self.metric == other.metric
            && self.seqno == other.seqno
            && self.next_hop.is(other.next_hop)
            && self.router_id == other.router_id
    }

    /// Puts what the view sees in place of what is held for a key of the family.
    #[tactic(auto, using(crate::proofs::SeenLaws::keeps_seen))]
    pub fn see(&mut self, view: View, family: Family)
        requires { H.fits (no_address family) }
        ensures { self.new ≡ seen view family self.old }
    {
        *self = CompactHeld::of(view.seen(family, self.held()));
    }

    /// The same, kept so that any next hop can be.
    pub fn widened(&self) -> CompactHeld<Addr>
        ensures { result ≡ self.now }
    {
        CompactHeld::of(self.held())
    }
}
