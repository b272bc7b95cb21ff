//! Laws about the orders of this crate's types, about views, about the parser state, and about
//! requests.
ghost use Rattle.std.specs.Prelude.{◌≡◌, ◌↔◌};
ghost use Rattle.std.specs.Cmp.{IsTotalOrder};
ghost use Rattle.std.specs.declared.cmp.Ordering.TheVariants.{Equal};
ghost use Rattle.babel_tlv.specs.declared.held.Held.{Held as HeldValue};
ghost use Rattle.babel_tlv.specs.Hellos.{HelloIsRead};
ghost use Rattle.babel_tlv.specs.Ihus.{IhuIsRead};
ghost use Rattle.babel_tlv.specs.Nearest.{DefaultIsNearest, NextHopIsNearest, RouterIdIsNearest};
ghost use Rattle.babel_tlv.specs.Pairs.{held_cmp};
ghost use Rattle.babel_tlv.specs.Requests.{RouteIsRequested, SeqnoIsRequested};
ghost use Rattle.babel_tlv.specs.Says.{IgnoredTellsNothing};
ghost use Rattle.babel_tlv.specs.ViewsTell.{AllIsSeen, SeenFits, SeenHopFits};
ghost use Rattle.babel_tlv.specs.ViewsTell.{SeenTellsApart, SeenTwiceIsSeen};
ghost use Rattle.babel_tlv.specs.Route.{RouteKey, Announcement};
ghost use Rattle.babel_tlv.specs.Keys.{key_cmp, announcement_cmp};

use crate::ann::Ann;
use crate::held::Held;
use crate::key::Key;

/// Keys are ordered by destination, then by source.
pub fn key_order()
    ensures { (a b : RouteKey) → ⟦<Key as Ord>⟧.cmp a b ≡ key_cmp a b }
{}

/// Announcements are ordered by router-id, then by seqno, metric and next hop.
pub fn announcement_order()
    ensures { (a b : Announcement) → ⟦<Ann as Ord>⟧.cmp a b ≡ announcement_cmp a b }
{}

/// Of what is held routes come first, ordered by their announcements; then unreachable.
pub fn held_order()
    ensures { (a b : HeldValue) → ⟦<Held as Ord>⟧.cmp a b ≡ held_cmp a b }
{}

/// The orders of keys, announcements and held values are total: any two compare one way, and
/// they are transitive.
#[tactic(auto, using(crate::proofs::OrderLaws::totality))]
pub fn orders_are_total()
    ensures keys { IsTotalOrder key_cmp }
    ensures announcements { IsTotalOrder announcement_cmp }
    ensures held { IsTotalOrder held_cmp }
{}

/// The orders agree with equality: two are equal in their order exactly if they are the same.
#[tactic(auto, using(crate::proofs::OrderLaws::equality))]
pub fn equal_are_one()
    ensures keys { (a b : RouteKey) → (key_cmp a b ≡ Equal) ↔ (a ≡ b) }
    ensures announcements { (a b : Announcement) → (announcement_cmp a b ≡ Equal) ↔ (a ≡ b) }
    ensures held { (a b : HeldValue) → (held_cmp a b ≡ Equal) ↔ (a ≡ b) }
{}

/// What a view sees of two values for keys of one family is equal exactly where these are both
/// unreachable, or both routes whose kept fields are equal. The view that keeps every field changes
/// nothing; what is seen is seen so again, and fits its key.
#[tactic(auto, using(crate::proofs::ViewLaws::views_tell))]
pub fn views_tell()
    ensures tells_apart { SeenTellsApart }
    ensures all { AllIsSeen }
    ensures twice { SeenTwiceIsSeen }
    ensures fits { SeenFits }
    ensures hop { SeenHopFits }
{}

/// What stands before a TLV of a packet is what the nearest earlier TLV of the packet set that sets
/// it, or else what a packet begins with: RFC 8966, 4.5.
#[tactic(auto, using(crate::proofs::NearestLaws::of_a_family))]
pub fn state_is_nearest()
    ensures default_prefix { DefaultIsNearest }
    ensures next_hop { NextHopIsNearest }
    ensures router_id { RouterIdIsNearest }
{}

/// A TLV that is ignored, or refuses the dump, tells nothing of routes: RFC 8966, 4.6.
pub fn ignored_tells_nothing()
    ensures { IgnoredTellsNothing }
{}

/// A request that is written is read as what it is: RFC 8966, 4.6.10, 4.6.11.
pub fn requests_are_read()
    ensures route { RouteIsRequested }
    ensures seqno { SeqnoIsRequested }
{}

/// A Hello that is written is read as what it is: RFC 8966, 4.6.5.
pub fn hellos_are_read()
    ensures { HelloIsRead }
{}

/// An IHU that is written is read as what it is: RFC 8966, 4.6.6.
pub fn ihus_are_read()
    ensures { IhuIsRead }
{}
