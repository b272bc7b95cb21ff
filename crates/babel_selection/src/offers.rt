//! The routes that senders announce at a moment, as a router has them that selects.
ghost use Rattle.std.specs.Prelude.{◌≡◌, ◌++◌, ◌∷◌, ◌<◌, IfOk, OnOk, length};
ghost use Rattle.std.specs.BTreeMap.{is_at};
ghost use Rattle.std.specs.List.Sorted.{IsPermutation, IsSorted};
ghost use Rattle.babel_tlv.specs.Keys.{key_cmp};
ghost use Rattle.babel_selection.specs.Offers.{by_key, candidate_of, candidates_in, chosen_of};
ghost use Rattle.babel_selection.specs.Offers.{chosen_rows, offer_cmp, own_chosen, owns_in};

use crate::candidate::Candidate;
use crate::distance::Distance;
use crate::offer::Offer;
use crate::selection::{Choice, RouteState};
use crate::source::Source;
use crate::sources::Sources;
use babel_timeline::Sender;
use babel_tlv::{Ann, Key};
use std::alloc::{AllocError, Global};

/// A route that a sender announces, and what it is to the router.
#[derive(Clone, Copy)]
pub struct ChosenRoute<S> {
    pub offer: Offer<S>,
    /// The entry of its source in the router's own source table.
    pub distance: Option<Distance>,
    /// What it is to the router; `None` where it is the router's own, or of a link that is not
    /// here.
    pub state: Option<RouteState>,
}

/// Puts the routes in their order.
pub fn sort_offers<S: Sender>(offers: &mut [Offer<S>])
    ensures permutation { IsPermutation offers.old offers.new }
    ensures sorted { IsSorted (offer_cmp S.cmp) offers.new }
{
    offers.sort_unstable();
}

/// What the routes are to the router, of which these are in their order: key by key, first its own,
/// where it uses that, and then each of another sender. The source table is looked at as it is at
/// the moment.
pub fn chosen_routes<S: Sender>(
    alloc: Global,
    offers: &[Offer<S>],
    sources: &Sources,
    moment: u128,
) -> Result<Vec<ChosenRoute<S>>, AllocError>
    ensures { IfOk result (λ routes. routes.items ≡ chosen_rows moment sources.now offers.now) }
{
    let mut routes = Vec::new(alloc);
    let mut rest = offers;
    'keys: while !rest.is_empty() {
        let (alike, after) = of_first_key(rest);
        choose(alloc, alike, sources, moment, &mut routes)?;
        rest = after;
    }
    Ok(routes)
}

/// Whether two keys are one.
fn are_one(key: &Key, other: &Key) -> bool
    ensures { result ≡ is_at (key_cmp key.now) other.now }
{
    key == other
}

/// The routes for the key of the first, and those after them.
fn of_first_key<S: Sender>(offers: &[Offer<S>]) -> (&[Offer<S>], &[Offer<S>])
    requires { 0 < length offers.now }
    ensures split { by_key offers.now ≡ result.0.now ∷ by_key result.1.now }
    ensures shorter { length result.1.now < length offers.now }
{
    let mut last = 0;
    'alike: while last + 1 < offers.len() {
        if !are_one(&offers[last].key, &offers[last + 1].key) {
            return offers.split_at(last + 1);
        }
        last += 1;
    }
    (offers, &[])
}

/// Adds what the routes for a key are to the router.
fn choose<S: Sender>(
    alloc: Global,
    offers: &[Offer<S>],
    sources: &Sources,
    moment: u128,
    routes: &mut Vec<ChosenRoute<S>>,
) -> Result<(), AllocError>
    ensures { OnOk result (routes.new.items
        ≡ routes.old.items ++ chosen_of moment sources.now offers.now) }
{
    let owns = owns_in(alloc, offers)?;
    let candidates = candidates_in(alloc, offers, sources, moment)?;
    let choice = Choice::of(&candidates, &owns);
    push_own(&choice, offers, routes)?;
    for offer in offers {
        if offer.is_other {
            let candidate = candidate_of(offer, sources, moment);
            routes.push(ChosenRoute {
                offer: *offer,
                distance: candidate.distance,
                state: Some(choice.state(&owns, &candidate)),
            })?;
        }
    }
    Ok(())
}

/// Adds the router's own route, the first of these, if it uses that.
fn push_own<S: Sender>(
    choice: &Choice,
    offers: &[Offer<S>],
    routes: &mut Vec<ChosenRoute<S>>,
) -> Result<(), AllocError>
    ensures { OnOk result (routes.new.items
        ≡ routes.old.items ++ own_chosen choice.now offers.now) }
{
    let [first, ..] = offers else {
        return Ok(());
    };
    if choice.is_own && !choice.is_named {
        routes.push(ChosenRoute {
            offer: *first,
            distance: None,
            state: None,
        })?;
    }
    Ok(())
}

/// What the router announces itself, of these.
fn owns_in<S: Sender>(alloc: Global, offers: &[Offer<S>]) -> Result<Vec<Ann>, AllocError>
    ensures { IfOk result (λ owns. owns.items ≡ owns_in offers.now) }
{
    let mut owns = Vec::new(alloc);
    for offer in offers {
        if !offer.is_other {
            owns.push(offer.ann)?;
        }
    }
    Ok(owns)
}

/// The routes of others, of these, as the router sees them.
fn candidates_in<S: Sender>(
    alloc: Global,
    offers: &[Offer<S>],
    sources: &Sources,
    moment: u128,
) -> Result<Vec<Candidate>, AllocError>
    ensures { IfOk result (λ candidates. candidates.items
        ≡ candidates_in moment sources.now offers.now) }
{
    let mut candidates = Vec::new(alloc);
    for offer in offers {
        if offer.is_other {
            candidates.push(candidate_of(offer, sources, moment))?;
        }
    }
    Ok(candidates)
}

/// A route as the router sees it.
fn candidate_of<S: Sender>(offer: &Offer<S>, sources: &Sources, moment: u128) -> Candidate
    ensures { result ≡ candidate_of moment sources.now offer.now }
{
    let source = Source {
        key: offer.key,
        router_id: offer.ann.router_id(),
    };
    Candidate {
        ann: offer.ann,
        cost: offer.cost,
        distance: sources.distance(&source, moment),
    }
}
