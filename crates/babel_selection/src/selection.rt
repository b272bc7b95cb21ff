ghost use Rattle.std.specs.Prelude.{◌≡◌};
ghost use Rattle.babel_selection.specs.Selection.{choice_of, is_contradicted, is_named};
ghost use Rattle.babel_selection.specs.Selection.{is_selected, least_total, state_of};
ghost use Rattle.babel_selection.specs.Selection.{all_contradicted, any_named, has_least, is_less};
ghost use Rattle.babel_selection.specs.Selection.{least_own};

use crate::candidate::{Candidate, has_id};
use crate::cost::INFINITY;
use crate::distance::Distance;
use babel_tlv::Ann;

/// What a route is to the router that selects.
#[derive(Clone, Copy)]
pub enum RouteState {
    /// The cost of its link is infinite.
    Unheard,
    /// Its metric and the cost of its link are infinite together.
    Unreachable,
    /// The router's own source table forbids it: RFC 8966, 3.5.1.
    Unfeasible,
    /// The router uses it.
    Selected,
    /// The router could use it.
    Feasible,
}

/// What the router chooses among the routes for a key.
#[derive(Clone, Copy)]
pub struct Choice {
    /// The least metric that it can have by one of them; 65,535 where it can use none.
    pub least: u16,
    /// Whether it announces one of them.
    pub is_named: bool,
    /// Whether all that it announces for the key is of none of them.
    pub is_own: bool,
}

/// The least metric of the routes that can be used; 65,535 where none can.
fn least_total(candidates: &[Candidate]) -> u16
    ensures { result ≡ least_total candidates.now }
{
    let mut least = INFINITY;
    for candidate in candidates {
        if candidate.is_usable() {
            least = least.min(candidate.total());
        }
    }
    least
}

/// Whether the router announces this route, among all that it announces for the key.
fn is_named(owns: &[Ann], candidate: &Candidate) -> bool
    ensures { result ≡ is_named owns.now candidate.now }
{
    let mut found = false;
    for own in owns {
        found = found || candidate.is_announced(own);
    }
    found
}

/// Whether it announces one of these.
fn any_named(owns: &[Ann], candidates: &[Candidate]) -> bool
    ensures { result ≡ any_named owns.now candidates.now }
{
    let mut found = false;
    for candidate in candidates {
        found = found || is_named(owns, candidate);
    }
    found
}

/// Whether one of those with the least metric comes from this router.
fn has_least(least: u16, candidates: &[Candidate], own: &Ann) -> bool
    ensures { result ≡ has_least least candidates.now own.now }
{
    let mut found = false;
    for candidate in candidates {
        found = found || candidate.is_least(least) && has_id(&candidate.ann, own);
    }
    found
}

/// Whether what the router announces is of none of these.
fn is_contradicted(least: u16, candidates: &[Candidate], own: &Ann) -> bool
    ensures { result ≡ is_contradicted least candidates.now own.now }
{
    own.metric() < least || !has_least(least, candidates, own)
}

/// Whether all that it announces is.
fn all_contradicted(least: u16, candidates: &[Candidate], owns: &[Ann]) -> bool
    ensures { result ≡ all_contradicted least candidates.now owns.now }
{
    let mut all = true;
    for own in owns {
        all = all && is_contradicted(least, candidates, own);
    }
    all
}

/// Whether this has a smaller metric than the best one before it.
fn is_less(best: &Option<Ann>, own: &Ann) -> bool
    ensures { result ≡ is_less best.now own.now }
{
    match best {
        Some(best) => own.metric() < best.metric(),
        None => true,
    }
}

/// Of what the router announces for the key, the first one with the least metric.
pub fn least_own(owns: &[Ann]) -> Option<Ann>
    ensures { result ≡ least_own owns.now }
{
    let mut best = None;
    for own in owns {
        if is_less(&best, own) {
            best = Some(*own);
        }
    }
    best
}

impl Choice {
    /// What the router chooses among these routes, where it announces this for their key.
    pub fn of(candidates: &[Candidate], owns: &[Ann]) -> Choice
        ensures { result ≡ choice_of candidates.now owns.now }
    {
        let least = least_total(candidates);
        Choice {
            least,
            is_named: any_named(owns, candidates),
            is_own: !owns.is_empty() && all_contradicted(least, candidates, owns),
        }
    }

    /// What one of them is to the router.
    pub fn state(&self, owns: &[Ann], candidate: &Candidate) -> RouteState
        ensures { result ≡ state_of self.now owns.now candidate.now }
    {
        if candidate.cost == INFINITY {
            RouteState::Unheard
        } else if candidate.total() == INFINITY {
            RouteState::Unreachable
        } else if !Distance::admits(&candidate.distance, &candidate.ann) {
            RouteState::Unfeasible
        } else if self.is_selected(owns, candidate) {
            RouteState::Selected
        } else {
            RouteState::Feasible
        }
    }

    /// Whether the router uses it: what it announces, or else what is of the least metric.
    fn is_selected(&self, owns: &[Ann], candidate: &Candidate) -> bool
        ensures { result ≡ is_selected self.now owns.now candidate.now }
    {
        if self.is_named {
            is_named(owns, candidate)
        } else {
            !self.is_own && candidate.is_least(self.least)
        }
    }
}
