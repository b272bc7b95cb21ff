ghost use Rattle.std.specs.Prelude.{◌≡◌};
ghost use Rattle.std.specs.Str.{bytes_eq};
ghost use Rattle.babel_selection.specs.Selection.{is_announced, is_least, is_usable, total};

use crate::cost::INFINITY;
use crate::distance::Distance;
use babel_tlv::Ann;

/// A route that a neighbour announces for a key, as the router sees it that selects.
#[derive(Clone, Copy)]
pub struct Candidate {
    /// What the neighbour announces.
    pub ann: Ann,
    /// What the link to the neighbour costs.
    pub cost: u16,
    /// The entry of the route's source in the router's own source table.
    pub distance: Option<Distance>,
}

/// Whether two routes come from one router.
pub(crate) fn has_id(ann: &Ann, other: &Ann) -> bool
    ensures { result ≡ bytes_eq ann.now.router_id other.now.router_id }
{
    ann.router_id() == other.router_id()
}

impl Candidate {
    /// The metric that the router has by it, at most infinite: RFC 8966, 3.5.2.
    pub fn total(&self) -> u16
        ensures { result ≡ total self.now }
    {
        self.ann.metric().saturating_add(self.cost)
    }

    /// Whether the router may use it: RFC 8966, 3.6.
    pub(crate) fn is_usable(&self) -> bool
        ensures { result ≡ is_usable self.now }
    {
        self.total() < INFINITY && Distance::admits(&self.distance, &self.ann)
    }

    /// Whether the router may use it, and has this metric by it.
    pub(crate) fn is_least(&self, least: u16) -> bool
        ensures { result ≡ is_least least self.now }
    {
        self.is_usable() && self.total() == least
    }

    /// Whether the router announces it, if it announces this.
    pub(crate) fn is_announced(&self, own: &Ann) -> bool
        ensures { result ≡ is_announced self.now own.now }
    {
        self.is_usable() && has_id(&self.ann, own) && self.total() == own.metric()
    }
}
