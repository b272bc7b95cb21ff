//! What the links to senders cost a router that selects.
ghost use Rattle.std.specs.Prelude.{◌≡◌};
ghost use Rattle.babel_dump.specs.SelectKept.{said_kept};
ghost use Rattle.babel_dump.specs.SelectOffers.{cost_by, cost_under, heard_cost};

use crate::links::Judged;
use crate::node::Node;
use crate::router_places::sends_from;
use crate::select_job::Select;
use babel_capture::{Gathered, Origin};
use babel_prefix::Addr;
use babel_selection::{INFINITY, LinkHearing, Pair, link_cost};

/// At which moment it is asked what links cost, and of what was heard of them.
#[derive(Clone, Copy)]
pub(crate) struct LinkCosts<'a> {
    pub select: &'a Select,
    pub gathered: &'a Gathered,
    pub links: &'a LinkHearing<Node>,
    pub judged: Judged,
}

impl LinkCosts<'_> {
    /// What the link to a sender costs: what is stated, or else what is said of it.
    pub fn of(&self, origin: &Origin) -> u16
        ensures { result ≡ cost_by self.now.select.now
            (said_kept self.now.judged self.now.links.now.ihus) self.now.gathered.now.senders
            origin.now }
    {
        match self.select.stated_cost(origin.sender) {
            Some(cost) => cost,
            None => self.heard(origin),
        }
    }

    /// What is said of it, the least under all addresses of the router that send there.
    fn heard(&self, origin: &Origin) -> u16
        ensures { result ≡ heard_cost self.now.select.now.is_etx
            (said_kept self.now.judged self.now.links.now.ihus) self.now.gathered.now.senders
            origin.now self.now.select.now.routers.items }
    {
        let mut least = INFINITY;
        for router in &self.select.routers {
            if sends_from(self.gathered, origin.place, *router) {
                least = least.min(self.under(origin, *router));
            }
        }
        least
    }

    /// What it costs under this address of the router.
    fn under(&self, origin: &Origin, router: Addr) -> u16
        ensures { result ≡ cost_under self.now.select.now.is_etx
            (said_kept self.now.judged self.now.links.now.ihus) self.now.gathered.now.senders
            origin.now router }
    {
        let sender = Node::of(origin);
        let own = Node {
            place: origin.place,
            address: router,
        };
        let txcost = self.said(&sender, &own);
        let rxcost = self.said(&own, &sender);
        link_cost(self.select.is_etx, txcost, rxcost)
    }

    /// What a router says at the moment that receiving from a neighbour costs it, if it says it.
    fn said(&self, router: &Node, neighbour: &Node) -> Option<u16>
        ensures { result ≡ said_kept self.now.judged self.now.links.now.ihus
            router.now neighbour.now }
    {
        let pair = Pair {
            router: *router,
            neighbour: *neighbour,
        };
        self.judged.rxcost(&self.links.ihus.last(&pair, true))
    }
}
