ghost use Rattle.std.specs.Prelude.{◌≡◌};
ghost use Rattle.babel_dump.specs.SelectHeard.{is_own, is_router};
ghost use Rattle.babel_dump.specs.SelectOffers.{stated_cost};

use crate::addr_pair::AddrPair;
use crate::each_sender::EachSender;
use crate::factor::Factor;
use crate::filter::Filter;
use babel_capture::Origin;
use babel_prefix::Addr;

/// What `select` asks for: which routes a router uses, of those that its neighbours announce.
#[derive(Drop)]
pub struct Select {
    /// How the capture is read, and the table of each sender, where what has expired is left out.
    pub each: EachSender,
    /// The addresses of the router that selects, the first of which names it: `--at`.
    pub routers: Vec<Addr>,
    /// After how many times its Interval an IHU counts no more, as a route is gone: `--expiry`.
    pub expiry: Factor,
    /// Whether links cost what ETX says of them: `--etx`.
    pub is_etx: bool,
    /// What the links to some senders are stated to cost: `--cost`.
    pub costs: Vec<StatedCost>,
    /// The destination and the source of which it is told: `--to`, `--src`.
    pub pair: Option<AddrPair>,
    /// The keys of which it is told: `--within`, `--match`, `--source`.
    pub filter: Filter,
    /// Whether the capture is refused if a TLV of a sender that counts is ignored, or a datagram
    /// left out: `--strict`.
    pub strict: bool,
}

/// What the link to a sender costs, at each place.
#[derive(Clone, Copy)]
pub struct StatedCost {
    pub sender: Addr,
    /// From 1 on; 65,535 is infinite.
    pub cost: u16,
}

impl Select {
    /// Whether this is an address of the router that selects.
    pub(crate) fn is_router(&self, address: Addr) -> bool
        ensures { result ≡ is_router self.now.routers.items address }
    {
        let mut found = false;
        for router in &self.routers {
            found = found || *router == address;
        }
        found
    }

    /// Whether this is the router, at a place that is asked for.
    pub(crate) fn is_own(&self, origin: &Origin) -> bool
        ensures { result ≡ is_own self.now origin.now }
    {
        self.is_router(origin.sender) && self.each.asks_for(origin)
    }

    /// What the link to a sender is stated to cost, last, if it is.
    pub(crate) fn stated_cost(&self, sender: Addr) -> Option<u16>
        ensures { result ≡ stated_cost self.now.costs.items sender }
    {
        let mut stated = None;
        for one in &self.costs {
            if one.sender == sender {
                stated = Some(one.cost);
            }
        }
        stated
    }
}
