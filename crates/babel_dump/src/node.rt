ghost use Rattle.std.specs.Prelude.{◌≡◌};
ghost use Rattle.babel_dump.specs.Nodes.{node_of, origin_of};

use babel_capture::{Origin, Place};
use babel_prefix::Addr;
use babel_selection::LinkNode;
use babel_timeline::Sender;

/// A node of a link, by its address, at the place where the link was captured: one that sends, or
/// one that is named. Ordered by place, then by address.
#[derive(Clone, Copy, PartialEq, Eq, PartialOrd, Ord)]
pub struct Node {
    pub place: Place,
    pub address: Addr,
}

impl Sender for Node {
    ghost use Rattle.std.proofs.Common.{rules};
    ghost use Rattle.babel_dump.specs.Nodes.{exact_by};

    ghost exact = { exact_by _ (λ a b. Prim.search rules) };
}

impl LinkNode for Node {
    ghost use Rattle.babel_dump.specs.Nodes.{are_beside, beside};

    ghost beside = { beside };

    ghost are_beside = { are_beside };

    fn beside(self, address: Addr) -> Node {
        Node {
            place: self.place,
            address,
        }
    }

    fn is_beside(&self, other: &Node) -> bool {
        self.place == other.place
    }
}

impl Node {
    /// Who sends, and where.
    pub(crate) fn of(origin: &Origin) -> Node
        ensures { result ≡ node_of origin.now }
    {
        Node {
            place: origin.place,
            address: origin.sender,
        }
    }

    /// The same as a sender at its place.
    pub(crate) fn origin(self) -> Origin
        ensures { result ≡ origin_of self }
    {
        Origin {
            place: self.place,
            sender: self.address,
        }
    }
}
