use crate::ends::Ends;
use crate::tallies::Origin;
use babel_prefix::Addr;

/// What tells datagrams of UDP that come in fragments apart: RFC 791, 3.2; RFC 8200, 4.5.
#[derive(Clone, Copy, PartialEq, Eq, PartialOrd, Ord)]
pub struct DatagramId {
    /// Who sent it, and where it was captured.
    pub origin: Origin,
    pub destination: Addr,
    pub identification: u32,
}

impl DatagramId {
    ghost use Rattle.std.specs.Prelude.{◌≡◌};
    ghost use Rattle.babel_capture.specs.Fragments.{ends_of};

    /// Between which addresses it is sent.
    pub(crate) fn ends(&self) -> Ends
        ensures { result ≡ ends_of self.now }
    {
        Ends {
            sender: self.origin.sender,
            destination: self.destination,
        }
    }
}

/// Where UDP begins in a datagram that comes from the port of Babel or goes to it.
#[derive(Clone, Copy)]
pub struct UdpPlace {
    /// After how many octets of the datagram.
    pub at: u16,
    /// Whether both ports are Babel's.
    pub is_of_routers: bool,
}

/// A fragment of a datagram, as a packet has it.
#[derive(Clone, Copy)]
pub struct Fragment<'a> {
    pub id: DatagramId,
    /// Where in the datagram it begins, in octets.
    pub offset: u16,
    /// Whether more come after it.
    pub more: bool,
    /// How many octets of the datagram it had.
    pub len: u16,
    /// Those of them that the recorder kept, its first ones.
    pub octets: &'a [u8],
    /// Where UDP begins, if this is the first fragment of a datagram from or to the port of Babel.
    pub udp: Option<UdpPlace>,
    /// Whether it goes to a group of Babel, and says that it is of UDP.
    pub is_to_group: bool,
}
