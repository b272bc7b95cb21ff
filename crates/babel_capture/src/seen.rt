use crate::ends::Ends;
use crate::flaw::Flaw;
use crate::fragment::Fragment;
use crate::place::Place;
use babel_prefix::Addr;

/// What one captured frame is to us. A datagram has the place where it was captured, and the
/// addresses of its IP header.
#[derive(Clone, Copy)]
pub enum Seen<'a> {
    /// No datagram of Babel: another protocol or port, or a header that contradicts itself.
    Other,
    /// Too short to tell: its octets end before the ports of a datagram, or before what tells that
    /// it has none.
    Short,
    /// A fragment of a datagram that may be Babel's.
    Fragment(Fragment<'a>),
    /// A datagram from or to the port of Babel that can't be read.
    Flawed {
        place: Place,
        ends: Ends,
        flaw: Flaw,
    },
    /// A datagram that routers read, and the octets that UDP carries.
    Datagram {
        place: Place,
        ends: Ends,
        payload: &'a [u8],
    },
}

impl Seen<'_> {
    ghost use Rattle.std.specs.Prelude.{◌≡◌};
    ghost use Rattle.babel_capture.specs.Passage.{sender_with};
    ghost use Rattle.babel_capture.specs.Sight.{sight_of};

    /// Who sent the datagram, if a router may read it.
    pub(crate) fn sender(&self) -> Option<Addr>
        ensures { result ≡ sender_with (sight_of self.now) }
    {
        match self {
            Seen::Datagram { ends, .. } => Some(ends.sender),
            _ => None,
        }
    }
}
