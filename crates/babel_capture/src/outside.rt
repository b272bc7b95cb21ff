use crate::block::Packet;
use crate::finding::Finding;
use crate::seen::Seen;
use crate::time::Time;
use crate::wanted::Wanted;

/// What is told of the packets of the sender that is named, if one is, that are passed over for
/// their place or their time.
#[derive(Clone, Copy)]
pub(crate) struct Outside {
    first: Option<Time>,
}

impl Outside {
    /// None was passed over.
    pub(crate) fn new() -> Outside {
        Outside { first: None }
    }

    /// When the first of them came that has a time.
    pub(crate) fn first(&self) -> Option<Time> {
        self.first
    }

    /// Notes a packet that is seen so, if it is passed over, as what is made of it tells.
    pub(crate) fn note(
        &mut self,
        wanted: &Wanted,
        packet: &Packet<'_>,
        seen: &Seen<'_>,
        finding: &Finding<'_>,
    ) {
        if let Finding::Passed = finding {
            self.pass(wanted, packet, seen);
        }
    }

    /// Notes a packet that is seen so, and passed over.
    pub(crate) fn pass(&mut self, wanted: &Wanted, packet: &Packet<'_>, seen: &Seen<'_>) {
        let sender = seen.sender();
        if self.first.is_none() && sender.is_some() && sender == wanted.sender {
            self.first = packet.time();
        }
    }
}
