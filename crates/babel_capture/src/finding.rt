ghost use Rattle.std.specs.Prelude.{◌≡◌, None};
ghost use Rattle.babel_capture.specs.Findings.{CarriedIs, Finds, PayloadIs, finding_of};
ghost use Rattle.babel_capture.specs.Findings.{lack_found, left, missed_in, reason_left};
ghost use Rattle.babel_capture.specs.Sight.{flaw_of, sight_of};
ghost use Rattle.babel_capture.specs.Sinking.{IsPacketOf, left_said, missed_said, packet_said};

use crate::ends::Ends;
use crate::flaw::Flaw;
use crate::lack::Lack;
use crate::missed::Missed;
use crate::place::Place;
use crate::reason::Reason;
use crate::seen::Seen;
use crate::sink::{BabelPacket, Said};
use crate::tallies::Origin;
use crate::wanted::Wanted;
use babel_prefix::Addr;
use babel_tlv::{Fault, Frame, frame};

/// What is made of a packet of a capture.
#[derive(Clone, Copy)]
pub enum Finding<'a> {
    /// It is no datagram of Babel, or its sender is not wanted.
    Passed,
    /// It is too short to tell.
    Short,
    /// A datagram of this sender is left out, and missed if it lacks something.
    Left {
        reason: Reason,
        origin: Origin,
        is_missed: bool,
    },
    /// It lacks something, and its sender is named.
    Refused(Lack),
    /// A Babel packet: RFC 8966, 4.2. `has_trailer` says whether octets come after its body.
    Packet {
        origin: Origin,
        destination: &'a Addr,
        octets: &'a [u8],
        has_trailer: bool,
    },
}

impl<'a> Finding<'a> {
    /// What a sink is told of it.
    pub fn said(&self) -> Said<'a>
        ensures packet { IsPacketOf (finding_of self.now) (packet_said result) }
        ensures missed { missed_said result ≡ missed_in (finding_of self.now) }
        ensures left { left_said result ≡ reason_left (finding_of self.now) }
    {
        match *self {
            Finding::Packet {
                origin,
                destination,
                octets,
                ..
            } => Said::Packet(BabelPacket {
                origin,
                destination,
                octets,
            }),
            Finding::Left {
                reason,
                origin,
                is_missed: true,
            } => Said::Missed(Missed { origin, reason }),
            Finding::Left { reason, origin, .. } => Said::LeftOut { origin, reason },
            _ => Said::Nothing,
        }
    }

    /// A datagram of this sender is left out for this reason, and not missed.
    fn left(origin: Origin, reason: Reason) -> Finding<'a>
        ensures { finding_of result ≡ left reason None }
    {
        Finding::Left {
            reason,
            origin,
            is_missed: false,
        }
    }
}

/// What is made of a datagram's payload: the packet without what comes after its body.
fn payload_finding<'a>(place: Place, ends: &'a Ends, payload: &'a [u8]) -> Finding<'a>
    ensures { PayloadIs place ends.now payload.now (finding_of result) }
{
    let sender = ends.sender;
    let origin = Origin { place, sender };
    match frame(payload, 0) {
        Frame::Whole { used, .. } => Finding::Packet {
            origin,
            destination: &ends.destination,
            octets: &payload[..used],
            has_trailer: used < payload.len(),
        },
        Frame::More => Finding::left(origin, Reason::Truncated),
        Frame::Bad(Fault::BadMagic { .. }) => Finding::left(origin, Reason::BadMagic),
        Frame::Bad(_) => Finding::left(origin, Reason::BadVersion),
    }
}

impl Wanted {
    /// What is made of a captured packet that is seen so.
    #[inline(always)]
    pub fn finding<'a>(&self, seen: &'a Seen<'a>) -> Finding<'a>
        ensures { Finds self.now (sight_of seen.now) (finding_of result) }
    {
        match seen {
            Seen::Other => Finding::Passed,
            Seen::Fragment(_) => Finding::Passed,
            Seen::Short => Finding::Short,
            Seen::Flawed { place, ends, flaw } => {
                if self.takes(ends.sender, *place) {
                    self.flaw_finding(*place, ends, *flaw)
                } else {
                    Finding::Passed
                }
            }
            Seen::Datagram {
                place,
                ends,
                payload,
            } => {
                if self.takes(ends.sender, *place) {
                    payload_finding(*place, ends, payload)
                } else {
                    Finding::Passed
                }
            }
        }
    }

    /// What is made of a wanted datagram that can't be read.
    fn flaw_finding(&self, place: Place, ends: &Ends, flaw: Flaw) -> Finding<'static>
        ensures { CarriedIs self.now place ends.now (flaw_of flaw) (finding_of result) }
    {
        let sender = ends.sender;
        let origin = Origin { place, sender };
        match flaw {
            Flaw::OtherPort => Finding::left(origin, Reason::OtherPort),
            Flaw::NotLinkLocal => Finding::left(origin, Reason::NotLinkLocal),
            Flaw::Lacking(lack) => self.lack_finding(origin, lack),
        }
    }

    /// What is made of a wanted datagram that lacks something.
    fn lack_finding(&self, origin: Origin, lack: Lack) -> Finding<'static>
        ensures { finding_of result
            ≡ lack_found self.now origin.place origin.sender lack }
    {
        if self.accepts_missing && lack.is_of_fragments() {
            return Finding::left(origin, lack.reason());
        }
        if self.sender.is_some() {
            return Finding::Refused(lack);
        }
        Finding::Left {
            reason: lack.reason(),
            origin,
            is_missed: true,
        }
    }
}
