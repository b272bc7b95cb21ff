//! The first TLV of a packet that is ignored, and the packet up to there.
ghost use Rattle.std.specs.Prelude.{◌≡◌, ◌+◌, ◌^◌, ◌<◌, ◌≤◌, IfErr, IfOk, drop, length};
ghost use Rattle.std.specs.Prelude.{take};
ghost use Rattle.babel_tlv.specs.FrameFaults.{AreTlvs};
ghost use Rattle.babel_tlv.specs.Framing.{framed, tlvs_of};
ghost use Rattle.babel_dump.specs.EventsCause.{RefusesAlone, RefusesTlvIn};
ghost use Rattle.babel_dump.specs.StrictPackets.{IsFirstIn, IsFirstOf};

use crate::ignored::{IgnoredTlv, first_ignored};
use babel_table::Report;
use babel_tlv::{Fault, Frame, MAGIC, Route, Start, State, Tlvs, VERSION, check_body, frame};
use std::alloc::{AllocError, Global};

/// The first TLV of a packet that is ignored.
#[derive(Clone, Copy)]
pub(crate) struct UnreadTlv {
    /// How many octets of the body come before it.
    pub before: usize,
    /// Its offset in the sender's dump, and why it is ignored.
    pub tlv: IgnoredTlv,
    /// Whether it is an Update that is ignored because its encoding is 4: RFC 9229.
    pub ignores_encoding_4: bool,
}

impl UnreadTlv {
    /// The first TLV of a packet that is ignored, where the packet's first octet lies at this
    /// offset; or why the packet is refused, by itself, before it.
    pub(crate) fn first(start: &Start, at: u64, packet: &[u8]) -> Result<Option<UnreadTlv>, Fault>
        ensures first { IfOk result (IsFirstOf start.now at packet.now) }
        ensures refused { IfErr result (RefusesAlone start.now at packet.now) }
    {
        let Some(_end) = at.checked_add(packet.len() as u64) else {
            return Err(Fault::TooLong);
        };
        let body = match frame(packet, at) {
            Frame::Whole { body, .. } => body,
            Frame::More => return Err(Fault::Truncated { at }),
            Frame::Bad(fault) => return Err(fault),
        };
        check_body(body, at + 4)?;
        UnreadTlv::first_in(start, at + 4, body)
    }

    /// The first TLV of a body that is ignored, where the body's first octet lies at this offset.
    fn first_in(start: &Start, at: u64, body: &[u8]) -> Result<Option<UnreadTlv>, Fault>
        requires fits { at + length body.now < 2 ^ 64 }
        requires whole { AreTlvs at body.now (tlvs_of at body.now) }
        ensures first { IfOk result (IsFirstIn start.now at body.now) }
        ensures refused { IfErr result (RefusesTlvIn start.now (tlvs_of at body.now)) }
    {
        let mut report = Report::new();
        let mut state = State::at(*start);
        let mut route = Route::unwritten();
        let mut tlvs = Tlvs::new(body, at);
        while let Some(next) = tlvs.advance() {
            let kind = state.step_into(&next, &mut route)?;
            report.count(&next, kind);
            if let Some(tlv) = first_ignored(&report) {
                return Ok(Some(UnreadTlv {
                    before: (next.at - at) as usize,
                    tlv,
                    ignores_encoding_4: report.ignores_encoding_4(),
                }));
            }
        }
        Ok(None)
    }
}

/// A packet of the first octets of a body: RFC 8966, 4.2.
pub(crate) fn packet_of(alloc: Global, body: &[u8]) -> Result<Vec<u8>, AllocError>
    requires { length body.now < 2 ^ 16 }
    ensures { IfOk result (λ packet. packet.items ≡ framed body.now) }
{
    let [high, low] = (body.len() as u16).to_be_bytes();
    let mut packet = Vec::new(alloc);
    packet.extend_from_slice(&[MAGIC, VERSION, high, low])?;
    packet.extend_from_slice(body)?;
    Ok(packet)
}
