//! What a user can do where an input is refused.
use crate::asked::Asked;
use crate::begun::{begins_capture, begins_dump};
use crate::input_fault::InputFault;
use crate::note::Note;
use crate::place_word::NamedOrigin;
use crate::run_fault::Side;
use babel_capture::{Fault as CaptureFault, Origin, Reason as LeftOutReason};
use babel_tlv::{Fault, Reason};
use std::fmt;

/// A line that says what to do about a fault.
#[derive(Clone, Copy)]
pub(crate) enum Hint {
    /// This text.
    Text(&'static str),
    /// There are more than so many of these. This option raises the limit.
    Limit(u32, &'static str, &'static str),
    /// The octets are compressed. This program gives what they were.
    Compressed(&'static str),
    /// A route has no next hop. This option names the sender.
    NoNextHop(&'static str),
    /// The sender is on several interfaces. This option names one.
    Interface(&'static str),
    /// The fault of a sender's dump tells where a TLV is in that.
    OffsetIn(Origin),
}

impl fmt::Display for Hint {
    fn fmt<W: fmt::Write>(&self, f: &mut fmt::Formatter<W>) -> fmt::Result {
        f.write_str("hint: ")?;
        match self {
            Hint::Text(text) => f.write_str(text),
            Hint::Limit(limit, of, option) => {
                write!(f, "the limit is {limit} {of}; {option} raises it")
            }
            Hint::Compressed(program) => {
                write!(f, "this is compressed: {program} FILE | babel-dump ..")
            }
            Hint::NoNextHop(option) => write!(
                f,
                "no-next-hop: {option} names a sender of the other family, and these routes carry \
                 no next hop"
            ),
            Hint::Interface(option) => write!(f, "choose one with {option}"),
            Hint::OffsetIn(origin) => {
                let (origin, name) = (*origin, [].as_slice());
                let sender = NamedOrigin { origin, name };
                write!(
                    f,
                    "this counts the octets of the dump of {sender}, as extract writes it"
                )
            }
        }
    }
}

/// The option that raises the limit on routes.
const MAX_ROUTES: &str = "--max-routes";

/// The option that raises the limit on octets.
const MAX_OCTETS: &str = "--max-octets";

/// The recorder kept only a part of a datagram.
const SNAPPED: &str = "tcpdump -s 0 keeps packets whole";

/// Fragments of a datagram are missing.
const FRAGMENT: &str = "its routes would be missing; record fragments, too: 'udp port 6696 or ip6 \
                        proto 44', and of IPv4 ip[6:2] & 0x1fff != 0";

/// The same where that can be accepted.
const ACCEPT_MISSING: &str =
    "its routes would be missing; record fragments, too: 'udp port 6696 or \
                              ip6 proto 44', and of IPv4 ip[6:2] & 0x1fff != 0; --accept-missing \
                              leaves it out";

/// A datagram is longer than its frame.
const CUT_SHORT: &str = "the datagram is longer than the captured frame; take the capture as it \
                         was recorded, since --accept-cut does not help";

/// What makes of compressed octets what was compressed, by their first octets: RFC 1952, 2.3.1;
/// the file formats of bzip2 and of xz, 2.1.1.1; RFC 8878, 3.1.1.
const COMPRESSED: [(&[u8], &str); 4] = [
    (&[0x1f, 0x8b], "zcat"),
    (&[b'B', b'Z', b'h'], "bzcat"),
    (&[0xfd, b'7', b'z', b'X'], "xzcat"),
    (&[0x28, 0xb5, 0x2f, 0xfd], "zstdcat"),
];

impl Hint {
    /// What to do about a fault of the input on this side, which begins with these octets.
    pub fn of(asked: &Asked, side: Side, fault: &InputFault, begins: &[u8]) -> Option<Hint> {
        match fault {
            InputFault::Dump(fault) => Hint::of_dump(asked, *fault, begins),
            InputFault::Ignored {
                tlv,
                ignores_encoding_4,
            } => Hint::of_reason(asked, tlv.reason, *ignores_encoding_4, side),
            InputFault::Capture(fault) => Hint::of_capture(asked, fault, begins),
            InputFault::LeftOut(datagram) if !asked.names_sender() => {
                Hint::of_lack(asked, datagram.reason)
            }
            InputFault::SeveralInterfaces(_) => Some(Hint::Interface(side.place_option())),
            InputFault::NoPackets(absence) if absence.is_narrow() => Some(Hint::Text(
                "senders lists who sent, and at which places",
            )),
            _ => None,
        }
    }

    /// What to know about TLVs that were ignored for this reason, in the dump on this side, where
    /// Updates were ignored because their encoding is 4, or not: the option that reads these, if it
    /// is not set.
    pub fn of_reason(
        asked: &Asked,
        reason: Reason,
        ignores_encoding_4: bool,
        side: Side,
    ) -> Option<Hint> {
        match (asked, reason) {
            (_, Reason::UnknownEncoding) if ignores_encoding_4 => {
                Hint::of_encoding_4(asked.limits()?.via_v6())
            }
            (Asked::Job(_), Reason::NoNextHop) => Some(Hint::NoNextHop(side.option())),
            _ => None,
        }
    }

    /// What to know about Updates that were ignored because their encoding is 4: the option that
    /// reads these, if it is not set.
    pub(crate) fn of_encoding_4(via_v6: bool) -> Option<Hint> {
        if via_v6 {
            return None;
        }
        Some(Hint::Text(
            "unknown-encoding usually means IPv4 routes with IPv6 next hops (AE 4, RFC 9229), which \
             --v4-via-v6 reads: IPv4 answers can be missing or stale",
        ))
    }

    /// What can be done about what a note tells of a capture.
    pub fn of_note(note: &Note) -> Option<Hint> {
        match note {
            Note::Backwards(_) => Some(Hint::Text(
                "reordercap FILE SORTED sorts the packets of a capture by their times",
            )),
            _ => None,
        }
    }

    /// What to know about the offset that a fault tells, of an input that begins with these octets.
    pub fn of_offset(fault: &InputFault, begins: &[u8]) -> Option<Hint> {
        match fault {
            InputFault::Ignored { .. }
            | InputFault::Dump(
                Fault::TlvPastEnd { .. }
                | Fault::EncodingSetsRouterId { .. }
                | Fault::TooManyRoutes { .. },
            ) if begins_capture(begins) => Some(Hint::Text(
                "this counts the octets of the dump, as extract writes it",
            )),
            _ => None,
        }
    }

    /// What to know about the offset that a fault of this sender's TLVs tells.
    pub fn of_offset_in(origin: Origin, fault: &InputFault) -> Option<Hint> {
        match fault {
            InputFault::Dump(Fault::Memory) | InputFault::LeftOut(_) | InputFault::NoUpdates =>
                None,
            _ => Some(Hint::OffsetIn(origin)),
        }
    }

    /// What to do about a block of a capture that has no length that it can have, and begins with
    /// these octets.
    pub fn of_block(begins: &[u8]) -> Option<Hint> {
        if begins_capture(begins) {
            Some(Hint::Text("captures joined by cat are not one capture; use mergecap"))
        } else {
            None
        }
    }

    /// What to do where there are more routes than the limit.
    pub fn of_routes(asked: &Asked) -> Option<Hint> {
        Some(Hint::Limit(asked.limits()?.entries(), "routes", MAX_ROUTES))
    }

    /// What to do where a dump, or what is asked of it, has more octets than the limit.
    pub fn of_octets(asked: &Asked) -> Option<Hint> {
        Some(Hint::Limit(asked.limits()?.bytes(), "octets", MAX_OCTETS))
    }

    /// What to do where there are more pairs than the limit; those of two dumps are differences.
    fn of_pairs(asked: &Asked) -> Option<Hint> {
        let of = if asked.compares() {
            "differences"
        } else {
            "canonical pairs"
        };
        Some(Hint::Limit(asked.limits()?.entries(), of, MAX_ROUTES))
    }

    /// What to do where a dump lacks a datagram, for this reason.
    fn of_lack(asked: &Asked, reason: LeftOutReason) -> Option<Hint> {
        match reason {
            LeftOutReason::Snapped => Some(Hint::Text(SNAPPED)),
            LeftOutReason::Fragment => Some(Hint::of_fragments(asked)),
            LeftOutReason::CutShort => Some(Hint::Text(CUT_SHORT)),
            _ => None,
        }
    }

    /// What to do where fragments of a datagram are missing: the option that accepts that, if it
    /// would.
    fn of_fragments(asked: &Asked) -> Hint {
        if asked.could_accept_missing() {
            Hint::Text(ACCEPT_MISSING)
        } else {
            Hint::Text(FRAGMENT)
        }
    }

    fn of_dump(asked: &Asked, fault: Fault, begins: &[u8]) -> Option<Hint> {
        match fault {
            Fault::TooManyRoutes { .. } => Hint::of_routes(asked),
            Fault::TooManyPairs => Hint::of_pairs(asked),
            Fault::TooLong => Hint::of_octets(asked),
            Fault::Truncated { at: 0 } | Fault::BadMagic { at: 0 } | Fault::BadVersion { at: 0 }
                if !begins_dump(begins) => Some(Hint::of_other(begins)),
            Fault::BadMagic { .. } => Some(Hint::Text(
                "the packet before may have a trailer (RFC 8967), which is not read",
            )),
            _ => None,
        }
    }

    /// What octets are that are neither a dump nor a capture, by the first of them.
    fn of_other(begins: &[u8]) -> Hint {
        for (magic, program) in &COMPRESSED {
            if begins.starts_with(magic) {
                return Hint::Compressed(program);
            }
        }
        if is_text(begins) {
            Hint::Text("this is text, and neither a dump of Babel packets nor a capture")
        } else {
            Hint::Text(
                "a capture is a file of pcap or pcapng, as tcpdump -w writes it; editcap -F pcap \
                 makes one of other formats",
            )
        }
    }

    fn of_capture(asked: &Asked, fault: &CaptureFault, begins: &[u8]) -> Option<Hint> {
        match fault {
            CaptureFault::NotCapture if begins.starts_with(&[42, 2]) => Some(Hint::Text(
                "this looks like a dump, not a capture: use show, lookup, normalise, key, pairs, \
                 compare or diff",
            )),
            CaptureFault::NotCapture => Some(Hint::of_other(begins)),
            CaptureFault::CutShort { .. } => Some(Hint::Text(
                "the recorder was stopped within a record; --accept-cut reads the complete records",
            )),
            CaptureFault::Snapped { .. } => Some(Hint::Text(SNAPPED)),
            CaptureFault::Fragment { .. } => Some(Hint::of_fragments(asked)),
            CaptureFault::DatagramCutShort { .. } => Some(Hint::Text(CUT_SHORT)),
            CaptureFault::Version { .. } => Some(Hint::Text(
                "supported versions: pcap 2.4, pcapng 1.0 and 1.2",
            )),
            CaptureFault::UnreadLink { .. } => Some(Hint::Text(
                "supported link types: Ethernet, Linux cooked (tcpdump -i any), raw IP, null and \
                 loopback",
            )),
            CaptureFault::TooLong { .. } => {
                Some(Hint::Limit(asked.most_octets_of_capture()?, "octets", MAX_OCTETS))
            }
            _ => None,
        }
    }
}

/// Whether these octets, which are the first of an input, are text: UTF-8, of which the last
/// character may be cut, without control characters but tab, line feed and carriage return.
fn is_text(begins: &[u8]) -> bool {
    let is_utf8 = match str::from_utf8(begins) {
        Ok(_) => true,
        Err(error) => error.error_len().is_none(),
    };
    let is_plain = |octet: &u8| *octet >= 32 || matches!(octet, b'\t' | b'\n' | b'\r');
    !begins.is_empty() && is_utf8 && begins.iter().all(is_plain)
}
