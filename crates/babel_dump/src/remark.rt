//! What is said at once, before a run ends.
use crate::ignored::IgnoredTlv;
use crate::left_out::LeftOutDatagram;
use crate::note::Note;
use crate::place_word::NamedOrigin;
use babel_capture::Origin;
use std::fmt;

/// What of a sender was not read.
#[derive(Clone, Copy)]
pub(crate) enum Unread {
    /// A datagram of it was left out that is missed, so that no more is told of it.
    Lost(LeftOutDatagram),
    /// One was left out that is not missed, the first for its reason.
    LeftOut(LeftOutDatagram),
    /// It is not followed, and the packet with this number is the first of such senders.
    NotFollowed(u64),
    /// A TLV of it was ignored, the first for its reason, by its offset in the sender's dump.
    Ignored(IgnoredTlv),
}

/// What of a sender was not read, and whose it is.
#[derive(Clone, Copy)]
pub(crate) struct Remark {
    pub origin: Origin,
    pub unread: Unread,
    /// Whether it is said with what can be done about it.
    pub is_hinted: bool,
}

/// What of a sender was not read, as it is said.
#[derive(Clone, Copy)]
pub(crate) struct NamedRemark<'a> {
    pub remark: Remark,
    /// The name of the sender's interface, as the capture has it; empty where it has none.
    pub name: &'a [u8],
}

impl fmt::Display for NamedRemark<'_> {
    fn fmt<W: fmt::Write>(&self, f: &mut fmt::Formatter<W>) -> fmt::Result {
        let sender = NamedOrigin {
            origin: self.remark.origin,
            name: self.name,
        };
        match &self.remark.unread {
            Unread::Lost(datagram) => {
                write!(f, "note: {sender}: {datagram}; its routes are not followed")
            }
            Unread::LeftOut(datagram) => write!(f, "note: {sender}: {datagram}"),
            Unread::NotFollowed(packet) => {
                write!(f, "note: {sender}: {}", Note::NotFollowed(*packet))
            }
            Unread::Ignored(tlv) => write!(f, "note: {sender}: {tlv}"),
        }
    }
}
