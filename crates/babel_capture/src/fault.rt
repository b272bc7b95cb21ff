use std::alloc::AllocError;
use std::fmt;
use thiserror::Error;

/// Why a capture is refused. Offsets `at` count octets from the capture's first octet.
#[derive(Clone, Copy, PartialEq, Eq, Error)]
pub enum Fault {
    /// The octets are no capture: their magic number is none of pcap or pcapng, or they end within
    /// their first block.
    #[error("not a capture")]
    NotCapture,
    /// The capture ends inside the block that begins here.
    #[error("capture cut short at {at}")]
    CutShort { at: u64 },
    /// The block that begins here says a length that it cannot have.
    #[error("bad length at {at}")]
    BadLength { at: u64 },
    /// The section that begins here says neither byte order: draft-ietf-opsawg-pcapng, 4.1.
    #[error("bad byte order at {at}")]
    BadOrder { at: u64 },
    /// The pcap file, or the section, that begins here is of another version than those that are
    /// read: draft-ietf-opsawg-pcap, 4; draft-ietf-opsawg-pcapng, 4.1.
    #[error("version {major}.{minor} not read at {at}")]
    Version { at: u64, major: u16, minor: u16 },
    /// The packet in the block that begins here is of an interface that was not described.
    #[error("no such interface at {at}")]
    NoInterface { at: u64 },
    /// The packet in the block that begins here is of an interface whose link type is not read.
    #[error("link type {number} not read at {at}")]
    UnreadLink { at: u64, number: u32 },
    /// The block that begins here describes one interface more than 65,536.
    #[error("too many interfaces at {at}")]
    TooManyInterfaces { at: u64 },
    /// The recorder kept only a part of the sender's datagram in the block that begins here.
    #[error("datagram cut by the recorder at {at}")]
    Snapped { at: u64 },
    /// Fragments are missing of a datagram of the sender, the first of which to come is in the
    /// block that begins here.
    #[error("fragments of a datagram missing at {at}")]
    Fragment { at: u64 },
    /// The sender's datagram in the block that begins here says more octets than there were.
    #[error("datagram cut short at {at}")]
    DatagramCutShort { at: u64 },
    /// The packet in the block that begins here is of one sender more than 65,536, each counted at
    /// each place where it occurs.
    #[error("too many senders at {at}")]
    TooManySenders { at: u64 },
    /// The block that begins here ends past the limit on octets.
    #[error("capture too long at {at}")]
    TooLong { at: u64 },
    /// Where a time is asked for, that of the packet in the block that begins here is before 1970
    /// or after the year 9999.
    #[error("bad time at {at}")]
    BadTime { at: u64 },
    /// Where a time is asked for, the packet in the block that begins here has none.
    #[error("packet without a time at {at}")]
    NoTime { at: u64 },
    /// The packet in the block that begins here is the first, and by its time the first moment that
    /// is read is later than the last.
    #[error("empty window of times at {at}")]
    EmptyWindow { at: u64 },
    /// An allocation was refused, or the octets of one sender are 2^64 or more.
    #[error("out of memory")]
    Memory,
}

impl fmt::Debug for Fault {
    fn fmt<W: fmt::Write>(&self, out: &mut fmt::Formatter<W>) -> fmt::Result {
        fmt::Display::fmt(self, out)
    }
}

impl From<AllocError> for Fault {
    ghost use Rattle.std.specs.Prelude.{◌≡◌};
    ghost use Rattle.babel_capture.specs.declared.fault.Fault.TheVariants as faults;

    ghost from_gives = { λ _ fault. fault ≡ faults.Memory };

    fn from(_error: AllocError) -> Fault {
        Fault::Memory
    }
}
