use crate::clock::Clock;
use crate::order::Order;

/// What the blocks of a capture are.
#[derive(Clone, Copy)]
pub enum Layout {
    /// Not known yet: the first block tells.
    Start,
    /// The records of a pcap file: draft-ietf-opsawg-pcap, 5.
    Pcap(Order),
    /// The blocks of a section of a pcapng file: draft-ietf-opsawg-pcapng, 4.
    Section(Order),
}

/// An interface, as the capture describes it.
#[derive(Clone, Copy)]
pub struct Interface {
    /// The number of its link type.
    pub link: u32,
    /// How many octets of a packet are kept at most; 0 is no limit.
    pub snap_len: u32,
    /// How the times of its packets are counted.
    pub clock: Clock,
}
