//! Captures of packets, as tcpdump and Wireshark write them (draft-ietf-opsawg-pcap,
//! draft-ietf-opsawg-pcapng): who sent Babel datagrams, and the packets of each sender, or of one.
//!
//! A `Capture` is read in pieces of any size. It tells its blocks, and each captured packet to the
//! layer of frames, which looks into one frame and takes no memory; and then, where it lies, to a
//! `Sink`. This crate knows nothing of files and streams, nor of what the TLVs of a packet say.
//!
//! What it promises the crates above, each with its contract as docs/PROMISES.md has them:
//!
//! - A sink takes each packet as it is read, in order, each once: its number, its time, and the
//!   Babel packet in it and from whom, or, where no sender is named, whose datagram is missed for
//!   what it lacks. With a fault it took the packets of the blocks before it. — `Capture::feed` ·
//!   *sunk*, *stopped* (`Sinks`, `FeedMore`, `StopMore`); `Sink::take` (`IsTold`). A Babel packet
//!   that is found is whole — `laws::found_is_a_packet`
//! - Of a capture whose last block is cut short, `finish_at_cut` gives what the whole blocks before
//!   it give, and where the cut is, as does `end` of a reader that is kept; a cut in the first
//!   block is refused. With `to_cut` a record of pcap without octets is such a cut, whatever comes
//!   after it, up to the limit (`record_len`, `IsEnd`, `IsPartial`). — `Capture::finish_at_cut`,
//!   `end` · *ok*, *not_cut*; `finish_at_cut`, `finish` · *wanted*
//! - Out of memory comes only where a block came in several pieces, or one that begins in this
//!   piece is not whole, describes an interface, or has a packet of a sender not listed yet (or has
//!   2^64 packets, octets or Updates); at the end only if answered before. — `Capture::feed`,
//!   `finish`, `finish_at_cut`, `end` · *memory*
//! - Where nobody is named, the packets found of a sender at its place are those that the same
//!   octets give where it alone is wanted, with number and time; they give nothing then if one is
//!   missed. — `laws::alone_is_the_same` · *whole*, *missing*
//! - A datagram is cut by the recorder only where it left octets out; a payload is a UDP datagram's
//!   in its frame, both ports 6696, to its length, of a link-local sender or one of IPv4. —
//!   `laws::sight_is_backed`
//! - After a link header whose EtherType (past up to four tags) or protocol family is not IP's,
//!   nothing of Babel is seen. — `laws::other_type_is_passed` · *ether_type*, *family*
#![tactic(auto)]

mod block;
mod capture;
mod clock;
mod context;
mod datagram;
mod ends;
mod ethernet;
mod fault;
mod field;
mod finding;
mod flaw;
mod fragment;
mod fragments;
mod frame;
mod gathered;
mod headers;
mod ip_fragment;
mod ipv4;
mod ipv6;
mod known;
mod lack;
pub mod laws;
mod layout;
mod length;
mod link;
mod missed;
mod options;
mod order;
mod outside;
mod part;
mod passing;
mod pieces;
mod place;
mod reader;
mod reason;
mod report;
mod sections;
mod seen;
mod sink;
mod stream;
mod tallies;
mod time;
mod timing;
mod udp;
mod updates;
mod wanted;
mod window;

pub use capture::Capture;
pub use ends::Ends;
pub use fault::Fault;
pub use flaw::Flaw;
pub use fragment::{DatagramId, Fragment, UdpPlace};
pub use frame::look;
pub use gathered::Gathered;
pub use headers::MAX_EXTENSION_HEADERS;
pub use lack::Lack;
pub use link::Link;
pub use missed::Missed;
pub use place::{MAX_TAGS, Place, Vlans};
pub use reason::Reason;
pub use report::Report;
pub use seen::Seen;
pub use sink::{BabelPacket, NoSink, Record, Said, Sink};
pub use tallies::{MAX_SENDERS, Origin, Tally};
pub use time::Time;
pub use timing::Timing;
pub use updates::{Updates, updates_in};
pub use wanted::Wanted;
pub use window::{Moment, Window};
