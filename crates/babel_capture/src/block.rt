ghost use Rattle.std.specs.Prelude.{◌≡◌, ◌≤◌, ◌<◌, ◌+◌, ◌^◌, length, ◌-◌, ◌==◌, IfOk, IfErr, Ok};
ghost use Rattle.std.specs.Prelude.{Err};
ghost use Rattle.babel_capture.specs.Passage.{section_with, sight_in};
ghost use Rattle.babel_capture.specs.Numbers.{number_at};
ghost use Rattle.babel_capture.specs.Lengths.{header_len};
ghost use Rattle.babel_capture.specs.Contents.{block_said, captured_of, content_of, file_said};
ghost use Rattle.babel_capture.specs.Contents.{interface_said, kept_len, kept_said, numbered_said};
ghost use Rattle.babel_capture.specs.Contents.{packet_said, packet_stamp, pcapng_said, read_by};
ghost use Rattle.babel_capture.specs.Contents.{record_said, record_stamp, section_said};
ghost use Rattle.babel_capture.specs.Contents.{simple_said, typed_said, versioned_said};
ghost use Rattle.babel_capture.specs.Times.{time_asked, time_in};
ghost use Rattle.babel_capture.specs.declared.window.Window.TheVariants.{Between};
ghost use Rattle.babel_capture.specs.Sight.{sight_of};

use crate::clock::{Clock, Resolution, Stamp};
use crate::context::Context;
use crate::fault::Fault;
use crate::frame::look;
use crate::known::LIFETIME;
use crate::layout::{Interface, Layout};
use crate::length::{PCAP_NANOSECONDS, SECTION, pcap_order, section_order};
use crate::link::Link;
use crate::options::read_options;
use crate::order::Order;
use crate::seen::Seen;
use crate::time::Time;
use crate::window::{Moment, Window, is_between, is_empty};

/// Types of blocks: draft-ietf-opsawg-pcapng, 4.2, 4.3, 4.4. The packet block is an old one, which
/// the enhanced packet block replaced.
const INTERFACE_DESCRIPTION: u32 = 1;

const PACKET: u32 = 2;

const SIMPLE_PACKET: u32 = 3;

const ENHANCED_PACKET: u32 = 6;

/// The version of pcap files, and those of sections of pcapng: draft-ietf-opsawg-pcap, 4;
/// draft-ietf-opsawg-pcapng, 4.1.
const FILE_MAJOR: u16 = 2;

const FILE_MINOR: u16 = 4;

const SECTION_MAJOR: u16 = 1;

const OTHER_MINOR: u16 = 2;

/// The powers of ten of micro- and nanoseconds: draft-ietf-opsawg-pcap, 4;
/// draft-ietf-opsawg-pcapng, 4.2.
const MICROSECONDS: Resolution = Resolution::Ten(6);

const NANOSECONDS: Resolution = Resolution::Ten(9);

/// A captured packet. Its fields of less than eight octets come last, so that copies of it are made
/// by the words that it was written in.
#[derive(Clone, Copy)]
pub struct Packet<'a> {
    /// The number of its interface in the capture.
    pub interface: u64,
    /// The number of its section's first interface.
    pub section: u64,
    /// How the interface's times are counted.
    pub clock: Clock,
    /// The time of its record, where that has one.
    pub stamp: Option<Stamp>,
    /// The octets that were kept.
    pub frame: &'a [u8],
    /// How many octets the packet had.
    pub whole_len: u32,
    /// The interface's link type.
    pub link: Link,
    /// Whether the time for which a datagram is known that begins with it ends within the window.
    pub ends_within: bool,
}

impl<'a> Packet<'a> {
    /// What its frame is.
    #[inline(always)]
    pub(crate) fn look(&self) -> Seen<'a>
        ensures { sight_of result ≡ sight_in (captured_of self.now) }
    {
        look(self.interface, self.link, self.frame, self.whole_len)
    }

    /// The section where it came, if it is seen as a datagram of Babel.
    pub(crate) fn babel_section(&self, seen: &Seen<'_>) -> Option<u64>
        ensures { result ≡ section_with (captured_of self.now).section (sight_of seen.now) }
    {
        match seen {
            Seen::Datagram { .. } => Some(self.section),
            Seen::Other | Seen::Short | Seen::Fragment(_) | Seen::Flawed { .. } => None,
        }
    }

    /// When it came; `None` where its block has no time, or one before 1970 or after the year 9999.
    pub fn time(&self) -> Option<Time>
        ensures { result ≡ time_in (captured_of self.now).moment }
    {
        self.clock.time(self.stamp?)
    }

    /// When it came, where a time is asked for, in the block at this offset.
    fn time_asked(&self, at: u64) -> Result<Time, Fault>
        ensures { result ≡ time_asked at (captured_of self.now).moment }
    {
        let Some(stamp) = self.stamp else {
            return Err(Fault::NoTime { at });
        };
        match self.clock.time(stamp) {
            Some(time) => Ok(time),
            None => Err(Fault::BadTime { at }),
        }
    }
}

/// What a block of a capture says.
#[derive(Clone, Copy)]
pub enum Block<'a> {
    /// The header of a pcap file, which describes its one interface.
    File {
        order: Order,
        interface: Interface,
    },
    /// The header of a section of a pcapng file.
    Section(Order),
    /// A description of an interface, and its name, which is empty where it has none.
    Interface {
        interface: Interface,
        name: &'a [u8],
    },
    /// A captured packet.
    Packet(Packet<'a>),
    /// A captured packet that is skipped for its time.
    Skipped(Packet<'a>),
    /// A block of another type, which is ignored.
    Other,
}

/// A block of the pcapng file that says its length again at its end.
fn ends_well(order: Order, block: &[u8]) -> bool
    requires { 4 ≤ length block.now }
    ensures { result ≡ number_at order 4 block.now (length block.now - 4) == length block.now }
{
    order.u32_at(block, block.len() - 4) as usize == block.len()
}

/// A packet of the interface with this number.
#[inline(always)]
fn read_packet<'a>(
    before: &Context,
    at: u64,
    interface: usize,
    stamp: Option<Stamp>,
    frame: &'a [u8],
    whole_len: u32,
) -> Result<Block<'a>, Fault>
    ensures ok { IfOk result (λ block. packet_said before.now at interface stamp frame.now whole_len
        ≡ Ok (content_of block)) }
    ensures err { IfErr result (λ fault. packet_said before.now at interface stamp frame.now
        whole_len ≡ Err fault) }
{
    let Some(described) = before.interface(interface) else {
        return Err(Fault::NoInterface { at });
    };
    let Some(link) = Link::of(described.link) else {
        return Err(Fault::UnreadLink {
            at,
            number: described.link,
        });
    };
    let packet = Packet {
        interface: interface as u64,
        section: before.first() as u64,
        clock: described.clock,
        stamp,
        frame,
        whole_len,
        link,
        ends_within: true,
    };
    read_by(before, at, packet)
}

/// A packet that is read, or skipped for its time; a fault where none can be read by the first
/// one's.
#[inline(always)]
fn read_by<'a>(before: &Context, at: u64, packet: Packet<'a>) -> Result<Block<'a>, Fault>
    ensures ok { IfOk result (λ block. read_by before.now.window before.now.start at (captured_of
        packet.entry) ≡ Ok (content_of block)) }
    ensures err { IfErr result (λ fault. read_by before.now.window before.now.start at (captured_of
        packet.entry) ≡ Err fault) }
{
    match before.window() {
        Window::Whole => Ok(Block::Packet(packet)),
        Window::Between { since, until } => read_between(before, at, &since, &until, packet),
    }
}

/// A packet that is read if it came between these moments, where they are given, and else skipped.
#[inline(never)]
fn read_between<'a>(
    before: &Context,
    at: u64,
    since: &Option<Moment>,
    until: &Option<Moment>,
    mut packet: Packet<'a>,
) -> Result<Block<'a>, Fault>
    ensures ok { IfOk result (λ block. read_by (Between since.now until.now) before.now.start at
        (captured_of packet.entry) ≡ Ok (content_of block)) }
    ensures err { IfErr result (λ fault. read_by (Between since.now until.now) before.now.start at
        (captured_of packet.entry) ≡ Err fault) }
{
    let time = match packet.time_asked(at) {
        Ok(time) => time,
        Err(fault) => return Err(fault),
    };
    let first = before.start().unwrap_or(time);
    if is_empty(since, until, &first) {
        return Err(Fault::EmptyWindow { at });
    }
    let time = time.nanoseconds();
    packet.ends_within = is_between(*since, *until, first, time + LIFETIME);
    if is_between(*since, *until, first, time) {
        Ok(Block::Packet(packet))
    } else {
        Ok(Block::Skipped(packet))
    }
}

/// The header of a pcap file.
fn read_file<'a>(
    before: &Context,
    at: u64,
    order: Order,
    block: &'a [u8],
) -> Result<Block<'a>, Fault>
    requires { 24 ≤ length block.now }
    ensures ok { IfOk result (λ said. file_said before.now at order block.now
        ≡ Ok (content_of said)) }
    ensures err { IfErr result (λ fault. file_said before.now at order block.now ≡ Err fault) }
{
    if before.is_full() {
        return Err(Fault::TooManyInterfaces { at });
    }
    let major = order.u16_at(block, 4);
    let minor = order.u16_at(block, 6);
    if major != FILE_MAJOR || minor != FILE_MINOR {
        return Err(Fault::Version { at, major, minor });
    }
    let resolution = if order.u32_at(block, 0) == PCAP_NANOSECONDS {
        NANOSECONDS
    } else {
        MICROSECONDS
    };
    let interface = Interface {
        link: order.u32_at(block, 20) % 65_536,
        snap_len: order.u32_at(block, 16),
        clock: Clock {
            resolution,
            offset: 0,
        },
    };
    Ok(Block::File { order, interface })
}

/// The time of a record of a pcap file.
fn record_stamp(order: Order, block: &[u8]) -> Stamp
    requires { 8 ≤ length block.now }
    ensures { result ≡ record_stamp order block.now }
{
    Stamp {
        seconds: u64::from(order.u32_at(block, 0)),
        units: u64::from(order.u32_at(block, 4)),
    }
}

/// A record of a pcap file.
fn read_record<'a>(
    before: &Context,
    at: u64,
    order: Order,
    block: &'a [u8],
) -> Result<Block<'a>, Fault>
    requires { 16 ≤ length block.now }
    ensures ok { IfOk result (λ said. record_said before.now at order block.now
        ≡ Ok (content_of said)) }
    ensures err { IfErr result (λ fault. record_said before.now at order block.now ≡ Err fault) }
{
    read_packet(
        before,
        at,
        0,
        Some(record_stamp(order, block)),
        &block[16..],
        order.u32_at(block, 12),
    )
}

/// The header of a section in this byte order.
fn read_version<'a>(at: u64, order: Order, block: &'a [u8]) -> Result<Block<'a>, Fault>
    ensures ok { IfOk result (λ said. versioned_said at order block.now
        ≡ Ok (content_of said)) }
    ensures err { IfErr result (λ fault. versioned_said at order block.now ≡ Err fault) }
{
    if block.len() < 28 {
        return Err(Fault::BadLength { at });
    }
    let major = order.u16_at(block, 12);
    let minor = order.u16_at(block, 14);
    if major == SECTION_MAJOR && (minor == 0 || minor == OTHER_MINOR) {
        Ok(Block::Section(order))
    } else {
        Err(Fault::Version { at, major, minor })
    }
}

/// The header of a section.
fn read_section<'a>(at: u64, block: &'a [u8]) -> Result<Block<'a>, Fault>
    requires { 12 ≤ length block.now }
    ensures ok { IfOk result (λ said. section_said at block.now ≡ Ok (content_of said)) }
    ensures err { IfErr result (λ fault. section_said at block.now ≡ Err fault) }
{
    match section_order(block, at) {
        Ok(order) => {
            if ends_well(order, block) {
                read_version(at, order, block)
            } else {
                Err(Fault::BadLength { at })
            }
        }
        Err(fault) => Err(fault),
    }
}

/// A description of an interface.
fn read_interface<'a>(
    before: &Context,
    at: u64,
    order: Order,
    block: &'a [u8],
) -> Result<Block<'a>, Fault>
    ensures ok { IfOk result (λ said. interface_said before.now at order block.now
        ≡ Ok (content_of said)) }
    ensures err { IfErr result (λ fault. interface_said before.now at order block.now ≡ Err fault) }
{
    if block.len() < 20 {
        return Err(Fault::BadLength { at });
    }
    if before.is_full() {
        return Err(Fault::TooManyInterfaces { at });
    }
    let options = read_options(order, &block[16..block.len() - 4]);
    if options.is_bad {
        return Err(Fault::BadLength { at });
    }
    let interface = Interface {
        link: order.u16_at(block, 8) as u32,
        snap_len: order.u32_at(block, 12),
        clock: Clock {
            resolution: options.resolution.unwrap_or(MICROSECONDS),
            offset: options.offset.unwrap_or(0),
        },
    };
    Ok(Block::Interface {
        interface,
        name: options.name,
    })
}

/// A block with a packet of the interface that has this number in the section: an enhanced packet
/// block, or the block that it replaced.
#[inline(always)]
fn read_numbered<'a>(
    before: &Context,
    at: u64,
    order: Order,
    block: &'a [u8],
    number: usize,
) -> Result<Block<'a>, Fault>
    requires { number < 2 ^ 32 }
    ensures ok { IfOk result (λ said. numbered_said before.now at order block.now number
        ≡ Ok (content_of said)) }
    ensures err { IfErr result (λ fault. numbered_said before.now at order block.now number
        ≡ Err fault) }
{
    if block.len() < 32 {
        return Err(Fault::BadLength { at });
    }
    let captured = order.u32_at(block, 20) as usize;
    read_kept(before, at, order, block, number, captured)
}

/// The time of a packet in such a block.
fn packet_stamp(order: Order, block: &[u8]) -> Stamp
    requires { 20 ≤ length block.now }
    ensures { result ≡ packet_stamp order block.now }
{
    let high = u64::from(order.u32_at(block, 12));
    let low = u64::from(order.u32_at(block, 16));
    Stamp {
        seconds: 0,
        units: (high << 32) + low,
    }
}

/// Such a block, of which so many octets are the packet's.
#[inline(always)]
fn read_kept<'a>(
    before: &Context,
    at: u64,
    order: Order,
    block: &'a [u8],
    number: usize,
    captured: usize,
) -> Result<Block<'a>, Fault>
    requires numbers { (number < 2 ^ 32) × (captured < 2 ^ 32) }
    requires long { 32 ≤ length block.now }
    ensures ok { IfOk result (λ said. kept_said before.now at order block.now number captured
        ≡ Ok (content_of said)) }
    ensures err { IfErr result (λ fault. kept_said before.now at order block.now number captured
        ≡ Err fault) }
{
    if block.len() < 32 + captured {
        return Err(Fault::BadLength { at });
    }
    let interface = before.first() + number;
    read_packet(
        before,
        at,
        interface,
        Some(packet_stamp(order, block)),
        &block[28..28 + captured],
        order.u32_at(block, 24),
    )
}

/// How many octets of a packet are kept.
fn kept_len(snap_len: u32, whole_len: u32) -> u32
    ensures { result ≡ kept_len snap_len whole_len }
{
    if snap_len == 0 {
        whole_len
    } else {
        snap_len.min(whole_len)
    }
}

/// A simple packet block.
fn read_simple<'a>(
    before: &Context,
    at: u64,
    order: Order,
    block: &'a [u8],
) -> Result<Block<'a>, Fault>
    ensures ok { IfOk result (λ said. simple_said before.now at order block.now
        ≡ Ok (content_of said)) }
    ensures err { IfErr result (λ fault. simple_said before.now at order block.now ≡ Err fault) }
{
    if block.len() < 16 {
        return Err(Fault::BadLength { at });
    }
    let Some(described) = before.interface(before.first()) else {
        return Err(Fault::NoInterface { at });
    };
    let whole_len = order.u32_at(block, 8);
    let kept = kept_len(described.snap_len, whole_len) as usize;
    if block.len() < 16 + kept {
        return Err(Fault::BadLength { at });
    }
    read_packet(
        before,
        at,
        before.first(),
        None,
        &block[12..12 + kept],
        whole_len,
    )
}

/// A block of this type.
fn read_typed<'a>(
    before: &Context,
    at: u64,
    order: Order,
    block: &'a [u8],
    kind: u32,
) -> Result<Block<'a>, Fault>
    requires { 12 ≤ length block.now }
    ensures ok { IfOk result (λ said. typed_said before.now at order block.now kind
        ≡ Ok (content_of said)) }
    ensures err { IfErr result (λ fault. typed_said before.now at order block.now kind
        ≡ Err fault) }
{
    match kind {
        INTERFACE_DESCRIPTION => read_interface(before, at, order, block),
        SIMPLE_PACKET => read_simple(before, at, order, block),
        PACKET => read_numbered(before, at, order, block, order.u16_at(block, 8) as usize),
        ENHANCED_PACKET => {
            read_numbered(before, at, order, block, order.u32_at(block, 8) as usize)
        }
        _ => Ok(Block::Other),
    }
}

/// A block of a section.
fn read_pcapng<'a>(
    before: &Context,
    at: u64,
    order: Order,
    block: &'a [u8],
) -> Result<Block<'a>, Fault>
    requires { 12 ≤ length block.now }
    ensures ok { IfOk result (λ said. pcapng_said before.now at order block.now
        ≡ Ok (content_of said)) }
    ensures err { IfErr result (λ fault. pcapng_said before.now at order block.now ≡ Err fault) }
{
    let kind = order.u32_at(block, 0);
    if kind == SECTION {
        return read_section(at, block);
    }
    if !ends_well(order, block) {
        return Err(Fault::BadLength { at });
    }
    read_typed(before, at, order, block, kind)
}

/// What a whole block says, which begins at this offset.
#[tactic(auto, unfolding(crate::specs::Contents::block_said))]
#[inline(never)]
pub fn read_block<'a>(before: &Context, at: u64, block: &'a [u8]) -> Result<Block<'a>, Fault>
    requires { header_len before.now.layout ≤ length block.now }
    ensures ok { IfOk result (λ said. block_said before.now at block.now ≡ Ok (content_of said)) }
    ensures err { IfErr result (λ fault. block_said before.now at block.now ≡ Err fault) }
{
    match before.layout() {
        Layout::Start => match pcap_order(block) {
            Some(order) => read_file(before, at, order, block),
            None => read_section(at, block),
        },
        Layout::Pcap(order) => read_record(before, at, order, block),
        Layout::Section(order) => read_pcapng(before, at, order, block),
    }
}
