ghost use Rattle.std.specs.Prelude.{◌≡◌, ◌≤◌, ◌<◌, ◌+◌, ◌⊎◌, length, IfOk};
ghost use Rattle.babel_capture.specs.Lengths.{header_len, is_pcap_magic, is_section, pcap_order};
ghost use Rattle.babel_capture.specs.Lengths.{section_order, section_len, total_len, record_len};
ghost use Rattle.babel_capture.specs.Lengths.{first_len, layout_len};

use crate::fault::Fault;
use crate::layout::Layout;
use crate::order::Order;

/// The magic numbers of a pcap file, whose times are in microseconds or in nanoseconds:
/// draft-ietf-opsawg-pcap, 4.
const PCAP_MICROSECONDS: u32 = 0xa1b2_c3d4;

pub const PCAP_NANOSECONDS: u32 = 0xa1b2_3c4d;

/// The type of a section header, the same in either byte order: draft-ietf-opsawg-pcapng, 4.1.
pub const SECTION: u32 = 0x0a0d_0d0a;

/// The number by which a section's byte order shows: draft-ietf-opsawg-pcapng, 4.1.
const BYTE_ORDER_MAGIC: u32 = 0x1a2b_3c4d;

/// The length of the header of a pcap file, and of a record's: draft-ietf-opsawg-pcap, 4, 5.
const PCAP_HEADER: u32 = 24;

const RECORD_HEADER: u32 = 16;

/// The least length of a block, and of a section header: draft-ietf-opsawg-pcapng, 3.1, 4.1.
const LEAST_BLOCK: u32 = 12;

const LEAST_SECTION: u32 = 28;

/// The largest packet of a pcap file, and the largest block of a pcapng file, that are read.
const LONGEST_PACKET: u32 = 262_144;

const LONGEST_BLOCK: u32 = 16_777_216;

/// The byte order of a pcap file that begins with these octets; `None` if no pcap file does.
pub fn pcap_order(header: &[u8]) -> Option<Order>
    requires { 4 ≤ length header.now }
    ensures { result ≡ pcap_order header.now }
{
    if is_pcap_magic(Order::Big.u32_at(header, 0)) {
        Some(Order::Big)
    } else if is_pcap_magic(Order::Little.u32_at(header, 0)) {
        Some(Order::Little)
    } else {
        None
    }
}

fn is_pcap_magic(number: u32) -> bool
    ensures { result ≡ is_pcap_magic number }
{
    number == PCAP_MICROSECONDS || number == PCAP_NANOSECONDS
}

/// Whether a block begins a section.
pub fn is_section(header: &[u8]) -> bool
    requires { 4 ≤ length header.now }
    ensures { result ≡ is_section header.now }
{
    Order::Big.u32_at(header, 0) == SECTION
}

/// The byte order of the section that begins here.
pub fn section_order(header: &[u8], at: u64) -> Result<Order, Fault>
    requires { 12 ≤ length header.now }
    ensures { result ≡ section_order at header.now }
{
    if Order::Big.u32_at(header, 8) == BYTE_ORDER_MAGIC {
        Ok(Order::Big)
    } else if Order::Little.u32_at(header, 8) == BYTE_ORDER_MAGIC {
        Ok(Order::Little)
    } else {
        Err(Fault::BadOrder { at })
    }
}

/// The total length of a block of a pcapng file.
fn total_len(least: u32, order: Order, header: &[u8], at: u64) -> Result<u32, Fault>
    requires { 8 ≤ length header.now }
    ensures value { result ≡ total_len least order at header.now }
    ensures long { IfOk result (λ len. (least ≤ len) × (len ≤ 16777216)) }
{
    let total = order.u32_at(header, 4);
    if total < least || total > LONGEST_BLOCK || total % 4 > 0 {
        return Err(Fault::BadLength { at });
    }
    Ok(total)
}

/// The length of a section header.
fn section_len(header: &[u8], at: u64) -> Result<u32, Fault>
    requires { 12 ≤ length header.now }
    ensures value { result ≡ section_len at header.now }
    ensures long { IfOk result (λ len. (28 ≤ len) × (len ≤ 16777216)) }
{
    match section_order(header, at) {
        Ok(order) => total_len(LEAST_SECTION, order, header, at),
        Err(fault) => Err(fault),
    }
}

/// The length of a record of a pcap file, of which one without octets is none; 0 for that where it
/// is the end of what is read.
fn record_len(to_cut: bool, order: Order, header: &[u8], at: u64) -> Result<u32, Fault>
    requires { 16 ≤ length header.now }
    ensures value { result ≡ record_len to_cut order at header.now }
    ensures long { IfOk result (λ len. ((len ≡ 0) ⊎ (16 ≤ len)) × (len ≤ 16777216)) }
{
    let captured = order.u32_at(header, 8);
    if captured > LONGEST_PACKET {
        return Err(Fault::BadLength { at });
    }
    if captured > 0 || order.u32_at(header, 12) > 0 {
        return Ok(RECORD_HEADER + captured);
    }
    if to_cut {
        Ok(0)
    } else {
        Err(Fault::BadLength { at })
    }
}

/// The length of a capture's first block.
fn first_len(header: &[u8], at: u64) -> Result<u32, Fault>
    requires { 12 ≤ length header.now }
    ensures value { result ≡ first_len at header.now (pcap_order header.now) }
    ensures long { IfOk result (λ len. (24 ≤ len) × (len ≤ 16777216)) }
{
    if pcap_order(header).is_some() {
        return Ok(PCAP_HEADER);
    }
    if is_section(header) {
        return section_len(header, at);
    }
    Err(Fault::NotCapture)
}

impl Layout {
    /// How many octets tell the length of a block.
    pub fn header_len(self) -> usize
        ensures { result ≡ header_len self }
    {
        match self {
            Layout::Start => PCAP_HEADER as usize,
            Layout::Pcap(_) => RECORD_HEADER as usize,
            Layout::Section(_) => LEAST_BLOCK as usize,
        }
    }

    /// The length of the block that begins with this header, at this offset; 0 where what is read
    /// ends, which is so only with `to_cut`.
    pub fn block_len(self, to_cut: bool, header: &[u8], at: u64) -> Result<u32, Fault>
        requires { header_len self ≤ length header.now }
        ensures value { result ≡ layout_len to_cut self at header.now }
        ensures long { IfOk result
            (λ len. ((len ≡ 0) ⊎ (header_len self ≤ len)) × (len ≤ 16777216)) }
    {
        match self {
            Layout::Start => first_len(header, at),
            Layout::Pcap(order) => record_len(to_cut, order, header, at),
            Layout::Section(order) => {
                if is_section(header) {
                    section_len(header, at)
                } else {
                    total_len(LEAST_BLOCK, order, header, at)
                }
            }
        }
    }
}
