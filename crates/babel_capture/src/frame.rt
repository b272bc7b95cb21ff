ghost use Rattle.std.specs.Prelude.{◌≡◌, ◌≤◌, ◌+◌, length, max};
ghost use Rattle.babel_capture.specs.Frame.{cooked2_sight, family_sight, frame_sight, header_sight};
ghost use Rattle.babel_capture.specs.Frame.{raw_sight};
ghost use Rattle.babel_capture.specs.Sight.{sight_of};

use crate::ethernet::{Payload, leads_to_ip};
use crate::field::{number16, number32};
use crate::ipv4::look_into_ipv4;
use crate::ipv6::look_into_ipv6;
use crate::link::Link;
use crate::part::Part;
use crate::place::{Place, Vlans};
use crate::seen::Seen;
use byteorder::{ByteOrder, LittleEndian, NetworkEndian};

/// A header with an EtherType: where it has that of what comes after it, and how many octets it
/// has.
#[derive(Clone, Copy)]
struct Header {
    ether_type: usize,
    len: usize,
}

/// IEEE 802.3, 3.2: two addresses and the EtherType.
const ETHERNET: Header = Header {
    ether_type: 12,
    len: 14,
};
/// tcpdump.org/linktypes/LINKTYPE_LINUX_SLL.html
const COOKED: Header = Header {
    ether_type: 14,
    len: 16,
};
/// tcpdump.org/linktypes/LINKTYPE_LINUX_SLL2.html
const COOKED2: Header = Header {
    ether_type: 0,
    len: 20,
};

/// The protocol family of IPv4 everywhere, and those of IPv6 by system.
const INET: u32 = 2;

const LINUX_INET6: u32 = 10;

const NETBSD_INET6: u32 = 24;

const FREEBSD_INET6: u32 = 28;

const MACOS_INET6: u32 = 30;

/// The octets of a protocol family.
const FAMILY_LEN: usize = 4;

/// What a frame is that was captured on the interface with this number: the octets that the
/// recorder kept of one that had `whole_len` octets on the wire.
///
/// Checksums are not looked at. A frame that has more octets than `whole_len` counts as a whole
/// one.
#[tactic(auto, unfolding(crate::specs::Frame::frame_sight))]
#[inline(always)]
pub fn look(interface: u64, link: Link, frame: &[u8], whole_len: u32) -> Seen<'_>
    ensures { sight_of result ≡ frame_sight interface link frame.now
        (max whole_len (length frame.now)) }
{
    let place = Place::on(interface);
    let part = Part {
        octets: frame,
        whole: frame.len().max(whole_len as usize),
    };
    match link {
        Link::Null | Link::Loop => look_after_family(place, part),
        Link::Ethernet => look_after_header(ETHERNET, place, part),
        Link::Cooked => look_after_header(COOKED, place, part),
        Link::Cooked2 => look_into_cooked2(interface, part),
        Link::RawIp => look_by_version(place, part),
        Link::RawIpv4 => look_into_ipv4(place, part),
        Link::RawIpv6 => look_into_ipv6(place, part),
    }
}

/// A frame of Linux cooked, version 2, which names its link.
fn look_into_cooked2(interface: u64, frame: Part<'_>) -> Seen<'_>
    ensures { sight_of result ≡ cooked2_sight interface frame.entry.octets.now frame.entry.whole }
{
    if frame.octets.len() < 2 {
        return Seen::Short;
    }
    if !leads_to_ip(number16(frame.octets, 0)) {
        return Seen::Other;
    }
    if frame.octets.len() < COOKED2.len {
        return Seen::Short;
    }
    let place = Place {
        link: Some(number32(frame.octets, 4)),
        ..Place::on(interface)
    };
    look_after_header(COOKED2, place, frame)
}

/// After a header with an EtherType.
fn look_after_header(header: Header, place: Place, frame: Part<'_>) -> Seen<'_>
    requires { header.ether_type + 2 ≤ header.len }
    ensures { sight_of result ≡ header_sight header.ether_type header.len place
        frame.entry.octets.now frame.entry.whole }
{
    if frame.octets.len() < header.len {
        return Seen::Short;
    }
    let payload = Payload {
        ether_type: number16(frame.octets, header.ether_type),
        vlans: Vlans::none(),
        part: frame.after(header.len),
    };
    payload.look(place)
}

/// After the number of a protocol family.
fn look_after_family(place: Place, frame: Part<'_>) -> Seen<'_>
    ensures { sight_of result ≡ family_sight place frame.entry.octets.now frame.entry.whole }
{
    if frame.octets.len() < FAMILY_LEN {
        return Seen::Short;
    }
    let high_first = NetworkEndian::read_u32(frame.octets);
    let low_first = LittleEndian::read_u32(frame.octets);
    let packet = frame.after(FAMILY_LEN);
    match high_first.min(low_first) {
        INET => look_into_ipv4(place, packet),
        LINUX_INET6 | NETBSD_INET6 | FREEBSD_INET6 | MACOS_INET6 => look_into_ipv6(place, packet),
        _ => Seen::Other,
    }
}

/// An IP packet, of the version that it says.
fn look_by_version(place: Place, packet: Part<'_>) -> Seen<'_>
    ensures { sight_of result ≡ raw_sight place packet.entry.octets.now packet.entry.whole }
{
    match packet.octets {
        [] => Seen::Short,
        [first, ..] if *first >> 4 == 4 => look_into_ipv4(place, packet),
        [first, ..] if *first >> 4 == 6 => look_into_ipv6(place, packet),
        _ => Seen::Other,
    }
}
