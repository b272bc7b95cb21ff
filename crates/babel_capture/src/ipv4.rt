ghost use Rattle.std.specs.Prelude.{◌≡◌, ◌≤◌, length};
ghost use Rattle.babel_capture.specs.Ipv4.{ipv4_carried_sight, ipv4_fragment, ipv4_header_len};
ghost use Rattle.babel_capture.specs.Ipv4.{fragment_offset, has_more_fragments, ipv4_sight};
ghost use Rattle.babel_capture.specs.Layers.{ip_fragment};
ghost use Rattle.babel_capture.specs.Sight.{sight_of};

use crate::ends::Ends;
use crate::field::{ipv4_address, number16};
use crate::fragment::DatagramId;
use crate::headers::NextHeader;
use crate::ip_fragment::IpFragment;
use crate::part::Part;
use crate::place::Place;
use crate::seen::Seen;
use crate::tallies::Origin;
use crate::udp::{UDP, look_into_udp};

/// The octets of a header without options, and of its first fields up to the protocol: RFC 791,
/// 3.1.
const MIN_HEADER_LEN: usize = 20;

const PROTOCOL_END: usize = 10;
/// The bits of the field of flags and fragment offset: RFC 791, 3.1; and of how many octets the
/// offset is a multiple.
const MORE_FRAGMENTS: u16 = 0x2000;

const FRAGMENT_OFFSET: u16 = 0x1fff;

const FRAGMENT_UNIT: u16 = 8;

/// The octets of the header of a packet, of which one at least was kept.
fn header_len(octets: &[u8]) -> usize
    requires { 1 ≤ length octets.now }
    ensures { result ≡ ipv4_header_len octets.now }
{
    4 * (octets[0] & 0x0f) as usize
}

/// Where in the datagram a fragment begins, in octets.
fn fragment_offset(octets: &[u8]) -> u16
    requires { 20 ≤ length octets.now }
    ensures { result ≡ fragment_offset octets.now }
{
    FRAGMENT_UNIT * (number16(octets, 6) & FRAGMENT_OFFSET)
}

/// Whether more fragments come after this one.
fn has_more_fragments(octets: &[u8]) -> bool
    requires { 20 ≤ length octets.now }
    ensures { result ≡ has_more_fragments octets.now }
{
    number16(octets, 6) & MORE_FRAGMENTS != 0
}

/// What an IPv4 packet is: RFC 791.
#[tactic(auto, unfolding(crate::specs::Ipv4::ipv4_sight))]
pub(crate) fn look_into_ipv4(place: Place, packet: Part<'_>) -> Seen<'_>
    ensures { sight_of result ≡ ipv4_sight place packet.entry.octets.now packet.entry.whole }
{
    let octets = packet.octets;
    if octets.is_empty() {
        return Seen::Short;
    }
    if octets[0] >> 4 != 4 || header_len(octets) < MIN_HEADER_LEN {
        return Seen::Other;
    }
    if octets.len() < PROTOCOL_END {
        return Seen::Short;
    }
    if octets[9] != UDP {
        return Seen::Other;
    }
    if octets.len() < MIN_HEADER_LEN {
        return Seen::Short;
    }
    look_at_carried(place, packet)
}

/// What is carried by a packet of UDP.
fn look_at_carried(place: Place, packet: Part<'_>) -> Seen<'_>
    requires { 20 ≤ length packet.octets.now }
    ensures { sight_of result
        ≡ ipv4_carried_sight place packet.entry.octets.now packet.entry.whole }
{
    let octets = packet.octets;
    let fragment = fragment_in(place, packet);
    if fragment.offset != 0 || fragment.more {
        return fragment.look();
    }
    let ends = Ends {
        sender: ipv4_address(octets, 12),
        destination: ipv4_address(octets, 16),
    };
    look_into_udp(place, &ends, fragment.is_cut, fragment.carried.part)
}

/// The fragment that a packet is, if it is one.
fn fragment_in(place: Place, packet: Part<'_>) -> IpFragment<'_>
    requires { 20 ≤ length packet.octets.now }
    ensures { ip_fragment result
        ≡ ipv4_fragment place packet.entry.octets.now packet.entry.whole }
{
    let octets = packet.octets;
    let total_len = number16(octets, 2) as usize;
    IpFragment {
        id: DatagramId {
            origin: Origin {
                place,
                sender: ipv4_address(octets, 12),
            },
            destination: ipv4_address(octets, 16),
            identification: u32::from(number16(octets, 4)),
        },
        offset: fragment_offset(octets),
        more: has_more_fragments(octets),
        is_cut: packet.whole < total_len,
        carried: NextHeader {
            number: UDP,
            part: packet.first(total_len).after(header_len(octets)),
            in_fragment: true,
        },
    }
}
