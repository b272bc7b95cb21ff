ghost use Rattle.std.specs.Prelude.{◌≡◌, ◌≤◌, length};
ghost use Rattle.babel_capture.specs.Ipv6.{ipv6_carried_sight, ipv6_fragment_sight, ipv6_sight};
ghost use Rattle.babel_capture.specs.Ipv6.{is_cut, upper_sight};
ghost use Rattle.babel_capture.specs.Layers.{next_header};
ghost use Rattle.babel_capture.specs.Sight.{sight_of};

use crate::ends::Ends;
use crate::field::{ipv6_address, number16, number32};
use crate::fragment::DatagramId;
use crate::headers::{FRAGMENT, NextHeader, fragment_offset, has_more_fragments};
use crate::ip_fragment::IpFragment;
use crate::part::Part;
use crate::place::Place;
use crate::seen::Seen;
use crate::tallies::Origin;
use crate::udp::{UDP, look_at_none, look_into_udp};

/// The octets of the fixed header, and of its fields up to the next header: RFC 8200, 3.
const HEADER_LEN: usize = 40;

const NEXT_HEADER_END: usize = 7;

/// The octets of the header of fragments: RFC 8200, 4.5.
const FRAGMENT_LEN: usize = 8;

/// What an IPv6 packet is: RFC 8200.
#[tactic(auto, unfolding(crate::specs::Ipv6::ipv6_sight))]
pub(crate) fn look_into_ipv6(place: Place, packet: Part<'_>) -> Seen<'_>
    ensures { sight_of result ≡ ipv6_sight place packet.entry.octets.now packet.entry.whole }
{
    let octets = packet.octets;
    if octets.is_empty() {
        return Seen::Short;
    }
    if octets[0] >> 4 != 6 {
        return Seen::Other;
    }
    if octets.len() < NEXT_HEADER_END {
        return Seen::Short;
    }
    let first = NextHeader {
        number: octets[6],
        part: packet.after(HEADER_LEN).first(number16(octets, 4) as usize),
        in_fragment: false,
    };
    look_at_upper(place, packet, first.past_all())
}

/// What comes after the extension headers of a packet.
fn look_at_upper<'a>(place: Place, packet: Part<'a>, upper: NextHeader<'a>) -> Seen<'a>
    requires { 7 ≤ length packet.octets.now }
    ensures { sight_of result ≡ upper_sight place packet.entry.octets.now packet.entry.whole
        (next_header upper.entry) }
{
    match upper.number {
        UDP => look_at_carried(place, packet, upper),
        FRAGMENT if !upper.in_fragment => look_at_fragment(place, packet, upper),
        _ => {
            if upper.is_unkept() {
                Seen::Short
            } else {
                Seen::Other
            }
        }
    }
}

/// What is carried by a packet of UDP.
fn look_at_carried<'a>(place: Place, packet: Part<'a>, upper: NextHeader<'a>) -> Seen<'a>
    requires { 7 ≤ length packet.octets.now }
    ensures { sight_of result ≡ ipv6_carried_sight place packet.entry.octets.now
        packet.entry.whole (next_header upper.entry) }
{
    let octets = packet.octets;
    if octets.len() < HEADER_LEN {
        return look_at_none(upper.part.whole);
    }
    let ends = Ends {
        sender: ipv6_address(octets, 8),
        destination: ipv6_address(octets, 24),
    };
    look_into_udp(place, &ends, is_cut(packet), upper.part)
}

/// Whether a packet says more octets than its frame had.
fn is_cut(packet: Part<'_>) -> bool
    requires { 7 ≤ length packet.octets.now }
    ensures { result ≡ is_cut packet.entry.octets.now packet.entry.whole }
{
    packet.whole < HEADER_LEN + number16(packet.octets, 4) as usize
}

/// What a packet is that is a fragment, by this header: RFC 8200, 4.5.
fn look_at_fragment<'a>(place: Place, packet: Part<'a>, header: NextHeader<'a>) -> Seen<'a>
    requires { 7 ≤ length packet.octets.now }
    ensures { sight_of result ≡ ipv6_fragment_sight place packet.entry.octets.now
        packet.entry.whole (next_header header.entry) }
{
    if header.part.whole < FRAGMENT_LEN {
        return Seen::Other;
    }
    if packet.octets.len() < HEADER_LEN || header.part.octets.len() < FRAGMENT_LEN {
        return Seen::Short;
    }
    let octets = header.part.octets;
    let fragment = IpFragment {
        id: DatagramId {
            origin: Origin {
                place,
                sender: ipv6_address(packet.octets, 8),
            },
            destination: ipv6_address(packet.octets, 24),
            identification: number32(octets, 4),
        },
        offset: fragment_offset(octets),
        more: has_more_fragments(octets),
        is_cut: is_cut(packet),
        carried: NextHeader {
            number: octets[0],
            part: header.part.after(FRAGMENT_LEN),
            in_fragment: true,
        },
    };
    fragment.look()
}
