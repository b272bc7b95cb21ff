ghost use Rattle.std.specs.Prelude.{◌≡◌, ◌≤◌, length};
ghost use Rattle.babel_capture.specs.Sight.{sight_of};
ghost use Rattle.babel_capture.specs.Udp.{babel_sight, is_babel, is_of_routers, len_sight};
ghost use Rattle.babel_capture.specs.Udp.{may_send, missing_sight, udp_sight, unkept_sight};

use crate::ends::Ends;
use crate::field::number16;
use crate::flaw::Flaw;
use crate::lack::Lack;
use crate::part::Part;
use crate::place::Place;
use crate::seen::Seen;
use babel_prefix::{Addr, Family};

/// The UDP port of Babel: RFC 8966, 4.
const BABEL_PORT: u16 = 6696;
/// The number of UDP in the headers of IP: RFC 768.
pub(crate) const UDP: u8 = 17;
/// The octets of UDP's header, of its two ports, and up to the end of its length: RFC 768.
pub(crate) const HEADER_LEN: usize = 8;

pub(crate) const PORTS_LEN: usize = 4;

const LEN_END: usize = 6;

/// The first ten bits of the link-local addresses of IPv6, and how many bits come after them:
/// RFC 4291, 2.5.6.
const LINK_LOCAL: u128 = 0x3fa;

const LINK_LOCAL_REST: u32 = 118;

/// What a UDP datagram is between these addresses: RFC 768. `is_cut` says whether IP says more
/// octets than its frame had.
#[inline(always)]
#[tactic(auto, unfolding(crate::specs::Udp::udp_sight))]
pub(crate) fn look_into_udp<'a>(place: Place, ends: &Ends, is_cut: bool, part: Part<'a>) -> Seen<'a>
    ensures { sight_of result ≡ udp_sight place ends.now is_cut
        part.entry.octets.now part.entry.whole }
{
    let octets = part.octets;
    if part.whole < PORTS_LEN {
        return Seen::Other;
    }
    if octets.len() < PORTS_LEN {
        return Seen::Short;
    }
    if is_babel(octets) {
        look_at_babel(place, ends, is_cut, part)
    } else {
        Seen::Other
    }
}

/// What a datagram from or to the port of Babel is.
fn look_at_babel<'a>(place: Place, ends: &Ends, is_cut: bool, part: Part<'a>) -> Seen<'a>
    requires { 4 ≤ length part.octets.now }
    ensures { sight_of result ≡ babel_sight place ends.now is_cut
        part.entry.octets.now part.entry.whole }
{
    if !is_of_routers(part.octets) {
        return Seen::Flawed {
            place,
            ends: *ends,
            flaw: Flaw::OtherPort,
        };
    }
    if !may_send(ends.sender) {
        return Seen::Flawed {
            place,
            ends: *ends,
            flaw: Flaw::NotLinkLocal,
        };
    }
    if is_cut {
        return lacking(place, ends, Lack::CutShort);
    }
    look_by_length(place, ends, part)
}

/// What a datagram from or to the port of Babel is of which fragments are missing.
pub(crate) fn look_at_lost(place: Place, ends: &Ends, is_of_routers: bool) -> Seen<'static>
    ensures { sight_of result ≡ missing_sight place ends.now is_of_routers }
{
    let flaw = if !is_of_routers {
        Flaw::OtherPort
    } else if !may_send(ends.sender) {
        Flaw::NotLinkLocal
    } else {
        Flaw::Lacking(Lack::Fragment)
    };
    Seen::Flawed {
        place,
        ends: *ends,
        flaw,
    }
}

/// What a datagram that routers read is, by its length.
fn look_by_length<'a>(place: Place, ends: &Ends, part: Part<'a>) -> Seen<'a>
    ensures { sight_of result ≡ len_sight place ends.now part.entry.octets.now part.entry.whole }
{
    let octets = part.octets;
    if part.whole < LEN_END {
        return Seen::Other;
    }
    if octets.len() < LEN_END {
        return lacking(place, ends, Lack::Snapped);
    }
    let len = number16(octets, PORTS_LEN) as usize;
    if part.whole < len {
        return lacking(place, ends, Lack::CutShort);
    }
    if len < HEADER_LEN {
        return Seen::Other;
    }
    if octets.len() < len {
        return lacking(place, ends, Lack::Snapped);
    }
    Seen::Datagram {
        place,
        ends: *ends,
        payload: &octets[HEADER_LEN..len],
    }
}

/// A datagram that is not all there.
fn lacking(place: Place, ends: &Ends, lack: Lack) -> Seen<'static>
    ensures { result ≡ Seen.Flawed place ends.now (Flaw.Lacking lack) }
{
    Seen::Flawed {
        place,
        ends: *ends,
        flaw: Flaw::Lacking(lack),
    }
}

/// What is seen where IP carries so many octets and the recorder kept none of the ports.
pub(crate) fn look_at_none(whole: usize) -> Seen<'static>
    ensures { sight_of result ≡ unkept_sight whole }
{
    if whole < PORTS_LEN {
        Seen::Other
    } else {
        Seen::Short
    }
}

/// Whether the source port or the destination port is Babel's.
pub(crate) fn is_babel(octets: &[u8]) -> bool
    requires { 4 ≤ length octets.now }
    ensures { result ≡ is_babel octets.now }
{
    number16(octets, 0) == BABEL_PORT || number16(octets, 2) == BABEL_PORT
}

/// Whether both ports are Babel's, as those of routers are.
pub(crate) fn is_of_routers(octets: &[u8]) -> bool
    requires { 4 ≤ length octets.now }
    ensures { result ≡ is_of_routers octets.now }
{
    number16(octets, 0) == BABEL_PORT && number16(octets, 2) == BABEL_PORT
}

/// Whether routers read what comes from this address.
fn may_send(sender: Addr) -> bool
    ensures { result ≡ may_send sender }
{
    match sender.family() {
        Family::V4 => true,
        Family::V6 => sender.bits() >> LINK_LOCAL_REST == LINK_LOCAL,
    }
}
