ghost use Rattle.std.specs.Prelude.{◌≡◌, ◌≤◌, ◌+◌, length};
ghost use Rattle.babel_capture.specs.Octets.{network_number};
ghost use Rattle.babel_prefix.specs.declared.family.Family.TheVariants.{V4, V6};

use babel_prefix::{Addr, Family};
use byteorder::{ByteOrder, NetworkEndian};

/// The number in two octets from this place on, the higher one first.
pub(crate) fn number16(octets: &[u8], at: usize) -> u16
    requires { at + 2 ≤ length octets.now }
    ensures { result ≡ network_number at 2 octets.now }
{
    NetworkEndian::read_u16(&octets[at..])
}

/// The number in four octets from this place on, the highest first.
pub(crate) fn number32(octets: &[u8], at: usize) -> u32
    requires { at + 4 ≤ length octets.now }
    ensures { result ≡ network_number at 4 octets.now }
{
    NetworkEndian::read_u32(&octets[at..])
}

/// The IPv4 address in four octets from this place on.
pub(crate) fn ipv4_address(octets: &[u8], at: usize) -> Addr
    requires { at + 4 ≤ length octets.now }
    ensures { result ≡ record { family = V4; bits = network_number at 4 octets.now } }
{
    Addr::new(Family::V4, u128::from(number32(octets, at))).unwrap()
}

/// The IPv6 address in sixteen octets from this place on.
pub(crate) fn ipv6_address(octets: &[u8], at: usize) -> Addr
    requires { at + 16 ≤ length octets.now }
    ensures { result ≡ record { family = V6; bits = network_number at 16 octets.now } }
{
    Addr::new(Family::V6, NetworkEndian::read_u128(&octets[at..])).unwrap()
}
