ghost use Rattle.std.specs.Prelude.{◌≡◌, ℕ, IfSome, IsSome, ◌≤◌, ◌<◌, ◌+◌, ◌-◌, ◌*◌};
ghost use Rattle.std.specs.Prelude.{◌^◌, ◌++◌, length, take};
ghost use Rattle.std.specs.Int.Digits.{number_from_digits, number_from_digits_after};
ghost use Rattle.babel_prefix.specs.Width.{octet_count, width_of};
ghost use Rattle.babel_prefix.specs.Address.{address_of, octets_of};
ghost use Rattle.babel_prefix.specs.declared.family.Family.TheVariants.{V6};
ghost use Rattle.babel_tlv.specs.Kept.{IsOfFamily};
ghost use Rattle.babel_tlv.specs.Forming.{link_local};
ghost use Rattle.babel_tlv.specs.Reading.{default_octets, padded};

use babel_prefix::{Addr, Family};

/// The first 64 bits of fe80::/64: RFC 4291, 2.5.6.
const LINK_LOCAL: u128 = 0xfe80_0000_0000_0000;

/// How many octets an address of the family has: RFC 8966, 4.1.4.
pub(crate) fn octet_count(family: Family) -> usize
    ensures { result ≡ octet_count family }
{
    match family {
        Family::V4 => 4,
        Family::V6 => 16,
    }
}

/// The number whose octets are those of `front` and then these, the highest first.
pub(crate) fn number_after(front: u128, octets: &[u8]) -> u128
    requires few { length octets.now ≤ 16 }
    requires room { front < 256 ^ (16 - length octets.now) }
    ensures value { result ≡ number_from_digits_after 256 front octets.now }
    ensures fits { (a : ℕ) → front < 256 ^ a → result < 256 ^ (a + length octets.now) }
{
    let mut number = front;
    for octet in octets {
        number = number * 256 + *octet as u128;
    }
    number
}

/// The first octets of an address as a number.
pub(crate) fn leading_octets(addr: Addr, count: usize) -> u128
    requires { count ≤ octet_count addr.family }
    ensures value { result ≡ number_from_digits 256 (take count (octets_of addr)) }
    ensures fits { result < 256 ^ count }
{
    if count == 0 {
        return 0;
    }
    addr.bits() >> (8 * (octet_count(addr.family()) - count))
}

/// The bits of an address whose first octets are this number, the others zero.
pub(crate) fn moved_up(family: Family, number: u128, count: usize) -> u128
    requires few { count ≤ octet_count family }
    requires fits { number < 256 ^ count }
    ensures value { result ≡ number * 256 ^ (octet_count family - count) }
    ensures fits { result < 2 ^ width_of family }
{
    if count == 0 {
        return 0;
    }
    number << (8 * (octet_count(family) - count))
}

/// The first octets of a default prefix as a number: 0 where there is none.
fn omitted_octets(default: Option<Addr>, count: usize) -> u128
    requires { IfSome default (λ addr. count ≤ octet_count addr.family) }
    ensures value { result ≡ number_from_digits 256 (take count (default_octets default)) }
    ensures fits { result < 256 ^ count }
{
    match default {
        Some(default) => leading_octets(default, count),
        None => 0,
    }
}

/// The address of the first octets of a default prefix, these after them, and zeros: RFC 8966,
/// 4.6.9.
pub(crate) fn completed(
    family: Family,
    default: Option<Addr>,
    omitted: usize,
    octets: &[u8],
) -> Addr
    requires few { omitted + length octets.now ≤ octet_count family }
    requires of_family { IsOfFamily family default }
    requires has_default { 0 < omitted → IsSome default }
    ensures { result ≡ address_of family
        (padded (octet_count family) (take omitted (default_octets default) ++ octets.now)) }
{
    let front = omitted_octets(default, omitted);
    let number = number_after(front, octets);
    let bits = moved_up(family, number, omitted + octets.len());
    Addr::new(family, bits).unwrap()
}

/// The address of the family with these octets.
pub(crate) fn address(family: Family, octets: &[u8]) -> Addr
    requires { length octets.now ≡ octet_count family }
    ensures { result ≡ address_of family octets.now }
{
    Addr::new(family, number_after(0, octets)).unwrap()
}

/// The address of fe80::/64 that ends with these octets.
pub(crate) fn link_local_address(octets: &[u8]) -> Addr
    requires { length octets.now ≡ 8 }
    ensures { result ≡ address_of V6 (link_local ++ octets.now) }
{
    Addr::new(Family::V6, number_after(LINK_LOCAL, octets)).unwrap()
}
