ghost use Rattle.babel_tlv.specs.Encodings.{IsNamedBy};

use crate::prefix_encoding::PrefixEncoding;
use crate::wire::{AE_IPV4, AE_IPV4_VIA_IPV6, AE_IPV6, AE_LINK_LOCAL, AE_WILDCARD};

/// An address encoding: RFC 8966, 4.1.4.
#[derive(Clone, Copy)]
pub(crate) enum Encoding {
    /// No address: all routes.
    Wildcard,
    /// The 4 octets of an IPv4 address or the 16 of an IPv6 address, or the first of them.
    Prefix(PrefixEncoding),
    /// The last 8 octets of an IPv6 address in fe80::/64.
    LinkLocal,
    /// One that is not read, by its number.
    Other(u8),
}

impl Encoding {
    /// The encoding of this number, where IPv4 prefixes of routes with IPv6 next hops are read
    /// (RFC 9229) or not.
    pub fn of(number: u8, via_v6: bool) -> Encoding
        ensures { IsNamedBy via_v6 result number }
    {
        match number {
            AE_WILDCARD => Encoding::Wildcard,
            AE_IPV4 => Encoding::Prefix(PrefixEncoding::Ipv4),
            AE_IPV6 => Encoding::Prefix(PrefixEncoding::Ipv6),
            AE_LINK_LOCAL => Encoding::LinkLocal,
            AE_IPV4_VIA_IPV6 if via_v6 => Encoding::Prefix(PrefixEncoding::Ipv4ViaIpv6),
            _ => Encoding::Other(number),
        }
    }
}
