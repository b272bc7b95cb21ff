ghost use Rattle.std.specs.Prelude.{◌≡◌, ◌==◌};
ghost use Rattle.babel_tlv.specs.Encodings.{hop_family, number_of, prefix_family};

use crate::wire::{AE_IPV4, AE_IPV4_VIA_IPV6, AE_IPV6};
use babel_prefix::Family;

/// An address encoding in which Updates have prefixes: RFC 8966, 4.1.4; RFC 9229, 4.1.
#[derive(Clone, Copy)]
pub(crate) enum PrefixEncoding {
    /// IPv4 prefixes.
    Ipv4,
    /// IPv6 prefixes.
    Ipv6,
    /// IPv4 prefixes of routes with IPv6 next hops.
    Ipv4ViaIpv6,
}

impl PrefixEncoding {
    /// The number of the encoding.
    pub fn number(self) -> u8
        ensures { result ≡ number_of self }
    {
        match self {
            PrefixEncoding::Ipv4 => AE_IPV4,
            PrefixEncoding::Ipv6 => AE_IPV6,
            PrefixEncoding::Ipv4ViaIpv6 => AE_IPV4_VIA_IPV6,
        }
    }

    /// The family of its prefixes.
    pub fn family(self) -> Family
        ensures { result ≡ prefix_family self }
    {
        match self {
            PrefixEncoding::Ipv4 => Family::V4,
            PrefixEncoding::Ipv6 => Family::V6,
            PrefixEncoding::Ipv4ViaIpv6 => Family::V4,
        }
    }

    /// The family of the next hop of its routes.
    pub fn hop_family(self) -> Family
        ensures { result ≡ hop_family self }
    {
        match self {
            PrefixEncoding::Ipv4 => Family::V4,
            PrefixEncoding::Ipv6 => Family::V6,
            PrefixEncoding::Ipv4ViaIpv6 => Family::V6,
        }
    }
}
