ghost use Rattle.std.specs.Prelude.{◌≡◌, None};
ghost use Rattle.babel_tlv.specs.Encodings.{prefix_family};
ghost use Rattle.babel_tlv.specs.Kept.{IsOfFamily, prefix_for, prefix_with};

use crate::prefix_encoding::PrefixEncoding;
use babel_prefix::Addr;
use std::marker::Model;

/// The address of a prefix of each encoding, if one is known: RFC 8966, 4.5; RFC 9229, 4.1.
#[derive(Clone, Copy)]
pub(crate) struct PerEncoding {
    v4: Option<Addr>,
    v6: Option<Addr>,
    v4_via_v6: Option<Addr>,
}

impl Model for PerEncoding {
    ghost use Rattle.babel_tlv.specs.Kept.{KeptPrefixes, ArePrefixes};

    ghost Value = { KeptPrefixes };

    ghost view = { λ p. record { v4 = p.v4; v6 = p.v6; v4_via_v6 = p.v4_via_v6 } };

    ghost invariant = { λ p. ArePrefixes
        (record { v4 = p.v4; v6 = p.v6; v4_via_v6 = p.v4_via_v6 }) };

    ghost inverse = { λ p. record { v4 = p.v4; v6 = p.v6; v4_via_v6 = p.v4_via_v6 } };
}

impl PerEncoding {
    /// No address.
    pub fn none() -> PerEncoding
        ensures { result ≡ record { v4 = None; v6 = None; v4_via_v6 = None } }
    {
        PerEncoding {
            v4: None,
            v6: None,
            v4_via_v6: None,
        }
    }

    /// The address of an encoding.
    pub fn get(&self, encoding: PrefixEncoding) -> Option<Addr>
        ensures value { result ≡ prefix_for encoding self.now }
        ensures of_family { IsOfFamily (prefix_family encoding) result }
    {
        match encoding {
            PrefixEncoding::Ipv4 => self.v4,
            PrefixEncoding::Ipv6 => self.v6,
            PrefixEncoding::Ipv4ViaIpv6 => self.v4_via_v6,
        }
    }

    /// Keeps an address of the encoding's family for it.
    pub fn set(&mut self, encoding: PrefixEncoding, addr: Addr)
        requires { addr.family ≡ prefix_family encoding }
        ensures { self.new ≡ prefix_with encoding addr self.old }
    {
        match encoding {
            PrefixEncoding::Ipv4 => self.v4 = Some(addr),
            PrefixEncoding::Ipv6 => self.v6 = Some(addr),
            PrefixEncoding::Ipv4ViaIpv6 => self.v4_via_v6 = Some(addr),
        }
    }
}
