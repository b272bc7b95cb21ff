ghost use Rattle.std.specs.Prelude.{◌≡◌, MatchResult, Err};
ghost use Rattle.babel_tlv.specs.Forming.{next_hop_in};
ghost use Rattle.babel_tlv.specs.Reading.{IsNextHopIn};

use crate::address::{address, link_local_address};
use crate::encoding::Encoding;
use crate::prefix_encoding::PrefixEncoding;
use crate::reason::Reason;
use babel_prefix::{Addr, Family};

/// What a Next Hop says: RFC 8966, 4.6.8.
#[derive(Clone, Copy)]
pub(crate) struct NextHop<'a> {
    pub addr: Addr,
    pub sub_tlvs: &'a [u8],
}

impl<'a> NextHop<'a> {
    /// Reads a Next Hop's body. Address encoding 4 is none of a Next Hop: RFC 9229, 2.4.
    pub fn read(body: &'a [u8]) -> Result<NextHop<'a>, Reason>
        ensures { MatchResult result (IsNextHopIn body.now)
            (λ reason. next_hop_in body.now ≡ Err reason) }
    {
        let [encoding, _, octets @ ..] = body else {
            return Err(Reason::Short);
        };
        match Encoding::of(*encoding, false) {
            Encoding::Prefix(PrefixEncoding::Ipv4) if octets.len() >= 4 => Ok(NextHop {
                addr: address(Family::V4, &octets[..4]),
                sub_tlvs: &octets[4..],
            }),
            Encoding::Prefix(PrefixEncoding::Ipv6) if octets.len() >= 16 => Ok(NextHop {
                addr: address(Family::V6, &octets[..16]),
                sub_tlvs: &octets[16..],
            }),
            Encoding::LinkLocal if octets.len() >= 8 => Ok(NextHop {
                addr: link_local_address(&octets[..8]),
                sub_tlvs: &octets[8..],
            }),
            Encoding::Prefix(_) | Encoding::LinkLocal => Err(Reason::ShortPrefix),
            Encoding::Wildcard | Encoding::Other(_) => Err(Reason::UnknownEncoding),
        }
    }
}
