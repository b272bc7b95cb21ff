ghost use Rattle.std.specs.Prelude.{◌≡◌, true, MatchOption};
ghost use Rattle.babel_tlv.specs.Frames.{tlv_value};
ghost use Rattle.babel_tlv.specs.Ihus.{IsNamed, ihu_in, ihu_of, ihu_with, is_unnamed};

use crate::address::{address, link_local_address};
use crate::encoding::Encoding;
use crate::place::Place;
use crate::prefix_encoding::PrefixEncoding;
use crate::sub_tlv::read_sub_tlvs;
use crate::tlv::Tlv;
use crate::wire::IHU;
use babel_prefix::{Addr, Family};
use byteorder::{ByteOrder, NetworkEndian};

/// An IHU, 'I Heard You': RFC 8966, 4.6.6.
#[derive(Clone, Copy)]
pub struct Ihu {
    /// Whom its sender hears; `None` where the packet's destination says it.
    pub address: Option<Addr>,
    /// What its sender says receiving costs from there; 65,535 is infinite.
    pub rxcost: u16,
    /// After how many hundredths of a second its sender sends the next one at most; 0 where it does
    /// not say.
    pub interval: u16,
}

impl Ihu {
    /// What a TLV says as an IHU; `None` where it is another, or an IHU that is ignored: with fewer
    /// octets than its fields have, of an encoding above 3, or with sub-TLVs that can't be read
    /// (RFC 8966, 4.4).
    pub fn read(tlv: &Tlv<'_>) -> Option<Ihu>
        ensures { result ≡ ihu_of (tlv_value tlv.now) }
    {
        match tlv.kind {
            IHU => ihu_in(tlv.body),
            _ => None,
        }
    }
}

/// What the body of an IHU says.
fn ihu_in(body: &[u8]) -> Option<Ihu>
    ensures { result ≡ ihu_in body.now }
{
    let [encoding, _, r0, r1, i0, i1, octets @ ..] = body else {
        return None;
    };
    let rxcost = NetworkEndian::read_u16(&[*r0, *r1]);
    let interval = NetworkEndian::read_u16(&[*i0, *i1]);
    ihu_with(*encoding, rxcost, interval, octets)
}

/// What an IHU of these fields says, with these octets after them.
fn ihu_with(encoding: u8, rxcost: u16, interval: u16, octets: &[u8]) -> Option<Ihu>
    ensures { result ≡ ihu_with encoding rxcost interval octets.now }
{
    let Some(named) = Named::read(encoding, octets) else {
        return None;
    };
    match read_sub_tlvs(Place::Elsewhere, named.sub_tlvs) {
        Ok(_) => Some(Ihu {
            address: named.address,
            rxcost,
            interval,
        }),
        Err(_) => None,
    }
}

/// Whom an IHU names, and the octets after the address.
#[derive(Clone, Copy)]
pub(crate) struct Named<'a> {
    address: Option<Addr>,
    sub_tlvs: &'a [u8],
}

impl<'a> Named<'a> {
    /// Reads the address of this encoding; `None` where it can't be read.
    fn read(encoding: u8, octets: &'a [u8]) -> Option<Named<'a>>
        ensures { MatchOption result (is_unnamed encoding octets.now ≡ true)
            (IsNamed encoding octets.now) }
    {
        match Encoding::of(encoding, false) {
            Encoding::Wildcard => Some(Named {
                address: None,
                sub_tlvs: octets,
            }),
            Encoding::Prefix(PrefixEncoding::Ipv4) if octets.len() >= 4 => Some(Named {
                address: Some(address(Family::V4, &octets[..4])),
                sub_tlvs: &octets[4..],
            }),
            Encoding::Prefix(PrefixEncoding::Ipv6) if octets.len() >= 16 => Some(Named {
                address: Some(address(Family::V6, &octets[..16])),
                sub_tlvs: &octets[16..],
            }),
            Encoding::LinkLocal if octets.len() >= 8 => Some(Named {
                address: Some(link_local_address(&octets[..8])),
                sub_tlvs: &octets[8..],
            }),
            _ => None,
        }
    }
}
