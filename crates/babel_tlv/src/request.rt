ghost use Rattle.std.specs.Prelude.{◌≡◌, IfSome};
ghost use Rattle.babel_prefix.specs.Width.{width_of};
ghost use Rattle.babel_tlv.specs.Forming.{octets_for};
ghost use Rattle.babel_tlv.specs.Frames.{tlv_value};
ghost use Rattle.babel_tlv.specs.Requests.{key_requested, requested, route_requested};
ghost use Rattle.babel_tlv.specs.Requests.{seqno_requested};

use crate::address::completed;
use crate::encoding::Encoding;
use crate::key::Key;
use crate::place::Place;
use crate::router_id::RouterId;
use crate::sub_tlv::{octets_needed, read_source, read_sub_tlvs};
use crate::tlv::Tlv;
use crate::wire::{ROUTE_REQUEST, SEQNO_REQUEST};
use babel_prefix::{Family, Prefix};
use byteorder::{ByteOrder, NetworkEndian};

/// What a request asks its receiver for: RFC 8966, 4.6.10, 4.6.11; RFC 9079, 7.3, 7.4.
#[derive(Clone, Copy)]
pub enum Request {
    /// Updates of all routes: a Route Request of encoding 0.
    All,
    /// An Update of a route: a Route Request.
    Route(Key),
    /// An Update of a route of this router, of this seqno or a later one: a Seqno Request.
    Seqno {
        key: Key,
        /// Reserved ones, too.
        router_id: [u8; 8],
        seqno: u16,
    },
}

impl Request {
    /// What a TLV requests; `None` where it is another, or a request that is ignored. Address
    /// encoding 4 is read as IPv4 (RFC 9229, 2.3), or not.
    pub fn read(tlv: &Tlv<'_>, via_v6: bool) -> Option<Request>
        ensures { result ≡ requested via_v6 (tlv_value tlv.now) }
    {
        match tlv.kind {
            ROUTE_REQUEST => route_requested(tlv.body, via_v6),
            SEQNO_REQUEST => seqno_requested(tlv.body, via_v6),
            _ => None,
        }
    }
}

/// Route Request: RFC 8966, 4.6.10.
fn route_requested(body: &[u8], via_v6: bool) -> Option<Request>
    ensures { result ≡ route_requested via_v6 body.now }
{
    let [encoding, plen, octets @ ..] = body else {
        return None;
    };
    match Encoding::of(*encoding, via_v6) {
        Encoding::Wildcard if *plen == 0 => match read_sub_tlvs(Place::InWildcard, octets) {
            Ok(_) => Some(Request::All),
            Err(_) => None,
        },
        Encoding::Prefix(encoding) => {
            let key = key_requested(encoding.family(), *plen, octets)?;
            Some(Request::Route(key))
        }
        _ => None,
    }
}

/// Seqno Request: RFC 8966, 4.6.11.
fn seqno_requested(body: &[u8], via_v6: bool) -> Option<Request>
    ensures { result ≡ seqno_requested via_v6 body.now }
{
    let [encoding, plen, s0, s1, rest @ ..] = body else {
        return None;
    };
    let Encoding::Prefix(encoding) = Encoding::of(*encoding, via_v6) else {
        return None;
    };

    // A Hop Count and a reserved octet stand where a Router-Id TLV has two that are reserved.
    let read = RouterId::read(rest)?;
    let key = key_requested(encoding.family(), *plen, read.sub_tlvs)?;
    Some(Request::Seqno {
        key,
        router_id: read.router_id,
        seqno: NetworkEndian::read_u16(&[*s0, *s1]),
    })
}

/// The key of a prefix of this length, which these octets begin with, and of the source prefix in
/// the sub-TLVs after it; `None` where one of them can't be read.
fn key_requested(family: Family, plen: u8, octets: &[u8]) -> Option<Key>
    ensures { result ≡ key_requested family plen octets.now }
{
    let len = octets_needed(plen) as usize;
    if plen > family.width() || octets.len() < len {
        return None;
    }
    let (field, sub_tlvs) = octets.split_at(len);
    let dst = Prefix::new(completed(family, None, 0, field), plen).unwrap();
    match read_source(family, sub_tlvs) {
        Ok(src) => Some(Key::of_family(dst, src)),
        Err(_) => None,
    }
}
