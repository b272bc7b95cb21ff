ghost use Rattle.std.specs.Prelude.{◌≡◌, ◌<◌, length, MatchOption};
ghost use Rattle.babel_tlv.specs.Forming.{id_of};
ghost use Rattle.babel_tlv.specs.Reading.{IsRouterIdIn};

use babel_prefix::{Addr, Family};

/// What a Router-Id says: RFC 8966, 4.6.7.
#[derive(Clone, Copy)]
pub(crate) struct RouterId<'a> {
    pub router_id: [u8; 8],
    pub sub_tlvs: &'a [u8],
}

impl<'a> RouterId<'a> {
    /// Reads a Router-Id's body; `None` if it is too short.
    pub fn read(body: &'a [u8]) -> Option<RouterId<'a>>
        ensures { MatchOption result (length body.now < 10) (IsRouterIdIn body.now) }
    {
        let [_, _, a, b, c, d, e, f, g, h, sub_tlvs @ ..] = body else {
            return None;
        };
        let router_id = [*a, *b, *c, *d, *e, *f, *g, *h];
        Some(RouterId {
            router_id,
            sub_tlvs,
        })
    }
}

/// The router-id of an Update's address: its last 8 octets, or 4 zero octets and an IPv4 address:
/// RFC 8966, 4.6.9.
#[tactic(auto, using(crate::proofs::IdLaws::small_id))]
pub(crate) fn address_router_id(addr: Addr) -> [u8; 8]
    ensures { result ≡ id_of addr }
{
    match addr.family() {
        Family::V4 => {
            let [a, b, c, d] = (addr.bits() as u32).to_be_bytes();
            [0, 0, 0, 0, a, b, c, d]
        }
        Family::V6 => {
            let [_, _, _, _, _, _, _, _, a, b, c, d, e, f, g, h] = addr.bits().to_be_bytes();
            [a, b, c, d, e, f, g, h]
        }
    }
}
