ghost use Rattle.std.specs.Prelude.{◌≡◌, ◌≤◌, ◌<◌, ◌+◌, length, IsSome, IfOk, OnOk, MatchOption};
ghost use Rattle.babel_prefix.specs.Width.{octet_count, width_of};
ghost use Rattle.babel_tlv.specs.Kept.{IsOfFamily};
ghost use Rattle.babel_tlv.specs.Forming.{field_len, formed, omitted, prefix_from, prefix_len};
ghost use Rattle.babel_tlv.specs.Forming.{sets_default, sets_router_id, update_encoding};
ghost use Rattle.babel_tlv.specs.Pairs.{EventFits};
ghost use Rattle.babel_tlv.specs.Says.{source_of, unless_ignored, wildcard_reason, wildcard_tells};
ghost use Rattle.babel_tlv.specs.Encodings.{IsNamedBy};
ghost use Rattle.babel_tlv.specs.Fields.{AreUpdateFields};
ghost use Rattle.babel_tlv.specs.Reading.{joined_octets, update_sub_tlvs};
ghost use Rattle.babel_tlv.specs.EventKinds.{event_of};
ghost use Rattle.babel_tlv.specs.declared.route.Route.{Route};

use crate::address::{completed, octet_count};
use crate::encoding::Encoding;
use crate::event_kind::EventKind;
use crate::place::Place;
use crate::reason::Reason;
use crate::sub_tlv::{octets_needed, read_source, read_sub_tlvs};
use crate::wire::{INFINITY, PREFIX_FLAG, ROUTER_ID_FLAG};
use babel_prefix::{Addr, Family, Prefix};
use byteorder::{ByteOrder, NetworkEndian};

/// The octets of an Update's body before the prefix.
const FIXED_LEN: usize = 10;

/// An Update's fields: RFC 8966, 4.6.9.
#[derive(Clone, Copy)]
pub(crate) struct Update<'a> {
    encoding: u8,
    flags: u8,
    pub plen: u8,
    pub omitted: u8,
    pub seqno: u16,
    pub metric: u16,
    /// How many octets of the prefix the Update brings.
    brought: usize,
    body: &'a [u8],
    ghost fields: { AreUpdateFields body.now encoding flags plen omitted seqno metric brought },
}

impl<'a> Update<'a> {
    /// The fields of an Update's body; `None` if it is too short for the fixed part.
    pub fn read(body: &'a [u8]) -> Option<Update<'a>>
        ensures { MatchOption result (length body.now < 10) (λ update. update.body.now ≡ body.now) }
    {
        let [encoding, flags, plen, omitted, _, _, s0, s1, m0, m1, ..] = body else {
            return None;
        };
        Some(Update {
            encoding: *encoding,
            flags: *flags,
            plen: *plen,
            omitted: *omitted,
            seqno: NetworkEndian::read_u16(&[*s0, *s1]),
            metric: NetworkEndian::read_u16(&[*m0, *m1]),
            brought: octets_needed(*plen).saturating_sub(*omitted) as usize,
            body,
        })
    }

    /// The encoding of the prefix, where address encoding 4 is read or not.
    pub fn encoding(&self, via_v6: bool) -> Encoding
        ensures { IsNamedBy via_v6 result (update_encoding self.now.body.now) }
    {
        Encoding::of(self.encoding, via_v6)
    }

    /// The prefix that the Update forms with the default prefix of its encoding.
    pub fn prefix(&self, family: Family, default: Option<Addr>) -> Result<Prefix, Reason>
        requires { IsOfFamily family default }
        ensures value { result ≡ formed family default self.now.body.now }
        ensures field { OnOk result (10 + field_len self.now.body.now ≤ length self.now.body.now) }
        ensures family { IfOk result (λ prefix. prefix.address.family ≡ family) }
    {
        if self.plen > family.width() {
            return Err(Reason::BadPlen);
        }
        let omitted = self.omitted as usize;
        if omitted > octet_count(family) {
            return Err(Reason::BadOmitted);
        }
        if omitted > 0 && default.is_none() {
            return Err(Reason::NoDefault);
        }
        if self.body.len() < FIXED_LEN + self.brought {
            return Err(Reason::ShortPrefix);
        }
        Ok(self.whole_prefix(family, default))
    }

    /// The prefix, where the field and the omitted octets are there.
    fn whole_prefix(&self, family: Family, default: Option<Addr>) -> Prefix
        requires field { 10 + field_len self.now.body.now ≤ length self.now.body.now }
        requires of_family { IsOfFamily family default }
        requires in_width { prefix_len self.now.body.now ≤ width_of family }
        requires few { omitted self.now.body.now ≤ octet_count family }
        requires has_default { 0 < omitted self.now.body.now → IsSome default }
        ensures value { result ≡ prefix_from family (prefix_len self.now.body.now)
            (joined_octets default self.now.body.now) }
        ensures family { result.address.family ≡ family }
    {
        let field = &self.body[FIXED_LEN..FIXED_LEN + self.brought];
        let addr = completed(family, default, self.omitted as usize, field);
        Prefix::new(addr, self.plen).unwrap()
    }

    /// The source prefix of a route in this family, or what is wrong with the sub-TLVs: RFC 9079,
    /// 7.2.
    pub fn source(&self, family: Family) -> Result<Prefix, Reason>
        requires { 10 + field_len self.now.body.now ≤ length self.now.body.now }
        ensures value { result ≡ source_of family self.now.body.now }
        ensures family { IfOk result (λ source. source.address.family ≡ family) }
    {
        read_source(family, self.sub_tlvs())
    }

    /// The sub-TLVs, after the prefix.
    fn sub_tlvs(&self) -> &'a [u8]
        requires { 10 + field_len self.now.body.now ≤ length self.now.body.now }
        ensures { result.now ≡ update_sub_tlvs self.now.body.now }
    {
        &self.body[FIXED_LEN + self.brought..]
    }

    /// Whether the Update sets the default prefix of its encoding.
    pub fn sets_default(&self) -> bool
        ensures { result ≡ sets_default self.now.body.now }
    {
        self.flags & PREFIX_FLAG != 0
    }

    /// Whether the Update sets the router-id.
    #[tactic(auto, using(crate::proofs::FormLaws::bit_64))]
    pub fn sets_router_id(&self) -> bool
        ensures { result ≡ sets_router_id self.now.body.now }
    {
        self.flags & ROUTER_ID_FLAG != 0
    }

    /// What an Update of the wildcard encoding says: RFC 8966, 4.6.9; RFC 9079, 5.2.
    pub fn wildcard(&self) -> EventKind
        ensures said { (route : Route) → event_of result route
            ≡ unless_ignored (wildcard_reason self.now.body.now)
            (wildcard_tells self.now.body.now) }
        ensures fits { (route : Route) → EventFits (event_of result route) }
    {
        if self.metric != INFINITY {
            return EventKind::Ignored(Reason::WildcardFinite);
        }
        if self.plen > 0 || self.omitted > 0 {
            return EventKind::Ignored(Reason::WildcardPrefix);
        }
        match read_sub_tlvs(Place::InWildcard, self.sub_tlvs()) {
            Ok(_) => EventKind::RetractAll,
            Err(reason) => EventKind::Ignored(reason),
        }
    }
}
