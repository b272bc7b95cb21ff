//! Numbers of RFC 8966 and RFC 9079, under their names there.

/// The first octet of every packet, its Magic: RFC 8966, 4.2.
pub const MAGIC: u8 = 42;
/// The second octet of every packet, its Version: RFC 8966, 4.2.
pub const VERSION: u8 = 2;

/// The type of an Update: RFC 8966, 4.6.9.
pub const UPDATE: u8 = 8;

/// The type of the one TLV, and of the one sub-TLV, with no length: RFC 8966, 4.6.1, 4.7.1.
pub(crate) const PAD1: u8 = 0;
/// The other TLV types that are read: RFC 8966, 4.6.5 to 4.6.8.
pub(crate) const HELLO: u8 = 4;

pub(crate) const IHU: u8 = 5;

pub(crate) const ROUTER_ID: u8 = 6;

pub(crate) const NEXT_HOP: u8 = 7;
/// Those of requests: RFC 8966, 4.6.10, 4.6.11.
pub(crate) const ROUTE_REQUEST: u8 = 9;

pub(crate) const SEQNO_REQUEST: u8 = 10;

/// Address encodings: RFC 8966, 4.1.4.
pub(crate) const AE_WILDCARD: u8 = 0;

pub(crate) const AE_IPV4: u8 = 1;

pub(crate) const AE_IPV6: u8 = 2;

pub(crate) const AE_LINK_LOCAL: u8 = 3;

/// The encoding of IPv4 prefixes of routes with IPv6 next hops: RFC 9229, 4.1.
pub(crate) const AE_IPV4_VIA_IPV6: u8 = 4;

/// The first octet of a Hello's U flag: RFC 8966, 4.6.5.
pub(crate) const UNICAST_FLAG: u8 = 0x80;

/// Flags of an Update: RFC 8966, 4.6.9.
pub(crate) const PREFIX_FLAG: u8 = 0x80;

pub(crate) const ROUTER_ID_FLAG: u8 = 0x40;

/// The metric that retracts: RFC 8966, 4.6.9.
pub(crate) const INFINITY: u16 = 0xffff;

/// Sub-TLVs of this type and above are mandatory: RFC 8966, 4.4.
pub(crate) const MANDATORY: u8 = 128;
/// The sub-TLV with a source prefix: RFC 9079, 7.1.
pub(crate) const SOURCE_PREFIX: u8 = 128;
