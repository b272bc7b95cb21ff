//! Worked dumps, and how they are sent. They come from RFC 8966 and RFC 9079, worked by hand. The
//! first TLV of most sets the router-id 0200000000000001; where nothing is said a route's next hop
//! is its sender.

use hex::FromHexError;
use std::alloc::Global;

/// The octets that pairs of hexadecimal digits spell. Spaces between them are for reading.
pub fn octets(alloc: Global, text: &str) -> Result<Vec<u8>, FromHexError> {
    let mut digits = String::new(alloc);
    for piece in text.split_whitespace() {
        digits.push_str(piece)?;
    }
    hex::decode(alloc, digits.as_str())
}

pub const V4: &str = "192.0.2.1";

pub const V6: &str = "fe80::1";

/// 10.0.0.0/8 with metric 256.
pub const ONE_ROUTE: &str = "2a020019 060a0000 0200000000000001 080b010008000640000101000a";

/// 0.0.0.0/0 with metric 512, and from 10.0.0.0/8 with metric 256.
pub const NESTED_SOURCES: &str =
    "2a020028 060a0000 0200000000000001 080a01000000064000010200 080e01000000064000010100 8002080a";

/// 10.1.0.0/24 with metric 256, and 10.1.2.0/24, of which the first two octets are those of the
/// first, with metric 512; both by next hop 192.0.2.1.
pub const TWO_ROUTES: &str =
    "2a020030 060a0000 0200000000000001 07060100 c0000201 080d01801800064000010100 0a0100 \
     080b01801802064000010200 02";

/// 2001:db8::200:0:0:7/128, which sets the router-id; and a packet without one.
pub const ROUTER_ID_BY_FLAG: &str =
    "2a02001c 081a02408000064000010100 20010db8000000000200000000000007 2a02000c \
     080a02000000064000010100";

/// A retraction of 10.0.0.0/8, the route, a retraction of all, 20.0.0.0/8, and a wildcard
/// retraction that is ignored.
pub const ALL_RETRACTED: &str =
    "2a02004b 060a0000 0200000000000001 080b0100080006400001ffff0a 080b010008000640000101000a \
     080a0000000006400000ffff 080b0100080006400001010014 080a0000080006400000ffff";

/// ::/0 with metric 256, and 255.255.255.255/32 from 0.0.0.1/32 with metric 256 by next hop
/// 192.0.2.1.
pub const TWO_FAMILIES: &str =
    "2a020037 060a0000 0200000000000001 07060100 c0000201 080a02000000064000010100 \
     081501002000064000010100 ffffffff 80052000000001";

/// ::/0 with metric 256.
pub const ONE_FAMILY: &str =
    "2a020020 060a0000 0200000000000001 07060100 c0000201 080a02000000064000010100";

/// From fe80::1: 10.0.0.0/8, 20.0.0.0/8 and 30.0.0.0/8 in encodings 1, 4 and 1, by 192.0.2.1 and
/// the sender; 10.0.0.0/8 again in encoding 4, with metric 512; and retractions of 20.0.0.0/8 in
/// encoding 1 and of 30.0.0.0/8 in encoding 4.
pub const EITHER_ENCODING: &str =
    "2a020062 060a0000 0200000000000001 07060100 c0000201 080b010008000640000101000a \
     080b0400080006400001010014 080b010008000640000101001e 080b040008000640000102000a \
     080b0100080006400000ffff14 080b0400080006400000ffff1e";
