ghost use Rattle.std.specs.Prelude.{◌≡◌, ◌==◌, ◌/◌, ◌%◌};
ghost use Rattle.babel_tlv.specs.Frames.{tlv_value};
ghost use Rattle.babel_tlv.specs.Hellos.{hello_in, hello_of, is_scheduled};

use crate::place::Place;
use crate::sub_tlv::read_sub_tlvs;
use crate::tlv::Tlv;
use crate::wire::{HELLO, UNICAST_FLAG};
use byteorder::{ByteOrder, NetworkEndian};

/// A Hello: RFC 8966, 4.6.5.
#[derive(Clone, Copy)]
pub struct Hello {
    /// Whether it is a unicast Hello, by its U flag, and no multicast one.
    pub is_unicast: bool,
    /// The number of its sender's Hellos, modulo 65,536.
    pub seqno: u16,
    /// After how many hundredths of a second its sender sends the next one at most; 0 where it does
    /// not say.
    pub interval: u16,
}

impl Hello {
    /// What a TLV says as a Hello; `None` where it is another, or a Hello that is ignored: with
    /// fewer octets than its fields have, or with sub-TLVs that can't be read (RFC 8966, 4.4).
    pub fn read(tlv: &Tlv<'_>) -> Option<Hello>
        ensures { result ≡ hello_of (tlv_value tlv.now) }
    {
        match tlv.kind {
            HELLO => hello_in(tlv.body),
            _ => None,
        }
    }

    /// Whether it is a multicast Hello that says when the next one comes: RFC 8966, 3.4.1.
    pub fn is_scheduled(&self) -> bool
        ensures { result ≡ is_scheduled self.now }
    {
        !self.is_unicast && self.interval > 0
    }
}

/// What the body of a Hello says.
fn hello_in(body: &[u8]) -> Option<Hello>
    ensures { result ≡ hello_in body.now }
{
    let [flags, _, s0, s1, i0, i1, sub_tlvs @ ..] = body else {
        return None;
    };
    match read_sub_tlvs(Place::Elsewhere, sub_tlvs) {
        Ok(_) => Some(Hello {
            is_unicast: has_unicast_flag(*flags),
            seqno: NetworkEndian::read_u16(&[*s0, *s1]),
            interval: NetworkEndian::read_u16(&[*i0, *i1]),
        }),
        Err(_) => None,
    }
}

/// Whether the first octet of a Hello's Flags has U.
fn has_unicast_flag(flags: u8) -> bool
    ensures { result ≡ (flags / 128 % 2 == 1) }
{
    flags & UNICAST_FLAG != 0
}
