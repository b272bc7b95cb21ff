ghost use Rattle.std.specs.Prelude.{◌≡◌, ◌≤◌, length};
ghost use Rattle.babel_capture.specs.Headers.{fragment_offset, has_more_fragments, is_atomic};
ghost use Rattle.babel_capture.specs.Headers.{telling_len};

use crate::field::number16;
use crate::part::Part;

/// How many extension headers of a packet are skipped.
pub const MAX_EXTENSION_HEADERS: usize = 8;

/// Extension headers: RFC 8200, 4.3 to 4.6.
const HOP_BY_HOP_OPTIONS: u8 = 0;

const ROUTING: u8 = 43;

pub(crate) const FRAGMENT: u8 = 44;

const DESTINATION_OPTIONS: u8 = 60;

/// The octets of the shortest extension header; each other one has a multiple of them.
const UNIT: usize = 8;
/// The bits of the fragment header's field of offset and flags: RFC 8200, 4.5.
const FRAGMENT_OFFSET: u16 = 0xfff8;

const MORE_FRAGMENTS: u16 = 0x0001;

/// How many octets of an extension header tell what comes after it: number and length; or, of the
/// fragment header, number and offset.
fn telling_len(number: u8) -> usize
    ensures { result ≡ telling_len number }
{
    match number {
        HOP_BY_HOP_OPTIONS | ROUTING | DESTINATION_OPTIONS => 2,
        FRAGMENT => 4,
        _ => 0,
    }
}

/// Where in the datagram the fragment with this header begins, in octets.
pub(crate) fn fragment_offset(header: &[u8]) -> u16
    requires { 4 ≤ length header.now }
    ensures { result ≡ fragment_offset header.now }
{
    number16(header, 2) & FRAGMENT_OFFSET
}

/// Whether more fragments come after the one with this header.
pub(crate) fn has_more_fragments(header: &[u8]) -> bool
    requires { 4 ≤ length header.now }
    ensures { result ≡ has_more_fragments header.now }
{
    number16(header, 2) & MORE_FRAGMENTS != 0
}

/// Whether the fragment with this header is all that there is.
fn is_atomic(header: &[u8]) -> bool
    requires { 4 ≤ length header.now }
    ensures { result ≡ is_atomic header.now }
{
    fragment_offset(header) == 0 && !has_more_fragments(header)
}

/// A header of an IPv6 packet after the fixed one, and what comes after it: RFC 8200, 4.
#[derive(Clone, Copy)]
pub(crate) struct NextHeader<'a> {
    /// The number of the header.
    pub number: u8,
    /// The octets from the header's first one on.
    pub part: Part<'a>,
    /// Whether a fragment header came before it.
    pub in_fragment: bool,
}

impl<'a> NextHeader<'a> {
    ghost use Rattle.babel_capture.specs.Headers.{is_unkept, past_header, past_headers};
    ghost use Rattle.babel_capture.specs.Layers.{next_header};

    /// The header after the extension headers, of which at most `MAX_EXTENSION_HEADERS` are
    /// skipped.
    #[inline(always)]
    #[tactic(auto, using(crate::proofs::SkippedLaws::no_header))]
    pub fn past_all(self) -> NextHeader<'a>
        ensures { next_header result ≡ past_headers 8 (next_header self.entry) }
    {
        // Most packets have no extension header.
        if telling_len(self.number) == 0 {
            return self;
        }
        let mut header = self;
        for _ in 0..MAX_EXTENSION_HEADERS {
            header = header.past_one();
        }
        header
    }

    /// Whether the recorder did not keep what tells what comes after this extension header.
    pub fn is_unkept(self) -> bool
        ensures { result ≡ is_unkept (next_header self.entry) }
    {
        let len = telling_len(self.number);
        len <= self.part.whole && self.part.octets.len() < len
    }

    /// The header after this extension header; the same header where it is another, that of one of
    /// several fragments, or a second fragment header.
    #[tactic(auto, unfolding(crate::specs::Headers::past_header))]
    fn past_one(self) -> NextHeader<'a>
        ensures { next_header result ≡ past_header (next_header self.entry) }
    {
        let octets = self.part.octets;
        if octets.len() < telling_len(self.number) {
            return self;
        }
        match self.number {
            HOP_BY_HOP_OPTIONS | ROUTING | DESTINATION_OPTIONS => NextHeader {
                number: octets[0],
                part: self.part.after(UNIT * (octets[1] as usize + 1)),
                in_fragment: self.in_fragment,
            },
            FRAGMENT if !self.in_fragment && is_atomic(octets) => NextHeader {
                number: octets[0],
                part: self.part.after(UNIT),
                in_fragment: true,
            },
            _ => self,
        }
    }
}
