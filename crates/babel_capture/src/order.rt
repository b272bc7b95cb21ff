ghost use Rattle.std.specs.Prelude.{◌≡◌, ◌≤◌, ◌+◌, length};
ghost use Rattle.std.specs.Int.{cast_signed, w64};
ghost use Rattle.babel_capture.specs.Numbers.{number_at};

use byteorder::{BigEndian, ByteOrder, LittleEndian};

/// The order of the octets of a number.
#[derive(Clone, Copy)]
pub enum Order {
    /// The highest octet first.
    Big,
    /// The lowest octet first.
    Little,
}

impl Order {
    /// The number of 16 bits in the octets from this place on.
    pub fn u16_at(self, octets: &[u8], place: usize) -> u16
        requires { place + 2 ≤ length octets.now }
        ensures { result ≡ number_at self 2 octets.now place }
    {
        match self {
            Order::Big => BigEndian::read_u16(&octets[place..]),
            Order::Little => LittleEndian::read_u16(&octets[place..]),
        }
    }

    /// The number of 32 bits in the octets from this place on.
    pub fn u32_at(self, octets: &[u8], place: usize) -> u32
        requires { place + 4 ≤ length octets.now }
        ensures { result ≡ number_at self 4 octets.now place }
    {
        match self {
            Order::Big => BigEndian::read_u32(&octets[place..]),
            Order::Little => LittleEndian::read_u32(&octets[place..]),
        }
    }

    /// The number of 64 bits, with a sign, in the octets from this place on.
    pub fn i64_at(self, octets: &[u8], place: usize) -> i64
        requires { place + 8 ≤ length octets.now }
        ensures { result ≡ cast_signed w64 (number_at self 8 octets.now place) }
    {
        match self {
            Order::Big => BigEndian::read_i64(&octets[place..]),
            Order::Little => LittleEndian::read_i64(&octets[place..]),
        }
    }
}
