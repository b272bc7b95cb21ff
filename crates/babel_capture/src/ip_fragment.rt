ghost use Rattle.std.specs.Prelude.{◌≡◌, ◌<◌, ◌≤◌, ◌^◌, length};
ghost use Rattle.babel_capture.specs.IpFragments.{first_sight, fragment_sight, is_group, is_taken};
ghost use Rattle.babel_capture.specs.IpFragments.{taken};
ghost use Rattle.babel_capture.specs.Layers.{ip_fragment, next_header};
ghost use Rattle.babel_capture.specs.Sight.{sight_of};

use crate::fragment::{DatagramId, Fragment, UdpPlace};
use crate::headers::{FRAGMENT, NextHeader};
use crate::seen::Seen;
use crate::udp::{HEADER_LEN, PORTS_LEN, UDP, is_babel, is_of_routers};
use babel_prefix::{Addr, Family};

/// The groups that routers send to, 224.0.0.111 and ff02::1:6: RFC 8966, 4.
const IPV4_GROUP: u128 = 0xe000_006f;

const IPV6_GROUP: u128 = 0xff02_0000_0000_0000_0000_0000_0001_0006;

/// How many octets a datagram has at most.
const MAX_LEN: usize = 65_535;
/// Each fragment but the last one has a multiple of so many octets: RFC 791, 3.2; RFC 8200, 4.5.
const UNIT: usize = 8;

/// A packet that is a fragment, as its headers say.
#[derive(Clone, Copy)]
pub(crate) struct IpFragment<'a> {
    pub id: DatagramId,
    /// Where in the datagram it begins, in octets.
    pub offset: u16,
    /// Whether more come after it.
    pub more: bool,
    /// Whether IP says more octets than its frame had.
    pub is_cut: bool,
    /// What it carries, which in the first fragment is a header of this number.
    pub carried: NextHeader<'a>,
}

/// Whether routers send to this group.
fn is_group(address: Addr) -> bool
    ensures { result ≡ is_group address }
{
    match address.family() {
        Family::V4 => address.bits() == IPV4_GROUP,
        Family::V6 => address.bits() == IPV6_GROUP,
    }
}

impl<'a> IpFragment<'a> {
    /// What the packet is.
    pub fn look(&self) -> Seen<'a>
        ensures { sight_of result ≡ fragment_sight (ip_fragment self.now) }
    {
        if !self.is_taken() {
            return Seen::Other;
        }
        if self.offset != 0 {
            return self.taken(None);
        }
        let upper = self.carried.past_all();
        self.look_at_first(&upper)
    }

    /// Whether it can be a part of a datagram.
    fn is_taken(&self) -> bool
        ensures taken { result ≡ is_taken (ip_fragment self.now) }
    {
        let len = self.carried.part.whole;
        if self.is_cut || len > MAX_LEN - usize::from(self.offset) {
            return false;
        }
        if self.more {
            len != 0 && len % UNIT == 0
        } else {
            self.offset != 0
        }
    }

    /// What the first fragment is, with this header after its extension headers.
    fn look_at_first(&self, upper: &NextHeader<'a>) -> Seen<'a>
        requires { self.now.carried.part.whole < 2 ^ 16 }
        ensures { sight_of result
            ≡ first_sight (ip_fragment self.now) (next_header upper.now) }
    {
        if upper.number == UDP {
            return self.look_at_udp(upper);
        }
        if upper.is_unkept() {
            Seen::Short
        } else if upper.number == FRAGMENT {
            Seen::Other
        } else {
            self.taken(None)
        }
    }

    /// What the first fragment is of a datagram of UDP.
    fn look_at_udp(&self, upper: &NextHeader<'a>) -> Seen<'a>
        requires fits { self.now.carried.part.whole < 2 ^ 16 }
        requires udp { upper.now.number ≡ 17 }
        ensures { sight_of result
            ≡ first_sight (ip_fragment self.now) (next_header upper.now) }
    {
        if upper.part.whole < HEADER_LEN {
            return self.taken(None);
        }
        if upper.part.octets.len() < PORTS_LEN {
            return Seen::Short;
        }
        if !is_babel(upper.part.octets) {
            return self.taken(None);
        }
        let at = self.carried.part.whole.saturating_sub(upper.part.whole);
        self.taken(Some(UdpPlace {
            at: at as u16,
            is_of_routers: is_of_routers(upper.part.octets),
        }))
    }

    /// The fragment, where UDP begins there in the datagram.
    fn taken(&self, udp: Option<UdpPlace>) -> Seen<'a>
        requires { self.now.carried.part.whole < 2 ^ 16 }
        ensures { sight_of result ≡ taken (ip_fragment self.now) udp }
    {
        Seen::Fragment(Fragment {
            id: self.id,
            offset: self.offset,
            more: self.more,
            len: self.carried.part.whole as u16,
            octets: self.carried.part.octets,
            udp,
            is_to_group: is_group(self.id.destination) && self.carried.number == UDP,
        })
    }
}
