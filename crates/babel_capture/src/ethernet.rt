ghost use Rattle.std.specs.Prelude.{◌≡◌};
ghost use Rattle.babel_capture.specs.Ethernet.{is_tag};
ghost use Rattle.babel_capture.specs.Frame.{leads_to_ip};
ghost use Rattle.babel_capture.specs.Sight.{sight_of};

use crate::field::number16;
use crate::ipv4::look_into_ipv4;
use crate::ipv6::look_into_ipv6;
use crate::part::Part;
use crate::place::{MAX_TAGS, Place, Vlans};
use crate::seen::Seen;

/// EtherTypes: RFC 894; RFC 2464, 3; IEEE 802.1Q, 9.
const IPV4: u16 = 0x0800;

const IPV6: u16 = 0x86dd;

const CUSTOMER_TAG: u16 = 0x8100;

const SERVICE_TAG: u16 = 0x88a8;
/// EtherTypes of service tags from before the standard.
const OLD_SERVICE_TAG: u16 = 0x9100;

const OTHER_SERVICE_TAG: u16 = 0x9200;

/// The octets of a tag after its EtherType: two of control information, and the EtherType of what
/// comes next.
const TAG_LEN: usize = 4;

/// The bits of a tag's first two octets that are the number of its VLAN: IEEE 802.1Q, 9.6.
const VLAN_NUMBER: u16 = 0x0fff;

/// An EtherType, the VLAN numbers of the tags before it, and what comes after it in a frame.
#[derive(Clone, Copy)]
pub(crate) struct Payload<'a> {
    pub ether_type: u16,
    pub vlans: Vlans,
    pub part: Part<'a>,
}

/// Whether IP may come after this EtherType.
pub(crate) fn leads_to_ip(ether_type: u16) -> bool
    ensures { result ≡ leads_to_ip ether_type }
{
    ether_type == IPV4 || ether_type == IPV6 || is_tag(ether_type)
}

/// Whether a VLAN tag comes after this EtherType.
fn is_tag(ether_type: u16) -> bool
    ensures { result ≡ is_tag ether_type }
{
    matches!(
        ether_type,
        CUSTOMER_TAG | SERVICE_TAG | OLD_SERVICE_TAG | OTHER_SERVICE_TAG
    )
}

impl<'a> Payload<'a> {
    ghost use Rattle.babel_capture.specs.Ethernet.{ip_sight, past_tag, past_tags, typed_sight};
    ghost use Rattle.babel_capture.specs.Layers.{payload};

    /// What the IP packet is that comes after the VLAN tags of a frame at this place.
    #[tactic(auto, unfolding(crate::specs::Ethernet::typed_sight))]
    pub fn look(self, place: Place) -> Seen<'a>
        ensures { sight_of result ≡ typed_sight place (payload self.entry) }
    {
        let payload = self.past_tags();
        let place = Place {
            vlans: payload.vlans,
            ..place
        };
        payload.look_untagged(place)
    }

    /// What the IP packet is that comes next.
    fn look_untagged(self, place: Place) -> Seen<'a>
        ensures { sight_of result ≡ ip_sight place (payload self.entry) }
    {
        match self.ether_type {
            IPV4 => look_into_ipv4(place, self.part),
            IPV6 => look_into_ipv6(place, self.part),
            _ => {
                if is_tag(self.ether_type) && self.part.octets.len() < TAG_LEN {
                    Seen::Short
                } else {
                    Seen::Other
                }
            }
        }
    }

    /// After the VLAN tags, of which at most `MAX_TAGS` are skipped.
    #[tactic(auto, using(crate::proofs::SkippedLaws::no_tag))]
    fn past_tags(self) -> Payload<'a>
        ensures { payload result ≡ past_tags 4 (payload self.entry) }
    {
        // Most frames have no tag.
        if !is_tag(self.ether_type) {
            return self;
        }
        let mut payload = self;
        for _ in 0..MAX_TAGS {
            payload = payload.past_tag();
        }
        payload
    }

    /// After the next VLAN tag; the same where none comes next.
    #[tactic(auto, unfolding(crate::specs::Ethernet::past_tag))]
    fn past_tag(self) -> Payload<'a>
        ensures { payload result ≡ past_tag (payload self.entry) }
    {
        if !is_tag(self.ether_type) || self.part.octets.len() < TAG_LEN {
            return self;
        }
        Payload {
            ether_type: number16(self.part.octets, 2),
            vlans: self.vlans.with(number16(self.part.octets, 0) & VLAN_NUMBER),
            part: self.part.after(TAG_LEN),
        }
    }
}
