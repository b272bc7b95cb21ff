ghost use Rattle.std.specs.Prelude.{◌≡◌};
ghost use Rattle.babel_capture.specs.Place.{no_vlans, place_on, vlan_fields, with_vlan};

/// How many VLAN tags of a frame are skipped.
pub const MAX_TAGS: usize = 4;

/// Where a packet was captured: all that tells links apart. Places are ordered by the interface,
/// then by the link, none first, then by the VLANs.
#[derive(Clone, Copy, PartialEq, Eq, PartialOrd, Ord)]
pub struct Place {
    /// The number of the interface's description in the capture.
    pub interface: u64,
    /// The number that the frame names itself: Linux cooked, version 2.
    pub link: Option<u32>,
    /// The numbers of the frame's VLAN tags.
    pub vlans: Vlans,
}

/// The numbers of up to four VLAN tags, the outer one first, and 0 where there are no more: IEEE
/// 802.1Q, 9. A tag of number 0 is for priority, and names no VLAN.
#[derive(Clone, Copy, PartialEq, Eq, PartialOrd, Ord)]
pub struct Vlans {
    first: u16,
    second: u16,
    third: u16,
    fourth: u16,
}

impl Place {
    /// The place on this interface without a link or a VLAN of its own.
    pub fn on(interface: u64) -> Place
        ensures { result ≡ place_on interface }
    {
        Place {
            interface,
            link: None,
            vlans: Vlans::none(),
        }
    }
}

impl Vlans {
    /// No numbers.
    pub fn none() -> Vlans
        ensures { result ≡ no_vlans }
    {
        Vlans {
            first: 0,
            second: 0,
            third: 0,
            fourth: 0,
        }
    }

    /// With the number of one tag more, if there is room for it; the same where it is 0.
    #[tactic(auto, unfolding(crate::specs::Place::with_vlan))]
    pub fn with(self, number: u16) -> Vlans
        ensures { result ≡ with_vlan self number }
    {
        let mut vlans = self;
        if self.first == 0 {
            vlans.first = number;
        } else if self.second == 0 {
            vlans.second = number;
        } else if self.third == 0 {
            vlans.third = number;
        } else if self.fourth == 0 {
            vlans.fourth = number;
        }
        vlans
    }

    /// The numbers, the outer one first, and 0 where there are no more.
    pub fn numbers(self) -> [u16; 4]
        ensures { result ≡ vlan_fields self }
    {
        [self.first, self.second, self.third, self.fourth]
    }
}
