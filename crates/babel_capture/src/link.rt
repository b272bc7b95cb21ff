ghost use Rattle.std.specs.Prelude.{◌≡◌};
ghost use Rattle.babel_capture.specs.Link.{link_of};

/// A link type whose frames are read: what stands before the IP packet in a frame.
#[derive(Clone, Copy)]
pub enum Link {
    /// Protocol family of BSD in four octets, in the byte order of the recording machine.
    Null,
    /// Ethernet, with up to four VLAN tags.
    Ethernet,
    /// An IPv4 or IPv6 packet with nothing before it.
    RawIp,
    /// The same as `Null`, in network byte order.
    Loop,
    /// Linux cooked capture, version 1.
    Cooked,
    /// An IPv4 packet with nothing before it.
    RawIpv4,
    /// An IPv6 packet with nothing before it.
    RawIpv6,
    /// Linux cooked capture, version 2, which names the interface.
    Cooked2,
}

impl Link {
    /// The link type of this number in a capture's header, of the list at
    /// tcpdump.org/linktypes.html; `None` if its frames are not read.
    pub fn of(number: u32) -> Option<Link>
        ensures { result ≡ link_of number }
    {
        match number {
            0 => Some(Link::Null),
            1 => Some(Link::Ethernet),
            12 | 14 | 101 => Some(Link::RawIp),
            108 => Some(Link::Loop),
            113 => Some(Link::Cooked),
            228 => Some(Link::RawIpv4),
            229 => Some(Link::RawIpv6),
            276 => Some(Link::Cooked2),
            _ => None,
        }
    }
}
