/// Why a Babel datagram is left out.
#[derive(Clone, Copy, PartialEq, Eq, PartialOrd, Ord)]
pub enum Reason {
    /// It is shorter than a packet's header, or than the body that the header says: RFC 8966, 4.2.
    Truncated,
    /// Its first octet is not 42: RFC 8966, 4.2.
    BadMagic,
    /// Its second octet is not 2: RFC 8966, 4.2.
    BadVersion,
    /// Fragments of it are missing, or overlap: RFC 791, 3.2; RFC 8200, 4.5; RFC 5722, 4.
    Fragment,
    /// The recorder kept only a part of it.
    Snapped,
    /// Its length, in the header of IP or of UDP, is more than what there was of it.
    CutShort,
    /// Not both of its ports are Babel's, so that no router reads it: RFC 8966, 4.
    OtherPort,
    /// Its sender is no link-local address of IPv6, so that no router reads it: RFC 8966, 4.
    NotLinkLocal,
}
