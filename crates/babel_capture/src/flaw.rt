use crate::lack::Lack;

/// Why a datagram from or to the port of Babel can't be read: the first of these that applies.
#[derive(Clone, Copy)]
pub enum Flaw {
    /// Not both of its ports are Babel's, so that no router reads it: RFC 8966, 4.
    OtherPort,
    /// Its sender is no link-local address of IPv6, so that no router reads it: RFC 8966, 4.
    NotLinkLocal,
    /// Not all of it is there.
    Lacking(Lack),
}
