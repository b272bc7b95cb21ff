use babel_tlv::Key;

/// What an entry of a source table is of: RFC 8966, 3.2.5. Ordered by key, then by router-id.
#[derive(Clone, Copy, PartialEq, Eq, PartialOrd, Ord)]
pub struct Source {
    pub key: Key,
    pub router_id: [u8; 8],
}
