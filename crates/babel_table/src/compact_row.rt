use crate::compact_held::CompactHeld;
use crate::compact_key::CompactKey;

/// A key of the family whose addresses are kept in these words, and what is held for it, with next
/// hops kept so.
pub type CompactRow<W, H> = (CompactKey<W>, CompactHeld<H>);
