use babel_prefix::Addr;
use babel_tlv::Held;

/// How the answers of two tables compare.
#[derive(Clone, Copy)]
pub enum Verdict {
    /// Every destination and source has the same answer.
    Same,
    /// The least pair of a destination and a source, by family, destination and source, with
    /// different answers, and the answers of the two tables there.
    Differ {
        /// The destination.
        dst: Addr,
        /// The source.
        src: Addr,
        /// What the first table answers, if anything.
        left: Option<Held>,
        /// What the second table answers, if anything.
        right: Option<Held>,
    },
}
