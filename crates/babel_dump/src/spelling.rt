/// How a run writes addresses.
#[derive(Clone, Copy)]
pub enum Spelling {
    /// All eight groups of an IPv6 address, and each source.
    Long,
    /// An IPv6 address as RFC 5952, 4, has it, and no source prefix of length 0 in a line of text.
    Short,
}
