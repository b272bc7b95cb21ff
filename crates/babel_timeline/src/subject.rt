use babel_tlv::Key;

/// What rows are of: what a sender announces, and for which key. Ordered by sender, then by key.
#[derive(Clone, Copy, PartialEq, Eq, PartialOrd, Ord)]
pub struct Subject<S> {
    /// Who announces.
    pub sender: S,
    /// What for.
    pub key: Key,
}
