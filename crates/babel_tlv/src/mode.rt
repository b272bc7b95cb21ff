/// What a retraction leaves: RFC 8966, 2.8.
#[derive(Clone, Copy, PartialEq, Eq)]
pub enum Mode {
    /// Nothing: a retracted key has no row.
    Plain,
    /// An unreachable row, which hides less specific routes.
    Hold,
}
