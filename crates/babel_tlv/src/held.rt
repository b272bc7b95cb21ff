use crate::ann::Ann;

/// What a table holds for a key: RFC 8966, 2.8. A route comes before an unreachable row.
#[derive(Clone, Copy, PartialEq, Eq, PartialOrd, Ord)]
pub enum Held {
    /// The route that was announced last.
    Route(Ann),
    /// No route, and no less specific one in its place.
    Unreachable,
}
