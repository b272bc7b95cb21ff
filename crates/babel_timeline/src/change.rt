use crate::subject::Subject;
use babel_tlv::Ann;

/// How what is held for a subject changes.
#[derive(Clone, Copy)]
pub enum ChangeKind {
    /// Nothing was held, and now this is.
    Announced(Ann),
    /// Something else was held, and now this is.
    Changed { before: Ann, now: Ann },
    /// This was held, and nothing is any more, since the sender says so.
    Retracted(Ann),
    /// This was held, and nothing is any more, since the sender did not announce it again in time.
    Expired(Ann),
}

/// That what is held for a subject changes.
#[derive(Clone, Copy)]
pub struct Change<S> {
    /// When, in nanoseconds since the start of 1970.
    pub time: u128,
    /// What of.
    pub subject: Subject<S>,
    /// How.
    pub kind: ChangeKind,
}
