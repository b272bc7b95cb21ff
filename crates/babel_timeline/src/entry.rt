use crate::row::Row;

/// What is held for a subject, and the time at which it is looked at next, if that is queued.
#[derive(Clone, Copy)]
pub(crate) struct Entry {
    pub(crate) row: Row,
    pub(crate) queued: Option<u128>,
}
