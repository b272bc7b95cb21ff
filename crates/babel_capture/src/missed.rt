use crate::reason::Reason;
use crate::tallies::Origin;

/// A datagram of a sender that lacks something, and was left out.
#[derive(Clone, Copy)]
pub struct Missed {
    /// Who sent it, and where it was captured.
    pub origin: Origin,
    /// What it lacks.
    pub reason: Reason,
}
