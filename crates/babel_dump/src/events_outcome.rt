use crate::events_job::Events;
use crate::other_sources::OtherSources;
use crate::outcome::Outcome;
use babel_capture::Origin;
use babel_table::Report;

/// What a run of `events` answers.
#[derive(Drop)]
pub struct EventsOutcome {
    pub outcome: Outcome,
    /// What was heard of each sender that is followed, at each place of which packets are read: by
    /// place, then by address.
    pub senders: Vec<HeardSender>,
    /// The number of the first packet of a sender that is not followed.
    pub not_followed: Option<u64>,
    /// Where the answers are for any source, the routes for others.
    pub(crate) other_sources: Option<OtherSources>,
}

/// What was heard of a sender.
#[derive(Drop)]
pub struct HeardSender {
    pub origin: Origin,
    /// The name of its interface, as the capture has it; empty where it has none.
    pub name: Vec<u8>,
    /// How many TLVs it sent, and which were ignored, by their offsets in its dump.
    pub report: Report,
}

impl EventsOutcome {
    /// What was heard of the sender that is named, where it has packets at one place.
    pub(crate) fn named(&self, events: &Events) -> Option<&HeardSender> {
        events.sender?;
        match self.senders.as_slice() {
            [heard] => Some(heard),
            _ => None,
        }
    }
}
