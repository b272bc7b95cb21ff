ghost use Rattle.std.specs.Prelude.{◌≡◌};
ghost use Rattle.babel_selection.specs.Distances.{after_update, is_feasible, is_gone, is_nearer};

use crate::seqno::is_later;
use babel_tlv::Ann;

/// For so many nanoseconds an entry of a source table lasts: RFC 8966, appendix B.
const LASTS: u128 = 180_000_000_000;

/// An entry of a source table, a feasibility distance: RFC 8966, 3.2.5.
#[derive(Clone, Copy)]
pub struct Distance {
    pub seqno: u16,
    pub metric: u16,
    /// When a route of its source was announced last.
    pub time: u128,
}

impl Distance {
    /// Whether a route is nearer: of a larger seqno, or of the same one and a smaller metric.
    fn is_beyond(&self, ann: &Ann) -> bool
        ensures { result ≡ is_nearer ann.now self.now }
    {
        is_later(ann.seqno(), self.seqno) || ann.seqno() == self.seqno && ann.metric() < self.metric
    }

    /// Whether it is gone at the moment.
    pub fn is_gone(&self, moment: u128) -> bool
        ensures { result ≡ is_gone moment self.now }
    {
        moment.saturating_sub(self.time) >= LASTS
    }

    /// The entry after an Update with a finite metric.
    pub(crate) fn after(distance: &Option<Distance>, ann: &Ann, time: u128) -> Distance
        ensures { result ≡ after_update time ann.now distance.now }
    {
        match distance {
            Some(old) if !old.is_gone(time) && !old.is_beyond(ann) => Distance { time, ..*old },
            _ => Distance {
                seqno: ann.seqno(),
                metric: ann.metric(),
                time,
            },
        }
    }

    /// Whether a route is feasible by the entry, or by none: RFC 8966, 3.5.1.
    pub(crate) fn admits(distance: &Option<Distance>, ann: &Ann) -> bool
        ensures { result ≡ is_feasible distance.now ann.now }
    {
        match distance {
            Some(distance) => distance.is_beyond(ann),
            None => true,
        }
    }
}
