//! What is said where a capture has none of the packets that are wanted.
use crate::moment_words::moments_of;
use crate::place_word::PlaceInWords;
use crate::push_time::SECOND;
use crate::time_text::TimeText;
use babel_capture::{Capture, Moment, Place, Time, Wanted, Window};
use babel_prefix::Addr;
use std::fmt;

/// That a capture has no packets of a sender, or of any, where none is named; or none at a place or
/// between two moments, where these are named. `Display` gives the line for standard error.
#[derive(Clone, Copy, PartialEq, Eq)]
pub struct Absence {
    sender: Option<Addr>,
    place: Option<Place>,
    /// The first and the last moment, in nanoseconds since the start of 1970.
    since: Option<u128>,
    until: Option<u128>,
    /// When the sender's first packet came that is at another place, or time.
    first: Option<Time>,
}

impl Absence {
    /// That of all packets, or of all at a place, at whatever time.
    pub fn at(place: Option<Place>) -> Absence {
        Absence {
            sender: None,
            place,
            since: None,
            until: None,
            first: None,
        }
    }

    /// Whether there may be packets of other senders, or at other places.
    pub(crate) fn is_narrow(&self) -> bool {
        self.sender.is_some() || self.place.is_some()
    }

    /// That of the packets of a sender, at a place if one is named, between the same moments.
    pub(crate) fn of_sender(&self, sender: Addr, place: Option<Place>) -> Absence {
        Absence {
            sender: Some(sender),
            place,
            first: None,
            ..*self
        }
    }

    /// That of the packets that are wanted of this capture, which was read in this window.
    pub(crate) fn of(capture: &Capture, window: &Window) -> Absence {
        let gathered = capture.gathered();
        let Wanted { sender, place, .. } = gathered.wanted();
        let (since, until) = moments_of(window);
        let start = match capture.start() {
            Some(start) => Some(start.nanoseconds()),
            None => None,
        };
        Absence {
            sender,
            place,
            since: moment_of(since, start),
            until: moment_of(until, start),
            first: gathered.first_outside(),
        }
    }
}

impl fmt::Display for Absence {
    fn fmt<W: fmt::Write>(&self, f: &mut fmt::Formatter<W>) -> fmt::Result {
        let Some(sender) = self.sender else {
            return f.write_str("no Babel packets");
        };
        write!(f, "no packets from {sender}")?;
        if let Some(place) = self.place {
            write!(f, " at{}", PlaceInWords(place))?;
        }
        let (since, until) = (text_of(self.since), text_of(self.until));
        let (from, to) = match (since, until) {
            (Some(_), Some(_)) => (" from ", " to "),
            _ => (" since ", " until "),
        };
        if let Some(since) = since {
            write!(f, "{from}{since}")?;
        }
        if let Some(until) = until {
            write!(f, "{to}{until}")?;
        }
        match self.first {
            Some(first) => write!(f, "; its first came at {}", TimeText(first)),
            None => Ok(()),
        }
    }
}

/// A moment of a capture whose first packet came then, in nanoseconds since the start of 1970, as
/// that; `None` where it depends on that and there is none.
fn moment_of(moment: Option<Moment>, start: Option<u128>) -> Option<u128> {
    match moment? {
        Moment::At(time) => Some(time.nanoseconds()),
        Moment::After {
            seconds,
            nanoseconds,
        } => {
            let later = u128::from(seconds) * u128::from(SECOND) + u128::from(nanoseconds);
            start?.checked_add(later)
        }
    }
}

/// The text of a moment, where there is one, up to the year 9999.
fn text_of(moment: Option<u128>) -> Option<TimeText> {
    Some(TimeText(Time::new(moment?)?))
}
