//! The words of `--since` and `--until`.
ghost use Rattle.std.specs.Prelude.{◌≡◌};
ghost use Rattle.babel_capture.specs.Window.{moment_from};
ghost use Rattle.babel_dump.specs.EventsCause.{until_in};

use crate::given_words::GivenWords;
use crate::reading::TimeOption;
use crate::time_word::parse_moment;
use babel_capture::{Moment, Time, Window};

/// The moments between which an input is read.
#[derive(Clone, Copy)]
pub(crate) struct Moments {
    pub since: Option<Moment>,
    pub until: Option<Moment>,
}

impl Moments {
    /// Those that these two options name.
    pub(crate) fn of(given: &mut GivenWords<'_, '_>, since: &str, until: &str) -> Moments {
        let moments = Moments {
            since: moment(given, since),
            until: moment(given, until),
        };
        moments.in_order(given, since, until)
    }

    /// These, of the other input, or those of the first where they are left out.
    pub(crate) fn or(&self, given: &mut GivenWords<'_, '_>, first: &Moments) -> Moments {
        let moments = Moments {
            since: self.since.or(first.since),
            until: self.until.or(first.until),
        };
        let since = if self.since.is_some() {
            "other-since"
        } else {
            "since"
        };
        let until = if self.until.is_some() {
            "other-until"
        } else {
            "until"
        };
        moments.in_order(given, since, until)
    }

    /// These, which two options name. They are refused if the one is known to be later than the
    /// other.
    fn in_order(self, given: &mut GivenWords<'_, '_>, since: &str, until: &str) -> Moments {
        if let (Some(start), Some(end)) = (self.since, self.until) {
            if is_later(start, end) {
                given.refuse(format!(in given.alloc; "--{since} is later than --{until}\n"));
            }
        }
        self
    }

    /// Which packets are read, where times are asked for besides, as `--expiry` does, or not.
    pub(crate) fn window(&self, is_timed: bool) -> Window {
        match (self.since, self.until, is_timed) {
            (None, None, false) => Window::Whole,
            (since, until, _) => Window::Between { since, until },
        }
    }

    /// The first of the options that was given, of which `--expiry` is the last.
    pub(crate) fn option(&self, has_expiry: bool) -> Option<TimeOption> {
        match (self.since, self.until, has_expiry) {
            (Some(_), _, _) => Some(TimeOption::Since),
            (None, Some(_), _) => Some(TimeOption::Until),
            (None, None, true) => Some(TimeOption::Expiry),
            (None, None, false) => None,
        }
    }
}

/// The moments of a window, where they are named.
pub(crate) fn moments_of(window: &Window) -> (Option<Moment>, Option<Moment>)
    ensures { result.1 ≡ until_in window.now }
{
    match window {
        Window::Whole => (None, None),
        Window::Between { since, until } => (*since, *until),
    }
}

/// A moment in nanoseconds since the start of 1970, of a capture whose first packet came then.
pub(crate) fn moment_from(first: Time, moment: Moment) -> u128
    ensures { result ≡ moment_from first moment }
{
    match moment {
        Moment::At(time) => time.nanoseconds(),
        Moment::After {
            seconds,
            nanoseconds,
        } => {
            let later = u128::from(seconds) * 1_000_000_000 + u128::from(nanoseconds);
            first.nanoseconds() + later
        }
    }
}

/// Whether a moment is later than another, whatever the capture.
fn is_later(start: Moment, end: Moment) -> bool {
    match start {
        Moment::At(start) => match end {
            Moment::At(end) => start.nanoseconds() > end.nanoseconds(),
            Moment::After { .. } => false,
        },
        Moment::After {
            seconds,
            nanoseconds,
        } => match end {
            Moment::At(_) => false,
            Moment::After {
                seconds: end_seconds,
                nanoseconds: end_nanoseconds,
            } => (seconds, nanoseconds) > (end_seconds, end_nanoseconds),
        },
    }
}

/// The moment that an option names, where there is one.
fn moment(given: &mut GivenWords<'_, '_>, id: &str) -> Option<Moment> {
    let word = given.word(id)?;
    let takes = "a time with an offset, as 2026-11-25T13:30:22.5Z, or seconds, as @1764077422.5 \
                 since 1970 or +90 since the first record";
    given.value(parse_moment(word), word, "a time", id, takes)
}
