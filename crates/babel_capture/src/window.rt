ghost use Rattle.std.specs.Prelude.{◌≡◌};
ghost use Rattle.babel_capture.specs.Window.{is_empty, is_between, moment_from};

use crate::time::Time;

/// A moment, by itself or by the capture.
#[derive(Clone, Copy, PartialEq, Eq)]
pub enum Moment {
    /// This one.
    At(Time),
    /// So long after the capture's first packet.
    After { seconds: u64, nanoseconds: u32 },
}

/// Which packets of a capture are read, by when they came.
#[derive(Clone, Copy)]
pub enum Window {
    /// Each, whether it has a time or not.
    Whole,
    /// Those that came neither before the one moment nor after the other, where these are given.
    /// Each packet is to have a time.
    Between {
        since: Option<Moment>,
        until: Option<Moment>,
    },
}

impl Moment {
    /// The moment in nanoseconds since the start of 1970, of a capture whose first packet came
    /// then.
    pub(crate) fn from(self, first: Time) -> u128
        ensures { result ≡ moment_from first self }
    {
        match self {
            Moment::At(time) => time.nanoseconds(),
            Moment::After {
                seconds,
                nanoseconds,
            } => {
                let later = u128::from(seconds) * 1_000_000_000 + u128::from(nanoseconds);
                first.nanoseconds() + later
            }
        }
    }
}

/// Whether the one moment is later than the other, of a capture whose first packet came at `first`.
pub(crate) fn is_empty(since: &Option<Moment>, until: &Option<Moment>, first: &Time) -> bool
    ensures { result ≡ is_empty since.now until.now first.now }
{
    match (since, until) {
        (Some(since), Some(until)) => until.from(*first) < since.from(*first),
        _ => false,
    }
}

/// Whether what came then, in nanoseconds since the start of 1970, is read, of a capture whose
/// first packet came at `first`.
pub fn is_between(since: Option<Moment>, until: Option<Moment>, first: Time, time: u128) -> bool
    ensures { result ≡ is_between since until first time }
{
    let is_since = match since {
        Some(moment) => moment.from(first) <= time,
        None => true,
    };
    let is_until = match until {
        Some(moment) => time <= moment.from(first),
        None => true,
    };
    is_since && is_until
}
