ghost use Rattle.std.specs.Prelude.{◌≡◌, None};
ghost use Rattle.babel_capture.specs.Timing.{greatest, least, no_times, with_time};

use crate::time::Time;

/// What is told of the times of a capture's packets, but for those that are skipped.
#[derive(Clone, Copy)]
pub struct Timing {
    /// Whether one of them has no time, or one before 1970 or after the year 9999.
    pub has_untimed: bool,
    pub earliest: Option<Time>,
    pub latest: Option<Time>,
    /// The number of the first that came before one of those before it.
    pub backwards: Option<u64>,
}

impl Timing {
    /// That of no packets.
    pub(crate) fn new() -> Timing
        ensures { result ≡ no_times }
    {
        Timing {
            has_untimed: false,
            earliest: None,
            latest: None,
            backwards: None,
        }
    }

    /// Takes one packet more, which has this number.
    pub(crate) fn take(&mut self, number: u64, time: Option<Time>)
        ensures { self.new ≡ with_time self.old number time }
    {
        let Some(time) = time else {
            self.has_untimed = true;
            return;
        };
        match self.latest {
            Some(latest) if time.nanoseconds() < latest.nanoseconds() => {
                self.backwards = self.backwards.or(Some(number));
            }
            _ => self.latest = Some(time),
        }
        match self.earliest {
            Some(earliest) if earliest.nanoseconds() <= time.nanoseconds() => {}
            _ => self.earliest = Some(time),
        }
    }
}

/// The earlier of two times, or the one that there is.
pub(crate) fn earlier(one: &Option<Time>, other: &Option<Time>) -> Option<Time>
    ensures { result ≡ least one.now other.now }
{
    match (one, other) {
        (Some(one), Some(other)) => Some(if other.nanoseconds() < one.nanoseconds() {
            *other
        } else {
            *one
        }),
        (Some(one), None) => Some(*one),
        (None, other) => *other,
    }
}

/// The later of two times, or the one that there is.
pub(crate) fn later(one: &Option<Time>, other: &Option<Time>) -> Option<Time>
    ensures { result ≡ greatest one.now other.now }
{
    match (one, other) {
        (Some(one), Some(other)) => Some(if one.nanoseconds() < other.nanoseconds() {
            *other
        } else {
            *one
        }),
        (Some(one), None) => Some(*one),
        (None, other) => *other,
    }
}
