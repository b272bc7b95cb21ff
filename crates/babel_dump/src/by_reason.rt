//! What is counted by reason: TLVs that were ignored, datagrams that were left out.
ghost use Rattle.std.specs.Prelude.{◌≡◌, ◌≤◌, ℕ, List, Option, Some, length};
ghost use Rattle.babel_dump.specs.ByReason.{first_of, sooner};

use std::fmt;

/// A reason for which a report counts something.
pub(crate) trait CountedReason: Copy + Drop {
    type Report;

    ghost counted: { Self.Report → Self → Option (ℕ × ℕ) };

    ghost name_of: { Self → List ℕ };

    /// How many are counted for it, and the place of the first; `None` if none is.
    fn counted(self, report: &Self::Report) -> Option<(u64, u64)>
        ensures { result ≡ counted report.now self };

    /// Its name.
    fn name(self) -> &'static str
        ensures text { result.now ≡ name_of self }
        ensures short { length result.now ≤ 18 };
}

/// The lowest place for one of these reasons, and that reason.
pub(crate) fn first_of<R: CountedReason>(report: &R::Report, reasons: &[R]) -> Option<(u64, R)>
    ensures { result ≡ first_of (R.counted report.now) reasons.now }
{
    let (reason, rest) = reasons.split_first()?;
    let later = first_of(report, rest);
    match reason.counted(report) {
        Some((_count, place)) => sooner((place, *reason), later),
        None => later,
    }
}

/// The one at the lower place, if there are two.
fn sooner<R: Drop>(one: (u64, R), other: Option<(u64, R)>) -> Option<(u64, R)>
    ensures { result ≡ sooner (Some one) other }
{
    match other {
        Some(other) if other.0 < one.0 => Some(other),
        _ => Some(one),
    }
}

/// How many are counted for these reasons.
pub(crate) fn count_for<R: CountedReason>(report: &R::Report, reasons: &[R]) -> u64 {
    let mut all: u64 = 0;
    for reason in reasons {
        if let Some((count, _first)) = reason.counted(report) {
            all = all.saturating_add(count);
        }
    }
    all
}

/// Writes how many are counted for each of these reasons, and where the first is.
pub(crate) fn write_counted<R: CountedReason, W: fmt::Write>(
    f: &mut fmt::Formatter<W>,
    report: &R::Report,
    reasons: &[R],
) -> fmt::Result {
    let mut mark = ": ";
    for reason in reasons {
        if let Some((count, first)) = reason.counted(report) {
            write!(f, "{mark}{} {count} first {first}", reason.name())?;
            mark = ", ";
        }
    }
    Ok(())
}
