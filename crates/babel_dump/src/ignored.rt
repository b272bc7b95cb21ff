ghost use Rattle.std.specs.Prelude.{◌≡◌, IfSome};
ghost use Rattle.std.specs.Option.{IfNone};
ghost use Rattle.babel_dump.specs.Ignored.{IgnoresNone, first_ignored, newly_ignored};

use crate::by_reason::{CountedReason, first_of};
use crate::reason_text::REASONS;
use babel_table::Report;
use babel_tlv::Reason;
use std::fmt;

/// A TLV of a dump that was ignored.
#[derive(Clone, Copy, PartialEq, Eq)]
pub struct IgnoredTlv {
    /// Its offset in the dump.
    pub at: u64,
    /// Why it was ignored.
    pub reason: Reason,
}

impl fmt::Display for IgnoredTlv {
    fn fmt<W: fmt::Write>(&self, f: &mut fmt::Formatter<W>) -> fmt::Result {
        write!(f, "ignored TLV at {}: {}", self.at, self.reason.name())
    }
}

/// The first TLV that was ignored for a reason, where it lies at this offset or behind it.
pub(crate) fn newly_ignored(from: u64, report: &Report, reason: Reason) -> Option<IgnoredTlv>
    ensures { result ≡ newly_ignored from report.now reason }
{
    let (_count, at) = report.ignored(reason)?;
    if at < from {
        return None;
    }
    Some(IgnoredTlv { at, reason })
}

/// The first TLV of a dump that was ignored, by its offset.
#[tactic(auto, using(crate::proofs::FirstIgnored::ignores_none))]
pub(crate) fn first_ignored(report: &Report) -> Option<IgnoredTlv>
    ensures first { result ≡ first_ignored report.now }
    ensures none { IfNone result (IgnoresNone report.now) }
{
    let (at, reason) = first_of(report, &REASONS)?;
    Some(IgnoredTlv { at, reason })
}
