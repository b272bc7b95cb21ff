//! Datagrams of a capture that were left out.
ghost use Rattle.std.specs.Prelude.{◌≡◌, ◌≤◌, IfSome, length};
ghost use Rattle.std.specs.Option.{IfNone};
ghost use Rattle.babel_dump.specs.LeftOut.{LeavesNoneOut, first_among, first_left_out};
ghost use Rattle.babel_dump.specs.LeftOut.{first_unmissed, told_reasons, unmissed_reasons};

use crate::by_reason::{CountedReason, count_for, first_of, write_counted};
use babel_capture::{Reason, Report};
use std::fmt;

/// A datagram of a capture that was left out.
#[derive(Clone, Copy, PartialEq, Eq)]
pub struct LeftOutDatagram {
    /// The number of its packet in the capture, from 1.
    pub packet: u64,
    /// Why it was left out.
    pub reason: Reason,
}

impl fmt::Display for LeftOutDatagram {
    fn fmt<W: fmt::Write>(&self, f: &mut fmt::Formatter<W>) -> fmt::Result {
        write!(
            f,
            "datagram left out at packet {}: {}",
            self.packet,
            self.reason.name()
        )
    }
}

/// Which of the datagrams that were left out a note tells.
#[derive(Clone, Copy)]
pub enum ToldLeftOut {
    /// Each of them.
    All,
    /// Those that are not missed: nothing of them is missing, or fragments are, where that is
    /// accepted. The others are told with their senders.
    Unmissed { accepts_missing: bool },
}

/// How many datagrams of a capture were left out, and why: what a note after the output says.
#[derive(Clone, Copy)]
pub struct LeftOutNote {
    pub report: Report,
    /// Which of them it tells.
    pub told: ToldLeftOut,
    left_out: u64,
}

impl LeftOutNote {
    /// The note that tells these of a capture with this report; `None` if none of them was left
    /// out.
    pub(crate) fn of(report: Report, told: ToldLeftOut) -> Option<LeftOutNote> {
        let left_out = count_for(&report, told_reasons(told));
        if left_out == 0 {
            None
        } else {
            Some(LeftOutNote {
                report,
                told,
                left_out,
            })
        }
    }
}

impl fmt::Display for LeftOutNote {
    fn fmt<W: fmt::Write>(&self, f: &mut fmt::Formatter<W>) -> fmt::Result {
        let datagrams = if self.left_out == 1 {
            "datagram"
        } else {
            "datagrams"
        };
        write!(f, "{} {datagrams} left out", self.left_out)?;
        write_counted(f, &self.report, told_reasons(self.told))
    }
}

/// The reasons that a note tells.
pub(crate) fn told_reasons(told: ToldLeftOut) -> &'static [Reason]
    ensures reasons { result.now ≡ told_reasons told }
    ensures few { length result.now ≤ 8 }
{
    match told {
        ToldLeftOut::All => &REASONS,
        ToldLeftOut::Unmissed { accepts_missing } => unmissed_reasons(accepts_missing),
    }
}

/// The reasons of datagrams that are left out and not missed.
fn unmissed_reasons(accepts_missing: bool) -> &'static [Reason]
    ensures reasons { result.now ≡ unmissed_reasons accepts_missing }
    ensures few { length result.now ≤ 8 }
{
    if accepts_missing {
        &WHOLE_OR_IN_FRAGMENTS
    } else {
        &WHOLE_REASONS
    }
}

/// The first datagram of a capture that was left out, by the number of its packet.
#[tactic(auto, using(crate::proofs::FirstLeftOut::leaves_none))]
pub(crate) fn first_left_out(report: &Report) -> Option<LeftOutDatagram>
    ensures first { result ≡ first_left_out report.now }
    ensures none { IfNone result (LeavesNoneOut report.now) }
{
    first_among(report, &REASONS)
}

/// The first datagram of a capture that was left out and is not missed.
pub(crate) fn first_unmissed(report: &Report, accepts_missing: bool) -> Option<LeftOutDatagram>
    ensures { result ≡ first_unmissed accepts_missing report.now }
{
    first_among(report, unmissed_reasons(accepts_missing))
}

/// The first datagram that was left out for one of these reasons.
fn first_among(report: &Report, reasons: &[Reason]) -> Option<LeftOutDatagram>
    ensures { result ≡ first_among report.now reasons.now }
{
    let (packet, reason) = first_of(report, reasons)?;
    Some(LeftOutDatagram { packet, reason })
}

/// The reasons, in their order.
const REASONS: [Reason; 8] = [
    Reason::Truncated,
    Reason::BadMagic,
    Reason::BadVersion,
    Reason::Fragment,
    Reason::Snapped,
    Reason::CutShort,
    Reason::OtherPort,
    Reason::NotLinkLocal,
];

/// Those of datagrams of which nothing is missing.
const WHOLE_REASONS: [Reason; 5] = [
    Reason::Truncated,
    Reason::BadMagic,
    Reason::BadVersion,
    Reason::OtherPort,
    Reason::NotLinkLocal,
];

/// Those and that of datagrams of which fragments are missing.
const WHOLE_OR_IN_FRAGMENTS: [Reason; 6] = [
    Reason::Truncated,
    Reason::BadMagic,
    Reason::BadVersion,
    Reason::Fragment,
    Reason::OtherPort,
    Reason::NotLinkLocal,
];

impl CountedReason for Reason {
    type Report = Report;

    ghost use Rattle.babel_dump.specs.LeftOut.{left_out_for, left_out_name};

    ghost counted = { left_out_for };

    ghost name_of = { left_out_name };

    fn counted(self, report: &Report) -> Option<(u64, u64)> {
        report.left_out(self)
    }

    fn name(self) -> &'static str {
        match self {
            Reason::Truncated => "truncated",
            Reason::BadMagic => "bad-magic",
            Reason::BadVersion => "bad-version",
            Reason::Fragment => "fragment",
            Reason::Snapped => "snapped",
            Reason::CutShort => "cut-short",
            Reason::OtherPort => "other-port",
            Reason::NotLinkLocal => "not-link-local",
        }
    }
}
