ghost use Rattle.std.specs.Prelude.{◌≡◌};
ghost use Rattle.babel_dump.specs.CaptureRun.{IsOutcomeOf};
ghost use Rattle.babel_dump.specs.CaptureText.{senders_status, text_status};
ghost use Rattle.babel_dump.specs.Command.{IsOutcome};
ghost use Rattle.babel_dump.specs.Run.{run_status};

use crate::note::Note;
use crate::run_fault::RunFault;
use crate::spelling::Spelling;
use babel_capture::{Gathered, Report as CaptureReport};
use babel_prefix::Addr;
use babel_table::Report;

/// What a run answers: its status, and the reports of what it read.
#[derive(Clone, Copy)]
pub struct Outcome {
    /// The exit status, 0 or 1.
    pub status: u8,
    pub reports: Reports,
}

/// The reports of what a run read.
#[derive(Clone, Copy)]
pub enum Reports {
    /// Of a dump: which TLVs were ignored.
    Dump(Report),
    /// Of a dump in which a route was looked up for any source, and the source that it was looked
    /// up for, if routes to the destination are source-specific.
    AnySource(Report, Option<Addr>),
    /// Of the two dumps of a comparison, in their order.
    Dumps(Report, Report),
    /// Of the two dumps of a comparison that answer the same, and how many of their routes differ.
    Alike(Report, Report, usize),
    /// Of a capture.
    Capture {
        /// How many packets it has, and which wanted datagrams were left out.
        report: CaptureReport,
        /// The offset where it is cut short, if it is and that is accepted.
        cut: Option<u64>,
    },
}

impl Outcome {
    /// That of a dump with this report.
    pub(crate) fn of_dump(status: u8, report: Report) -> Outcome
        ensures { IsOutcome result status report }
    {
        let reports = Reports::Dump(report);
        Outcome { status, reports }
    }

    /// That a lookup was for any source, if routes to its destination are source-specific.
    pub(crate) fn source_note(&self, spelling: Spelling) -> Option<Note> {
        match self.reports {
            Reports::AnySource(_, source) => Some(Note::Source(spelling, source?)),
            _ => None,
        }
    }

    /// How many routes differ of two dumps that answer the same, if any.
    pub(crate) fn routes_note(&self) -> Option<Note> {
        match self.reports {
            Reports::Alike(_, _, routes) if routes > 0 => Some(Note::RoutesDiffer(routes as u64)),
            _ => None,
        }
    }

    /// That of a capture of which this was gathered, and which is cut short there: the status is 1
    /// if no packets were found.
    pub(crate) fn of_capture(gathered: &Gathered, cut: Option<u64>) -> Outcome
        ensures { IsOutcomeOf result (senders_status gathered.now.senders) gathered.now.report cut }
    {
        let status = if gathered.senders().is_empty() { 1 } else { 0 };
        let report = gathered.report();
        let reports = Reports::Capture { report, cut };
        Outcome { status, reports }
    }

    /// The same where this text was found of it: the status is 1 if that is empty.
    pub(crate) fn of_lines(text: &[u8], gathered: &Gathered, cut: Option<u64>) -> Outcome
        ensures { IsOutcomeOf result (text_status text.now) gathered.now.report cut }
    {
        let status = if text.is_empty() { 1 } else { 0 };
        let report = gathered.report();
        let reports = Reports::Capture { report, cut };
        Outcome { status, reports }
    }
}

/// The status of what a run answered, or its fault.
pub(crate) fn status_alone(outcome: Result<Outcome, RunFault>) -> Result<u8, RunFault>
    ensures { result ≡ run_status outcome }
{
    match outcome {
        Ok(outcome) => Ok(outcome.status),
        Err(fault) => Err(fault),
    }
}
