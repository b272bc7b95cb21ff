use crate::by_reason::{count_for, write_counted};
use crate::reason_text::REASONS;
use babel_table::Report;
use std::fmt;

/// How many TLVs of a dump were ignored, and why: what a note after the output says.
#[derive(Clone, Copy)]
pub struct IgnoredNote {
    pub report: Report,
    ignored: u64,
}

impl IgnoredNote {
    /// The note about a dump with this report; `None` if no TLV was ignored.
    pub fn of(report: Report) -> Option<IgnoredNote> {
        let ignored = count_for(&report, &REASONS);
        if ignored == 0 {
            None
        } else {
            Some(IgnoredNote { report, ignored })
        }
    }
}

impl fmt::Display for IgnoredNote {
    fn fmt<W: fmt::Write>(&self, f: &mut fmt::Formatter<W>) -> fmt::Result {
        write!(f, "{} of {} TLVs ignored", self.ignored, self.report.tlvs())?;
        write_counted(f, &self.report, &REASONS)
    }
}
