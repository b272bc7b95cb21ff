use crate::capture_input::CaptureRead;
use crate::left_out::ToldLeftOut;
use babel_capture::Report;

/// What the notes after the output say of a capture.
#[derive(Clone, Copy)]
pub struct CaptureNotes {
    /// How many packets it has, and which datagrams of the sender were left out.
    pub report: Report,
    /// The offset where it is cut short, if it is and that is accepted.
    pub cut: Option<u64>,
    /// Which of these datagrams are told.
    pub told: ToldLeftOut,
    /// How many rows of the dump's table were not announced again in time, if none was left out
    /// for that.
    pub expired_rows: usize,
}

impl CaptureNotes {
    /// What they say of a capture that was read, of which each sender is told by itself.
    pub(crate) fn apart(read: &CaptureRead) -> CaptureNotes {
        let accepts_missing = read.gathered.wanted().accepts_missing;
        CaptureNotes {
            report: read.gathered.report(),
            cut: read.cut,
            told: ToldLeftOut::Unmissed { accepts_missing },
            expired_rows: 0,
        }
    }
}
