use crate::absence::Absence;
use crate::capture_notes::CaptureNotes;

/// What there is to say besides what a run found.
#[derive(Clone, Copy)]
pub struct Aside {
    /// What the notes say of the capture that the dump was read of, or the first of two.
    pub capture: Option<CaptureNotes>,
    /// The same of the other of two.
    pub other: Option<CaptureNotes>,
    /// What is said where a capture that was not read for a dump has none of the packets that are
    /// wanted.
    pub absence: Option<Absence>,
}

impl Aside {
    /// Nothing.
    pub(crate) fn none() -> Aside {
        Aside {
            capture: None,
            other: None,
            absence: None,
        }
    }
}
