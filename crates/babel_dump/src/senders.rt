ghost use Rattle.babel_dump.specs.CaptureGiven.{capture_from};
ghost use Rattle.babel_dump.specs.Device.{HasRoomToCount};
ghost use Rattle.babel_dump.specs.Parts.{FoundIn};
ghost use Rattle.babel_capture.specs.Findings.{everyone};

use crate::byte_in::ByteIn;
use crate::capture_input::read_capture;
use crate::capture_reading::CaptureReading;
use crate::format::Format;
use crate::job::CaptureTask;
use crate::outcome::Outcome;
use crate::run_fault::RunFault;
use crate::slices::{Found, Rows};
use babel_capture::{NoSink, Wanted};
use std::alloc::Global;

/// Reads a capture to its end, or to its first fault, and makes the lines of its senders: one for
/// each on each interface. The status is 1 if there is none.
pub(crate) fn find_senders<R: ByteIn>(
    alloc: Global,
    reading: CaptureReading,
    format: &Format,
    reader: &mut R,
) -> Result<Found, RunFault>
    requires { HasRoomToCount (R.state reader.old) }
    ensures { let input =
        capture_from (R.state reader.old) (R.state reader.new) reading everyone in
        FoundIn CaptureTask.Senders format.now input result }
{
    let read = read_capture(alloc, reading, Wanted::everyone(), reader, &mut NoSink)?;
    let outcome = Outcome::of_capture(&read.gathered, read.cut);
    let rows = Rows::Senders(read.gathered);
    let found = Found::rows(rows, Vec::new(alloc), outcome);
    Ok(found.or_absence(read.absence))
}
