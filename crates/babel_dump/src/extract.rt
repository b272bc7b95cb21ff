ghost use Rattle.babel_dump.specs.CaptureGiven.{capture_from};
ghost use Rattle.babel_dump.specs.CaptureRun.{wanted_of};
ghost use Rattle.babel_dump.specs.Device.{HasRoomToCount};
ghost use Rattle.babel_dump.specs.Parts.{FoundIn};

use crate::byte_in::ByteIn;
use crate::capture_input::read_of_one;
use crate::capture_reading::CaptureReading;
use crate::capture_text::dump_text;
use crate::format::Format;
use crate::job::CaptureTask;
use crate::outcome::Outcome;
use crate::run_fault::RunFault;
use crate::slices::Found;
use babel_capture::{Place, Record, Said, Sink, Wanted};
use babel_prefix::Addr;
use std::alloc::{AllocError, Global};

/// Copies the packets that it takes, end to end.
#[derive(Drop)]
struct PacketCopy {
    octets: Vec<u8>,
    /// Whether memory ran out, so that packets are missing.
    has_failed: bool,
}

impl Sink for PacketCopy {
    ghost use Rattle.babel_dump.specs.CaptureRun.{Copies};

    ghost has = { Copies };

    fn take(&mut self, told: &Record<'_>) {
        if let Said::Packet(packet) = &told.said {
            if !self.has_failed {
                self.has_failed = self.octets.extend_from_slice(packet.octets).is_err();
            }
        }
    }
}

/// Reads a capture to its end, or to its first fault, and makes the text of the wanted sender's
/// dump: as it is, or, with `hex`, as lower-case hexadecimal digits on a line. The sender may have
/// sent on one interface alone. If there are no packets the status is 1, and the text is empty.
pub(crate) fn find_packets<R: ByteIn>(
    alloc: Global,
    reading: CaptureReading,
    sender: Addr,
    place: Option<Place>,
    hex: bool,
    format: &Format,
    reader: &mut R,
) -> Result<Found, RunFault>
    requires { HasRoomToCount (R.state reader.old) }
    ensures { let task = CaptureTask.Extract sender place hex in
        let input =
        capture_from (R.state reader.old) (R.state reader.new) reading
        (wanted_of reading.accept_missing task) in
        FoundIn task format.now input result }
{
    let wanted = Wanted {
        sender: Some(sender),
        place,
        are_listed: true,
        accepts_missing: reading.accept_missing,
    };
    let mut copy = PacketCopy {
        octets: Vec::new(alloc),
        has_failed: false,
    };
    let read = read_of_one(alloc, reading, wanted, reader, &mut copy);
    if copy.has_failed {
        return Err(RunFault::from(AllocError));
    }
    let read = read?;
    let outcome = Outcome::of_capture(&read.gathered, read.cut);
    let text = dump_text(alloc, hex, copy.octets)?;
    let found = Found::text(text, outcome);
    Ok(found.or_absence(read.absence))
}
