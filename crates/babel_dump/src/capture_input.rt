//! What a reader gives, as a capture whose packets a sink takes.
ghost use Rattle.std.specs.Prelude.{◌≡◌, ◌≤◌, ℕ, [], None, Some, IfOk, IfErr, OnOk, false};
ghost use Rattle.std.specs.Prelude.{length, true};
ghost use Rattle.std.specs.Option.{is_some};
ghost use Rattle.babel_capture.specs.Capture.{HasRead};
ghost use Rattle.babel_dump.specs.CaptureGiven.{GaveRead, IsAccepted, IsFedWhole, TookSome};
ghost use Rattle.babel_dump.specs.CaptureGiven.{capture_from, extent_of};
ghost use Rattle.babel_dump.specs.CaptureRun.{CaptureCause, FeedCause, IsNoFault, IsOnSeveral};
ghost use Rattle.babel_dump.specs.Device.{HasRoomToCount};
ghost use Rattle.babel_dump.specs.LeftOut.{LeavesNoneOut, first_left_out};
ghost use Rattle.babel_dump.specs.Parts.{Gathered};
ghost use Rattle.babel_dump.specs.Run.{capture_calls};
ghost use Rattle.babel_dump.specs.declared.left_out.LeftOutDatagram.{LeftOutDatagram as Datagram};

use crate::absence::Absence;
use crate::byte_in::ByteIn;
use crate::capture_reading::CaptureReading;
use crate::input_fault::InputFault;
use crate::interfaces::interfaces_of;
use crate::left_out::first_left_out;
use babel_capture::{Capture, Fault, Report, Sink, Wanted};
use std::alloc::Global;

/// How many octets one read asks for.
const PIECE: usize = 65_536;

/// How many octets a block has at most before its length is known.
const LONGEST_HEADER: u64 = 24;

/// What was read of a capture: what its packets give, and where it is cut short.
#[derive(Drop)]
pub struct CaptureRead {
    pub gathered: babel_capture::Gathered,
    /// The offset where it is cut short, if it is and that is accepted.
    pub cut: Option<u64>,
    /// The moment up to which its packets were read, if each has a time: `Capture::moment`.
    pub moment: Option<u128>,
    /// What is said where it has none of the packets that are wanted.
    pub absence: Absence,
}

/// Reads a capture to its end, or to its first fault; a sink takes its packets. One that is read
/// strictly is refused where a wanted datagram was left out.
pub(crate) fn read_capture<R: ByteIn, S: Sink>(
    alloc: Global,
    reading: CaptureReading,
    wanted: Wanted,
    reader: &mut R,
    sink: &mut S,
) -> Result<CaptureRead, InputFault>
    requires { HasRoomToCount (R.state reader.old) }
    ensures { let input = capture_from (R.state reader.old) (R.state reader.new) reading wanted in
        Gathered (capture_calls input) (CaptureCause input IsNoFault)
        (GaveRead S.has sink.old sink.new input) result }
{
    let mut capture = capture_for(alloc, &reading, wanted);
    feed_all(&mut capture, &reading, reader, sink)?;
    let end = capture.end(sink)?;
    let cut = accepted(end, reading.accept_cut)?;
    refuse_left_out(reading.strict, &capture.gathered().report())?;
    let (moment, absence) = (capture.moment(), Absence::of(&capture, &reading.window));
    Ok(CaptureRead {
        gathered: capture.into_gathered(),
        cut,
        moment,
        absence,
    })
}

/// Reads a capture so for the packets of one sender, who may have sent at one place alone.
pub(crate) fn read_of_one<R: ByteIn, S: Sink>(
    alloc: Global,
    reading: CaptureReading,
    wanted: Wanted,
    reader: &mut R,
    sink: &mut S,
) -> Result<CaptureRead, InputFault>
    requires counts { HasRoomToCount (R.state reader.old) }
    requires one_wanted { is_some wanted.sender ≡ true }
    ensures { let input = capture_from (R.state reader.old) (R.state reader.new) reading wanted in
        Gathered (capture_calls input) (CaptureCause input (IsOnSeveral input))
        (λ read. GaveRead S.has sink.old sink.new input read
        × (length read.gathered.senders ≤ 1)) result }
{
    let read = read_capture(alloc, reading, wanted, reader, sink)?;
    let senders = read.gathered.senders();
    if senders.len() > 1 {
        let interfaces = interfaces_of(alloc, senders)?;
        return Err(InputFault::SeveralInterfaces(interfaces));
    }
    Ok(read)
}

/// A capture that is to be read so, and of which nothing was read.
pub(crate) fn capture_for(alloc: Global, reading: &CaptureReading, wanted: Wanted) -> Capture
    ensures limit { result.limit ≡ extent_of reading.now }
    ensures wanted { result.progress.gathering.wanted ≡ wanted }
    ensures fresh { HasRead result [] }
    ensures no_fault { result.fault ≡ None }
{
    let limit = u64::from(reading.limit);
    Capture::within(alloc, limit, reading.window, reading.accept_cut, wanted)
}

/// Where a capture is cut short, if that is accepted.
pub(crate) fn accepted(cut: Option<u64>, accept_cut: bool) -> Result<Option<u64>, Fault>
    ensures ok { IfOk result (λ at. (at ≡ cut) × IsAccepted accept_cut at) }
    ensures err { IfErr result (λ fault. (accept_cut ≡ false)
        × ((at : ℕ) × (cut ≡ Some at) × (fault ≡ Fault.CutShort at))) }
{
    match cut {
        Some(at) if !accept_cut => Err(Fault::CutShort { at }),
        _ => Ok(cut),
    }
}

/// Refuses a capture that is read strictly where a wanted datagram was left out.
pub(crate) fn refuse_left_out(strict: bool, report: &Report) -> Result<(), InputFault>
    ensures none { OnOk result (strict ≡ true → LeavesNoneOut report.now) }
    ensures first { IfErr result (λ fault. (strict ≡ true) × (datagram : Datagram)
        × (first_left_out report.now ≡ Some datagram) × (fault ≡ InputFault.LeftOut datagram)) }
{
    match first_left_out(report) {
        Some(datagram) if strict => Err(InputFault::LeftOut(datagram)),
        _ => Ok(()),
    }
}

/// Feeds what the reader gives, piece by piece, to its end or to the first fault; a sink takes the
/// packets.
pub(crate) fn feed_all<R: ByteIn, S: Sink>(
    capture: &mut Capture,
    reading: &CaptureReading,
    reader: &mut R,
    sink: &mut S,
) -> Result<(), InputFault>
    requires counts { HasRoomToCount (R.state reader.old) }
    requires limit { capture.old.limit ≡ extent_of reading.now }
    requires fresh { HasRead capture.old [] }
    requires no_fault { capture.old.fault ≡ None }

    ensures limit { capture.new.limit ≡ extent_of reading.now }
    ensures wanted { capture.new.progress.gathering.wanted ≡ capture.old.progress.gathering.wanted }
    ensures sound { OnOk result (capture.new.fault ≡ None) }
    ensures gathered { let wanted = capture.old.progress.gathering.wanted in let input =
        capture_from (R.state reader.old) (R.state reader.new) reading.now wanted in
        Gathered (capture_calls input) (FeedCause input)
        (λ _. IsFedWhole S.has sink.old sink.new capture.new input) result }
    // Also where there is a fault the sink took the packets before it.
    ensures took { let wanted = capture.old.progress.gathering.wanted in TookSome S.has sink.old
        sink.new (capture_from (R.state reader.old) (R.state reader.new) reading.now wanted) }
{
    let mut piece = [0; PIECE];
    // Each read gives an octet at least, but for the last, and the capture refuses the first block
    // past the limit.
    'reads: for _ in 0..u64::from(reading.limit) + LONGEST_HEADER {
        match reader.read(&mut piece) {
            Ok(0) => return Ok(()),
            Ok(n) => capture.feed(&piece[..n], sink)?,
            Err(_) => return Err(InputFault::Read),
        }
    }
    unreachable!()
}
