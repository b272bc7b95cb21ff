//! The dump of a sender in a capture, as a feeder holds it.
ghost use Rattle.std.specs.Prelude.{◌≡◌, ◌≢◌, ◌⊎◌, ◌↔◌, ℕ, List, None, IfErr, IfOk, IfSome};
ghost use Rattle.std.specs.Prelude.{IsTrue, OnOk, length, true};
ghost use Rattle.std.specs.Option.{is_some};
ghost use Rattle.std.specs.Result.{IsErrAnd, IsOkAnd};
ghost use Rattle.babel_capture.specs.Capture.{HasRead};
ghost use Rattle.babel_dump.specs.Device.{HasRoomToCount};
ghost use Rattle.babel_dump.specs.Fed.{EndsRefused, EndsWith, IsFed, IsNotOnePlace};
ghost use Rattle.babel_dump.specs.Fed.{IsToldAfter};
ghost use Rattle.babel_dump.specs.Given.{IsFaultOfGiven, expired, read_from};
ghost use Rattle.babel_dump.specs.LeftOut.{first_left_out};
ghost use Rattle.babel_dump.specs.Parts.{Gathered};
ghost use Rattle.babel_dump.specs.Run.{InputCause, calls_of};

use crate::absence::Absence;
use crate::byte_in::ByteIn;
use crate::capture_input::{accepted, capture_for, feed_all, refuse_left_out};
use crate::capture_notes::CaptureNotes;
use crate::input::{Fed, what_expired};
use crate::input_fault::InputFault;
use crate::interfaces::interfaces_of;
use crate::left_out::{ToldLeftOut, first_left_out};
use crate::packet_feeder::PacketFeeder;
use crate::reading::Reading;
use babel_capture::{Capture, NoSink};
use babel_table::TimedFeeder;
use babel_tlv::Fault;
use std::alloc::{AllocError, Global};

/// Reads a capture to its end, or to its first fault, for the dump of a sender in it.
pub(crate) fn read_captured<R: ByteIn>(
    alloc: Global,
    reading: &Reading,
    reader: &mut R,
) -> Result<Fed, InputFault>
    requires counts { HasRoomToCount (R.state reader.old) }
    requires capture { reading.now.is_capture ≡ true }
    ensures { let input = read_from (R.state reader.old) (R.state reader.new) reading.now in
        Gathered (calls_of input) (InputCause input (IsFaultOfGiven input)) (IsFed input) result }
{
    let how = reading.of_capture();
    let mut packets = PacketFeeder::new(alloc, reading)?;
    let mut capture = capture_for(alloc, &how, reading.wanted());
    let fed = feed_all(&mut capture, &how, reader, &mut packets);
    if let Some(fault) = packets.feeder.fault() {
        return Err(dump_refused(alloc, reading, &mut capture, fed, fault));
    }
    fed?;
    let notes = end_of(alloc, reading, &mut capture)?;
    Ok(fed_by(reading, packets.feeder, capture.moment(), notes)?)
}

/// Why a capture is refused whose sender's packets have this fault, after what feeding it answered:
/// the fault is told of a sender at one place, but not where a read failed or memory ran out.
fn dump_refused(
    alloc: Global,
    reading: &Reading,
    capture: &mut Capture,
    fed: Result<(), InputFault>,
    fault: Fault,
) -> InputFault
    requires { OnOk fed (capture.old.fault ≡ None) }
    ensures { ((result ≡ InputFault.Dump fault)
        × (fault ≢ Fault.Memory → IsToldAfter fed capture.old))
        ⊎ (IsErrAnd fed (λ refusal. result ≡ refusal))
        ⊎ (IsOkAnd fed (λ _. (octets : List ℕ) → HasRead capture.old octets
        → EndsRefused reading.now capture.old capture.new octets result)) }
{
    if fault == Fault::Memory {
        return InputFault::Dump(fault);
    }
    let places = capture.gathered().senders().len();
    match fed {
        Err(refusal) if places > 1 || refusal.status() != 3 => refusal,
        Ok(()) if places != 1 => match end_of(alloc, reading, capture) {
            Err(refusal) => refusal,
            Ok(_) => InputFault::Dump(fault),
        },
        _ => InputFault::Dump(fault),
    }
}

/// Ends a capture that was fed whole: what the notes say of it, or why it is refused at its end.
/// Nothing of the dump is in datagrams of which fragments are missing.
fn end_of(
    alloc: Global,
    reading: &Reading,
    capture: &mut Capture,
) -> Result<CaptureNotes, InputFault>
    requires { capture.old.fault ≡ None }
    ensures same { (capture.new.limit ≡ capture.old.limit)
        × (capture.new.progress.context ≡ capture.old.progress.context) }
    ensures ok { IfOk result (λ notes. (fed : List ℕ) → HasRead capture.old fed
        → EndsWith reading.now capture.old capture.new fed notes) }
    ensures one_place { IfOk result
        (λ _. length capture.old.progress.gathering.senders ≡ 1) }
    ensures err { IfErr result (λ fault. (fed : List ℕ) → HasRead capture.old fed
        → EndsRefused reading.now capture.old capture.new fed fault) }
{
    let read_to = capture.end(&mut NoSink)?;
    let cut = accepted(read_to, reading.accept_cut)?;
    let report = capture.gathered().report();
    if is_one_place(capture.gathered()) {
        return Ok(CaptureNotes {
            report,
            cut,
            told: ToldLeftOut::All,
            expired_rows: 0,
        });
    }
    refuse_left_out(reading.strict, &report)?;
    Err(not_one_place(alloc, reading, capture))
}

/// Whether packets were found at one place.
fn is_one_place(gathered: &babel_capture::Gathered) -> bool
    ensures { IsTrue result ↔ (length gathered.now.senders ≡ 1) }
{
    gathered.senders().len() == 1
}

/// Why a capture has no dump whose packets were not found at one place.
fn not_one_place(alloc: Global, reading: &Reading, capture: &Capture) -> InputFault
    requires { ¬ (length capture.now.progress.gathering.senders ≡ 1) }
    ensures { IsNotOnePlace capture.now.progress.gathering.senders result }
{
    let senders = capture.gathered().senders();
    if senders.is_empty() {
        return InputFault::NoPackets(Absence::of(capture, &reading.window));
    }
    match interfaces_of(alloc, senders) {
        Ok(interfaces) => InputFault::SeveralInterfaces(interfaces),
        Err(error) => InputFault::from(error),
    }
}

/// What was read of a capture up to a moment, with these notes.
fn fed_by(
    reading: &Reading,
    feeder: TimedFeeder,
    moment: Option<u128>,
    notes: CaptureNotes,
) -> Result<Fed, AllocError>
    ensures feeder { IfOk result (λ fed. fed.feeder ≡ feeder) }
    ensures expired { IfOk result (λ fed. fed.expired ≡ expired reading.now.expiry moment) }
    ensures left_out { IfOk result (λ fed. fed.left_out ≡ first_left_out notes.report) }
    ensures notes { IfOk result (λ fed. IfSome fed.notes
        (λ said. (said.report ≡ notes.report) × (said.cut ≡ notes.cut))) }
    ensures noted { IfOk result (λ fed. is_some fed.notes ≡ true) }
{
    let expired = what_expired(reading.expiry, moment);
    let mut notes = notes;
    if let (None, Some(moment)) = (expired, moment) {
        notes.expired_rows = feeder.count_expired(moment);
    }
    Ok(Fed {
        feeder: feeder.into_feeder()?,
        expired,
        left_out: first_left_out(&notes.report),
        notes: Some(notes),
    })
}
