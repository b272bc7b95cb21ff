//! Does what is asked for, over streams: whether one is a capture is seen by its first octets.
ghost use Rattle.std.specs.Prelude.{◌≡◌, IfErr, IfOk, IfSome, None, map};
ghost use Rattle.std.specs.Io.KnownBytes.{Keeps};
ghost use Rattle.babel_dump.specs.Begun.{BeginsSo};
ghost use Rattle.babel_dump.specs.Device.{HasRoomToCount, HasRoomToWrite};
ghost use Rattle.babel_dump.specs.EachSender.{each_from};
ghost use Rattle.babel_dump.specs.SelectHeard.{GaveSelecting};
ghost use Rattle.babel_dump.specs.Run.{output};
ghost use Rattle.babel_dump.specs.AskedRun.{Did, DidJob, Failed, FailedEvents, IsJobRefused};
ghost use Rattle.babel_dump.specs.AskedRun.{IsRefused, ToldEvents, WrotePairs};
ghost use Rattle.babel_dump.specs.AskedRun.{WroteSelection, WroteSenders, misplaced_told};
ghost use Rattle.babel_dump.specs.Files.{reading_of};
ghost use Rattle.babel_dump.specs.declared.run_fault.Side.TheVariants as sides;

use crate::asked::Asked;
use crate::begun::{Begins, Begun, Whole};
use crate::byte_in::{ByteIn, FromReader};
use crate::byte_out::ByteOut;
use crate::done::Done;
use crate::each_pair::EachPair;
use crate::each_sender::{EachSender, SendersRead};
use crate::events::run_events;
use crate::events_job::Events;
use crate::gather_on::gather_on;
use crate::inputs::Inputs;
use crate::job::Job;
use crate::job_run::run_job;
use crate::origins_run::tell_origins;
use crate::run_fault::{RunFault, Side};
use crate::says::Says;
use crate::select::Selection;
use crate::select_job::Select;
use crate::selection_read::SelectionRead;
use crate::statuses::status_of_all;
use crate::told_pairs::ToldPairs;
use crate::told_senders::ToldSenders;
use crate::trouble::Trouble;
use crate::write::write_text;
use std::alloc::Global;
use std::io::Read;

/// Does what is asked for: the first inputs have FILE, and the others OTHER, or the pairs of
/// `--each`; of `--origins` there are more of each. Where a dump is read, a stream may be a capture
/// that has it. Keys of rows are found by this seed.
///
/// # Errors
///
/// Why nothing came of it; an option that is for captures alone where it was given for a dump.
pub fn run_asked<R: Read, W: ByteOut, T: Says>(
    alloc: Global,
    seed: u128,
    asked: &mut Asked,
    inputs: &mut Inputs<R>,
    others: &mut Inputs<R>,
    writer: &mut W,
    says: &mut T,
) -> Result<Done, Trouble>
    requires { HasRoomToWrite (W.state writer.old) }
    ensures done { IfOk result (Did asked.old seed
        (R.remaining inputs.old.first) (R.remaining others.old.first)
        (map R.remaining inputs.old.more.items) (map R.remaining others.old.more.items)
        (output (W.state writer.old) (W.state writer.new))) }
    ensures refused { IfErr result (IsRefused asked.old
        (R.remaining inputs.old.first) (R.remaining others.old.first)
        (map R.remaining inputs.old.more.items) (map R.remaining others.old.more.items)) }
    ensures failed { IfErr result (Failed asked.old (R.remaining inputs.old.first)
        (output (W.state writer.old) (W.state writer.new))) }
{
    let (reader, other) = (&mut inputs.first, &mut others.first);
    match asked {
        Asked::Job(job) => do_job(alloc, seed, job, reader, other, writer),
        Asked::Lone(lone) => do_job(alloc, seed, &mut lone.job, reader, other, writer),
        Asked::EachSender(each) => tell_senders(alloc, seed, each, reader, other, writer),
        Asked::EachPair(pairs) => tell_pairs(alloc, seed, pairs, reader, other, writer),
        Asked::Origins(origins) => tell_origins(alloc, seed, origins, inputs, others, writer),
        Asked::Events(events) => tell_events(alloc, events, reader, writer, says),
        Asked::Select(select) => tell_selection(alloc, seed, select, reader, writer),
    }
}

/// Does a job.
fn do_job<R: Read + Drop, S: Read + Drop, W: ByteOut>(
    alloc: Global,
    seed: u128,
    job: &mut Job,
    reader: R,
    other: S,
    writer: &mut W,
) -> Result<Done, Trouble>
    requires { HasRoomToWrite (W.state writer.old) }
    ensures done { IfOk result (DidJob job.old seed (R.remaining reader) (S.remaining other)
        (output (W.state writer.old) (W.state writer.new))) }
    ensures refused { IfErr result
        (IsJobRefused job.old (R.remaining reader) (S.remaining other)) }
{
    let first = Begun::new(reader);
    let second = begun_other(job, other);
    if let Err(option) = job.begin(first.begins(), second.begins(), seed) {
        return Err(Trouble::Misplaced(Side::First, option));
    }
    let done = Done::new(alloc)?;
    let (mut first, mut second) = (first.into_device(), second.into_device());
    match run_job(alloc, job, &mut first, &mut second, writer) {
        Ok(ran) => Ok(done.of_job(job, &ran)?),
        Err(RunFault::Input(side, fault)) => Err(Trouble::of_job(job, side, fault)),
        Err(fault) => Err(Trouble::Fault(fault)),
    }
}

/// What the other stream begins with, if a job reads a dump of it.
fn begun_other<S: Read + Drop>(job: &Job, other: S) -> Begun<S>
    ensures kept { Keeps (S.remaining other) (⟦<Whole<S> as Read>⟧.remaining result.stream) }
    ensures begins { IfSome (reading_of sides.Other job.now.work)
        (λ _. BeginsSo (S.remaining other) result.begins) }
{
    match job.other_reading() {
        Some(_) => Begun::new(other),
        None => Begun::unread(other),
    }
}

/// Reads a capture, after the pairs that are looked up in it, and writes what is told of its senders.
fn tell_senders<R: Read + Drop, S: Read + Drop, W: ByteOut>(
    alloc: Global,
    seed: u128,
    each: &mut EachSender,
    reader: R,
    other: S,
    writer: &mut W,
) -> Result<Done, Trouble>
    requires { HasRoomToWrite (W.state writer.old) }
    ensures { IfOk result (WroteSenders each.old (R.remaining reader) (S.remaining other)
        (output (W.state writer.old) (W.state writer.new))) }
{
    let begun = Begun::new(reader);
    if let Begins::Dump = begun.begins() {
        return Err(Trouble::NoSender(Side::First));
    }
    let mut pairs = FromReader::new(other);
    each.ask(alloc, &mut pairs)?;
    let SendersRead { read, tables } = each.gather(alloc, seed, &mut begun.into_device())?;
    let done = Done::new(alloc)?;
    let ToldSenders {
        senders,
        lines,
        statuses,
        ..
    } = ToldSenders::of(alloc, each, &read, tables)?;
    let done = done.of_senders(each, &read, senders, status_of_all(&statuses))?;
    write_text(writer, &lines)?;
    Ok(done)
}

/// Reads two captures, the first to its end before the other, and writes what is told of their
/// senders.
fn tell_pairs<R: Read + Drop, S: Read + Drop, W: ByteOut>(
    alloc: Global,
    seed: u128,
    pairs: &EachPair,
    reader: R,
    other: S,
    writer: &mut W,
) -> Result<Done, Trouble>
    requires { HasRoomToWrite (W.state writer.old) }
    ensures { IfOk result (WrotePairs pairs.now (R.remaining reader) (S.remaining other)
        (output (W.state writer.old) (W.state writer.new))) }
{
    let (first, second) = (
        pairs.moment_options(Side::First),
        pairs.moment_options(Side::Other),
    );
    let (one, two) = (Side::First, Side::Other);
    let (no_one, no_two) = (Trouble::NoSender(one), Trouble::NoSender(two));
    let left = gather_on(alloc, seed, &pairs.left, one, first, no_one, reader)?;
    let right = gather_on(alloc, seed, &pairs.right, two, second, no_two, other)?;
    let done = Done::new(alloc)?;
    let SendersRead { read, tables } = left;
    let SendersRead {
        read: other_read,
        tables: other_tables,
    } = right;
    let ToldPairs {
        senders,
        lines,
        status,
    } = ToldPairs::of(alloc, pairs, &read, &other_read, tables, other_tables)?;
    let done = done.of_pairs(pairs, &read, &other_read, senders.told, status)?;
    write_text(writer, &lines)?;
    Ok(done)
}

/// Tells what changed in a capture, as it is read.
fn tell_events<R: Read + Drop, W: ByteOut, T: Says>(
    alloc: Global,
    events: &Events,
    reader: R,
    writer: &mut W,
    says: &mut T,
) -> Result<Done, Trouble>
    requires { HasRoomToWrite (W.state writer.old) }
    ensures told { IfOk result (ToldEvents events.now (R.remaining reader)
        (output (W.state writer.old) (W.state writer.new))) }
    ensures failed { IfErr result (FailedEvents events.now (R.remaining reader)
        (output (W.state writer.old) (W.state writer.new))) }
{
    let done = Done::new(alloc)?;
    let answer = run_events(alloc, events, &mut FromReader::new(reader), writer, says)?;
    Ok(done.of_events(events, answer)?)
}

/// Reads a capture, and writes which routes a router in it uses.
fn tell_selection<R: Read + Drop, W: ByteOut>(
    alloc: Global,
    seed: u128,
    select: &Select,
    reader: R,
    writer: &mut W,
) -> Result<Done, Trouble>
    requires { HasRoomToWrite (W.state writer.old) }
    ensures done { IfOk result (WroteSelection select.now (R.remaining reader)
        (output (W.state writer.old) (W.state writer.new))) }
    ensures refused { IfErr result (λ trouble. misplaced_told trouble ≡ None) }
{
    let read = read_selection(alloc, seed, select, &mut FromReader::new(reader))?;
    let done = Done::new(alloc)?;
    let Selection {
        lines,
        status,
        counts,
        senders,
        read,
    } = Selection::of(alloc, select, read)?;
    let done = done.of_select(select, &read, senders, status, &counts)?;
    write_text(writer, &lines)?;
    Ok(done)
}

/// Reads a capture for a router in it that selects.
fn read_selection<R: ByteIn>(
    alloc: Global,
    seed: u128,
    select: &Select,
    reader: &mut R,
) -> Result<SelectionRead, Trouble>
    requires { HasRoomToCount (R.state reader.old) }
    ensures gave { IfOk result (GaveSelecting select.now
        (each_from select.now.each (R.state reader.old) (R.state reader.new))) }
    ensures refused { IfErr result (λ trouble. misplaced_told trouble ≡ None) }
{
    match SelectionRead::of(alloc, seed, select, reader) {
        Ok(read) => Ok(read),
        Err(fault) => Err(Trouble::of_input(Side::First, fault, ("--since", "--until"))),
    }
}
