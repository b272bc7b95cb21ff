ghost use Rattle.std.specs.Prelude.{◌≡◌};
ghost use Rattle.babel_dump.specs.Command.{InTurn, LooksUp, SaysOf};
ghost use Rattle.babel_dump.specs.Device.{HasRoomToCount, HasRoomToWrite};
ghost use Rattle.babel_dump.specs.Each.{EachCause, LooksUpAsked, LooksUpEach};
ghost use Rattle.babel_dump.specs.Files.{name_of};
ghost use Rattle.babel_dump.specs.Given.{GaveTable, IsFaultOfGiven, dump_of, read_from, reads};
ghost use Rattle.babel_dump.specs.JobRun.{RanJob, capture_of};
ghost use Rattle.babel_dump.specs.Parts.{FoundBy, FoundIn, Gathered, GaveSeen, Says};
ghost use Rattle.babel_dump.specs.Run.{Called, InputCause, OfFirst, OfOther, calls_of};
ghost use Rattle.babel_dump.specs.Run.{output, ran_outcome, stream_calls};
ghost use Rattle.babel_dump.specs.RunText.{row_in};
ghost use Rattle.babel_dump.specs.Tasks.{ComparisonCause, ComparisonSays, IsFaultOf, TaskSays};

use crate::addr_pair::AddrPair;
use crate::aside::Aside;
use crate::both::SeenTables;
use crate::byte_in::ByteIn;
use crate::byte_out::ByteOut;
use crate::capture_notes::CaptureNotes;
use crate::capture_reading::CaptureReading;
use crate::each::{found_answers, read_pairs};
use crate::extract::find_packets;
use crate::format::Format;
use crate::input::{look_up, read_table};
use crate::job::{CaptureTask, Comparison, DumpSource, Job, Task, Work};
use crate::links::find_links;
use crate::lookup::found_answer;
use crate::outcome::Outcome;
use crate::reading::Reading;
use crate::run_fault::{RunFault, Side};
use crate::senders::find_senders;
use crate::slices::{Found, finish};
use crate::tasks::{found_of, found_of_both};
use babel_table::Table;
use babel_tlv::View;
use std::alloc::Global;

/// What came of a job, and what there is to say besides.
#[derive(Drop)]
pub struct Ran {
    pub outcome: Outcome,
    pub aside: Aside,
}

/// Does a job: reads its input, finds what its command asks for, writes that, and flushes. The
/// other reader has the other dump of a comparison, or the pairs of `--each`; each other job leaves
/// it as it was.
///
/// # Errors
///
/// `Input` where an input gave no result; of the other of a comparison it comes only where the
/// first has no fault. `Pairs` with the fault of the pairs of `--each`, and then the dump
/// is not read. `Write` where a write or the flush failed. At each other fault nothing is written.
pub fn run_job<R: ByteIn, S: ByteIn, W: ByteOut>(
    alloc: Global,
    job: &Job,
    reader: &mut R,
    other: &mut S,
    writer: &mut W,
) -> Result<Ran, RunFault>
    requires reader { HasRoomToCount (R.state reader.old) }
    requires other { HasRoomToCount (S.state other.old) }
    requires writer { HasRoomToWrite (W.state writer.old) }
    ensures { RanJob job.now (reads (R.state reader.old) (R.state reader.new))
        (reads (S.state other.old) (S.state other.new))
        (output (W.state writer.old) (W.state writer.new)) (other.new ≡ other.old)
        (ran_outcome result) }
{
    let found = find(alloc, job, reader, other);
    let aside = aside_of(&found);
    let outcome = finish(alloc, writer, &job.format, found)?;
    Ok(Ran { outcome, aside })
}

/// What there is to say besides what was found.
fn aside_of(found: &Result<Found, RunFault>) -> Aside {
    match found {
        Ok(found) => found.aside,
        Err(_) => Aside::none(),
    }
}

/// Reads a job's input, and finds what its command asks for.
fn find<R: ByteIn, S: ByteIn>(
    alloc: Global,
    job: &Job,
    reader: &mut R,
    other: &mut S,
) -> Result<Found, RunFault>
    requires reader { HasRoomToCount (R.state reader.old) }
    requires other { HasRoomToCount (S.state other.old) }
    ensures { FoundBy job.now (reads (R.state reader.old) (R.state reader.new))
        (reads (S.state other.old) (S.state other.new)) (other.new ≡ other.old) result }
{
    let (format, quiet) = (&job.format, job.quiet);
    match &job.work {
        Work::Dump { source, task } => find_of_dump(alloc, source, *task, format, quiet, reader),
        Work::Each {
            source,
            with_prefix,
            ..
        } => find_each(alloc, source.reading, *with_prefix, format, reader, other),
        Work::Two {
            first,
            other: second,
            view,
            task,
        } => find_of_two(alloc, first, second, *view, *task, format, reader, other),
        Work::Capture { reading, task, .. } => {
            find_of_capture(alloc, *reading, *task, format, reader)
        }
    }
}

/// Reads a dump to its end, or to its first fault, and finds what is asked of it.
pub(crate) fn find_of_dump<R: ByteIn>(
    alloc: Global,
    source: &DumpSource,
    task: Task,
    format: &Format,
    quiet: bool,
    reader: &mut R,
) -> Result<Found, RunFault>
    requires { HasRoomToCount (R.state reader.old) }
    ensures { let dump =
        dump_of (reads (R.state reader.old) (R.state reader.new)) source.now.reading in
        Gathered (calls_of dump) (OfFirst (InputCause dump (IsFaultOf task dump)))
        (Says format.now (TaskSays task format.now quiet (name_of source.now.file) dump)) result }
{
    if let Task::Lookup { pair, with_prefix } = task {
        return find_answer(alloc, source.reading, pair, with_prefix, format, reader);
    }
    let (table, notes) = read_table(alloc, source.reading, reader)?;
    let found = found_of(
        alloc,
        source.reading,
        &source.file,
        task,
        format,
        quiet,
        table,
    )?;
    Ok(found.beside(notes, None))
}

/// The same of a lookup, for which no table is made.
fn find_answer<R: ByteIn>(
    alloc: Global,
    reading: Reading,
    pair: AddrPair,
    with_prefix: bool,
    format: &Format,
    reader: &mut R,
) -> Result<Found, RunFault>
    requires { HasRoomToCount (R.state reader.old) }
    ensures { let dump = read_from (R.state reader.old) (R.state reader.new) reading in
        Gathered (calls_of dump) (OfFirst (InputCause dump (IsFaultOfGiven dump)))
        (Says format.now (SaysOf dump (λ table. LooksUp format.now with_prefix pair.dst pair.src
        table.report (row_in table pair.dst pair.src)))) result }
{
    let read = look_up(alloc, reading, &pair, reader)?;
    let found = found_answer(alloc, pair, with_prefix, format, &read.0)?;
    Ok(found.beside(read.1, None))
}

/// Reads the pairs that a text asks for, and then a dump, and finds what it answers for each of
/// them. Where the pairs are refused the dump is not read.
fn find_each<R: ByteIn, S: ByteIn>(
    alloc: Global,
    reading: Reading,
    with_prefix: bool,
    format: &Format,
    reader: &mut R,
    pairs: &mut S,
) -> Result<Found, RunFault>
    requires reader { HasRoomToCount (R.state reader.old) }
    requires pairs { HasRoomToCount (S.state pairs.old) }
    ensures gathered { let dump = read_from (R.state reader.old) (R.state reader.new) reading in
        let asked = read_from (S.state pairs.old) (S.state pairs.new) reading in
        Gathered (calls_of dump) (EachCause dump asked)
        (Says format.now (LooksUpAsked dump asked format.now with_prefix)) result }
    ensures pairs_calls { Called (stream_calls
        (read_from (S.state pairs.old) (S.state pairs.new) reading)) result }
{
    let asked = read_pairs(alloc, Reading { ..reading }, pairs)?;
    find_answers(alloc, reading, with_prefix, format, asked, reader)
}

/// Reads a dump to its end, or to its first fault, and finds what it answers for each of these
/// pairs.
fn find_answers<R: ByteIn>(
    alloc: Global,
    reading: Reading,
    with_prefix: bool,
    format: &Format,
    asked: Vec<AddrPair>,
    reader: &mut R,
) -> Result<Found, RunFault>
    requires { HasRoomToCount (R.state reader.old) }
    ensures { let dump = read_from (R.state reader.old) (R.state reader.new) reading in
        Gathered (calls_of dump) (OfFirst (InputCause dump (IsFaultOfGiven dump)))
        (Says format.now (SaysOf dump (LooksUpEach format.now with_prefix asked.items))) result }
{
    let (table, notes) = read_table(alloc, reading, reader)?;
    let (found, _) = found_answers(alloc, with_prefix, asked, table)?;
    Ok(found.beside(notes, None))
}

/// Reads two dumps, the first to its end before the other, and finds what is asked of both.
pub(crate) fn find_of_two<R: ByteIn, S: ByteIn>(
    alloc: Global,
    first: &DumpSource,
    second: &DumpSource,
    view: View,
    task: Comparison,
    format: &Format,
    reader: &mut R,
    other: &mut S,
) -> Result<Found, RunFault>
    requires reader { HasRoomToCount (R.state reader.old) }
    requires other { HasRoomToCount (S.state other.old) }
    ensures gathered { let dump =
        dump_of (reads (R.state reader.old) (R.state reader.new)) first.now.reading in
        let another =
        dump_of (reads (S.state other.old) (S.state other.new)) second.now.reading in
        Gathered (calls_of dump) (ComparisonCause task view dump another (other.new ≡ other.old))
        (Says format.now (ComparisonSays task format.now view (name_of first.now.file)
        (name_of second.now.file) dump another)) result }
    ensures other_calls { Called (calls_of
        (dump_of (reads (S.state other.old) (S.state other.new)) second.now.reading)) result }
{
    let (seen, notes) = read_both(alloc, first.reading, second.reading, view, reader, other)?;
    let (one, two) = (first.reading, second.reading);
    let (file, other_file) = (first.file.name(), second.file.name());
    let found = found_of_both(alloc, one, two, view, task, format, file, other_file, seen)?;
    Ok(found.beside(notes.0, notes.1))
}

/// What the notes say of the captures that two dumps are read of.
type BothNotes = (Option<CaptureNotes>, Option<CaptureNotes>);

/// Reads two dumps, the first to its end before the other: their tables, as a view sees both.
fn read_both<R: ByteIn, S: ByteIn>(
    alloc: Global,
    reading: Reading,
    other_reading: Reading,
    view: View,
    reader: &mut R,
    other: &mut S,
) -> Result<(SeenTables, BothNotes), RunFault>
    requires reader { HasRoomToCount (R.state reader.old) }
    requires other { HasRoomToCount (S.state other.old) }
    ensures gathered { let dump = read_from (R.state reader.old) (R.state reader.new) reading in
        let other_dump = read_from (S.state other.old) (S.state other.new) other_reading in
        Gathered (calls_of dump) (InTurn dump other_dump (other.new ≡ other.old))
        (λ read. GaveSeen dump other_dump view read.0) result }
    ensures other_calls { Called (calls_of
        (read_from (S.state other.old) (S.state other.new) other_reading)) result }
{
    let (table, notes) = read_table(alloc, reading, reader)?;
    let (other_table, other_notes) = read_other(alloc, other_reading, other)?;
    let left = table.seen(view);
    let right = other_table.seen(view);
    Ok((SeenTables { left, right }, (notes, other_notes)))
}

/// Reads the other dump of a comparison to its end, or to its first fault, which is then the
/// other's.
fn read_other<S: ByteIn>(
    alloc: Global,
    reading: Reading,
    other: &mut S,
) -> Result<(Table, Option<CaptureNotes>), RunFault>
    requires { HasRoomToCount (S.state other.old) }
    ensures { let dump = read_from (S.state other.old) (S.state other.new) reading in
        Gathered (calls_of dump) (OfOther (InputCause dump (IsFaultOfGiven dump)))
        (λ read. GaveTable dump read.0) result }
{
    match read_table(alloc, reading, other) {
        Ok(read) => Ok(read),
        Err(fault) => Err(RunFault::Input(Side::Other, fault)),
    }
}

/// Reads a capture, and finds what is asked of it.
fn find_of_capture<R: ByteIn>(
    alloc: Global,
    reading: CaptureReading,
    task: CaptureTask,
    format: &Format,
    reader: &mut R,
) -> Result<Found, RunFault>
    requires { HasRoomToCount (R.state reader.old) }
    ensures { FoundIn task format.now
        (capture_of (reads (R.state reader.old) (R.state reader.new)) reading task) result }
{
    match task {
        CaptureTask::Senders => find_senders(alloc, reading, format, reader),
        CaptureTask::Extract { sender, place, hex } => {
            find_packets(alloc, reading, sender, place, hex, format, reader)
        }
        CaptureTask::Links { place, expiry } => {
            find_links(alloc, reading, place, expiry, format, reader)
        }
    }
}
