//! The notes of a run: one list, for standard error and, as JSON, for the output.
ghost use Rattle.std.specs.Prelude.{◌≡◌, ◌-◌, ◌^◌, ◌<◌, ◌≤◌, ◌++◌, if◌then◌else◌};
ghost use Rattle.std.specs.Prelude.{[], None, Option, OnOk, Some, vec_capacity};
ghost use Rattle.std.specs.List.{flat_map};
ghost use Rattle.std.specs.Option.{option_map};
ghost use Rattle.babel_dump.specs.NoteJson.{note_json, note_of_sender};
ghost use Rattle.babel_dump.specs.Notes.{about_capture, about_sender, above, no_updates};
ghost use Rattle.babel_dump.specs.Notes.{short_span, told};
ghost use Rattle.babel_dump.specs.declared.ignored_note.IgnoredNote.{IgnoredNote};
ghost use Rattle.babel_dump.specs.declared.left_out.LeftOutNote.{LeftOutNote};
ghost use Rattle.babel_dump.specs.declared.note.Note.TheVariants as notes;
ghost use Rattle.babel_dump.specs.declared.run_fault.Side.TheVariants as sides;
ghost use Rattle.babel_dump.specs.Run.{output};
ghost use Rattle.babel_dump.specs.Slices.{WroteText};

use crate::byte_out::ByteOut;
use crate::capture_notes::CaptureNotes;
use crate::done::{DumpRead, ToldSender};
use crate::events_job::Events;
use crate::events_outcome::EventsOutcome;
use crate::ignored_note::IgnoredNote;
use crate::job::Job;
use crate::job_run::Ran;
use crate::left_out::{LeftOutNote, ToldLeftOut};
use crate::note::{Note, SideNote};
use crate::other_sources::source_note;
use crate::outcome::Reports;
use crate::push_note::push_note_json;
use crate::run_fault::{RunFault, Side};
use crate::select_job::Select;
use crate::sender_notes::write_sender_notes;
use crate::slice_buffer::LONGEST_LINE;
use crate::spelling::Spelling;
use crate::told_routes::KeyCounts;
use crate::write::{WriteFailed, write_all, write_text};
use babel_capture::{Report as CaptureReport, Timing};
use babel_table::Report;
use std::alloc::{AllocError, Global};

/// No job has more notes: ten about each dump of a comparison, and one about both.
const MOST: usize = 21;

/// The nanoseconds of a hundredth of a second.
const HUNDREDTH: u128 = 10_000_000;

/// The notes of a run, in the order in which they are told. Their room is taken before the run, so
/// that memory cannot run out after its output.
#[derive(Drop)]
pub struct Notes {
    list: Vec<SideNote>,
    line: Vec<u8>,
    ghost room: { 2048 ≤ vec_capacity line },
}

impl Notes {
    /// No note, and room for as many as a run can have.
    pub fn new(alloc: Global) -> Result<Notes, AllocError> {
        let list = Vec::with_capacity(alloc, MOST)?;
        let line = Vec::with_capacity(alloc, LONGEST_LINE)?;
        Ok(Notes { list, line })
    }

    /// Those that are told, in their order.
    pub fn list(&self) -> &[SideNote] {
        &self.list
    }

    /// Adds what there is to know after a job's run.
    pub fn gather(&mut self, job: &Job, ran: &Ran) -> Result<(), AllocError> {
        let (capture, other_capture) = (ran.aside.capture, ran.aside.other);
        match ran.outcome.reports {
            Reports::Dump(report) if job.reports_ignored() => {
                self.add_read(Side::First, report, capture)
            }
            Reports::Dump(report) => self.add_dump(Side::First, report, capture),
            Reports::AnySource(report, _) => {
                self.add_dump(Side::First, report, capture)?;
                let note = ran.outcome.source_note(job.format.spelling());
                self.add(Side::First, note)
            }
            Reports::Dumps(report, other) | Reports::Alike(report, other, _) => {
                self.add_dump(Side::First, report, capture)?;
                self.add_dump(Side::Other, other, other_capture)?;
                self.add(Side::First, ran.outcome.routes_note())
            }
            Reports::Capture { report, cut } if job.tells_links() => {
                self.add_whole(report, cut, None)?;
                if ran.outcome.status != 0 && ran.aside.absence.is_none() {
                    self.add(Side::First, Some(Note::NoIhus))?;
                }
                Ok(())
            }
            Reports::Capture { report, cut } => {
                self.add_whole(report, cut, report.interval())?;
                let short = if job.counts_short() {
                    report.short()
                } else {
                    0
                };
                self.add(Side::First, above(short, 0, Note::TooShort(short)))
            }
        }
    }

    /// Adds what there is to know of what `events` read of a capture, and of the dump of the sender
    /// that is named, where it has packets at one place.
    pub(crate) fn gather_followed(
        &mut self,
        events: &Events,
        answer: &EventsOutcome,
    ) -> Result<(), AllocError> {
        let Reports::Capture { report, cut } = answer.outcome.reports else {
            return Ok(());
        };
        let capture = CaptureNotes {
            report,
            cut,
            told: ToldLeftOut::All,
            expired_rows: 0,
        };
        match answer.named(events) {
            Some(heard) => {
                self.add_dump(Side::First, heard.report, Some(capture))?;
                let (spelling, others) = (events.format.spelling(), &answer.other_sources);
                self.add(Side::First, source_note(others, spelling, &heard.origin))?;
            }
            None => self.add_capture(Side::First, capture, report.interval())?,
        }
        self.add(Side::First, not_followed(answer))
    }

    /// What there is to know of the dump of a sender in the capture on this side, in place of what
    /// was.
    pub(crate) fn gather_sender(&mut self, side: Side, read: DumpRead) -> Result<(), AllocError>
        ensures { OnOk result ((ignored : Option IgnoredNote) × (self.new.list.items
            ≡ flat_map (told side)
            (about_sender ignored read.report read.expired_rows read.note))) }
    {
        self.list.clear();
        self.add_all(side, &about_sender(&read))
    }

    /// Adds of how many keys it is known what is feasible, where that is not all, and of how many
    /// several routes are selected.
    pub(crate) fn add_counts(
        &mut self,
        select: &Select,
        counts: &KeyCounts,
    ) -> Result<(), AllocError> {
        let KeyCounts {
            ties,
            keys,
            announced,
        } = *counts;
        let feasibility = feasibility(select, announced, keys);
        self.add_all(
            Side::First,
            &[feasibility, above(ties, 0, Note::Ties(ties))],
        )
    }

    /// Adds a note, if there is one.
    fn add(&mut self, side: Side, note: Option<Note>) -> Result<(), AllocError>
        ensures { OnOk result (self.new.list.items ≡ self.old.list.items ++ told side note) }
    {
        if let Some(note) = note {
            self.list.push(SideNote { side, note })?;
        }
        Ok(())
    }

    /// Adds the notes that there are.
    fn add_all(&mut self, side: Side, notes: &[Option<Note>]) -> Result<(), AllocError>
        ensures { OnOk result (self.new.list.items
            ≡ self.old.list.items ++ flat_map (told side) notes.now) }
    {
        for note in notes {
            self.add(side, *note)?;
        }
        Ok(())
    }

    /// Adds what was ignored of the dump on this side, and what there is to know besides.
    fn add_dump(
        &mut self,
        side: Side,
        report: Report,
        capture: Option<CaptureNotes>,
    ) -> Result<(), AllocError> {
        self.add(side, ignored(report))?;
        self.add_read(side, report, capture)
    }

    /// Adds what there is to know of the capture that has the dump on this side, and that the dump
    /// has no Update.
    fn add_read(
        &mut self,
        side: Side,
        report: Report,
        capture: Option<CaptureNotes>,
    ) -> Result<(), AllocError> {
        if let Some(capture) = capture {
            let (expired_rows, interval) = (capture.expired_rows, capture.report.interval());
            self.add_capture(side, capture, interval)?;
            self.add(side, expired(expired_rows as u64))?;
        }
        self.add(side, no_updates(report))
    }

    /// Adds what there is to know of a capture that was not read for a dump, and of this Interval.
    fn add_whole(
        &mut self,
        report: CaptureReport,
        cut: Option<u64>,
        interval: Option<u16>,
    ) -> Result<(), AllocError>
        ensures { OnOk result ((left : Option LeftOutNote) × (self.new.list.items
            ≡ self.old.list.items
            ++ flat_map (told sides.First) (about_capture left report cut interval))) }
    {
        let capture = CaptureNotes {
            report,
            cut,
            told: ToldLeftOut::All,
            expired_rows: 0,
        };
        self.add_capture(Side::First, capture, interval)
    }

    /// Adds what there is to know of a capture, and of this Interval.
    pub(crate) fn add_capture(
        &mut self,
        side: Side,
        capture: CaptureNotes,
        interval: Option<u16>,
    ) -> Result<(), AllocError>
        ensures { OnOk result ((left : Option LeftOutNote) × (self.new.list.items
            ≡ self.old.list.items
            ++ flat_map (told side) (about_capture left capture.report capture.cut interval))) }
    {
        self.add_all(side, &about_capture(capture, interval))
    }

    /// Writes a JSON object for each note, and flushes.
    pub fn write_json<W: ByteOut>(&mut self, writer: &mut W) -> Result<(), RunFault>
        requires few_failures { (W.state writer.old).failures < 2 ^ 64 - 1 }
        requires few_flushes { (W.state writer.old).flushes < 2 ^ 64 - 1 }
        ensures { WroteText (output (W.state writer.old) (W.state writer.new))
            (flat_map note_json self.old.list.items) result }
    {
        write_notes(writer, &self.list, &mut self.line)?;
        Ok(())
    }

    /// Writes a JSON object for each note, which is about this sender, and flushes.
    pub(crate) fn write_json_of<W: ByteOut>(
        &mut self,
        writer: &mut W,
        spelling: Spelling,
        sender: &ToldSender,
    ) -> Result<(), RunFault>
        requires few_failures { (W.state writer.old).failures < 2 ^ 64 - 1 }
        requires few_flushes { (W.state writer.old).flushes < 2 ^ 64 - 1 }
        ensures { WroteText (output (W.state writer.old) (W.state writer.new))
            (flat_map (note_of_sender spelling sender.now.origin sender.now.name.items)
            self.old.list.items) result }
    {
        let ToldSender { origin, name, .. } = sender;
        write_sender_notes(writer, spelling, origin, name, &self.list, &mut self.line)?;
        Ok(())
    }
}

/// What was left out of a capture, that frames named no interface, that its sections describe
/// others, that packets have trailers, where it is cut short, where times run backwards, and that
/// it is shorter than this Interval, as far as there is each.
fn about_capture(capture: CaptureNotes, interval: Option<u16>) -> [Option<Note>; 7]
    ensures { (left : Option LeftOutNote)
        × (result ≡ about_capture left capture.report capture.cut interval) }
{
    let CaptureNotes {
        report,
        cut,
        told,
        ..
    } = capture;
    let (sections, trailers) = (report.sections(), report.trailers());
    [
        left_out(report, told),
        above(report.cooked(), 0, Note::Cooked),
        above(sections, 1, Note::Sections(sections)),
        above(trailers, 0, Note::Trailers(trailers)),
        cut_at(cut),
        backwards(&report.timing()),
        short_span(&report.timing(), interval),
    ]
}

/// That the router that selects announced so many of these keys, if that is not all of them.
fn feasibility(select: &Select, announced: u64, keys: u64) -> Option<Note> {
    if announced == keys {
        return None;
    }
    let address = *select.routers.first()?;
    let spelling = select.each.format.spelling();
    Some(Note::Feasibility {
        spelling,
        address,
        announced,
        keys,
    })
}

/// The note, if so many are more than these.
fn above(count: u64, most: u64, note: Note) -> Option<Note>
    ensures { result ≡ above count most note }
{
    if count > most { Some(note) } else { None }
}

/// What was ignored of the dump of a sender in a capture, how many rows of its table were not
/// announced again in time, that it has no Update, and what there is to know of its answers, as far
/// as there is each.
fn about_sender(read: &DumpRead) -> [Option<Note>; 4]
    ensures { (ignored : Option IgnoredNote) × (result
        ≡ about_sender ignored read.now.report read.now.expired_rows read.now.note) }
{
    let report = read.report;
    let expired = expired(read.expired_rows as u64);
    [ignored(report), expired, no_updates(report), read.note]
}

/// How many rows were not announced again in time, if any.
fn expired(rows: u64) -> Option<Note>
    ensures { result ≡ above rows 0 (notes.Expired rows) }
{
    above(rows, 0, Note::Expired(rows))
}

/// That a dump has no Update, if it has none.
fn no_updates(report: Report) -> Option<Note>
    ensures { result ≡ no_updates report }
{
    if report.updates() == 0 {
        Some(Note::NoUpdates)
    } else {
        None
    }
}

/// What was ignored of a dump.
fn ignored(report: Report) -> Option<Note>
    ensures { (ignored : Option IgnoredNote) × (result ≡ option_map notes.Ignored ignored) }
{
    Some(Note::Ignored(IgnoredNote::of(report)?))
}

/// What was left out of a capture.
fn left_out(report: CaptureReport, told: ToldLeftOut) -> Option<Note>
    ensures { (left : Option LeftOutNote) × (result ≡ option_map notes.LeftOut left) }
{
    Some(Note::LeftOut(LeftOutNote::of(report, told)?))
}

/// That senders are not followed.
fn not_followed(answer: &EventsOutcome) -> Option<Note> {
    Some(Note::NotFollowed(answer.not_followed?))
}

/// That a capture is cut short.
fn cut_at(cut: Option<u64>) -> Option<Note>
    ensures { result ≡ option_map notes.CaptureCut cut }
{
    Some(Note::CaptureCut(cut?))
}

/// That times run backwards.
fn backwards(timing: &Timing) -> Option<Note>
    ensures { result ≡ option_map notes.Backwards timing.now.backwards }
{
    Some(Note::Backwards(timing.backwards?))
}

/// That what was read of a capture spans less than the greatest Interval of an Update that
/// announces, where each packet has a time.
fn short_span(timing: &Timing, interval: Option<u16>) -> Option<Note>
    ensures { result ≡ short_span timing.now interval }
{
    let interval = interval?;
    if timing.has_untimed {
        return None;
    }
    let (earliest, latest) = (timing.earliest?, timing.latest?);
    let span = latest.nanoseconds().saturating_sub(earliest.nanoseconds());
    if span >= u128::from(interval) * HUNDREDTH {
        return None;
    }
    let span = (span / HUNDREDTH) as u64;
    Some(Note::ShortSpan { span, interval })
}

/// Writes a JSON object for each of these notes, each by way of the line, and flushes.
fn write_notes<W: ByteOut>(
    writer: &mut W,
    notes: &[SideNote],
    line: &mut Vec<u8>,
) -> Result<(), WriteFailed>
    requires few_failures { (W.state writer.old).failures < 2 ^ 64 - 1 }
    requires few_flushes { (W.state writer.old).flushes < 2 ^ 64 - 1 }
    requires room { 2048 ≤ vec_capacity line.old }
    ensures text { WroteText (output (W.state writer.old) (W.state writer.new))
        (flat_map note_json notes.now) result }
    ensures room { 2048 ≤ vec_capacity line.new }
{
    for note in notes {
        line.clear();
        push_note_json(line, *note);
        write_all(writer, line)?;
    }
    write_text(writer, &[])
}
