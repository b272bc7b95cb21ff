//! What came of what was asked for, and what is said of that.
ghost use Rattle.std.specs.Prelude.{◌≡◌, IfOk};
ghost use Rattle.babel_capture.specs.Gathering.{name_of};
ghost use Rattle.babel_dump.specs.Trouble.{done_status, read_status};

use crate::absence::Absence;
use crate::asked::Asked;
use crate::byte_out::FromWriter;
use crate::capture_input::CaptureRead;
use crate::capture_notes::CaptureNotes;
use crate::each_pair::EachPair;
use crate::each_sender::EachSender;
use crate::events_job::Events;
use crate::events_outcome::{EventsOutcome, HeardSender};
use crate::hint::Hint;
use crate::input_fault::InputFault;
use crate::job::Job;
use crate::job_run::Ran;
use crate::key_text::Named;
use crate::lone_sender::LoneSender;
use crate::note::{Note, SideNote};
use crate::notes::Notes;
use crate::other_sources::source_note;
use crate::outcome::Reports;
use crate::place_word::NamedOrigin;
use crate::read_senders::Captured;
use crate::router_places::{at_several, greatest_interval};
use crate::run_fault::{RunFault, Side};
use crate::says::Says;
use crate::select_job::Select;
use crate::spelling::Spelling;
use crate::told_capture::{ToldCapture, ToldCaptures};
use crate::told_routes::KeyCounts;
use crate::trouble::{Trouble, say_hint};
use crate::write::write_text;
use babel_capture::{Gathered, Origin};
use babel_prefix::Addr;
use babel_table::Report;
use babel_tlv::Reason;
use std::alloc::{AllocError, Global};
use std::io::Write;

/// What came of what was asked for, and what there is to say of it.
#[derive(Drop)]
pub struct Done {
    /// The status of the run.
    status: u8,
    /// What is said of a capture that has no packets.
    absence: Option<Absence>,
    /// The report of a dump that the output has.
    shown: Option<Report>,
    /// What there is to know of the inputs.
    notes: Notes,
    /// The senders of a capture of which each is told by itself.
    senders: Vec<ToldSender>,
    /// What there is to know of one of these.
    sender_notes: Notes,
    /// The captures of `--origins`.
    captures: ToldCaptures,
    /// What there is to know after all else.
    last_notes: Notes,
    /// The address of the router that selects which sends at several places, if one does.
    several: Option<Addr>,
}

/// A sender in a capture that is told by itself.
#[derive(Drop)]
pub struct ToldSender {
    pub origin: Origin,
    /// The name of its interface, as the capture has it; empty where it has none.
    pub name: Vec<u8>,
    /// What was read of it, or why its dump is refused.
    pub read: Result<DumpRead, InputFault>,
    /// The capture that has it, of two.
    pub side: Side,
}

/// What was read of the dump of a sender.
#[derive(Clone, Copy)]
pub struct DumpRead {
    pub report: Report,
    /// How many rows of its table were not announced again in time, if none was left out for that.
    pub expired_rows: usize,
    /// That it has routes for other sources than that of its answers, or how many differ from those
    /// of its fellow, which answers the same.
    pub note: Option<Note>,
}

impl ToldSender {
    /// A sender at its place in what was gathered of a capture.
    pub fn new(
        alloc: Global,
        gathered: &Gathered,
        origin: &Origin,
        read: Result<DumpRead, InputFault>,
    ) -> Result<ToldSender, AllocError>
        ensures origin { IfOk result (λ told. told.origin ≡ origin.now) }
        ensures name { IfOk result
            (λ told. told.name.items ≡ name_of gathered.now origin.now.place.interface) }
        ensures read { IfOk result (λ told. told.read ≡ read) }
    {
        let mut name = Vec::new(alloc);
        name.extend_from_slice(gathered.name(origin.place.interface))?;
        Ok(ToldSender {
            origin: *origin,
            name,
            read,
            side: Side::First,
        })
    }

    /// The same in the capture on this side.
    pub(crate) fn on(self, side: Side) -> ToldSender
        ensures { result ≡ record self { side = side } }
    {
        let mut sender = self;
        sender.side = side;
        sender
    }

    /// The exit status by it.
    fn status(&self) -> u8
        ensures { result ≡ read_status self.now.read }
    {
        match &self.read {
            Ok(_) => 0,
            Err(fault) => fault.status(),
        }
    }
}

impl Done {
    /// Nothing yet. The room for notes is taken before a run, so that memory cannot run out after
    /// its output.
    pub fn new(alloc: Global) -> Result<Done, AllocError>
        ensures { IfOk result (λ done. done.status ≡ 0) }
    {
        Ok(Done {
            status: 0,
            absence: None,
            shown: None,
            notes: Notes::new(alloc)?,
            senders: Vec::new(alloc),
            sender_notes: Notes::new(alloc)?,
            captures: ToldCaptures::none(alloc),
            last_notes: Notes::new(alloc)?,
            several: None,
        })
    }

    /// What came of a job.
    pub fn of_job(mut self, job: &Job, ran: &Ran) -> Result<Done, AllocError>
        ensures { IfOk result (λ done. done.status ≡ ran.now.outcome.status) }
    {
        let outcome = &ran.outcome;
        self.status = outcome.status;
        if outcome.status != 0 {
            self.absence = ran.aside.absence;
        }
        if let Reports::Dump(report) = outcome.reports {
            if job.reports_ignored() {
                self.shown = Some(report);
            }
        }
        self.notes.gather(job, ran)?;
        Ok(self)
    }

    /// What came of `events`.
    pub fn of_events(mut self, events: &Events, answer: EventsOutcome) -> Result<Done, AllocError>
        ensures { IfOk result (λ done. done.status ≡ answer.outcome.status) }
    {
        self.status = answer.outcome.status;
        if answer.outcome.status != 0 {
            self.absence = Some(Absence::at(None));
        }
        self.notes.gather_followed(events, &answer)?;
        if answer.named(events).is_none() {
            self.add_heard(events.format.spelling(), answer)?;
        }
        Ok(self)
    }

    /// Adds what was heard of each sender.
    fn add_heard(&mut self, spelling: Spelling, answer: EventsOutcome) -> Result<(), AllocError>
        ensures { self.new.status ≡ self.old.status }
    {
        let EventsOutcome {
            senders,
            other_sources,
            ..
        } = answer;
        for heard in senders {
            let HeardSender {
                origin,
                name,
                report,
            } = heard;
            let read = Ok(DumpRead {
                report,
                expired_rows: 0,
                note: source_note(&other_sources, spelling, &origin),
            });
            self.senders.push(ToldSender {
                origin,
                name,
                read,
                side: Side::First,
            })?;
        }
        Ok(())
    }

    /// What came of what was asked for of each sender, with the status by those that are not
    /// refused.
    pub fn of_senders(
        mut self,
        each: &EachSender,
        read: &CaptureRead,
        senders: Vec<ToldSender>,
        status: u8,
    ) -> Result<Done, Trouble>
        ensures status { IfOk result (λ done. done.status ≡ status) }
        ensures senders { IfOk result (λ done. done.senders ≡ senders) }
    {
        if senders.is_empty() {
            let absence = Absence::at(each.place);
            return Err(Trouble::from(InputFault::NoPackets(absence)));
        }
        Captured::on(Side::First, each, read).note(&mut self.notes)?;
        self.status = status;
        self.senders = senders;
        Ok(self)
    }

    /// What came of what was asked for of the senders in two captures and their fellows, with this
    /// status.
    pub fn of_pairs(
        mut self,
        pairs: &EachPair,
        read: &CaptureRead,
        other_read: &CaptureRead,
        senders: Vec<ToldSender>,
        status: u8,
    ) -> Result<Done, Trouble>
        ensures status { IfOk result (λ done. done.status ≡ status) }
        ensures senders { IfOk result (λ done. done.senders ≡ senders) }
    {
        Captured::on(Side::First, &pairs.left, read).note(&mut self.notes)?;
        Captured::on(Side::Other, &pairs.right, other_read).note(&mut self.notes)?;
        self.status = status;
        self.senders = senders;
        Ok(self)
    }

    /// What came of `show --origins` or `diff --origins`, of these captures, with this status.
    pub(crate) fn of_origins(mut self, captures: ToldCaptures, status: u8) -> Done
        ensures { result.status ≡ status }
    {
        self.status = status;
        self.captures = captures;
        self
    }

    /// What came of `select`, of these senders, of which so many keys are told.
    pub(crate) fn of_select(
        mut self,
        select: &Select,
        read: &CaptureRead,
        senders: Vec<ToldSender>,
        status: u8,
        counts: &KeyCounts,
    ) -> Result<Done, AllocError>
        ensures { IfOk result (λ done. done.status ≡ status) }
    {
        let interval = greatest_interval(select, &read.gathered);
        self.notes
            .add_capture(Side::First, CaptureNotes::apart(read), interval)?;
        self.last_notes.add_counts(select, counts)?;
        self.several = at_several(select, &read.gathered);
        self.status = status;
        self.senders = senders;
        Ok(self)
    }

    /// The exit status: the greatest of that of the run and those of the senders.
    pub fn status(&self) -> u8
        ensures { result ≡ done_status self.now }
    {
        let mut status = self.status;
        for sender in &self.senders {
            status = status.max(sender.status());
        }
        status
    }

    /// Writes the notes where the output is JSON, which has them after all else.
    pub fn write_notes<W: Write + Drop>(
        &mut self,
        asked: &Asked,
        mut writer: W,
    ) -> Result<(), RunFault> {
        let Some(spelling) = asked.json_notes() else {
            return Ok(());
        };
        if let Some(lone) = asked.lone_sender() {
            write_text(&mut FromWriter::new(&mut writer), &lone.note)?;
        }
        write_text(&mut FromWriter::new(&mut writer), &self.captures.json)?;
        self.notes.write_json(&mut FromWriter::new(&mut writer))?;
        for sender in &self.senders {
            if let Ok(read) = sender.read {
                let notes = &mut self.sender_notes;
                notes.gather_sender(sender.side, read)?;
                notes.write_json_of(&mut FromWriter::new(&mut writer), spelling, sender)?;
            }
        }
        self.last_notes
            .write_json(&mut FromWriter::new(&mut writer))
    }
}

/// Says that there are no packets, and the notes, with what can be done about what they tell.
pub fn say_done<S: Says>(says: &mut S, asked: &Asked, done: &mut Done) {
    if let Some(absence) = done.absence {
        says.say(&absence);
    }
    if !asked.is_quiet() {
        say_notes(says, asked, done);
    }
    let notes = &mut done.sender_notes;
    for sender in &done.senders {
        say_sender(says, asked, asked.named(), sender, notes);
    }
    for (place, capture) in done.captures.list.iter().enumerate() {
        say_capture(says, asked, asked.named_capture(place), capture, notes);
    }
    if !asked.is_quiet() {
        say_last(says, done);
    }
}

/// Says what there is to know of a capture, which is named so, and of its senders.
fn say_capture<S: Says>(
    says: &mut S,
    asked: &Asked,
    file: Named<'_>,
    capture: &ToldCapture,
    notes: &mut Notes,
) {
    if asked.is_quiet() {
        return;
    }
    say_listed(says, asked, file, capture.notes.list());
    for sender in &capture.senders {
        say_sender(says, asked, file, sender, notes);
    }
}

/// Says what there is to know after all else.
fn say_last<S: Says>(says: &mut S, done: &Done) {
    for note in done.last_notes.list() {
        says.say(note);
    }
    if let Some(address) = done.several {
        says.say(&format_args!(
            "hint: {address} is at several places, and may be two routers: --interface names one"
        ));
    }
}

/// Says what there is to know of the inputs.
fn say_notes<S: Says>(says: &mut S, asked: &Asked, done: &Done) {
    if let Some(LoneSender { origin, name, .. }) = asked.lone_sender() {
        let (origin, name) = (*origin, name.as_slice());
        says.say(&format_args!("note: from {}", NamedOrigin { origin, name }));
    }
    if let Some(report) = &done.shown {
        say_reasons(says, asked, Side::First, report);
    }
    say_listed(says, asked, asked.named(), done.notes.list());
}

/// Says notes about an input, which is named so.
fn say_listed<S: Says>(says: &mut S, asked: &Asked, file: Named<'_>, notes: &[SideNote]) {
    for note in notes {
        says.say(&format_args!("{file}{note}"));
        say_note_hints(says, asked, note.side, &note.note);
    }
}

/// Says the notes of a sender in an input, which is named so, or why its dump is refused.
fn say_sender<S: Says>(
    says: &mut S,
    asked: &Asked,
    file: Named<'_>,
    told: &ToldSender,
    notes: &mut Notes,
) {
    let side = told.side;
    let sender = NamedOrigin {
        origin: told.origin,
        name: &told.name,
    };
    match &told.read {
        Ok(read) => {
            if asked.is_quiet() || notes.gather_sender(side, *read).is_err() {
                return;
            }
            for note in notes.list() {
                says.say(&format_args!("{file}note: {side}{sender}: {}", note.note));
                say_note_hints(says, asked, side, &note.note);
            }
        }
        Err(fault) => {
            says.say(&format_args!("{file}{side}{sender}: {fault}"));
            say_hint(says, &Hint::of(asked, side, fault, &[]));
        }
    }
}

/// Says what can be done about what a note tells of the input on this side.
fn say_note_hints<S: Says>(says: &mut S, asked: &Asked, side: Side, note: &Note) {
    if let Note::Ignored(ignored) = note {
        say_reasons(says, asked, side, &ignored.report);
    }
    say_hint(says, &Hint::of_note(note));
}

/// Says what there is to know about reasons for which TLVs of the dump on this side were ignored.
fn say_reasons<S: Says>(says: &mut S, asked: &Asked, side: Side, report: &Report) {
    for reason in [Reason::UnknownEncoding, Reason::NoNextHop] {
        if report.ignored(reason).is_some() {
            let ignores_encoding_4 = report.ignores_encoding_4();
            say_hint(
                says,
                &Hint::of_reason(asked, reason, ignores_encoding_4, side),
            );
        }
    }
}
