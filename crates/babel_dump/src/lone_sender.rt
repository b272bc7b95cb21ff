//! The sender that alone announces in a capture, whose dump is read where there is no `--from`.
ghost use Rattle.std.specs.Prelude.{◌≡◌, ◌∷◌, [], IfOk, IfSome, OnOk};
ghost use Rattle.babel_capture.specs.Gathering.{name_of};
ghost use Rattle.babel_dump.specs.LoneSender.{FoundLone, IsLoneIn, announcing, from_note};

use crate::begun::{Begins, Begun};
use crate::capture_input::read_capture;
use crate::capture_reading::CaptureReading;
use crate::job::Job;
use crate::key_name::push_name_json;
use crate::push::push_text;
use crate::push_addr::push_addr;
use crate::push_json::push_place_json;
use crate::run_fault::Side;
use crate::spelling::Spelling;
use crate::trouble::Trouble;
use babel_capture::{Gathered, NoSink, Origin, Place, Wanted};
use std::alloc::{AllocError, Global};
use std::io::Read;

/// What is asked for of the sender that alone announces in a capture.
#[derive(Drop)]
pub struct Lone {
    /// What is asked for, once the sender is found.
    pub job: Job,
    /// How the capture is read for it.
    pub reading: CaptureReading,
    /// The place where it is looked for, if one is named: `--interface`.
    pub place: Option<Place>,
    /// The sender, once it is found.
    pub sender: Option<LoneSender>,
}

/// A sender that alone announces in a capture.
#[derive(Drop)]
pub struct LoneSender {
    pub origin: Origin,
    /// The name of its interface, as the capture has it; empty where it has none.
    pub name: Vec<u8>,
    /// The JSON object that tells of it.
    pub note: Vec<u8>,
}

impl Lone {
    /// Reads a capture for the sender, whose dump the job then reads.
    ///
    /// # Errors
    ///
    /// `NoSender` where it is a dump; `NotOneSender` where not one sender alone announces; or why
    /// the capture is refused.
    pub fn find<R: Read + Drop>(&mut self, alloc: Global, reader: R) -> Result<(), Trouble>
        ensures { OnOk result (FoundLone self.old (R.remaining reader) self.new) }
    {
        let begun = Begun::new(reader);
        if let Begins::Dump = begun.begins() {
            return Err(Trouble::NoSender(Side::First));
        }
        let wanted = Wanted {
            sender: None,
            place: self.place,
            are_listed: true,
            accepts_missing: self.reading.accept_missing,
        };
        let mut device = begun.into_device();
        let read = read_capture(alloc, self.reading, wanted, &mut device, &mut NoSink)?;
        let sender = lone_in(alloc, self.job.format.spelling(), &read.gathered)?;
        self.job.work.send(sender.origin);
        self.sender = Some(sender);
        Ok(())
    }
}

/// The sender that alone announces in what was gathered of a capture.
fn lone_in(alloc: Global, spelling: Spelling, gathered: &Gathered) -> Result<LoneSender, Trouble>
    ensures { IfOk result (IsLoneIn spelling gathered.now) }
{
    let origins = announcing(alloc, gathered)?;
    match alone(&origins) {
        Some(origin) => Ok(sender_at(alloc, spelling, gathered, &origin)?),
        None => Err(Trouble::NotOneSender(origins.len())),
    }
}

/// A sender at its place, as it is told.
fn sender_at(
    alloc: Global,
    spelling: Spelling,
    gathered: &Gathered,
    origin: &Origin,
) -> Result<LoneSender, AllocError>
    ensures origin { IfOk result (λ lone. lone.origin ≡ origin.now) }
    ensures name { IfOk result
        (λ lone. lone.name.items ≡ name_of gathered.now origin.now.place.interface) }
    ensures note { IfOk result
        (λ lone. lone.note.items ≡ from_note spelling origin.now lone.name.items) }
{
    let interface = gathered.name(origin.place.interface);
    let note = from_note(alloc, spelling, *origin, interface)?;
    let mut name = Vec::new(alloc);
    name.extend_from_slice(interface)?;
    let origin = *origin;
    Ok(LoneSender { origin, name, note })
}

/// The one of these, if there is one alone.
fn alone(origins: &[Origin]) -> Option<Origin>
    ensures { IfSome result (λ origin. origins.now ≡ origin ∷ []) }
{
    match origins {
        [origin] => Some(*origin),
        _ => None,
    }
}

/// The senders that announce, each at its place.
fn announcing(alloc: Global, gathered: &Gathered) -> Result<Vec<Origin>, AllocError>
    ensures { IfOk result (λ origins. origins.items ≡ announcing gathered.now.senders) }
{
    let mut origins = Vec::new(alloc);
    for (origin, tally) in gathered.senders() {
        if tally.interval.is_some() {
            origins.push(*origin)?;
        }
    }
    Ok(origins)
}

/// The JSON object that tells of a sender at its place, whose interface has this name.
fn from_note(
    alloc: Global,
    spelling: Spelling,
    origin: Origin,
    name: &[u8],
) -> Result<Vec<u8>, AllocError>
    ensures { IfOk result (λ note. note.items ≡ from_note spelling origin name.now) }
{
    let mut note = Vec::new(alloc);
    note.reserve(220)?;
    push_text(&mut note, r#"{"note":"from","sender":""#);
    push_addr(&mut note, spelling, origin.sender);
    push_text(&mut note, "\"");
    push_place_json(&mut note, origin.place);
    push_name_json(&mut note, name)?;
    note.extend_from_slice(b"}\n")?;
    Ok(note)
}
