//! A text of what was found, kept in memory.
ghost use Rattle.std.specs.Prelude.{◌≡◌, [], IfOk, Some};
ghost use Rattle.std.specs.List.{flat_map};
ghost use Rattle.babel_dump.specs.NoteJson.{note_json, note_of_sender};
ghost use Rattle.babel_dump.specs.SlicedRows.{found_text};

use crate::byte_out::ByteOut;
use crate::done::ToldSender;
use crate::format::Format;
use crate::notes::Notes;
use crate::slices::{Found, finish};
use crate::spelling::Spelling;
use std::alloc::{AllocError, Global};
use std::io;

/// A device that keeps what it takes.
#[derive(Drop)]
struct Collected {
    text: Vec<u8>,
    failures: u64,
    flushes: u64,
}

impl Collected {
    /// A device that has taken nothing.
    fn new(alloc: Global) -> Collected
        ensures taken { result.text.items ≡ [] }
        ensures failures { result.failures ≡ 0 }
        ensures flushes { result.flushes ≡ 0 }
    {
        Collected {
            text: Vec::new(alloc),
            failures: 0,
            flushes: 0,
        }
    }
}

impl ByteOut for Collected {
    ghost state = { λ d. record {
      taken = Some d.text.items;
      failures = d.failures;
      flushes = d.flushes;
    } };

    fn write(&mut self, buf: &[u8]) -> io::Result<usize> {
        match self.text.extend_from_slice(buf) {
            Ok(()) => Ok(buf.len()),
            Err(_) => {
                self.failures += 1;
                Err(io::Error::from(io::ErrorKind::OutOfMemory))
            }
        }
    }

    fn flush(&mut self) -> io::Result<()> {
        self.flushes += 1;
        Ok(())
    }
}

/// The whole text of what was found, in this format.
pub(crate) fn text_of(alloc: Global, format: &Format, found: Found) -> Result<Vec<u8>, AllocError>
    ensures { IfOk result (λ text. text.items ≡ found_text format.now found) }
{
    let mut collected = Collected::new(alloc);
    match finish(alloc, &mut collected, format, Ok(found)) {
        Ok(_) => Ok(collected.text),
        Err(_) => Err(AllocError),
    }
}

/// The objects of notes.
pub(crate) fn notes_json(alloc: Global, notes: &mut Notes) -> Result<Vec<u8>, AllocError>
    ensures { IfOk result (λ text. text.items ≡ flat_map note_json notes.old.list.items) }
{
    let mut collected = Collected::new(alloc);
    match notes.write_json(&mut collected) {
        Ok(()) => Ok(collected.text),
        Err(_) => Err(AllocError),
    }
}

/// Those of notes about this sender.
pub(crate) fn sender_notes_json(
    alloc: Global,
    notes: &mut Notes,
    spelling: Spelling,
    sender: &ToldSender,
) -> Result<Vec<u8>, AllocError>
    ensures { IfOk result (λ text. text.items ≡ flat_map (note_of_sender spelling sender.now.origin
        sender.now.name.items) notes.old.list.items) }
{
    let mut collected = Collected::new(alloc);
    match notes.write_json_of(&mut collected, spelling, sender) {
        Ok(()) => Ok(collected.text),
        Err(_) => Err(AllocError),
    }
}
