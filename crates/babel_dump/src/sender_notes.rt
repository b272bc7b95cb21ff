//! Notes about a sender as JSON (RFC 8259), as they are written.
ghost use Rattle.std.specs.Prelude.{◌-◌, ◌^◌, ◌<◌, ◌≤◌, [], vec_capacity};
ghost use Rattle.std.specs.List.{flat_map};
ghost use Rattle.babel_dump.specs.NoteJson.{note_of_sender};
ghost use Rattle.babel_dump.specs.Run.{output};
ghost use Rattle.babel_dump.specs.Slices.{WroteFront, WroteText};

use crate::byte_out::ByteOut;
use crate::format::Format;
use crate::note::SideNote;
use crate::output::{closing, opening};
use crate::push::push_text;
use crate::push_note::{push_note_front, push_note_rest};
use crate::slices::write_name;
use crate::spelling::Spelling;
use crate::style::Style;
use crate::write::{WriteFailed, write_all, write_text};
use babel_capture::Origin;

/// Writes a JSON object for each of these notes about a sender, whose interface has this name, each
/// by way of the line, and flushes.
pub(crate) fn write_sender_notes<W: ByteOut>(
    writer: &mut W,
    spelling: Spelling,
    origin: &Origin,
    name: &[u8],
    notes: &[SideNote],
    line: &mut Vec<u8>,
) -> Result<(), WriteFailed>
    requires few_failures { (W.state writer.old).failures < 2 ^ 64 - 1 }
    requires few_flushes { (W.state writer.old).flushes < 2 ^ 64 - 1 }
    requires room { 2048 ≤ vec_capacity line.old }
    ensures text { WroteText (output (W.state writer.old) (W.state writer.new))
        (flat_map (note_of_sender spelling origin.now name.now) notes.now) result }
    ensures room { 2048 ≤ vec_capacity line.new }
{
    for note in notes {
        write_sender_note(writer, spelling, origin, name, note, line)?;
    }
    write_text(writer, &[])
}

/// Writes an object for a note about a sender.
fn write_sender_note<W: ByteOut>(
    writer: &mut W,
    spelling: Spelling,
    origin: &Origin,
    name: &[u8],
    told: &SideNote,
    line: &mut Vec<u8>,
) -> Result<(), WriteFailed>
    requires few_failures { (W.state writer.old).failures < 2 ^ 64 - 1 }
    requires room { 2048 ≤ vec_capacity line.old }
    ensures front { WroteFront (output (W.state writer.old) (W.state writer.new))
        (note_of_sender spelling origin.now name.now told.now) [] result }
    ensures room { 2048 ≤ vec_capacity line.new }
{
    let names = None;
    let format = &Format::Json(Style { spelling, names });
    line.clear();
    push_note_front(line, spelling, *origin, &told.note);
    push_text(line, opening(format, name));
    write_name(writer, format, name, line)?;
    write_all(writer, line)?;
    line.clear();
    push_text(line, closing(format, name));
    push_note_rest(line, *told);
    write_all(writer, line)
}
