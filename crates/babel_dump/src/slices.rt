//! Lines that are written in slices: a buffer takes them, and is written out where it has no room
//! for one more. So a text of any length takes no more memory than the buffer, which is there
//! before the first octet is written.
ghost use Rattle.std.specs.Prelude.{◌≡◌, ◌∷◌, ◌++◌, ◌-◌, ◌^◌, ◌<◌, ◌≤◌, [], OnOk};
ghost use Rattle.std.specs.Prelude.{vec_capacity};
ghost use Rattle.std.specs.List.{flat_map, zip};
ghost use Rattle.babel_dump.specs.CaptureText.{escape, sender_in, senders_in, with_times};
ghost use Rattle.babel_dump.specs.Changes.{changes_of};
ghost use Rattle.babel_dump.specs.NameText.{escaped};
ghost use Rattle.babel_dump.specs.Device.{HasRoomToWrite};
ghost use Rattle.babel_dump.specs.Filter.{kept_rows};
ghost use Rattle.babel_dump.specs.InFormat.{difference_in, pairs_in, placed_in};
ghost use Rattle.babel_dump.specs.Run.{output};
ghost use Rattle.babel_dump.specs.SlicedRows.{Finished, found_text, lines_of};
ghost use Rattle.babel_dump.specs.Slices.{HasRoom, WroteFront, WroteText};
ghost use Rattle.babel_dump.specs.declared.format.Format.{Format};

use crate::absence::Absence;
use crate::answers::Answers;
use crate::aside::Aside;
use crate::byte_out::ByteOut;
use crate::capture_notes::CaptureNotes;
use crate::changes::Changes;
use crate::diff_rows::{DiffRows, write_diff};
use crate::filter::Filter;
use crate::format::Format;
use crate::outcome::Outcome;
use crate::output::{
    Answered, escape_of, push_after_name, push_answer, push_difference, push_line, push_to_name,
};
use crate::pair_lines::PairLines;
use crate::push::{push_name_octet, push_octets};
use crate::run_fault::RunFault;
use crate::slice_buffer::{LONGEST_LINE, slice_buffer};
use crate::write::{WriteFailed, write_all, write_text};
use babel_canon::CanonicalPairs;
use babel_capture::{Gathered, Origin, Tally};
use babel_table::Table;
use babel_tlv::{Held, Key, View};
use std::alloc::Global;

/// Rows of which each has a line.
#[derive(Drop)]
pub(crate) enum Rows {
    /// The rows of a table that a filter keeps, as a view shows them.
    Table(Filter, View, Table),
    /// The pairs that a filter keeps, as a view shows them.
    Pairs(Filter, View, CanonicalPairs),
    /// What a table answers for each of some pairs, with the row that answers or without.
    Answers(bool, Answers),
    /// Differences, as a view shows them.
    Differences(View, Changes),
    /// What two dumps hold differently, as people read it.
    Diff(DiffRows),
    /// The senders in a capture.
    Senders(Gathered),
    /// None.
    Empty,
}

/// What a run found: rows, of which each has a line, a text after these, and what it answers.
#[derive(Drop)]
pub(crate) struct Found {
    pub rows: Rows,
    pub after: Vec<u8>,
    pub outcome: Outcome,
    /// What there is to say besides.
    pub aside: Aside,
}

impl Found {
    /// Rows, and a text after their lines.
    pub fn rows(rows: Rows, after: Vec<u8>, outcome: Outcome) -> Found
        ensures text { (format : Format)
            → found_text format result ≡ lines_of format rows ++ after.items }
        ensures outcome { result.outcome ≡ outcome }
    {
        Found {
            rows,
            after,
            outcome,
            aside: Aside::none(),
        }
    }

    /// The same of dumps that were read of captures with these notes.
    pub fn beside(self, capture: Option<CaptureNotes>, other: Option<CaptureNotes>) -> Found
        ensures text { (format : Format) → found_text format result ≡ found_text format self }
        ensures outcome { result.outcome ≡ self.outcome }
    {
        let mut found = self;
        found.aside.capture = capture;
        found.aside.other = other;
        found
    }

    /// The same of a capture, of which this is said where it has no packets.
    pub fn or_absence(self, absence: Absence) -> Found
        ensures text { (format : Format) → found_text format result ≡ found_text format self }
        ensures outcome { result.outcome ≡ self.outcome }
    {
        let mut found = self;
        found.aside.absence = Some(absence);
        found
    }

    /// A text, and no rows.
    pub fn text(text: Vec<u8>, outcome: Outcome) -> Found
        ensures text { (format : Format) → found_text format result ≡ text.items }
        ensures outcome { result.outcome ≡ outcome }
    {
        Found::rows(Rows::Empty, text, outcome)
    }
}

/// Writes the lines that a run found, if it did, and the text after them, and answers its outcome.
pub(crate) fn finish<W: ByteOut>(
    alloc: Global,
    writer: &mut W,
    format: &Format,
    found: Result<Found, RunFault>,
) -> Result<Outcome, RunFault>
    requires { HasRoomToWrite (W.state writer.old) }
    ensures { Finished (output (W.state writer.old) (W.state writer.new)) format.now found result }
{
    let Found {
        rows,
        after,
        outcome,
        ..
    } = found?;
    let mut buffer = slice_buffer(alloc)?;
    write_rows(writer, format, rows, &mut buffer)?;
    write_last(writer, &mut buffer, &after)?;
    Ok(outcome)
}

/// Writes the lines of rows, but for the last of them, which the buffer has.
fn write_rows<W: ByteOut>(
    writer: &mut W,
    format: &Format,
    rows: Rows,
    buffer: &mut Vec<u8>,
) -> Result<(), WriteFailed>
    requires few_failures { (W.state writer.old).failures < 2 ^ 64 - 1 }
    requires empty { buffer.old.items ≡ [] }
    requires room { 2048 ≤ vec_capacity buffer.old }
    ensures { WroteFront (output (W.state writer.old) (W.state writer.new))
        (lines_of format.now rows) buffer.new.items result }
{
    match rows {
        Rows::Table(filter, view, table) => {
            write_table(writer, format, &filter, view, &table, buffer)
        }
        Rows::Pairs(filter, view, pairs) => {
            write_pairs(writer, format, filter, view, pairs, buffer)
        }
        Rows::Answers(with_prefix, answers) => {
            write_answers(writer, format, with_prefix, &answers, buffer)
        }
        Rows::Differences(view, changes) => {
            write_differences(writer, format, view, &changes, buffer)
        }
        Rows::Diff(diff) => write_diff(writer, format.style(), &diff, buffer),
        Rows::Senders(gathered) => write_senders(writer, format, &gathered, buffer),
        Rows::Empty => Ok(()),
    }
}

/// Writes the lines of the rows of a table that a filter keeps, but for the last of them, which the
/// buffer has.
fn write_table<W: ByteOut>(
    writer: &mut W,
    format: &Format,
    filter: &Filter,
    view: View,
    table: &Table,
    buffer: &mut Vec<u8>,
) -> Result<(), WriteFailed>
    requires few_failures { (W.state writer.old).failures < 2 ^ 64 - 1 }
    requires empty { buffer.old.items ≡ [] }
    requires room { 2048 ≤ vec_capacity buffer.old }
    ensures { WroteFront (output (W.state writer.old) (W.state writer.new))
        (pairs_in format.now view (kept_rows filter.now table.now.rows)) buffer.new.items result }
{
    for (key, held) in table.rows() {
        write_kept(writer, format, filter, view, key, held, buffer)?;
    }
    Ok(())
}

/// Writes the line of a row, if a filter keeps it, after what the buffer has, but for the last of
/// both, which the buffer has then.
pub(crate) fn write_kept<W: ByteOut>(
    writer: &mut W,
    format: &Format,
    filter: &Filter,
    view: View,
    key: Key,
    held: Held,
    buffer: &mut Vec<u8>,
) -> Result<(), WriteFailed>
    requires few_failures { (W.state writer.old).failures < 2 ^ 64 - 1 }
    requires room { 2048 ≤ vec_capacity buffer.old }
    ensures front { WroteFront (output (W.state writer.old) (W.state writer.new))
        (buffer.old.items ++ pairs_in format.now view (kept_rows filter.now ((key, held) ∷ [])))
        buffer.new.items result }
    ensures room { OnOk result (2048 ≤ vec_capacity buffer.new) }
{
    if filter.keeps(&key, &held) {
        make_room(writer, buffer)?;
        push_line(buffer, format, view, key, held);
    }
    Ok(())
}

/// Writes the lines of the pairs that a filter keeps, but for the last of them, which the buffer
/// has.
fn write_pairs<W: ByteOut>(
    writer: &mut W,
    format: &Format,
    filter: Filter,
    view: View,
    pairs: CanonicalPairs,
    buffer: &mut Vec<u8>,
) -> Result<(), WriteFailed>
    requires few_failures { (W.state writer.old).failures < 2 ^ 64 - 1 }
    requires empty { buffer.old.items ≡ [] }
    requires room { 2048 ≤ vec_capacity buffer.old }
    ensures { WroteFront (output (W.state writer.old) (W.state writer.new))
        (pairs_in format.now view (kept_rows filter pairs)) buffer.new.items result }
{
    let mut lines = PairLines {
        writer,
        buffer,
        format,
        filter,
        view,
    };
    pairs.put(&mut lines)
}

/// Writes what a table answers for each of some pairs, but for the last of the lines, which the
/// buffer has.
fn write_answers<W: ByteOut>(
    writer: &mut W,
    format: &Format,
    with_prefix: bool,
    answers: &Answers,
    buffer: &mut Vec<u8>,
) -> Result<(), WriteFailed>
    requires few_failures { (W.state writer.old).failures < 2 ^ 64 - 1 }
    requires empty { buffer.old.items ≡ [] }
    requires room { 2048 ≤ vec_capacity buffer.old }
    ensures { WroteFront (output (W.state writer.old) (W.state writer.new))
        (placed_in format.now with_prefix answers.now.table
        (zip answers.now.asked.items answers.now.places.items)) buffer.new.items result }
{
    for (pair, place) in answers.asked.iter().zip(&answers.places) {
        make_room(writer, buffer)?;
        let answered = Answered {
            pair: *pair,
            row: answers.table.row_at(pair.dst.family(), *place),
            with_prefix,
        };
        push_answer(buffer, format, &answered);
    }
    Ok(())
}

/// Writes the line of each of these differences, but for the last of them, which the buffer has.
fn write_differences<W: ByteOut>(
    writer: &mut W,
    format: &Format,
    view: View,
    changes: &Changes,
    buffer: &mut Vec<u8>,
) -> Result<(), WriteFailed>
    requires few_failures { (W.state writer.old).failures < 2 ^ 64 - 1 }
    requires empty { buffer.old.items ≡ [] }
    requires room { 2048 ≤ vec_capacity buffer.old }
    ensures { WroteFront (output (W.state writer.old) (W.state writer.new))
        (flat_map (difference_in format.now view) (changes_of changes.now))
        buffer.new.items result }
{
    for difference in changes.iter() {
        make_room(writer, buffer)?;
        push_difference(buffer, format, view, difference);
    }
    Ok(())
}

/// Writes the lines of senders, but for the last of them, which the buffer has.
fn write_senders<W: ByteOut>(
    writer: &mut W,
    format: &Format,
    gathered: &Gathered,
    buffer: &mut Vec<u8>,
) -> Result<(), WriteFailed>
    requires few_failures { (W.state writer.old).failures < 2 ^ 64 - 1 }
    requires empty { buffer.old.items ≡ [] }
    requires room { 2048 ≤ vec_capacity buffer.old }
    ensures { WroteFront (output (W.state writer.old) (W.state writer.new))
        (senders_in format.now gathered.now) buffer.new.items result }
{
    for (origin, tally) in gathered.senders().iter() {
        let name = gathered.name(origin.place.interface);
        let tally = told(gathered, tally);
        write_sender(writer, format, origin, &tally, name, buffer)?;
    }
    Ok(())
}

/// What is told of a sender: its times, unless a packet of the capture has none.
fn told(gathered: &Gathered, tally: &Tally) -> Tally
    ensures { result ≡ with_times gathered.now.report.timing.has_untimed tally.now }
{
    if gathered.report().timing().has_untimed {
        Tally {
            first: None,
            last: None,
            ..*tally
        }
    } else {
        *tally
    }
}

/// Writes a sender's line after what the buffer has, but for the last of both, which the buffer has
/// then.
fn write_sender<W: ByteOut>(
    writer: &mut W,
    format: &Format,
    origin: &Origin,
    tally: &Tally,
    name: &[u8],
    buffer: &mut Vec<u8>,
) -> Result<(), WriteFailed>
    requires few_failures { (W.state writer.old).failures < 2 ^ 64 - 1 }
    requires room { 2048 ≤ vec_capacity buffer.old }
    ensures front { WroteFront (output (W.state writer.old) (W.state writer.new))
        (buffer.old.items ++ sender_in format.now name.now (origin.now, tally.now))
        buffer.new.items result }
    ensures room { OnOk result (2048 ≤ vec_capacity buffer.new) }
{
    make_room(writer, buffer)?;
    push_to_name(buffer, format, *origin, name);
    write_name(writer, format, name, buffer)?;
    make_room(writer, buffer)?;
    push_after_name(buffer, format, *origin, *tally, name);
    Ok(())
}

/// Writes the octets of an interface's name after what the buffer has, but for the last of both,
/// which the buffer has then.
pub(crate) fn write_name<W: ByteOut>(
    writer: &mut W,
    format: &Format,
    name: &[u8],
    buffer: &mut Vec<u8>,
) -> Result<(), WriteFailed>
    requires few_failures { (W.state writer.old).failures < 2 ^ 64 - 1 }
    requires room { 2048 ≤ vec_capacity buffer.old }
    ensures front { WroteFront (output (W.state writer.old) (W.state writer.new))
        (buffer.old.items ++ escaped (escape format.now) name.now) buffer.new.items result }
    ensures room { vec_capacity buffer.old ≤ vec_capacity buffer.new }
{
    let escape = escape_of(format);
    for octet in name {
        make_room(writer, buffer)?;
        push_name_octet(buffer, escape, *octet);
    }
    Ok(())
}

/// Writes what the buffer has where it has no room for a line more.
pub(crate) fn make_room<W: ByteOut>(writer: &mut W, buffer: &mut Vec<u8>) -> Result<(), WriteFailed>
    requires few_failures { (W.state writer.old).failures < 2 ^ 64 - 1 }
    requires room { 2048 ≤ vec_capacity buffer.old }
    ensures front { WroteFront (output (W.state writer.old) (W.state writer.new))
        buffer.old.items buffer.new.items result }
    ensures room { OnOk result (HasRoom buffer.new 2048) }
    ensures capacity { vec_capacity buffer.old ≤ vec_capacity buffer.new }
{
    if buffer.capacity() - buffer.len() >= LONGEST_LINE {
        return Ok(());
    }
    let written = write_all(writer, buffer);
    buffer.clear();
    written
}

/// Writes what the buffer has and the text after it, as one slice where there is room, and flushes.
fn write_last<W: ByteOut>(
    writer: &mut W,
    buffer: &mut Vec<u8>,
    after: &[u8],
) -> Result<(), WriteFailed>
    requires few_failures { (W.state writer.old).failures < 2 ^ 64 - 1 }
    requires few_flushes { (W.state writer.old).flushes < 2 ^ 64 - 1 }
    ensures { WroteText (output (W.state writer.old) (W.state writer.new))
        (buffer.old.items ++ after.now) result }
{
    if buffer.capacity() - buffer.len() >= after.len() {
        push_octets(buffer, after);
        return write_text(writer, buffer);
    }
    write_all(writer, buffer)?;
    write_text(writer, after)
}
