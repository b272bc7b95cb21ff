//! Notes as JSON (RFC 8259), appended to a buffer that has room for them.
ghost use Rattle.std.specs.Prelude.{◌≡◌, ◌+◌, ◌≤◌, ◌++◌, length};
ghost use Rattle.babel_dump.specs.NoteJson.{address_member, ignored_members, left_out_members};
ghost use Rattle.babel_dump.specs.NoteJson.{note_front, note_json, note_members, note_name, note_rest};
ghost use Rattle.babel_dump.specs.NoteJson.{number_member, seconds_member, side_member};
ghost use Rattle.babel_dump.specs.NoteJson.{source_member};
ghost use Rattle.babel_dump.specs.Slices.{HasRoom, TookRoom};

use crate::left_out::{LeftOutNote, told_reasons};
use crate::note::{Note, SideNote};
use crate::push::{push_decimal, push_octet, push_seconds, push_text};
use crate::push_addr::push_addr;
use crate::push_json::push_place_json;
use crate::push_report::{push_counted_json, push_report_members};
use crate::run_fault::Side;
use crate::spelling::Spelling;
use babel_capture::Origin;
use babel_prefix::Addr;
use babel_table::Report;

/// Appends a note: an object.
pub(crate) fn push_note_json(buffer: &mut Vec<u8>, told: SideNote)
    requires { HasRoom buffer.old 1600 }
    ensures text { buffer.new.items ≡ buffer.old.items ++ note_json told }
    ensures room { TookRoom buffer.old buffer.new 1600 }
{
    push_text(buffer, r#"{"note":""#);
    push_text(buffer, name(&told.note));
    push_text(buffer, "\"");
    push_note_rest(buffer, told);
}

/// Appends a note about a sender, up to the name of its interface.
pub(crate) fn push_note_front(buffer: &mut Vec<u8>, spelling: Spelling, origin: Origin, note: &Note)
    requires { HasRoom buffer.old 220 }
    ensures text { buffer.new.items
        ≡ buffer.old.items ++ note_front spelling origin note.now }
    ensures room { TookRoom buffer.old buffer.new 220 }
{
    push_text(buffer, r#"{"note":""#);
    push_text(buffer, name(note));
    push_text(buffer, r#"","sender":""#);
    push_addr(buffer, spelling, origin.sender);
    push_text(buffer, "\"");
    push_place_json(buffer, origin.place);
}

/// Appends what stands after the name of a note, or of the interface of its sender.
pub(crate) fn push_note_rest(buffer: &mut Vec<u8>, told: SideNote)
    requires { HasRoom buffer.old 1515 }
    ensures text { buffer.new.items ≡ buffer.old.items ++ note_rest told }
    ensures room { TookRoom buffer.old buffer.new 1515 }
{
    push_members(buffer, &told.note);
    push_text(buffer, side_member(told.side));
    push_text(buffer, "}");
    push_octet(buffer, b'\n');
}

/// The name of a note.
fn name(note: &Note) -> &'static str
    ensures text { result.now ≡ note_name note.now }
    ensures short { length result.now ≤ 13 }
{
    match note {
        Note::Ignored(_) => "ignored",
        Note::LeftOut(_) => "left-out",
        Note::Cooked => "cooked-1",
        Note::Sections(_) => "sections",
        Note::Trailers(_) => "trailers",
        Note::CaptureCut(_) => "capture-cut",
        Note::TooShort(_) => "too-short",
        Note::Backwards(_) => "backwards",
        Note::NotFollowed(_) => "not-followed",
        Note::ShortSpan { .. } => "short-span",
        Note::Expired(_) => "expired",
        Note::NoUpdates => "no-updates",
        Note::NoIhus => "no-ihus",
        Note::RoutesDiffer(_) => "routes-differ",
        Note::Source(_, _) => "source",
        Note::Feasibility { .. } => "feasibility",
        Note::Ties(_) => "ties",
    }
}

/// The member of a note that is about the other dump.
fn side_member(side: Side) -> &'static str
    ensures text { result.now ≡ side_member side }
    ensures short { length result.now ≤ 13 }
{
    match side {
        Side::First => "",
        Side::Other => r#","other":true"#,
    }
}

/// Appends what a note says beside its name: the members of an object, each after a comma.
fn push_members(buffer: &mut Vec<u8>, note: &Note)
    requires { HasRoom buffer.old 1500 }
    ensures text { buffer.new.items ≡ buffer.old.items ++ note_members note.now }
    ensures room { TookRoom buffer.old buffer.new 1500 }
{
    match note {
        Note::Ignored(note) => push_ignored(buffer, &note.report),
        Note::LeftOut(note) => push_left_out(buffer, note),
        Note::Sections(sections) => push_member(buffer, "sections", *sections),
        Note::Trailers(packets) => push_member(buffer, "packets", *packets),
        Note::CaptureCut(at) => push_member(buffer, "at", *at),
        Note::TooShort(frames) => push_member(buffer, "frames", *frames),
        Note::Backwards(packet) | Note::NotFollowed(packet) => {
            push_member(buffer, "packet", *packet);
        }
        Note::ShortSpan { span, interval } => {
            push_seconds_member(buffer, "span", *span);
            push_seconds_member(buffer, "interval", u64::from(*interval));
        }
        Note::Expired(routes) | Note::RoutesDiffer(routes) => {
            push_member(buffer, "routes", *routes);
        }
        Note::Source(spelling, source) => push_source(buffer, *spelling, *source),
        Note::Feasibility {
            spelling,
            address,
            announced,
            keys,
        } => {
            push_address(buffer, *spelling, *address);
            push_member(buffer, "announced", *announced);
            push_member(buffer, "keys", *keys);
        }
        Note::Ties(keys) => push_member(buffer, "keys", *keys),
        Note::Cooked | Note::NoUpdates | Note::NoIhus => {}
    }
}

/// Appends how many TLVs there are, and why TLVs were ignored: two members of an object.
fn push_ignored(buffer: &mut Vec<u8>, report: &Report)
    requires { HasRoom buffer.old 1500 }
    ensures text { buffer.new.items ≡ buffer.old.items ++ ignored_members report.now }
    ensures room { TookRoom buffer.old buffer.new 1500 }
{
    push_text(buffer, ",");
    push_report_members(buffer, report);
}

/// Appends why datagrams were left out: a member of an object.
fn push_left_out(buffer: &mut Vec<u8>, note: &LeftOutNote)
    requires { HasRoom buffer.old 1500 }
    ensures text { buffer.new.items ≡ buffer.old.items ++ left_out_members note.now }
    ensures room { TookRoom buffer.old buffer.new 1500 }
{
    push_text(buffer, r#","reasons":["#);
    push_counted_json(buffer, &note.report, told_reasons(note.told));
    push_text(buffer, "]");
}

/// Appends the source that an answer is for: a member of an object.
fn push_source(buffer: &mut Vec<u8>, spelling: Spelling, source: Addr)
    requires { HasRoom buffer.old 51 }
    ensures text { buffer.new.items ≡ buffer.old.items ++ source_member spelling source }
    ensures room { TookRoom buffer.old buffer.new 51 }
{
    push_text(buffer, r#","source":""#);
    push_addr(buffer, spelling, source);
    push_text(buffer, "\"");
}

/// Appends the address of the router that selects: a member of an object.
fn push_address(buffer: &mut Vec<u8>, spelling: Spelling, address: Addr)
    requires { HasRoom buffer.old 52 }
    ensures text { buffer.new.items ≡ buffer.old.items ++ address_member spelling address }
    ensures room { TookRoom buffer.old buffer.new 52 }
{
    push_text(buffer, r#","address":""#);
    push_addr(buffer, spelling, address);
    push_text(buffer, "\"");
}

/// Appends a number of this name: a member of an object.
fn push_member(buffer: &mut Vec<u8>, name: &str, number: u64)
    requires { HasRoom buffer.old (length name.now + 24) }
    ensures text { buffer.new.items ≡ buffer.old.items ++ number_member name.now number }
    ensures room { TookRoom buffer.old buffer.new (length name.now + 24) }
{
    push_text(buffer, ",\"");
    push_text(buffer, name);
    push_text(buffer, "\":");
    push_decimal(buffer, number);
}

/// Appends hundredths of a second, in seconds, of this name: a member of an object.
fn push_seconds_member(buffer: &mut Vec<u8>, name: &str, hundredths: u64)
    requires { HasRoom buffer.old (length name.now + 27) }
    ensures text { buffer.new.items ≡ buffer.old.items ++ seconds_member name.now hundredths }
    ensures room { TookRoom buffer.old buffer.new (length name.now + 27) }
{
    push_text(buffer, ",\"");
    push_text(buffer, name);
    push_text(buffer, "\":");
    push_seconds(buffer, hundredths);
}
