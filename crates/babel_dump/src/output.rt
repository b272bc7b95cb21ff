//! What the runs write, in the format that is asked for.
ghost use Rattle.std.specs.Prelude.{◌≡◌, ◌≤◌, ◌++◌, IfOk, length};
ghost use Rattle.babel_tlv.specs.declared.view.View.{View};
ghost use Rattle.babel_dump.specs.CaptureText.{escape};
ghost use Rattle.babel_dump.specs.InFormat.{answer_line_in, count_in, counts_in, difference_in};
ghost use Rattle.babel_dump.specs.InFormat.{line_in, lookup_in, report_in, rows_name, verdict_in};
ghost use Rattle.babel_dump.specs.Slices.{HasRoom, TookRoom};
ghost use Rattle.babel_dump.specs.TextParts.{after_name, closing, hex_text};
ghost use Rattle.babel_dump.specs.TextParts.{opening, same_in, to_name};
ghost use Rattle.babel_dump.specs.declared.format.Format.{Format};

use crate::addr_pair::AddrPair;
use crate::format::Format;
use crate::push::{
    push_answer_line, push_count, push_counts, push_differ, push_lookup, push_pair_line,
    push_sender_end, push_sender_front, push_text,
};
use crate::push_json::{
    push_count_json, push_counts_json, push_differ_json, push_lookup_json, push_pair_json,
    push_sender_end_json, push_sender_front_json,
};
use crate::push_report::{push_report, push_report_json};
use babel_canon::{Difference, Verdict};
use babel_capture::{Origin, Tally};
use babel_table::Report;
use babel_tlv::{Held, Key, View};
use std::alloc::{AllocError, Global};

/// No text of a few lines is longer, in octets: a difference with four names.
const LONGEST_TEXT: usize = 1_735;

/// What is answered for a destination and a source.
#[derive(Clone, Copy)]
pub(crate) struct Answered {
    pub pair: AddrPair,
    /// The row that answers, if a row does.
    pub row: Option<(Key, Held)>,
    /// Whether the row is written, and not only what it holds.
    pub with_prefix: bool,
}

impl Answered {
    ghost use Rattle.babel_table.specs.RowFor.{held_of};

    /// The answer: what the row holds.
    pub fn held(&self) -> Option<Held>
        ensures { result ≡ held_of self.now.row }
    {
        match self.row {
            Some((_, held)) => Some(held),
            None => None,
        }
    }
}

/// Appends what is answered for a pair of addresses that is named: a line.
pub(crate) fn push_answer(buffer: &mut Vec<u8>, format: &Format, answered: &Answered)
    requires { HasRoom buffer.old 2048 }
    ensures text { buffer.new.items ≡ buffer.old.items
        ++ answer_line_in format.now answered.now.with_prefix answered.now.pair.dst
        answered.now.pair.src answered.now.row }
    ensures room { TookRoom buffer.old buffer.new 2048 }
{
    match format {
        Format::Text(style) => push_answer_line(buffer, style, answered),
        Format::Json(style) => push_lookup_json(buffer, style, answered),
    }
}

/// Appends a difference: a line.
pub(crate) fn push_difference(
    buffer: &mut Vec<u8>,
    format: &Format,
    view: View,
    difference: Difference,
)
    requires { HasRoom buffer.old 2048 }
    ensures text { buffer.new.items ≡ buffer.old.items ++ difference_in format.now view difference }
    ensures room { TookRoom buffer.old buffer.new 2048 }
{
    let Difference { key, left, right } = difference;
    let (dst, src) = (key.dst(), key.src());
    match format {
        Format::Text(style) => push_differ(buffer, style, view, dst, src, left, right),
        Format::Json(style) => push_differ_json(buffer, style, view, dst, src, left, right),
    }
}

/// Appends a row of a table: a line.
pub(crate) fn push_line(buffer: &mut Vec<u8>, format: &Format, view: View, key: Key, held: Held)
    requires { HasRoom buffer.old 2048 }
    ensures text { buffer.new.items ≡ buffer.old.items ++ line_in format.now view (key, held) }
    ensures room { TookRoom buffer.old buffer.new 2048 }
{
    match format {
        Format::Text(style) => push_pair_line(buffer, style, view, key, held),
        Format::Json(style) => push_pair_json(buffer, style, view, key, held),
    }
}

/// Appends a sender's line up to the octets of its interface's name.
pub(crate) fn push_to_name(buffer: &mut Vec<u8>, format: &Format, origin: Origin, name: &[u8])
    requires { HasRoom buffer.old 2048 }
    ensures text { buffer.new.items ≡ buffer.old.items ++ to_name format.now origin name.now }
    ensures room { TookRoom buffer.old buffer.new 2048 }
{
    match format {
        Format::Text(style) => push_sender_front(buffer, style.spelling, origin),
        Format::Json(style) => push_sender_front_json(buffer, style.spelling, origin),
    }
    push_text(buffer, opening(format, name));
}

/// Appends a sender's line after the octets of its interface's name.
pub(crate) fn push_after_name(
    buffer: &mut Vec<u8>,
    format: &Format,
    origin: Origin,
    tally: Tally,
    name: &[u8],
)
    requires { HasRoom buffer.old 2048 }
    ensures text { buffer.new.items
        ≡ buffer.old.items ++ after_name format.now (origin, tally) name.now }
    ensures room { TookRoom buffer.old buffer.new 2048 }
{
    push_text(buffer, closing(format, name));
    match format {
        Format::Text(_) => push_sender_end(buffer, origin.place, tally),
        Format::Json(_) => push_sender_end_json(buffer, tally),
    }
}

/// The text before the octets of a name, or in place of one.
pub(crate) fn opening(format: &Format, name: &[u8]) -> &'static str
    ensures text { result.now ≡ opening format.now name.now }
    ensures short { length result.now ≤ 4 }
{
    match (format, name.is_empty()) {
        (Format::Text(_), true) => "",
        (Format::Text(_), false) => " (",
        (Format::Json(_), true) => "null",
        (Format::Json(_), false) => "\"",
    }
}

/// The text after the octets of a name.
pub(crate) fn closing(format: &Format, name: &[u8]) -> &'static str
    ensures text { result.now ≡ closing format.now name.now }
    ensures short { length result.now ≤ 4 }
{
    match (format, name.is_empty()) {
        (_, true) => "",
        (Format::Text(_), false) => ")",
        (Format::Json(_), false) => "\"",
    }
}

/// The text before the digits of an octet of a name.
pub(crate) fn escape_of(format: &Format) -> &'static str
    ensures text { result.now ≡ escape format.now }
    ensures short { length result.now ≤ 3 }
{
    match format {
        Format::Text(_) => r"\x",
        Format::Json(_) => r"\\x",
    }
}

/// The lines of a report.
pub(crate) fn report_output(
    alloc: Global,
    format: &Format,
    report: &Report,
) -> Result<Vec<u8>, AllocError>
    ensures { IfOk result (λ text. text.items ≡ report_in format.now report.now) }
{
    let mut text = Vec::with_capacity(alloc, LONGEST_TEXT)?;
    match format {
        Format::Text(_) => push_report(&mut text, report),
        Format::Json(_) => push_report_json(&mut text, report),
    }
    Ok(text)
}

/// How many rows and pairs there are.
pub(crate) fn counts_output(
    alloc: Global,
    format: &Format,
    rows: usize,
    pairs: usize,
) -> Result<Vec<u8>, AllocError>
    ensures { IfOk result (λ text. text.items ≡ counts_in format.now rows pairs) }
{
    let mut text = Vec::with_capacity(alloc, LONGEST_TEXT)?;
    match format {
        Format::Text(_) => push_counts(&mut text, rows, pairs),
        Format::Json(_) => push_counts_json(&mut text, rows, pairs),
    }
    Ok(text)
}

/// The answer of a lookup.
pub(crate) fn lookup_output(
    alloc: Global,
    format: &Format,
    answered: Answered,
) -> Result<Vec<u8>, AllocError>
    ensures { IfOk result (λ text. text.items ≡ lookup_in format.now answered.with_prefix
        answered.pair.dst answered.pair.src answered.row) }
{
    let mut text = Vec::with_capacity(alloc, LONGEST_TEXT)?;
    match format {
        Format::Text(style) => push_lookup(&mut text, style, &answered),
        Format::Json(style) => push_lookup_json(&mut text, style, &answered),
    }
    Ok(text)
}

/// The lines of a verdict.
pub(crate) fn verdict_output(
    alloc: Global,
    format: &Format,
    view: View,
    verdict: &Verdict,
) -> Result<Vec<u8>, AllocError>
    ensures { IfOk result (λ text. text.items ≡ verdict_in format.now view verdict.now) }
{
    match *verdict {
        Verdict::Same => same_output(alloc, format),
        Verdict::Differ {
            dst,
            src,
            left,
            right,
        } => {
            let mut text = Vec::with_capacity(alloc, LONGEST_TEXT)?;
            match format {
                Format::Text(style) => push_differ(&mut text, style, view, dst, src, left, right),
                Format::Json(style) => push_differ_json(
                    &mut text, style, view, dst, src, left, right,
                ),
            }
            Ok(text)
        }
    }
}

/// The line of two tables that answer the same.
pub(crate) fn same_output(alloc: Global, format: &Format) -> Result<Vec<u8>, AllocError>
    ensures { IfOk result (λ text. text.items ≡ same_in format.now) }
{
    let mut text = Vec::with_capacity(alloc, LONGEST_TEXT)?;
    match format {
        Format::Text(_) => push_text(&mut text, "same\n"),
        Format::Json(_) => push_text(&mut text, "{\"same\":true}\n"),
    }
    Ok(text)
}

/// The name of how many rows there are.
pub(crate) fn rows_name(format: &Format) -> &'static str
    ensures text { result.now ≡ rows_name format.now }
    ensures short { length result.now ≤ 11 }
{
    match format {
        Format::Text(_) => "rows",
        Format::Json(_) => "routes",
    }
}

/// How many there are of what has this name, of at most 11 octets.
pub(crate) fn count_output(
    alloc: Global,
    format: &Format,
    name: &str,
    count: usize,
) -> Result<Vec<u8>, AllocError>
    requires { length name.now ≤ 11 }
    ensures { IfOk result (λ text. text.items ≡ count_in format.now name.now count) }
{
    let mut text = Vec::with_capacity(alloc, LONGEST_TEXT)?;
    match format {
        Format::Text(_) => push_count(&mut text, name, count),
        Format::Json(_) => push_count_json(&mut text, name, count),
    }
    Ok(text)
}

/// The octets as lower-case hexadecimal digits, on a line.
pub(crate) fn hex_output(alloc: Global, octets: &[u8]) -> Result<Vec<u8>, AllocError>
    ensures { IfOk result (λ text. text.items ≡ hex_text octets.now) }
{
    let mut text = hex::encode(alloc, octets)?.into_bytes();
    text.push(b'\n')?;
    Ok(text)
}
