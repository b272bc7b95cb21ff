//! The rows of `diff`, and how they are written.
ghost use Rattle.std.specs.Prelude.{◌≡◌, ◌++◌, ◌-◌, ◌^◌, ◌<◌, ◌≤◌, [], OnOk, length, vec_capacity};
ghost use Rattle.std.specs.List.{flat_map};
ghost use Rattle.babel_dump.specs.Changes.{changes_of};
ghost use Rattle.babel_dump.specs.DiffText.{change_text, marked_row, row_end, row_mark};
ghost use Rattle.babel_dump.specs.Run.{output};
ghost use Rattle.babel_dump.specs.SlicedRows.{diff_lines};
ghost use Rattle.babel_dump.specs.Slices.{HasRoom, TookRoom, WroteFront};

use crate::byte_out::ByteOut;
use crate::changes::Changes;
use crate::push::{push_pair, push_text};
use crate::run_fault::Side;
use crate::slices::make_room;
use crate::style::Style;
use crate::write::{WriteFailed, write_all};
use babel_canon::Difference;
use babel_tlv::{Held, Key, View};

/// The rows that two dumps hold differently, as a view shows them, after the lines that name both.
#[derive(Drop)]
pub(crate) struct DiffRows {
    pub heads: Vec<u8>,
    /// Whether the rows are in colour.
    pub coloured: bool,
    pub view: View,
    pub changes: Changes,
}

/// Writes these lines, but for the last of them, which the buffer has.
pub(crate) fn write_diff<W: ByteOut>(
    writer: &mut W,
    style: &Style,
    diff: &DiffRows,
    buffer: &mut Vec<u8>,
) -> Result<(), WriteFailed>
    requires few_failures { (W.state writer.old).failures < 2 ^ 64 - 1 }
    requires empty { buffer.old.items ≡ [] }
    requires room { 2048 ≤ vec_capacity buffer.old }
    ensures { WroteFront (output (W.state writer.old) (W.state writer.new))
        (diff_lines style.now diff.now) buffer.new.items result }
{
    write_all(writer, &diff.heads)?;
    write_changes(
        writer,
        style,
        diff.coloured,
        diff.view,
        &diff.changes,
        buffer,
    )
}

/// Writes the rows of differences, but for the last of them, which the buffer has.
fn write_changes<W: ByteOut>(
    writer: &mut W,
    style: &Style,
    coloured: bool,
    view: View,
    changes: &Changes,
    buffer: &mut Vec<u8>,
) -> Result<(), WriteFailed>
    requires few_failures { (W.state writer.old).failures < 2 ^ 64 - 1 }
    requires empty { buffer.old.items ≡ [] }
    requires room { 2048 ≤ vec_capacity buffer.old }
    ensures { WroteFront (output (W.state writer.old) (W.state writer.new))
        (flat_map (change_text style.now coloured view) (changes_of changes.now))
        buffer.new.items result }
{
    for difference in changes.iter() {
        let Difference { key, left, right } = difference;
        write_row(
            writer,
            style,
            coloured,
            view,
            Side::First,
            key,
            left,
            buffer,
        )?;
        write_row(
            writer,
            style,
            coloured,
            view,
            Side::Other,
            key,
            right,
            buffer,
        )?;
    }
    Ok(())
}

/// Writes the row of the dump on this side, if it has one, after what the buffer has, but for the
/// last of both, which the buffer has then.
fn write_row<W: ByteOut>(
    writer: &mut W,
    style: &Style,
    coloured: bool,
    view: View,
    side: Side,
    key: Key,
    held: Option<Held>,
    buffer: &mut Vec<u8>,
) -> Result<(), WriteFailed>
    requires few_failures { (W.state writer.old).failures < 2 ^ 64 - 1 }
    requires room { 2048 ≤ vec_capacity buffer.old }
    ensures front { WroteFront (output (W.state writer.old) (W.state writer.new))
        (buffer.old.items ++ marked_row style.now coloured view side key held)
        buffer.new.items result }
    ensures room { OnOk result (2048 ≤ vec_capacity buffer.new) }
{
    make_room(writer, buffer)?;
    push_row(buffer, style, coloured, view, side, key, held);
    Ok(())
}

/// Appends the row of the dump on this side, if it has one: a line.
fn push_row(
    buffer: &mut Vec<u8>,
    style: &Style,
    coloured: bool,
    view: View,
    side: Side,
    key: Key,
    held: Option<Held>,
)
    requires { HasRoom buffer.old 842 }
    ensures text { buffer.new.items
        ≡ buffer.old.items ++ marked_row style.now coloured view side key held }
    ensures room { TookRoom buffer.old buffer.new 842 }
{
    if let Some(held) = held {
        push_text(buffer, row_mark(coloured, side));
        push_pair(buffer, style, view, key, held);
        push_text(buffer, row_end(coloured));
    }
}

/// The text before a row.
pub(crate) fn row_mark(coloured: bool, side: Side) -> &'static str
    ensures text { result.now ≡ row_mark coloured side }
    ensures short { length result.now ≤ 6 }
{
    match (coloured, side) {
        (false, Side::First) => "-",
        (false, Side::Other) => "+",
        (true, Side::First) => "\x1b[31m-",
        (true, Side::Other) => "\x1b[32m+",
    }
}

/// The text after a row.
pub(crate) fn row_end(coloured: bool) -> &'static str
    ensures text { result.now ≡ row_end coloured }
    ensures short { length result.now ≤ 5 }
{
    if coloured { "\x1b[0m\n" } else { "\n" }
}
