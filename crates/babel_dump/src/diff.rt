//! `diff`: the rows that two dumps hold differently, as text that people read, or as JSON.
ghost use Rattle.std.specs.Prelude.{◌≡◌, ◌++◌, IfErr, IfOk, OnOk, filter, is_none, length};
ghost use Rattle.babel_canon.specs.Joined.{differing};
ghost use Rattle.babel_dump.specs.Changes.{changes_of};
ghost use Rattle.babel_dump.specs.Command.{IsOfMemory, TellsRoutes};
ghost use Rattle.babel_dump.specs.DiffText.{diff_in, diff_text, head_line, head_lines};
ghost use Rattle.babel_dump.specs.DiffText.{place_text, stat_after, stat_in, stat_json, stat_text};
ghost use Rattle.babel_dump.specs.Names.{style_of};
ghost use Rattle.babel_dump.specs.Parts.{Says};
ghost use Rattle.babel_dump.specs.SlicedRows.{lines_of};
ghost use Rattle.babel_dump.specs.Slices.{HasRoom, TookRoom};

use crate::both::SeenTables;
use crate::changes::Changes;
use crate::diff_rows::DiffRows;
use crate::format::Format;
use crate::job::DiffStyle;
use crate::key_name::push_name_text;
use crate::key_text::push_file;
use crate::push::{push_decimal, push_link, push_marked, push_octet, push_text};
use crate::push_addr::push_addr;
use crate::reading::Reading;
use crate::run_fault::RunFault;
use crate::slices::{Found, Rows};
use crate::style::Style;
use babel_canon::Difference;
use babel_capture::Place;
use babel_tlv::View;
use std::alloc::{AllocError, Global};

/// No address and place, nor any line of numbers, is longer, in octets.
pub(crate) const ROOM: usize = 160;

/// What is written of the rows that two tables hold differently. Out of memory is the first dump's.
pub(crate) fn found_diff(
    alloc: Global,
    reading: Reading,
    other_reading: Reading,
    view: View,
    style: DiffStyle,
    format: &Format,
    file: &str,
    other_file: &str,
    seen: SeenTables,
) -> Result<Found, RunFault>
    ensures ok { IfOk result (Says format.now (TellsRoutes (diff_in format.now style view
        (head_lines (style_of format.now) file.now other_file.now reading other_reading))
        seen.left seen.right)) }
    ensures err { IfErr result IsOfMemory }
{
    let outcome = seen.compared_routes();
    let (rows, after) = told_rows(
        alloc,
        reading,
        other_reading,
        view,
        style,
        format,
        file,
        other_file,
        seen,
    )?;
    Ok(Found::rows(rows, after, outcome))
}

/// The lines of what differs, and the text after them.
fn told_rows(
    alloc: Global,
    reading: Reading,
    other_reading: Reading,
    view: View,
    style: DiffStyle,
    format: &Format,
    file: &str,
    other_file: &str,
    seen: SeenTables,
) -> Result<(Rows, Vec<u8>), AllocError>
    ensures { IfOk result (λ found. lines_of format.now found.0 ++ found.1.items
        ≡ diff_in format.now style view
        (head_lines (style_of format.now) file.now other_file.now reading other_reading)
        (length seen.left.rows) (differing seen.left.rows seen.right.rows)) }
{
    let rows = seen.left.rows().len();
    let changes = Changes::OfRoutes(seen);
    match format {
        Format::Text(of_text) => {
            let heads = head_lines(alloc, of_text, file, other_file, reading, other_reading)?;
            diff_rows(alloc, view, style, format, heads, rows, changes)
        }
        Format::Json(_) => {
            let after = stat_after(alloc, format, style.stat, rows, &changes)?;
            Ok((Rows::Differences(view, changes), after))
        }
    }
}

/// The lines of differences, where the first dump has so many rows, and the text after them.
fn diff_rows(
    alloc: Global,
    view: View,
    style: DiffStyle,
    format: &Format,
    heads: Vec<u8>,
    rows: usize,
    changes: Changes,
) -> Result<(Rows, Vec<u8>), AllocError>
    ensures { IfOk result (λ found. lines_of format.now found.0 ++ found.1.items
        ≡ diff_text format.now style view heads.items rows (changes_of changes)) }
{
    if changes.is_empty() {
        return Ok((Rows::Empty, Vec::new(alloc)));
    }
    let after = stat_after(alloc, format, style.stat, rows, &changes)?;
    let diff = DiffRows {
        heads,
        coloured: style.coloured,
        view,
        changes,
    };
    Ok((Rows::Diff(diff), after))
}

/// The lines that name the two dumps.
pub(crate) fn head_lines(
    alloc: Global,
    style: &Style,
    file: &str,
    other_file: &str,
    reading: Reading,
    other_reading: Reading,
) -> Result<Vec<u8>, AllocError>
    ensures { IfOk result (λ text. text.items
        ≡ head_lines style.now file.now other_file.now reading other_reading) }
{
    let mut text = Vec::new(alloc);
    push_head(&mut text, style, "--- ", file, reading)?;
    push_head(&mut text, style, "+++ ", other_file, other_reading)?;
    Ok(text)
}

/// Appends the line that names a dump: its file, its sender, and its place, where one is named.
fn push_head(
    text: &mut Vec<u8>,
    style: &Style,
    mark: &str,
    file: &str,
    reading: Reading,
) -> Result<(), AllocError>
    ensures { OnOk result (text.new.items
        ≡ text.old.items ++ head_line style.now mark.now file.now reading) }
{
    text.extend_from_slice(mark.as_bytes())?;
    push_file(text, file.as_bytes())?;
    text.reserve(ROOM)?;
    push_octet(text, b' ');
    push_addr(text, style.spelling, reading.sender);
    push_name_text(text, style.of_address(reading.sender))?;
    text.reserve(ROOM)?;
    push_place(text, reading.place);
    push_octet(text, b'\n');
    Ok(())
}

/// Appends the words of a place, where one is named.
pub(crate) fn push_place(buffer: &mut Vec<u8>, place: Option<Place>)
    requires { HasRoom buffer.old 91 }
    ensures text { buffer.new.items ≡ buffer.old.items ++ place_text place }
    ensures room { TookRoom buffer.old buffer.new 91 }
{
    if let Some(place) = place {
        push_text(buffer, " interface ");
        push_decimal(buffer, place.interface);
        push_link(buffer, place.link);
        push_marked(buffer, " vlan ", ".", &place.vlans.numbers());
    }
}

/// How many rows are gone, new, changed, and alike, where the first dump has so many, if that is
/// asked for.
pub(crate) fn stat_after(
    alloc: Global,
    format: &Format,
    stat: bool,
    rows: usize,
    changes: &Changes,
) -> Result<Vec<u8>, AllocError>
    ensures { IfOk result (λ text. text.items
        ≡ stat_after format.now stat rows (changes_of changes.now)) }
{
    if !stat {
        return Ok(Vec::new(alloc));
    }
    match changes {
        Changes::Listed(list) => stat_output(alloc, format, rows, list),
        Changes::OfRoutes(seen) => {
            let list: Vec<Difference> = seen.route_differences().collect(alloc)?;
            stat_output(alloc, format, rows, &list)
        }
    }
}

/// The line of how many rows are gone, new, changed, and alike.
fn stat_output(
    alloc: Global,
    format: &Format,
    rows: usize,
    list: &[Difference],
) -> Result<Vec<u8>, AllocError>
    ensures { IfOk result (λ text. text.items ≡ stat_in format.now rows list.now) }
{
    let (gone, new) = (gone_count(list), new_count(list));
    let changed = list.len().saturating_sub(gone).saturating_sub(new);
    let alike = rows.saturating_sub(gone).saturating_sub(changed);
    let mut text = Vec::with_capacity(alloc, ROOM)?;
    match format {
        Format::Text(_) => push_stat(&mut text, gone, new, changed, alike),
        Format::Json(_) => push_stat_json(&mut text, gone, new, changed, alike),
    }
    Ok(text)
}

/// How many keys the other dump lacks.
fn gone_count(list: &[Difference]) -> usize
    ensures { result ≡ length (filter (λ d. is_none d.right) list.now) }
{
    list.iter().filter(|d| d.right.is_none()).count()
}

/// How many keys the first dump lacks.
fn new_count(list: &[Difference]) -> usize
    ensures { result ≡ length (filter (λ d. is_none d.left) list.now) }
{
    list.iter().filter(|d| d.left.is_none()).count()
}

/// Appends how many rows are gone, new, changed, and alike: a line.
pub(crate) fn push_stat(buffer: &mut Vec<u8>, gone: usize, new: usize, changed: usize, alike: usize)
    requires { HasRoom buffer.old 110 }
    ensures text { buffer.new.items ≡ buffer.old.items ++ stat_text gone new changed alike }
    ensures room { TookRoom buffer.old buffer.new 110 }
{
    push_decimal(buffer, gone);
    push_text(buffer, " gone, ");
    push_decimal(buffer, new);
    push_text(buffer, " new, ");
    push_decimal(buffer, changed);
    push_text(buffer, " changed, ");
    push_decimal(buffer, alike);
    push_text(buffer, " alike\n");
}

/// Appends these: an object.
pub(crate) fn push_stat_json(
    buffer: &mut Vec<u8>,
    gone: usize,
    new: usize,
    changed: usize,
    alike: usize,
)
    requires { HasRoom buffer.old 119 }
    ensures text { buffer.new.items ≡ buffer.old.items ++ stat_json gone new changed alike }
    ensures room { TookRoom buffer.old buffer.new 119 }
{
    push_text(buffer, r#"{"gone":"#);
    push_decimal(buffer, gone);
    push_text(buffer, r#","new":"#);
    push_decimal(buffer, new);
    push_text(buffer, r#","changed":"#);
    push_decimal(buffer, changed);
    push_text(buffer, r#","alike":"#);
    push_decimal(buffer, alike);
    push_text(buffer, "}");
    push_octet(buffer, b'\n');
}
