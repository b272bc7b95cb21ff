//! What `show --origins` and `diff --origins` write.
ghost use Rattle.std.specs.Prelude.{◌≡◌, ◌++◌, IfOk, OnOk, Some, filter, is_none, length};
ghost use Rattle.std.specs.List.{flat_map};
ghost use Rattle.babel_dump.specs.OriginText.{and_more, change_in, changed_in, changed_text};
ghost use Rattle.babel_dump.specs.OriginText.{changes_of, differs, numbers_after, numbers_in};
ghost use Rattle.babel_dump.specs.OriginText.{origin_changes, origin_head};
ghost use Rattle.babel_dump.specs.OriginText.{origins_in, origins_status, shown_by, shown_in};
ghost use Rattle.babel_dump.specs.Slices.{HasRoom, TookRoom};

use crate::diff::{push_stat, push_stat_json};
use crate::differences::differences_status;
use crate::format::Format;
use crate::key_text::push_file;
use crate::originated::{Announced, OnSides, Origination};
use crate::origins_job::Origins;
use crate::push::{push_decimal, push_octet, push_text};
use crate::push_origin::{push_change, push_change_json, push_origin, push_origin_json};
use std::alloc::{AllocError, Global};
use std::collections::BTreeMap;

/// No lines of one origination are longer, nor is the line of numbers, in octets.
const ROOM: usize = 960;

/// What is written, and the status.
#[derive(Drop)]
pub(crate) struct OriginsText {
    pub lines: Vec<u8>,
    pub status: u8,
}

/// What is written of all that is originated.
pub(crate) fn origins_text(
    alloc: Global,
    origins: &Origins,
    all: &BTreeMap<Origination, OnSides>,
) -> Result<OriginsText, AllocError>
    ensures lines { IfOk result
        (λ text. text.lines.items ≡ origins_in origins.now all.now.entries) }
    ensures status { IfOk result
        (λ text. text.status ≡ origins_status origins.now all.now.entries) }
{
    match &origins.right {
        None => Ok(OriginsText {
            lines: shown(alloc, &origins.left.format, all)?,
            status: 0,
        }),
        Some(right) => {
            let list = changes_of(alloc, origins.has_metric, all)?;
            let other_file = right.file.name();
            Ok(OriginsText {
                lines: changed(alloc, origins, other_file, all.len(), &list)?,
                status: differences_status(list.len()),
            })
        }
    }
}

/// A line for each.
fn shown(
    alloc: Global,
    format: &Format,
    all: &BTreeMap<Origination, OnSides>,
) -> Result<Vec<u8>, AllocError>
    ensures { IfOk result (λ text. text.items ≡ flat_map (shown_in format.now) all.now.entries) }
{
    let mut text = Vec::new(alloc);
    for (one, sides) in all {
        text.reserve(ROOM)?;
        push_shown(&mut text, format, one, *sides);
    }
    Ok(text)
}

/// Appends what the capture has: a line.
fn push_shown(buffer: &mut Vec<u8>, format: &Format, one: &Origination, sides: OnSides)
    requires { HasRoom buffer.old 960 }
    ensures { buffer.new.items ≡ buffer.old.items ++ shown_in format.now (one.now, sides) }
{
    if let Some(announced) = sides.left {
        push_announced(buffer, format, one, announced);
    }
}

/// Appends what the capture has, which is announced so: a line.
fn push_announced(buffer: &mut Vec<u8>, format: &Format, one: &Origination, announced: Announced)
    requires { HasRoom buffer.old 960 }
    ensures { buffer.new.items
        ≡ buffer.old.items ++ shown_by format.now one.now (Some announced) }
{
    match format {
        Format::Text(style) => {
            push_origin(buffer, style, true, one, announced);
            push_octet(buffer, b'\n');
        }
        Format::Json(style) => push_origin_json(buffer, style, one, announced),
    }
}

/// What two captures have differently.
fn changes_of(
    alloc: Global,
    has_metric: bool,
    all: &BTreeMap<Origination, OnSides>,
) -> Result<Vec<(Origination, OnSides)>, AllocError>
    ensures { IfOk result (λ list. list.items ≡ changes_of has_metric all.now.entries) }
{
    let mut list = Vec::new(alloc);
    for (one, sides) in all {
        if differs(has_metric, *sides) {
            list.push((*one, *sides))?;
        }
    }
    Ok(list)
}

/// Whether one capture alone has it, or another metric counts.
fn differs(has_metric: bool, sides: OnSides) -> bool
    ensures { result ≡ differs has_metric sides }
{
    match sides.left {
        None => sides.right.is_some(),
        Some(left) => match sides.right {
            None => true,
            Some(right) => has_metric && left.metric != right.metric,
        },
    }
}

/// What is written of what two captures have differently, of so many that they have in all.
fn changed(
    alloc: Global,
    origins: &Origins,
    other_file: &str,
    count: usize,
    list: &[(Origination, OnSides)],
) -> Result<Vec<u8>, AllocError>
    ensures { IfOk result
        (λ text. text.items ≡ changed_in origins.now.left.format origins.now other_file.now count
        list.now) }
{
    match &origins.left.format {
        Format::Text(_) => changed_text(alloc, origins, other_file, count, list),
        Format::Json(_) => changed_json(alloc, origins, count, list),
    }
}

/// The text, with the lines that name both captures; nothing where there is no change.
fn changed_text(
    alloc: Global,
    origins: &Origins,
    other_file: &str,
    count: usize,
    list: &[(Origination, OnSides)],
) -> Result<Vec<u8>, AllocError>
    ensures { IfOk result
        (λ text. text.items ≡ changed_text origins.now other_file.now count list.now) }
{
    if list.is_empty() {
        return Ok(Vec::new(alloc));
    }
    let mut text = Vec::new(alloc);
    let file = origins.left.file.name();
    push_head(&mut text, "--- ", file, origins.more_left.len())?;
    push_head(&mut text, "+++ ", other_file, origins.more_right.len())?;
    push_changes(&mut text, origins, list)?;
    push_numbers(&mut text, origins, count, list)?;
    Ok(text)
}

/// An object for each change, and one for the numbers, also where there is none.
fn changed_json(
    alloc: Global,
    origins: &Origins,
    count: usize,
    list: &[(Origination, OnSides)],
) -> Result<Vec<u8>, AllocError>
    ensures { IfOk result (λ text. text.items ≡ origin_changes origins.now count list.now) }
{
    let mut text = Vec::new(alloc);
    push_changes(&mut text, origins, list)?;
    push_numbers(&mut text, origins, count, list)?;
    Ok(text)
}

/// Appends the line that names the first capture on a side, and says how many more there are.
fn push_head(text: &mut Vec<u8>, mark: &str, file: &str, more: usize) -> Result<(), AllocError>
    ensures { OnOk result (text.new.items ≡ text.old.items ++ origin_head mark.now file.now more) }
{
    text.extend_from_slice(mark.as_bytes())?;
    push_file(text, file.as_bytes())?;
    text.reserve(ROOM)?;
    push_more(text, more);
    push_octet(text, b'\n');
    Ok(())
}

/// Appends how many more there are than the one that is named, if there are any.
fn push_more(buffer: &mut Vec<u8>, more: usize)
    requires { HasRoom buffer.old 30 }
    ensures text { buffer.new.items ≡ buffer.old.items ++ and_more more }
    ensures room { TookRoom buffer.old buffer.new 30 }
{
    if more > 0 {
        push_text(buffer, " and ");
        push_decimal(buffer, more);
        push_text(buffer, " more");
    }
}

/// Appends the lines of changes.
fn push_changes(
    text: &mut Vec<u8>,
    origins: &Origins,
    list: &[(Origination, OnSides)],
) -> Result<(), AllocError>
    ensures { OnOk result (text.new.items ≡ text.old.items
        ++ flat_map (change_in origins.now.left.format origins.now.style.coloured
        origins.now.has_metric) list.now) }
{
    let (coloured, has_metric) = (origins.style.coloured, origins.has_metric);
    for change in list {
        text.reserve(ROOM)?;
        push_one(text, &origins.left.format, coloured, has_metric, change);
    }
    Ok(())
}

/// Appends the lines of a change.
fn push_one(
    text: &mut Vec<u8>,
    format: &Format,
    coloured: bool,
    has_metric: bool,
    change: &(Origination, OnSides),
)
    requires { HasRoom text.old 960 }
    ensures { text.new.items
        ≡ text.old.items ++ change_in format.now coloured has_metric change.now }
{
    let (one, sides) = (&change.0, change.1);
    match format {
        Format::Text(style) => push_change(text, style, coloured, has_metric, one, sides),
        Format::Json(style) => push_change_json(text, style, has_metric, one, sides),
    }
}

/// Appends how many are gone, new, changed, and alike, of so many in all, if that is asked for.
fn push_numbers(
    text: &mut Vec<u8>,
    origins: &Origins,
    count: usize,
    list: &[(Origination, OnSides)],
) -> Result<(), AllocError>
    ensures { OnOk result (text.new.items ≡ text.old.items
        ++ numbers_after origins.now.left.format origins.now.style.stat count list.now) }
{
    if !origins.style.stat {
        return Ok(());
    }
    push_stat_of(text, &origins.left.format, count, list)
}

/// Appends them.
fn push_stat_of(
    text: &mut Vec<u8>,
    format: &Format,
    count: usize,
    list: &[(Origination, OnSides)],
) -> Result<(), AllocError>
    ensures { OnOk result
        (text.new.items ≡ text.old.items ++ numbers_in format.now count list.now) }
{
    let (gone, new) = (gone_count(list), new_count(list));
    let changed = list.len().saturating_sub(gone).saturating_sub(new);
    let alike = count.saturating_sub(list.len());
    text.reserve(ROOM)?;
    match format {
        Format::Text(_) => push_stat(text, gone, new, changed, alike),
        Format::Json(_) => push_stat_json(text, gone, new, changed, alike),
    }
    Ok(())
}

/// How many the other capture lacks.
fn gone_count(list: &[(Origination, OnSides)]) -> usize
    ensures { result ≡ length (filter (λ one. is_none one.1.right) list.now) }
{
    list.iter().filter(|one| one.1.right.is_none()).count()
}

/// How many the first capture lacks.
fn new_count(list: &[(Origination, OnSides)]) -> usize
    ensures { result ≡ length (filter (λ one. is_none one.1.left) list.now) }
{
    list.iter().filter(|one| one.1.left.is_none()).count()
}
