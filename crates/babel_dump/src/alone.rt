//! What a comparison tells of a sender that only one of two captures has.
ghost use Rattle.std.specs.Prelude.{◌≡◌, IfOk, map};
ghost use Rattle.babel_dump.specs.EachPair.{all_rows_in, first_rows, lone_row, only_in};
ghost use Rattle.babel_dump.specs.Names.{style_of};
ghost use Rattle.babel_dump.specs.Parts.{Says};
ghost use Rattle.babel_dump.specs.DiffText.{head_lines};
ghost use Rattle.babel_dump.specs.Command.{Tells};

use crate::changes::Changes;
use crate::diff::{head_lines, stat_after};
use crate::diff_rows::DiffRows;
use crate::format::Format;
use crate::job::DiffStyle;
use crate::outcome::Outcome;
use crate::reading::Reading;
use crate::run_fault::Side;
use crate::slices::{Found, Rows};
use babel_canon::Difference;
use babel_table::Table;
use babel_tlv::{Held, Key, View};
use std::alloc::{AllocError, Global};

/// The line of `compare`.
pub(crate) fn found_only(
    alloc: Global,
    format: &Format,
    side: Side,
    table: &Table,
) -> Result<Found, AllocError>
    ensures { IfOk result (Says format.now (Tells table.now.report (only_in format.now side) 1)) }
{
    let mut text = Vec::new(alloc);
    text.extend_from_slice(only_words(format, side).as_bytes())?;
    Ok(Found::text(text, Outcome::of_dump(1, *table.report())))
}

/// That only the capture on this side has the sender.
fn only_words(format: &Format, side: Side) -> &'static str
    ensures { result.now ≡ only_in format.now side }
{
    match (format, side) {
        (Format::Text(_), Side::First) => "only left\n",
        (Format::Text(_), Side::Other) => "only right\n",
        (Format::Json(_), Side::First) => "{\"same\":false,\"only\":\"left\"}\n",
        (Format::Json(_), Side::Other) => "{\"same\":false,\"only\":\"right\"}\n",
    }
}

/// The rows of `diff`: all that the sender has, in a table as a view shows it.
pub(crate) fn found_all_rows(
    alloc: Global,
    reading: Reading,
    other_reading: Reading,
    view: View,
    style: DiffStyle,
    format: &Format,
    file: &str,
    other_file: &str,
    side: Side,
    table: &Table,
) -> Result<Found, AllocError>
    ensures { IfOk result (Says format.now (Tells table.now.report
        (all_rows_in format.now style view
        (head_lines (style_of format.now) file.now other_file.now reading other_reading) side
        table.now.rows) 1)) }
{
    let outcome = Outcome::of_dump(1, *table.report());
    let changes = Changes::Listed(lone_rows(alloc, side, table)?);
    let rows = first_rows(side, table.rows().len());
    match format {
        Format::Text(of_text) => {
            let after = stat_after(alloc, format, style.stat, rows, &changes)?;
            let heads = head_lines(alloc, of_text, file, other_file, reading, other_reading)?;
            let diff = DiffRows {
                heads,
                coloured: style.coloured,
                view,
                changes,
            };
            Ok(Found::rows(Rows::Diff(diff), after, outcome))
        }
        Format::Json(_) => {
            let after = stat_after(alloc, format, style.stat, rows, &changes)?;
            let lines = Rows::Differences(view, changes);
            Ok(Found::rows(lines, after, outcome))
        }
    }
}

/// The rows of a table, as gone where the first capture has them, and as new where the other has.
fn lone_rows(alloc: Global, side: Side, table: &Table) -> Result<Vec<Difference>, AllocError>
    ensures { IfOk result (λ list. list.items ≡ map (lone_row side) table.now.rows) }
{
    let mut list = Vec::new(alloc);
    for (key, held) in table.rows() {
        list.push(lone_row(side, key, held))?;
    }
    Ok(list)
}

/// Of so many rows, those of the first capture.
fn first_rows(side: Side, rows: usize) -> usize
    ensures { result ≡ first_rows side rows }
{
    match side {
        Side::First => rows,
        Side::Other => 0,
    }
}

/// A row that one side alone holds.
fn lone_row(side: Side, key: Key, held: Held) -> Difference
    ensures { result ≡ lone_row side (key, held) }
{
    match side {
        Side::First => Difference {
            key,
            left: Some(held),
            right: None,
        },
        Side::Other => Difference {
            key,
            left: None,
            right: Some(held),
        },
    }
}
