ghost use Rattle.std.specs.Prelude.{◌≡◌, IfOk};
ghost use Rattle.babel_dump.specs.Command.{Tells};
ghost use Rattle.babel_dump.specs.InFormat.{report_in};
ghost use Rattle.babel_dump.specs.Parts.{Says};
ghost use Rattle.babel_dump.specs.Summary.{shown_in, unless};

use crate::filter::Filter;
use crate::format::Format;
use crate::outcome::Outcome;
use crate::output::report_output;
use crate::push_summary::summary_output;
use crate::slices::{Found, Rows};
use crate::summary::Summary;
use babel_table::{Report, Table};
use babel_tlv::View;
use std::alloc::{AllocError, Global};

/// The rows of a table that a filter keeps, or, with `summary`, how many they are, and, unless
/// `quiet`, its report.
pub(crate) fn found_rows(
    alloc: Global,
    filter: Filter,
    summary: bool,
    quiet: bool,
    format: &Format,
    table: Table,
) -> Result<Found, AllocError>
    ensures { IfOk result
        (Says format.now (Tells table.report (shown_in format.now filter summary quiet table) 0)) }
{
    let outcome = Outcome::of_dump(0, *table.report());
    if summary {
        let summary = Summary::of(alloc, &filter, &table)?;
        let text = summary_output(alloc, format, quiet, summary, table.report())?;
        return Ok(Found::text(text, outcome));
    }
    let after = after_rows(alloc, quiet, format, table.report())?;
    let rows = Rows::Table(filter, View::all(), table);
    Ok(Found::rows(rows, after, outcome))
}

/// The report that comes after rows, unless it is left out.
fn after_rows(
    alloc: Global,
    quiet: bool,
    format: &Format,
    report: &Report,
) -> Result<Vec<u8>, AllocError>
    ensures { IfOk result (λ text. text.items ≡ unless quiet (report_in format.now report.now)) }
{
    if quiet {
        return Ok(Vec::new(alloc));
    }
    report_output(alloc, format, report)
}
