//! The routes of dumps: the rows of their tables, as a view sees them.
ghost use Rattle.std.specs.Prelude.{◌≡◌, ◌++◌, IfErr, IfOk};
ghost use Rattle.babel_canon.specs.Joined.{differing};
ghost use Rattle.babel_dump.specs.Command.{IsOfMemory, Tells, TellsRoutes};
ghost use Rattle.babel_dump.specs.Filter.{kept_rows};
ghost use Rattle.babel_dump.specs.InFormat.{listed_in, rows_or_count_in};
ghost use Rattle.babel_dump.specs.Parts.{Says};
ghost use Rattle.babel_dump.specs.SlicedRows.{lines_of};

use crate::both::SeenTables;
use crate::changes::Changes;
use crate::differences::difference_rows;
use crate::filter::Filter;
use crate::format::Format;
use crate::job::Listed;
use crate::outcome::Outcome;
use crate::output::{count_output, rows_name};
use crate::run_fault::RunFault;
use crate::slices::{Found, Rows};
use babel_canon::Difference;
use babel_table::Table;
use babel_tlv::View;
use std::alloc::{AllocError, Global};

/// A table's rows that a filter keeps, as a view shows them, or, with `count`, how many there are.
pub(crate) fn found_routes(
    alloc: Global,
    view: View,
    filter: Filter,
    count: bool,
    format: &Format,
    table: Table,
) -> Result<Found, AllocError>
    ensures { IfOk result (Says format.now (Tells table.report
        (rows_or_count_in format.now view count (kept_rows filter table.rows)) 0)) }
{
    let outcome = Outcome::of_dump(0, *table.report());
    if count {
        let text = count_output(alloc, format, rows_name(format), filter.count(&table))?;
        return Ok(Found::text(text, outcome));
    }
    let rows = Rows::Table(filter, view, table);
    Ok(Found::rows(rows, Vec::new(alloc), outcome))
}

/// The lines of the keys for which two tables hold what differs. Out of memory is the first
/// dump's.
pub(crate) fn found_route_differences(
    alloc: Global,
    view: View,
    listed: Listed,
    format: &Format,
    seen: SeenTables,
) -> Result<Found, RunFault>
    ensures ok { IfOk result (Says format.now (TellsRoutes
        (λ rows differences. listed_in format.now view listed differences) seen.left seen.right)) }
    ensures err { IfErr result IsOfMemory }
{
    let outcome = seen.compared_routes();
    let (rows, after) = listed_rows(alloc, view, listed, format, seen)?;
    Ok(Found::rows(rows, after, outcome))
}

/// The lines of the differences that are listed, or no line, and that of how many there are.
fn listed_rows(
    alloc: Global,
    view: View,
    listed: Listed,
    format: &Format,
    seen: SeenTables,
) -> Result<(Rows, Vec<u8>), AllocError>
    ensures { IfOk result (λ found. lines_of format.now found.0 ++ found.1.items
        ≡ listed_in format.now view listed (differing seen.left.rows seen.right.rows)) }
{
    match listed {
        Listed::First => {
            let first = seen.first_route_difference(alloc)?;
            difference_rows(alloc, view, format, Changes::Listed(first))
        }
        Listed::All => difference_rows(alloc, view, format, Changes::OfRoutes(seen)),
        Listed::Count => {
            let list: Vec<Difference> = seen.route_differences().collect(alloc)?;
            let text = count_output(alloc, format, "differences", list.len())?;
            Ok((Rows::Empty, text))
        }
    }
}
