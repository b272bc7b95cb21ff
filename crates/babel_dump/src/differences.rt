ghost use Rattle.std.specs.Prelude.{◌≡◌, ◌++◌, IfErr, IfOk};
ghost use Rattle.babel_dump.specs.Changes.{changes_of};
ghost use Rattle.babel_dump.specs.Command.{HasManyDifferences, ListsDifferences};
ghost use Rattle.babel_dump.specs.InFormat.{differences_in};
ghost use Rattle.babel_dump.specs.Parts.{ComparedTooMany, Says};
ghost use Rattle.babel_dump.specs.RunText.{differences_status};
ghost use Rattle.babel_dump.specs.SlicedRows.{lines_of};

use crate::both::SeenTables;
use crate::changes::Changes;
use crate::format::Format;
use crate::output::{count_output, same_output};
use crate::run_fault::RunFault;
use crate::slices::{Found, Rows};
use babel_canon::difference_count;
use babel_table::Limits;
use babel_tlv::View;
use std::alloc::{AllocError, Global};

/// The lines of what two tables answer differently, or of how many differences there are. Their
/// faults are the first dump's.
pub(crate) fn found_differences(
    alloc: Global,
    limits: Limits,
    view: View,
    count: bool,
    format: &Format,
    seen: SeenTables,
) -> Result<Found, RunFault>
    ensures ok { IfOk result
        (Says format.now (ListsDifferences limits view count format.now seen.left seen.right)) }
    ensures err { IfErr result
        (ComparedTooMany (HasManyDifferences limits seen.left seen.right)) }
{
    if count {
        let number = difference_count(alloc, limits, &seen.left, &seen.right)?;
        let text = count_output(alloc, format, "differences", number)?;
        let outcome = seen.compared(alloc, differences_status(number))?;
        return Ok(Found::text(text, outcome));
    }
    let differences = babel_canon::differences(alloc, limits, &seen.left, &seen.right)?;
    let outcome = seen.compared(alloc, differences_status(differences.len()))?;
    drop(seen);
    let (rows, after) = difference_rows(alloc, view, format, Changes::Listed(differences))?;
    Ok(Found::rows(rows, after, outcome))
}

/// The lines of each difference, or `same` where there is none.
pub(crate) fn difference_rows(
    alloc: Global,
    view: View,
    format: &Format,
    changes: Changes,
) -> Result<(Rows, Vec<u8>), AllocError>
    ensures { IfOk result (λ found. lines_of format.now found.0 ++ found.1.items
        ≡ differences_in format.now view (changes_of changes)) }
{
    if changes.is_empty() {
        return Ok((Rows::Empty, same_output(alloc, format)?));
    }
    Ok((Rows::Differences(view, changes), Vec::new(alloc)))
}

/// The status for this many differences.
pub(crate) fn differences_status(count: usize) -> u8
    ensures { result ≡ differences_status count }
{
    if count == 0 { 0 } else { 1 }
}
