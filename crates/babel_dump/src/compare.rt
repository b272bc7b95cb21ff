ghost use Rattle.std.specs.Prelude.{◌≡◌, IfErr, IfOk};
ghost use Rattle.babel_dump.specs.Command.{Compares, IsOfMemory};
ghost use Rattle.babel_dump.specs.Parts.{Says};
ghost use Rattle.babel_dump.specs.RunText.{verdict_status};

use crate::both::SeenTables;
use crate::format::Format;
use crate::output::verdict_output;
use crate::run_fault::RunFault;
use crate::slices::Found;
use babel_canon::Verdict;
use babel_tlv::View;
use std::alloc::Global;

/// The lines of how the answers of two tables compare. Running out of memory is the first dump's
/// fault.
pub(crate) fn found_verdict(
    alloc: Global,
    view: View,
    format: &Format,
    seen: &SeenTables,
) -> Result<Found, RunFault>
    ensures ok { IfOk result
        (Says format.now (Compares view format.now seen.now.left seen.now.right)) }
    ensures err { IfErr result IsOfMemory }
{
    let verdict = babel_canon::compare(alloc, &seen.left, &seen.right)?;
    let text = verdict_output(alloc, format, view, &verdict)?;
    let outcome = seen.compared(alloc, verdict_status(&verdict))?;
    Ok(Found::text(text, outcome))
}

/// The status of a verdict.
fn verdict_status(verdict: &Verdict) -> u8
    ensures { result ≡ verdict_status verdict.now }
{
    match verdict {
        Verdict::Same => 0,
        Verdict::Differ { .. } => 1,
    }
}
