//! What each task finds of the tables that it is of.
ghost use Rattle.std.specs.Prelude.{◌≡◌, IfErr, IfOk};
ghost use Rattle.babel_dump.specs.Files.{name_of};
ghost use Rattle.babel_dump.specs.Parts.{ComparedTooMany, FoundTooMany, Says};
ghost use Rattle.babel_dump.specs.RunText.{row_in};
ghost use Rattle.babel_dump.specs.Tasks.{ComparisonFinds, ComparisonFindsTooMany};
ghost use Rattle.babel_dump.specs.Tasks.{TaskFinds, TaskFindsTooMany};

use crate::addr_pair::AddrPair;
use crate::any_source::found_any_source;
use crate::both::SeenTables;
use crate::compare::found_verdict;
use crate::diff::found_diff;
use crate::differences::found_differences;
use crate::format::Format;
use crate::job::{Comparison, DumpFile, Form, Listed, Task};
use crate::key::found_key;
use crate::lookup::found_answer;
use crate::normalise::found_octets;
use crate::pairs::found_pairs;
use crate::reading::Reading;
use crate::routes::{found_route_differences, found_routes};
use crate::run_fault::RunFault;
use crate::show::found_rows;
use crate::slices::Found;
use babel_table::{Answer, Table};
use babel_tlv::{Fault, View};
use std::alloc::Global;

/// What a task finds of the table of a dump.
pub(crate) fn found_of(
    alloc: Global,
    reading: Reading,
    file: &DumpFile,
    task: Task,
    format: &Format,
    quiet: bool,
    table: Table,
) -> Result<Found, Fault>
    ensures ok { IfOk result (Says format.now (TaskFinds task format.now quiet (name_of file.now)
        reading table)) }
    ensures err { IfErr result (FoundTooMany (TaskFindsTooMany task reading.limits table)) }
{
    let name = file.name();
    match task {
        Task::Show { filter, summary } => {
            Ok(found_rows(alloc, filter, summary, quiet, format, table)?)
        }
        Task::Lookup { pair, with_prefix } => Ok(found_answer(
            alloc,
            pair,
            with_prefix,
            format,
            &answer_of(&table, pair),
        )?),
        Task::AnySource { dst, with_prefix } => {
            Ok(found_any_source(alloc, dst, with_prefix, format, &table)?)
        }
        Task::Normalise {
            form,
            view,
            body,
            hex,
        } => found_octets(alloc, reading, form, view, body, hex, format, table),
        Task::Key { form, view } => { found_key(alloc, reading, form, view, format, name, table) }
        Task::Pairs {
            form,
            view,
            filter,
            count,
        } => match form {
            Form::Answers => {
                found_pairs(alloc, reading.limits, view, filter, count, format, table)
            }
            Form::Routes => Ok(found_routes(alloc, view, filter, count, format, table)?),
        },
    }
}

/// What a comparison finds of the tables of two dumps. Its faults are the first dump's.
pub(crate) fn found_of_both(
    alloc: Global,
    one: Reading,
    two: Reading,
    view: View,
    task: Comparison,
    format: &Format,
    file: &str,
    other_file: &str,
    seen: SeenTables,
) -> Result<Found, RunFault>
    ensures ok { IfOk result (Says format.now (ComparisonFinds task format.now view file.now
        other_file.now one two seen.left seen.right)) }
    ensures err { IfErr result (ComparedTooMany
        (ComparisonFindsTooMany task one.limits seen.left seen.right)) }
{
    match task {
        Comparison::Compare { form, listed } => match form {
            Form::Answers => match listed {
                Listed::First => found_verdict(alloc, view, format, &seen),
                Listed::All => found_differences(alloc, one.limits, view, false, format, seen),
                Listed::Count => found_differences(alloc, one.limits, view, true, format, seen),
            },
            Form::Routes => found_route_differences(alloc, view, listed, format, seen),
        },
        Comparison::Diff(style) => found_diff(
            alloc, one, two, view, style, format, file, other_file, seen,
        ),
    }
}

/// The row by which a table answers for a destination and a source.
fn answer_of(table: &Table, pair: AddrPair) -> Answer
    ensures { result ≡ record {
      row = row_in table.now pair.dst pair.src;
      report = table.now.report;
    } }
{
    Answer {
        row: table.best(&pair.dst, &pair.src),
        report: *table.report(),
    }
}
