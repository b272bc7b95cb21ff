ghost use Rattle.std.specs.Prelude.{IfOk, IfErr};
ghost use Rattle.babel_table.specs.Seen.{seen_rows};
ghost use Rattle.babel_canon.specs.Canonical.{CanonicalFault};
ghost use Rattle.babel_dump.specs.Command.{ListsPairs};
ghost use Rattle.babel_dump.specs.Filter.{kept_pairs_in};
ghost use Rattle.babel_dump.specs.Parts.{Says};

use crate::filter::Filter;
use crate::format::Format;
use crate::kept_count::kept_count;
use crate::outcome::Outcome;
use crate::output::counts_output;
use crate::slices::{Found, Rows};
use babel_canon::CanonicalPairs;
use babel_canon::laws::text_is_one;
use babel_table::{Limits, Table};
use babel_tlv::{Fault, View};
use std::alloc::Global;

/// The canonical pairs of a table under a view that a filter keeps, or how many there are, and how
/// many rows. The table is gone before the pairs are written.
pub(crate) fn found_pairs(
    alloc: Global,
    limits: Limits,
    view: View,
    filter: Filter,
    count: bool,
    format: &Format,
    table: Table,
) -> Result<Found, Fault>
    ensures ok { IfOk result (Says format.now
        (ListsPairs limits view (kept_pairs_in format.now view filter count) table)) }
    ensures err { IfErr result (CanonicalFault limits (seen_rows view table.rows)) }
{
    text_is_one();
    let outcome = Outcome::of_dump(0, *table.report());
    let rows = filter.count(&table);
    let seen = table.seen(view);
    if count {
        let pairs = kept_count(alloc, limits, filter, &seen)?;
        let text = counts_output(alloc, format, rows, pairs)?;
        return Ok(Found::text(text, outcome));
    }
    let pairs = CanonicalPairs::of(alloc, limits, &seen)?;
    let rows = Rows::Pairs(filter, view, pairs);
    Ok(Found::rows(rows, Vec::new(alloc), outcome))
}
