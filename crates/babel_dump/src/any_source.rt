//! A lookup without `--src`.
ghost use Rattle.std.specs.Prelude.{◌≡◌, ◌↔◌, IfOk, IsTrue};
ghost use Rattle.std.specs.Option.{SomeIff};
ghost use Rattle.babel_dump.specs.AnySource.{HasSourceSpecific, IsSourceSpecific};
ghost use Rattle.babel_dump.specs.AnySource.{LooksUpAnySource, any_source};
ghost use Rattle.babel_dump.specs.Parts.{Says};

use crate::addr_pair::AddrPair;
use crate::format::Format;
use crate::lookup::lookup_status;
use crate::outcome::{Outcome, Reports};
use crate::output::{Answered, lookup_output};
use crate::slices::Found;
use babel_prefix::{Addr, Family, Prefix};
use babel_table::Table;
use babel_tlv::Key;
use std::alloc::{AllocError, Global};

/// The line of what a table answers for a destination and the source 0.0.0.0 or ::.
pub(crate) fn found_any_source(
    alloc: Global,
    dst: Addr,
    with_prefix: bool,
    format: &Format,
    table: &Table,
) -> Result<Found, AllocError>
    ensures { IfOk result
        (Says format.now (LooksUpAnySource format.now with_prefix dst table.now)) }
{
    let src = any_source(dst.family());
    let row = table.best(&dst, &src);
    let outcome = Outcome {
        status: lookup_status(&row),
        reports: Reports::AnySource(*table.report(), source_to_tell(table, &dst)),
    };
    let answered = Answered {
        pair: AddrPair { dst, src },
        row,
        with_prefix,
    };
    let text = lookup_output(alloc, format, answered)?;
    Ok(Found::text(text, outcome))
}

/// The source of an answer that is for any source.
pub(crate) fn any_source(family: Family) -> Addr
    ensures { result ≡ any_source family }
{
    Prefix::whole(family).addr()
}

/// The source that an answer for any source is for, if routes to the destination are
/// source-specific.
fn source_to_tell(table: &Table, dst: &Addr) -> Option<Addr>
    ensures { SomeIff result (HasSourceSpecific dst.now table.now.rows)
        (any_source dst.now.family) }
{
    for (key, _held) in table.rows() {
        if is_source_specific(key, dst) {
            return Some(any_source(dst.family()));
        }
    }
    None
}

/// Whether a key is for the destination, and not for every source.
pub(crate) fn is_source_specific(key: Key, dst: &Addr) -> bool
    ensures { IsTrue result ↔ IsSourceSpecific dst.now key }
{
    key.dst().contains(dst) && key.src().len() > 0
}
