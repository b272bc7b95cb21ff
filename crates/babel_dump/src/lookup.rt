ghost use Rattle.std.specs.Prelude.{◌≡◌, IfOk};
ghost use Rattle.babel_table.specs.RowFor.{held_of};
ghost use Rattle.babel_dump.specs.Command.{LooksUp};
ghost use Rattle.babel_dump.specs.Parts.{Says};
ghost use Rattle.babel_dump.specs.RunText.{lookup_status};

use crate::addr_pair::AddrPair;
use crate::format::Format;
use crate::outcome::Outcome;
use crate::output::{Answered, lookup_output};
use crate::slices::Found;
use babel_table::Answer;
use babel_tlv::{Held, Key};
use std::alloc::{AllocError, Global};

/// The line of what a dump answers for a destination and a source.
pub(crate) fn found_answer(
    alloc: Global,
    pair: AddrPair,
    with_prefix: bool,
    format: &Format,
    answer: &Answer,
) -> Result<Found, AllocError>
    ensures { IfOk result (Says format.now (LooksUp format.now with_prefix pair.dst pair.src
        answer.now.report answer.now.row)) }
{
    let outcome = Outcome::of_dump(lookup_status(&answer.row), answer.report);
    let answered = Answered {
        pair,
        row: answer.row,
        with_prefix,
    };
    let text = lookup_output(alloc, format, answered)?;
    Ok(Found::text(text, outcome))
}

/// The status of the answer of a row.
pub(crate) fn lookup_status(row: &Option<(Key, Held)>) -> u8
    ensures { result ≡ lookup_status (held_of row.now) }
{
    match row {
        Some((_, Held::Route(_))) => 0,
        Some((_, Held::Unreachable)) | None => 1,
    }
}
