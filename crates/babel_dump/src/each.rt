ghost use Rattle.std.specs.Prelude.{◌≡◌, IfOk, map};
ghost use Rattle.std.specs.List.{AllZip};
ghost use Rattle.babel_table.specs.RowFor.{IsPlaceFor};
ghost use Rattle.babel_dump.specs.Device.{HasRoomToCount};
ghost use Rattle.babel_dump.specs.Each.{GavePairsOf, LooksUpEach, RefusesPairs};
ghost use Rattle.babel_dump.specs.Given.{read_from};
ghost use Rattle.babel_dump.specs.Parts.{Gathered, Says};
ghost use Rattle.babel_dump.specs.Run.{stream_calls};
ghost use Rattle.babel_dump.specs.RunText.{pair_status};
ghost use Rattle.babel_dump.specs.declared.format.Format.{Format};

use crate::addr_pair::AddrPair;
use crate::answers::Answers;
use crate::asked_pairs::asked_pairs;
use crate::byte_in::ByteIn;
use crate::format::Format;
use crate::input::read_text;
use crate::lookup::lookup_status;
use crate::outcome::Outcome;
use crate::reading::Reading;
use crate::run_fault::RunFault;
use crate::slices::{Found, Rows};
use crate::statuses::status_of_all;
use babel_table::{RowPlace, Table};
use std::alloc::{AllocError, Global};

/// Reads the pairs that a text asks for, of no more octets than a dump may have.
pub(crate) fn read_pairs<S: ByteIn>(
    alloc: Global,
    reading: Reading,
    pairs: &mut S,
) -> Result<Vec<AddrPair>, RunFault>
    requires { HasRoomToCount (S.state pairs.old) }
    ensures { let input = read_from (S.state pairs.old) (S.state pairs.new) reading in
        Gathered (stream_calls input) (RefusesPairs input) (λ pairs. GavePairsOf input pairs.items)
        result }
{
    let text = read_text(alloc, reading, pairs)?;
    asked_pairs(alloc, &text)
}

/// The lines of what a table answers for each of these pairs, and the status of each.
pub(crate) fn found_answers(
    alloc: Global,
    with_prefix: bool,
    asked: Vec<AddrPair>,
    table: Table,
) -> Result<(Found, Vec<u8>), AllocError>
    ensures found { IfOk result (λ found. (format : Format)
        → Says format (LooksUpEach format with_prefix asked.items table) found.0) }
    ensures statuses { IfOk result
        (λ found. found.1.items ≡ map (pair_status table) asked.items) }
{
    let (places, statuses) = look_up(alloc, &table, &asked)?;
    let outcome = Outcome::of_dump(status_of_all(&statuses), *table.report());
    let answers = Answers {
        asked,
        places,
        table,
    };
    let rows = Rows::Answers(with_prefix, answers);
    Ok((Found::rows(rows, Vec::new(alloc), outcome), statuses))
}

/// Where the row stands by which a table answers for each of these pairs, and the status of each.
fn look_up(
    alloc: Global,
    table: &Table,
    asked: &[AddrPair],
) -> Result<(Vec<RowPlace>, Vec<u8>), AllocError>
    ensures places { IfOk result (λ found. AllZip
        (λ pair place. IsPlaceFor table.now.rows pair.dst pair.src place)
        asked.now found.0.items) }
    ensures statuses { IfOk result
        (λ found. found.1.items ≡ map (pair_status table.now) asked.now) }
{
    let mut places = Vec::with_capacity(alloc, asked.len())?;
    let mut statuses = Vec::with_capacity(alloc, asked.len())?;
    for pair in asked {
        let place = table.best_place(&pair.dst, &pair.src);
        places.push(place)?;
        statuses.push(lookup_status(&table.row_at(pair.dst.family(), place)))?;
    }
    Ok((places, statuses))
}
