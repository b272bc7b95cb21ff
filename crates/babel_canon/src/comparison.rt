ghost use Rattle.std.specs.Prelude.{◌≡◌, IfOk, IfErr};
ghost use Rattle.babel_canon.specs.Verdict.{IsVerdict};
ghost use Rattle.babel_canon.specs.FirstDifference.{IsFirstDifference, IsFirstInFamily};

use crate::grids::{PackedRows, family_values};
use crate::values::Values;
use crate::verdict::Verdict;
use babel_prefix::{Addr, Family};
use babel_table::Table;
use babel_tlv::Fault;
use babel_trie::least_difference_of;
use std::alloc::{AllocError, Global};

/// The least pair of a destination and a source of one family that two tables answer differently;
/// `None` if there is none.
fn family_difference(
    alloc: Global,
    family: Family,
    left: &Table,
    right: &Table,
) -> Result<Option<(Addr, Addr)>, AllocError>
    ensures { IfOk result (IsFirstInFamily family left.now.rows right.now.rows) }
{
    let mut values = Values::new(alloc);
    let mine = family_values(alloc, family, left, &mut values)?;
    let theirs = family_values(alloc, family, right, &mut values)?;
    drop(values);
    least_difference_of(
        alloc,
        family,
        PackedRows::of(family, left, mine.as_slice()),
        PackedRows::of(family, right, theirs.as_slice()),
    )
}

/// The same in both families: a pair of IPv6 only where IPv4 has none.
fn first_difference(
    alloc: Global,
    left: &Table,
    right: &Table,
) -> Result<Option<(Addr, Addr)>, AllocError>
    ensures { IfOk result (IsFirstDifference left.now.rows right.now.rows) }
{
    match family_difference(alloc, Family::V4, left, right)? {
        None => family_difference(alloc, Family::V6, left, right),
        found => Ok(found),
    }
}

/// Whether two tables give every destination and source the same answer; and if not, the least pair
/// at which they differ. `Memory` if there is too little, and no other fault.
pub fn compare(alloc: Global, left: &Table, right: &Table) -> Result<Verdict, Fault>
    ensures ok { IfOk result (IsVerdict left.now.rows right.now.rows) }
    ensures err { IfErr result (λ fault. fault ≡ Fault.Memory) }
{
    let Some((dst, src)) = first_difference(alloc, left, right)? else {
        return Ok(Verdict::Same);
    };
    Ok(Verdict::Differ {
        dst,
        src,
        left: left.lookup(&dst, &src),
        right: right.lookup(&dst, &src),
    })
}
