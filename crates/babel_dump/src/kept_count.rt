//! How many canonical pairs a filter keeps.
ghost use Rattle.std.specs.Prelude.{◌≡◌, ◌∷◌, ◌++◌, List, [], IfOk, IfErr, OnOk, OnErr, ⊤};
ghost use Rattle.babel_tlv.specs.Pair.{Pair};
ghost use Rattle.babel_canon.specs.Canonical.{CanonicalFault};
ghost use Rattle.babel_dump.specs.PairLines.{CountsKept};

use crate::filter::Filter;
use babel_canon::{CanonicalPairs, PairSink};
use babel_table::{Limits, Table};
use babel_tlv::{Fault, Held, Key};
use std::alloc::Global;

/// How many of the canonical pairs of a table a filter keeps. `TooManyPairs` if all of them are
/// more than the entries of the limits; else `Memory`, if there is too little.
pub(crate) fn kept_count(
    alloc: Global,
    limits: Limits,
    filter: Filter,
    table: &Table,
) -> Result<usize, Fault>
    ensures ok { IfOk result (CountsKept limits filter table.now.rows) }
    ensures err { IfErr result (CanonicalFault limits table.now.rows) }
{
    let pairs = CanonicalPairs::of(alloc, limits, table)?;
    let all = pairs.count();
    if filter.is_every() {
        return Ok(all);
    }
    let mut kept = KeptCount { filter, count: 0 };
    pairs.put(&mut kept)?;
    Ok(kept.count)
}

/// Counts the pairs that a filter keeps.
#[derive(Drop)]
struct KeptCount {
    filter: Filter,
    count: usize,
}

impl PairSink for KeptCount {
    ghost use Rattle.babel_dump.specs.PairLines.{HasCounted};

    type Error = Fault;

    ghost has = { HasCounted };

    ghost stopped = { λ _ _ _. ⊥ };

    fn put(&mut self, key: Key, held: Held) -> Result<(), Fault> {
        if self.filter.keeps(&key, &held) {
            self.count = self.count.wrapping_add(1);
        }
        Ok(())
    }
}
