ghost use Rattle.std.specs.Prelude.{◌≡◌, ◌++◌, List, IfOk, IfErr, OnOk, OnErr, length};
ghost use Rattle.babel_tlv.specs.Pair.{Pair};
ghost use Rattle.babel_trie.specs.Sinks.{StopsAmong};
ghost use Rattle.babel_canon.specs.Canonical.{AreCanonical, CanonicalFault};

use crate::grids::Grids;
use crate::pair_sink::PairSink;
use crate::unpacked::Unpacked;
use crate::values::{PackedValue, Values};
use babel_table::{Limits, Table};
use babel_tlv::Fault;
use std::alloc::Global;
use std::marker::Model;

/// The canonical pairs of a table, by family, IPv4 first, then by destination, then by source. None
/// of them is made before it is put into a sink.
#[derive(Drop)]
pub struct CanonicalPairs {
    grids: Grids<PackedValue>,
    values: Values,
}

impl Model for CanonicalPairs {
    ghost use Rattle.std.specs.Prelude.{◌≡◌, ◌+◌, ◌^◌, ◌<◌, List, length};
    ghost use Rattle.babel_prefix.specs.declared.family.Family.TheVariants.{V4, V6};
    ghost use Rattle.babel_tlv.specs.Pair.{Pair};
    ghost use Rattle.babel_canon.specs.Values.{valued_pairs};

    ghost Value = { List Pair };

    ghost view = { λ p. valued_pairs p.values.list.items p.grids.v4.boxes p.grids.v6.boxes };

    ghost invariant = { λ p. (p.grids.v4.family ≡ V4) × (p.grids.v6.family ≡ V6)
        × (length p.grids.v4.boxes + length p.grids.v6.boxes < 2 ^ 64) };
}

impl CanonicalPairs {
    /// The canonical pairs of a table. `TooManyPairs` if they are more than the entries of the
    /// limits; else `Memory`, if there is too little.
    ///
    /// The pairs do not overlap and have the answers of the table, and no such list has fewer.
    pub fn of(alloc: Global, limits: Limits, table: &Table) -> Result<CanonicalPairs, Fault>
        ensures ok { IfOk result (λ pairs. AreCanonical limits table.now.rows pairs) }
        ensures err { IfErr result (CanonicalFault limits table.now.rows) }
    {
        let mut values = Values::new(alloc);
        let Some(grids) = Grids::of(alloc, limits, table, &mut values)? else {
            return Err(Fault::TooManyPairs);
        };
        if grids.count() > limits.entries() as u64 {
            return Err(Fault::TooManyPairs);
        }
        Ok(CanonicalPairs { grids, values })
    }

    /// How many they are.
    pub fn count(&self) -> usize
        ensures { result ≡ length self.now }
    {
        self.grids.count() as usize
    }

    /// Puts the pairs into a sink, in their order. It takes no memory of its own. `Err` as of the
    /// sink; no pair is then put after the one that was not taken.
    pub fn put<S: PairSink>(self, out: &mut S) -> Result<(), S::Error>
        requires { S.can_put out.old }
        ensures ok { OnOk result ((start : S) (pairs : List Pair) → S.has start out.old pairs
            → S.has start out.new (pairs ++ self)) }
        ensures err { OnErr result ((start : S) (pairs : List Pair) → S.has start out.old pairs
            → StopsAmong (S.stopped start out.new) pairs self) }
    {
        let CanonicalPairs { grids, values } = self;
        let mut sink = Unpacked {
            values: &values,
            out,
        };
        grids.put_boxes(&mut sink)
    }
}
