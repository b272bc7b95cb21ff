ghost use Rattle.std.specs.Prelude.{◌≡◌, ◌<◌, ◌+◌, ◌^◌, ◌⊎◌, if◌then◌else◌, [], length, is_some};
ghost use Rattle.std.specs.Prelude.{IfErr, IfOk, None, OnErr, OnOk, Some, true};
ghost use Rattle.std.specs.List.Sorted.{IsStrictlySortedBy};
ghost use Rattle.std.specs.BTreeMap.{insert_entry, is_at};
ghost use Rattle.std.specs.Map.{keys_of, lookup, remove_entry};
ghost use Rattle.babel_tlv.specs.Keys.{key_cmp};
ghost use Rattle.babel_tlv.specs.Pairs.{IsPair};
ghost use Rattle.babel_table.specs.RowFor.{IsBestOf};
ghost use Rattle.babel_table.specs.Live.{kept, kept_at, lasting, live_rows};
ghost use Rattle.babel_table.specs.Words.{replaced};
ghost use Rattle.babel_table.specs.TableRows.{AreRows};

use crate::family_rows::FamilyRows;
use crate::moment::Moment;
use crate::nested_rows::NestedRows;
use crate::sorted_rows::SortedRows;
use crate::v4_rows::V4Rows;
use babel_prefix::{Addr, Family, Halves};
use babel_tlv::{Fault, Held, Key};
use std::alloc::{AllocError, Global};
use std::marker::Model;

/// What is kept for each key: of IPv4, then of IPv6.
#[derive(Drop)]
pub struct KeptRows {
    v4: V4Rows,
    v6: FamilyRows<Halves, Halves>,
}

impl Model for KeptRows {
    ghost use Rattle.std.specs.Prelude.{List, ◌++◌};
    ghost use Rattle.babel_prefix.specs.declared.family.Family.TheVariants.{V4, V6};
    ghost use Rattle.babel_tlv.specs.Route.{RouteKey};
    ghost use Rattle.babel_table.specs.Compact.{AreOf};
    ghost use Rattle.babel_table.specs.Live.{Kept};

    ghost Value = { List (RouteKey × Kept) };

    ghost view = { λ r. r.v4 ++ r.v6 };

    ghost invariant = { λ r. AreOf V4 r.v4 × AreOf V6 r.v6 };
}

impl KeptRows {
    /// Nothing for any key.
    pub fn new(alloc: Global, seed: u128) -> KeptRows
        ensures { result ≡ [] }
    {
        KeptRows {
            v4: V4Rows::new(alloc, seed),
            v6: FamilyRows::new(alloc, seed),
        }
    }

    /// For how many keys there is something.
    pub fn len(&self) -> usize
        ensures len { result ≡ length self.now }
        ensures rising { IsStrictlySortedBy key_cmp (keys_of self.now) }
    {
        self.v4.len() + self.v6.len()
    }

    /// Keeps this for the key, with its mark. Where there is nothing for it, the refusal is
    /// answered, if there is one.
    pub fn put(
        &mut self,
        key: &Key,
        held: Held,
        mark: u64,
        refusal: Option<Fault>,
    ) -> Result<(), Fault>
        requires pair { IsPair (key.now, held) }
        requires few { length self.old < 2 ^ 62 }
        ensures ok { OnOk result
            (self.new ≡ insert_entry key_cmp self.old key.now (kept held mark)) }
        ensures len { OnOk result (length self.new ≡ length self.old
            + (if is_some (lookup (is_at (key_cmp key.now)) self.old) then 0 else 1)) }
        ensures room { OnOk result ((refusal ≡ None)
            ⊎ (is_some (lookup (is_at (key_cmp key.now)) self.old) ≡ true)) }
        ensures err { OnErr result (self.new ≡ self.old) }
        ensures cause { IfErr result (λ fault. (fault ≡ Fault.Memory)
            ⊎ ((refusal ≡ Some fault) × (lookup (is_at (key_cmp key.now)) self.old ≡ None))) }
    {
        match key.dst().family() {
            Family::V4 => self.v4.put(key, held, mark, refusal),
            Family::V6 => self.v6.put(key, held, mark, refusal),
        }
    }

    /// Keeps nothing for the key.
    pub fn forget(&mut self, key: &Key)
        ensures { self.new ≡ remove_entry (is_at (key_cmp key.now)) self.old }
    {
        match key.dst().family() {
            Family::V4 => self.v4.forget(key),
            Family::V6 => self.v6.forget(key),
        }
    }

    /// Keeps nothing for any key.
    pub fn clear(&mut self)
        ensures { self.new ≡ [] }
    {
        self.v4.clear();
        self.v6.clear();
    }

    /// For how many keys there is a route that has expired at the moment.
    pub fn count_expired(&self, moment: &Moment<'_>) -> usize
        ensures { result + length (lasting moment.now self.now) ≡ length self.now }
    {
        self.v4.count_expired(moment) + self.v6.count_expired(moment)
    }

    /// Keeps what is left at the moment.
    pub fn leave(&mut self, moment: &Moment<'_>)
        ensures { self.new ≡ replaced (kept_at moment.now) self.old }
    {
        self.v4.leave(moment);
        self.v6.leave(moment);
    }

    /// The rows that these stand for after so many wipes.
    pub fn listed(self, alloc: Global, wipes: u64) -> Result<SortedRows, AllocError>
        requires { AreRows (live_rows wipes self) }
        ensures { IfOk result (λ rows. rows ≡ live_rows wipes self) }
    {
        let v4 = self.v4.listed(alloc, wipes)?;
        let v6 = self.v6.listed(alloc, wipes)?;
        let nested_v6 = NestedRows::of(alloc, v6)?;
        Ok(SortedRows { v4, v6: nested_v6 })
    }

    /// The best matching row after so many wipes, for two addresses of one family.
    pub fn best_match(&self, wipes: u64, dst: &Addr, src: &Addr) -> Option<(Key, Held)>
        requires one_family { dst.now.family ≡ src.now.family }
        ensures { IsBestOf (live_rows wipes self.now) dst.now src.now result }
    {
        match dst.family() {
            Family::V4 => self.v4.best_match(wipes, dst, src),
            Family::V6 => self.v6.best_match(wipes, dst, src),
        }
    }
}
