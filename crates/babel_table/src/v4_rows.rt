ghost use Rattle.std.specs.Prelude.{◌≡◌, ◌<◌, ◌+◌, ◌^◌, ◌⊎◌, if◌then◌else◌, [], length, is_some};
ghost use Rattle.std.specs.Prelude.{IfErr, IfOk, None, OnErr, OnOk, Some, true};
ghost use Rattle.std.specs.List.Sorted.{IsStrictlySortedBy};
ghost use Rattle.std.specs.BTreeMap.{insert_entry, is_at};
ghost use Rattle.std.specs.Map.{keys_of, lookup, remove_entry};
ghost use Rattle.babel_prefix.specs.declared.family.Family.TheVariants.{V4};
ghost use Rattle.babel_tlv.specs.Keys.{key_cmp};
ghost use Rattle.babel_tlv.specs.Pairs.{FitsKey};
ghost use Rattle.babel_table.specs.RowFor.{IsBestOf};
ghost use Rattle.babel_table.specs.Compact.{AreOf, is_via_v6};
ghost use Rattle.babel_table.specs.Live.{kept, kept_at, lasting, live_rows};
ghost use Rattle.babel_table.specs.Words.{replaced};
ghost use Rattle.babel_table.specs.TableRows.{AreRows};

use crate::family_rows::FamilyRows;
use crate::moment::Moment;
use crate::nested_rows::NestedRows;
use crate::nested_v4::NestedV4;
use babel_prefix::{Addr, Family};
use babel_tlv::{Fault, Held, Key};
use std::alloc::{AllocError, Global};
use std::marker::Model;

/// What is kept for the keys of IPv4. Next hops take 4 octets each, until a route comes that has
/// one of IPv6: RFC 9229.
#[derive(Drop)]
pub struct V4Rows {
    alloc: Global,
    seed: u128,
    is_wide: bool,
    /// All rows, as long as no route has a next hop of IPv6.
    narrow: FamilyRows<u32, u32>,
    /// All rows from then on.
    wide: FamilyRows<u32, Addr>,
}

impl Model for V4Rows {
    ghost use Rattle.std.specs.Prelude.{List, if◌then◌else◌};
    ghost use Rattle.babel_tlv.specs.Route.{RouteKey};
    ghost use Rattle.babel_table.specs.Live.{Kept};

    ghost Value = { List (RouteKey × Kept) };

    ghost view = { λ r. if r.is_wide then r.wide else r.narrow };
}

/// Whether a route has a next hop of IPv6.
fn is_via_v6(held: &Held) -> bool
    ensures { result ≡ is_via_v6 held.now }
{
    match held {
        Held::Route(ann) => ann.next_hop().family() == Family::V6,
        Held::Unreachable => false,
    }
}

impl V4Rows {
    /// Nothing for any key.
    pub fn new(alloc: Global, seed: u128) -> V4Rows
        ensures { result ≡ [] }
    {
        V4Rows {
            alloc,
            seed,
            is_wide: false,
            narrow: FamilyRows::new(alloc, seed),
            wide: FamilyRows::new(alloc, seed),
        }
    }

    /// For how many keys there is something.
    pub fn len(&self) -> usize
        ensures len { result ≡ length self.now }
        ensures small { result < 2 ^ 63 }
        ensures rising { IsStrictlySortedBy key_cmp (keys_of self.now) }
    {
        if self.is_wide {
            self.wide.len()
        } else {
            self.narrow.len()
        }
    }

    /// Keeps this for the key, with its mark. Where there is nothing for it, the refusal is
    /// answered, if there is one.
    pub fn put(
        &mut self,
        key: &Key,
        held: Held,
        mark: u64,
        refusal: Option<Fault>,
    ) -> Result<(), Fault>
        requires family { key.now.dst.address.family ≡ V4 }
        requires fits { FitsKey key.now held }
        requires few { length self.old < 2 ^ 62 }
        ensures ok { OnOk result
            (self.new ≡ insert_entry key_cmp self.old key.now (kept held mark)) }
        ensures len { OnOk result (length self.new ≡ length self.old
            + (if is_some (lookup (is_at (key_cmp key.now)) self.old) then 0 else 1)) }
        ensures room { OnOk result ((refusal ≡ None)
            ⊎ (is_some (lookup (is_at (key_cmp key.now)) self.old) ≡ true)) }
        ensures err { OnErr result (self.new ≡ self.old) }
        ensures cause { IfErr result (λ fault. (fault ≡ Fault.Memory)
            ⊎ ((refusal ≡ Some fault) × (lookup (is_at (key_cmp key.now)) self.old ≡ None))) }
    {
        if self.is_wide {
            return self.wide.put(key, held, mark, refusal);
        }
        if !is_via_v6(&held) {
            return self.narrow.put(key, held, mark, refusal);
        }
        if let Some(fault) = refusal {
            if !self.narrow.has(key) {
                return Err(fault);
            }
        }
        self.wide = self.narrow.widened(self.seed)?;
        self.narrow = FamilyRows::new(self.alloc, self.seed);
        self.is_wide = true;
        self.wide.put(key, held, mark, refusal)
    }

    /// Keeps nothing for the key.
    pub fn forget(&mut self, key: &Key)
        requires { key.now.dst.address.family ≡ V4 }
        ensures { self.new ≡ remove_entry (is_at (key_cmp key.now)) self.old }
    {
        if self.is_wide {
            self.wide.forget(key);
        } else {
            self.narrow.forget(key);
        }
    }

    /// Keeps nothing for any key.
    pub fn clear(&mut self)
        ensures { self.new ≡ [] }
    {
        self.wide.clear();
        self.narrow.clear();
    }

    /// For how many keys there is a route that has expired at the moment.
    pub fn count_expired(&self, moment: &Moment<'_>) -> usize
        ensures count { result + length (lasting moment.now self.now) ≡ length self.now }
        ensures small { result < 2 ^ 63 }
    {
        if self.is_wide {
            self.wide.count_expired(moment)
        } else {
            self.narrow.count_expired(moment)
        }
    }

    /// Keeps what is left at the moment.
    pub fn leave(&mut self, moment: &Moment<'_>)
        ensures { self.new ≡ replaced (kept_at moment.now) self.old }
    {
        if self.is_wide {
            self.wide.leave(moment);
        } else {
            self.narrow.leave(moment);
        }
    }

    /// The rows that these stand for after so many wipes, in order.
    pub fn listed(self, alloc: Global, wipes: u64) -> Result<NestedV4, AllocError>
        requires rows { AreRows (live_rows wipes self) }
        requires family { AreOf V4 self }
        ensures { IfOk result (λ rows. rows ≡ live_rows wipes self) }
    {
        let V4Rows {
            is_wide,
            narrow,
            wide,
            ..
        } = self;
        if is_wide {
            let rows = wide.listed(alloc, wipes)?;
            return Ok(NestedV4 {
                is_wide,
                narrow: NestedRows::none(alloc),
                wide: NestedRows::of(alloc, rows)?,
            });
        }
        let rows = narrow.listed(alloc, wipes)?;
        Ok(NestedV4 {
            is_wide,
            narrow: NestedRows::of(alloc, rows)?,
            wide: NestedRows::none(alloc),
        })
    }

    /// The best matching row after so many wipes, for two addresses of IPv4.
    pub fn best_match(&self, wipes: u64, dst: &Addr, src: &Addr) -> Option<(Key, Held)>
        requires dst_family { dst.now.family ≡ V4 }
        requires src_family { src.now.family ≡ V4 }
        ensures { IsBestOf (live_rows wipes self.now) dst.now src.now result }
    {
        if self.is_wide {
            self.wide.best_match(wipes, dst, src)
        } else {
            self.narrow.best_match(wipes, dst, src)
        }
    }
}
