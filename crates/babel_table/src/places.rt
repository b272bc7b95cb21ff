//! Where the rows of keys stand.
ghost use Rattle.std.specs.Prelude.{◌≡◌, ◌<◌, ◌≤◌, ◌+◌, ℕ, [], length, false};
ghost use Rattle.std.specs.Prelude.{MatchOption, IfOk, OnOk, OnErr};
ghost use Rattle.std.specs.BTreeMap.{is_at};
ghost use Rattle.std.specs.Map.{keys_of};
ghost use Rattle.babel_tlv.specs.Route.{RouteKey};
ghost use Rattle.babel_tlv.specs.Keys.{key_cmp};
ghost use Rattle.babel_table.specs.Said.{AreDistinct, AreListed, AreTaken};
ghost use Rattle.babel_table.specs.Said.{IsFree, IsListed, IsPlace, IsUnlisted};

use crate::compact_key::CompactKey;
use crate::family_rows::{WordRow, has_key};
use crate::hop::Hop;
use crate::word::Word;
use std::alloc::{AllocError, Global};
use std::collections::BTreeMap;
use std::marker::Model;

/// So many slots are searched for a key.
const WIDTH: usize = 8;

/// What a slot has that has no place.
const NOWHERE: u32 = u32::MAX;

/// The tag of a key, and its place.
type Slot = (u32, u32);

/// The places of keys among rows that have them. A key's place is in one of a few slots, from the
/// one that its tag names; where these are taken, it is in a map. So a search is short whatever
/// keys a dump has; and without the seed no keys can be chosen that come to the map.
#[derive(Drop)]
pub struct Places<W: Word> {
    seed: u128,
    slots: Vec<Slot>,
    overflow: BTreeMap<CompactKey<W>, u32>,
}

impl<W: Word> Model for Places<W> {
    ghost use Rattle.babel_table.specs.Said.{Places as Listed};

    ghost Value = { Listed };

    ghost view = { λ p. record {
      seed = p.seed;
      slots = p.slots.items;
      overflow = p.overflow.entries;
    } };
}

impl<W: Word> Places<W> {
    /// No places.
    pub fn new(alloc: Global, seed: u128) -> Places<W>
        ensures { result ≡ record { seed = seed; slots = []; overflow = [] } }
    {
        Places {
            seed,
            slots: Vec::new(alloc),
            overflow: BTreeMap::new(alloc),
        }
    }

    /// Of the rows from the first on, with slots for four times as many.
    fn of<H: Hop>(
        alloc: Global,
        seed: u128,
        rows: &[WordRow<W, H>],
        first: usize,
    ) -> Result<Places<W>, AllocError>
        requires distinct { AreDistinct (keys_of rows.now) }
        requires few { length rows.now < 4294967295 }
        requires inside { first ≤ length rows.now }
        ensures listed { IfOk result (AreListed (keys_of rows.now) first) }
        ensures room { IfOk result (λ places. 8 < length places.slots) }
    {
        let len = (rows.len() - first) * 4 + 64;
        let mut places = Places {
            seed,
            slots: vec![in alloc; (0, NOWHERE); len]?,
            overflow: BTreeMap::new(alloc),
        };
        for place in first..rows.len() {
            places.add(&rows[place].0, place as u32)?;
        }
        Ok(places)
    }

    /// Makes room for one more place, where the rows from the first on are listed.
    pub fn make_room<H: Hop>(
        &mut self,
        alloc: Global,
        rows: &[WordRow<W, H>],
        first: usize,
    ) -> Result<(), AllocError>
        requires distinct { AreDistinct (keys_of rows.now) }
        requires few { length rows.now < 4294967295 }
        requires inside { first ≤ length rows.now }
        requires listed { AreListed (keys_of rows.now) first self.old }
        ensures listed { AreListed (keys_of rows.now) first self.new }
        ensures room { OnOk result (8 < length self.new.slots) }
    {
        let count = rows.len() - first;
        if (count + WIDTH) * 2 <= self.slots.len() {
            return Ok(());
        }
        *self = Places::of(alloc, self.seed, rows, first)?;
        Ok(())
    }

    /// The key's place among the rows.
    pub fn find<H: Hop>(&self, rows: &[WordRow<W, H>], key: &CompactKey<W>) -> Option<usize>
        ensures { MatchOption result (IsUnlisted (keys_of rows.now) self.now key.now)
            (IsPlace (keys_of rows.now) key.now) }
    {
        if self.slots.len() <= WIDTH {
            return None;
        }
        let tag = key.tag(self.seed);
        let start = tag as usize % (self.slots.len() - WIDTH);
        for step in 0..WIDTH {
            let (other, place) = self.slots[start + step];
            if place == NOWHERE {
                return None;
            }
            if other == tag && has_key(rows, place as usize, key) {
                return Some(place as usize);
            }
        }
        let place = *self.overflow.get(key)? as usize;
        if has_key(rows, place, key) {
            Some(place)
        } else {
            None
        }
    }

    /// Lists a key's place.
    pub fn add(&mut self, key: &CompactKey<W>, place: u32) -> Result<(), AllocError>
        requires room { 8 < length self.old.slots }
        requires small { place < 4294967295 }
        ensures room { length self.new.slots ≡ length self.old.slots }
        ensures listed { OnOk result (IsListed self.new key.now place) }
        ensures others { (other : RouteKey) (at : ℕ) → is_at (key_cmp key.now) other ≡ false
            → IsListed self.old other at → IsListed self.new other at }
    {
        let tag = key.tag(self.seed);
        let start = tag as usize % (self.slots.len() - WIDTH);
        if let Some(step) = free_slot(&self.slots, start) {
            self.slots[start + step] = (tag, place);
            return Ok(());
        }
        match self.overflow.insert(key.copied(), place) {
            Ok(_) => Ok(()),
            Err(_) => Err(AllocError),
        }
    }

    /// Lists no places.
    pub fn clear(&mut self)
        ensures { self.new ≡ record { seed = self.old.seed; slots = []; overflow = [] } }
    {
        self.slots.clear();
        self.overflow.clear();
    }
}

/// How far after the start the first slot is that has no place.
fn free_slot(slots: &[Slot], start: usize) -> Option<usize>
    requires { start + 8 ≤ length slots.now }
    ensures { MatchOption result (AreTaken slots.now start 8) (IsFree slots.now start) }
{
    for step in 0..WIDTH {
        if slots[start + step].1 == NOWHERE {
            return Some(step);
        }
    }
    None
}
