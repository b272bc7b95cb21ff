ghost use Rattle.std.specs.Prelude.{◌≡◌, ◌<◌, ◌+◌, ◌^◌, ◌∷◌, ◌++◌, ◌↔◌, ◌⊎◌, if◌then◌else◌, []};
ghost use Rattle.std.specs.Prelude.{IfErr, IfOk, IsTrue, MatchOption, MatchResult, None, OnErr};
ghost use Rattle.std.specs.Prelude.{IfSome, OnOk, Some, count_by, is_some, length, true};
ghost use Rattle.std.specs.Option.{option_and_then, option_map};
ghost use Rattle.babel_tlv.specs.declared.held.Held.TheVariants as helds;
ghost use Rattle.std.specs.List.Sorted.{IsPermutation, IsStrictlySortedBy};
ghost use Rattle.std.specs.BTreeMap.{insert_entry, is_at};
ghost use Rattle.std.specs.Map.{keys_of, lookup, remove_entry};
ghost use Rattle.babel_tlv.specs.Keys.{key_cmp};
ghost use Rattle.babel_table.specs.RowFor.{IsBestOf};
ghost use Rattle.babel_table.specs.Compact.{CanKeep, address_in};
ghost use Rattle.babel_table.specs.Live.{kept, kept_at, lasting, left_of, live_rows, is_expired};
ghost use Rattle.babel_table.specs.Live.{what_is_left};
ghost use Rattle.babel_table.specs.Lookup.{IsBetter};
ghost use Rattle.babel_table.specs.Rows.{IsRising};
ghost use Rattle.babel_table.specs.Said.{AreAbove, AreDistinct, AreIndexed, IsPlace, is_said};
ghost use Rattle.babel_table.specs.Said.{said_as, said_count, standing};
ghost use Rattle.babel_table.specs.Words.{replaced};

use crate::compact_held::CompactHeld;
use crate::compact_key::CompactKey;
use crate::compact_row::CompactRow;
use crate::hop::Hop;
use crate::moment::{Left, Moment};
use crate::places::Places;
use crate::stored::Stored;
use crate::word::Word;
use babel_prefix::Addr;
use babel_tlv::{Fault, Held, Key};
use std::alloc::{AllocError, Global};
use std::marker::Model;

/// So many rows may be retracted beside as many as are not, before they are taken out.
const SPARE: usize = 16;

/// So many rows are kept at most, whose places have 32 bits.
const MOST_ROWS: usize = u32::MAX as usize;

/// A key and what was last said of it: nothing where it was retracted.
pub(crate) type WordRow<W, H> = (CompactKey<W>, Option<Stored<H>>);

/// What is kept for the keys of the family whose addresses are kept in these words, with next hops
/// kept so. A router repeats its routes in one order, whichever it is, so the row after the one
/// found last is tried before any search; and what came last may be retracted at once.
#[derive(Drop)]
pub struct FamilyRows<W: Word, H: Hop> {
    alloc: Global,
    /// A row for each key, in the order in which the keys came.
    rows: Vec<WordRow<W, H>>,
    /// The place that is tried first: after the row that was found last, or of the row that came
    /// last.
    next: usize,
    /// So many rows at the front are in the order of their keys.
    rising: usize,
    /// The places of the keys after those.
    places: Places<W>,
    /// For how many keys there is something.
    count: usize,
}

impl<W: Word, H: Hop> Model for FamilyRows<W, H> {
    ghost use Rattle.std.specs.Prelude.{List};
    ghost use Rattle.babel_tlv.specs.Route.{RouteKey};
    ghost use Rattle.babel_table.specs.Live.{Kept};
    ghost use Rattle.babel_table.specs.Said.{standing, AreCounted};

    ghost Value = { List (RouteKey × Kept) };

    ghost view = { λ r. standing r.rows.items };

    ghost invariant = { λ r. AreCounted r.count r.rows.items r.rising r.places };
}

impl<W: Word, H: Hop> FamilyRows<W, H> {
    /// Nothing for any key.
    pub fn new(alloc: Global, seed: u128) -> FamilyRows<W, H>
        ensures { result ≡ [] }
    {
        FamilyRows {
            alloc,
            rows: Vec::new(alloc),
            next: 0,
            rising: 0,
            places: Places::new(alloc, seed),
            count: 0,
        }
    }

    /// For how many keys there is something.
    pub fn len(&self) -> usize
        ensures len { result ≡ length self.now }
        ensures small { result < 2 ^ 63 }
        ensures rising { IsStrictlySortedBy key_cmp (keys_of self.now) }
    {
        self.count
    }

    /// Keeps this for the key, with its mark. Where there is nothing for it, the refusal is
    /// answered, if there is one.
    pub fn put(
        &mut self,
        key: &Key,
        held: Held,
        mark: u64,
        refusal: Option<Fault>,
    ) -> Result<(), Fault>
        requires family { key.now.dst.address.family ≡ W.family }
        requires fits { CanKeep H.fits held }
        requires few { length self.old < 2 ^ 62 }
        ensures ok { OnOk result
            (self.new ≡ insert_entry key_cmp self.old key.now (kept held mark)) }
        ensures len { OnOk result (length self.new ≡ length self.old
            + (if is_some (lookup (is_at (key_cmp key.now)) self.old) then 0 else 1)) }
        ensures room { OnOk result ((refusal ≡ None)
            ⊎ (is_some (lookup (is_at (key_cmp key.now)) self.old) ≡ true)) }
        ensures err { OnErr result (self.new ≡ self.old) }
        ensures cause { IfErr result (λ fault. (fault ≡ Fault.Memory)
            ⊎ ((refusal ≡ Some fault) × (lookup (is_at (key_cmp key.now)) self.old ≡ None))) }
    {
        let key = CompactKey::of(key);
        let held = CompactHeld::of(held);
        let stored = Stored { held, mark };
        if let Some(place) = find(&self.rows, self.next, self.rising, &self.places, &key) {
            let was = self.rows[place].1.is_some();
            if let Some(fault) = refusal {
                if !was {
                    return Err(fault);
                }
            }
            self.rows[place].1 = Some(stored);
            self.next = place + 1;
            self.count += usize::from(!was);
            return Ok(());
        }
        if let Some(fault) = refusal {
            return Err(fault);
        }
        let place = self.rows.len();
        if self.rising == place && is_past(&self.rows, &key) {
            push(&mut self.rows, (key, Some(stored)))?;
            self.rising = self.rows.len();
        } else {
            push_placed(
                self.alloc,
                &mut self.rows,
                self.rising,
                &mut self.places,
                key,
                stored,
            )?;
        }
        self.next = place;
        self.count += 1;
        self.compact();
        Ok(())
    }

    /// Keeps nothing for the key.
    pub fn forget(&mut self, key: &Key)
        requires { key.now.dst.address.family ≡ W.family }
        ensures { self.new ≡ remove_entry (is_at (key_cmp key.now)) self.old }
    {
        let key = CompactKey::of(key);
        if let Some(place) = find(&self.rows, self.next, self.rising, &self.places, &key) {
            let was = self.rows[place].1.is_some();
            self.rows[place].1 = None;
            self.next = place + 1;
            self.count -= usize::from(was);
        }
    }

    /// Whether there is something for the key.
    pub fn has(&self, key: &Key) -> bool
        requires { key.now.dst.address.family ≡ W.family }
        ensures { result ≡ is_some (lookup (is_at (key_cmp key.now)) self.now) }
    {
        let key = CompactKey::of(key);
        match find(&self.rows, self.next, self.rising, &self.places, &key) {
            Some(place) => self.rows[place].1.is_some(),
            None => false,
        }
    }

    /// The same in order, kept so that any next hop can be.
    pub fn widened(&self, seed: u128) -> Result<FamilyRows<W, Addr>, AllocError>
        ensures { IfOk result (λ rows. rows ≡ self.now) }
    {
        let mut rows = Vec::with_capacity(self.alloc, self.count)?;
        for (key, said) in &self.rows {
            if let Some(stored) = said {
                rows.push((key.copied(), Some(stored.widened())))?;
            }
        }
        sort(&mut rows);
        let rising = rows.len();
        Ok(FamilyRows {
            alloc: self.alloc,
            rows,
            next: 0,
            rising,
            places: Places::new(self.alloc, seed),
            count: self.count,
        })
    }

    /// Takes the retracted rows out where they are many more than the others, and puts these in
    /// order.
    fn compact(&mut self)
        ensures { self.new ≡ self.old }
    {
        if self.count.saturating_add(SPARE) <= self.rows.len() / 2 {
            self.rows.retain(|row| row.1.is_some());
            sort(&mut self.rows);
            self.rising = self.rows.len();
            self.places.clear();
            self.next = 0;
        }
    }

    /// Keeps nothing for any key.
    pub fn clear(&mut self)
        ensures { self.new ≡ [] }
    {
        self.rows.clear();
        self.places.clear();
        self.next = 0;
        self.rising = 0;
        self.count = 0;
    }

    /// For how many keys there is a route that has expired at the moment.
    pub fn count_expired(&self, moment: &Moment<'_>) -> usize
        ensures count { result + length (lasting moment.now self.now) ≡ length self.now }
        ensures small { result < 2 ^ 63 }
    {
        count_expired(&self.rows, moment)
    }

    /// Keeps what is left at the moment.
    pub fn leave(&mut self, moment: &Moment<'_>)
        ensures { self.new ≡ replaced (kept_at moment.now) self.old }
    {
        leave_all(&mut self.rows, moment);
        self.count = count_said(&self.rows);
    }

    /// The rows that these stand for after so many wipes, in order.
    pub fn listed(self, alloc: Global, wipes: u64) -> Result<Vec<CompactRow<W, H>>, AllocError>
        ensures { IfOk result (λ rows. rows.items ≡ live_rows wipes self) }
    {
        drop(self.places);
        let mut listed = Vec::with_capacity(alloc, self.count)?;
        for (key, said) in self.rows {
            if let Some(stored) = said {
                listed.push((key, stored.current(wipes)))?;
            }
        }
        sort(&mut listed);
        Ok(listed)
    }

    /// The best matching row after so many wipes, for two addresses of the family.
    pub fn best_match(&self, wipes: u64, dst: &Addr, src: &Addr) -> Option<(Key, Held)>
        requires dst_family { dst.now.family ≡ W.family }
        requires src_family { src.now.family ≡ W.family }
        ensures { IsBestOf (live_rows wipes self.now) dst.now src.now result }
    {
        best_standing(&self.rows, wipes, W::of(*dst), W::of(*src))
    }
}

/// The same among rows, for the addresses with these bits. The rows are gone through once, as they
/// stand: RFC 9079, 4.
fn best_standing<W: Word, H: Hop>(
    rows: &[WordRow<W, H>],
    wipes: u64,
    dst: W,
    src: W,
) -> Option<(Key, Held)>
    requires { AreDistinct (keys_of rows.now) }
    ensures { IsBestOf (live_rows wipes (standing rows.now))
        (address_in W.family (W.number dst)) (address_in W.family (W.number src)) result }
{
    let mut best: Option<(CompactKey<W>, Held)> = None;
    for (key, said) in rows {
        if let Some(stored) = said {
            if is_better(key, dst, src, &best) {
                best = Some((key.copied(), stored.held(wipes)));
            }
        }
    }
    match best {
        Some((key, held)) => Some((key.key(), held)),
        None => None,
    }
}

/// In how many rows a route was said that has expired at the moment.
fn count_expired<W: Word, H: Hop>(rows: &[WordRow<W, H>], moment: &Moment<'_>) -> usize
    ensures { result ≡ said_count (is_expired moment.now) rows.now }
{
    let mut count = 0;
    for row in rows {
        count += usize::from(has_expired(&row.1, moment));
    }
    count
}

/// In how many rows something was said.
fn count_said<W: Word, H: Hop>(rows: &[WordRow<W, H>]) -> usize
    ensures { result ≡ count_by (λ word. is_some word.1) rows.now }
{
    let mut count = 0;
    for row in rows {
        count += usize::from(row.1.is_some());
    }
    count
}

/// Keeps in the rows what is left at the moment.
fn leave_all<W: Word, H: Hop>(rows: &mut [WordRow<W, H>], moment: &Moment<'_>)
    ensures { rows.new ≡ said_as (kept_at moment.now) rows.old }
{
    for row in rows.iter_mut() {
        leave(&mut row.1, moment);
    }
}

/// Keeps what is left at the moment.
fn leave<H: Hop>(said: &mut Option<Stored<H>>, moment: &Moment<'_>)
    ensures { said.new ≡ option_and_then (kept_at moment.now) said.old }
{
    match left(said, moment) {
        Left::All => {}
        Left::Unreachable => retract(said),
        Left::Nothing => *said = None,
    }
}

/// What is left at the moment: nothing where nothing was said.
fn left<H: Hop>(said: &Option<Stored<H>>, moment: &Moment<'_>) -> Left
    ensures { IfSome said.now (λ stored. what_is_left result stored.held
        ≡ left_of moment.now stored) }
{
    match said {
        Some(stored) => stored.left(moment),
        None => Left::Nothing,
    }
}

/// Keeps that the key is unreachable, where something was said.
fn retract<H: Hop>(said: &mut Option<Stored<H>>)
    ensures { said.new ≡ option_map (λ stored. kept helds.Unreachable stored.mark) said.old }
{
    if let Some(stored) = said {
        stored.held = CompactHeld::of(Held::Unreachable);
    }
}

/// Whether a route was said, and has expired at the moment.
fn has_expired<H: Hop>(said: &Option<Stored<H>>, moment: &Moment<'_>) -> bool
    ensures { result ≡ is_said (is_expired moment.now) said.now }
{
    match said {
        Some(stored) => stored.has_expired(moment),
        None => false,
    }
}

/// Whether the key contains both addresses, and is more specific than that of the best row so far.
fn is_better<W: Word>(
    key: &CompactKey<W>,
    dst: W,
    src: W,
    best: &Option<(CompactKey<W>, Held)>,
) -> bool
    ensures { IsTrue result ↔ IsBetter (address_in W.family (W.number dst))
        (address_in W.family (W.number src)) key.now best.now }
{
    key.contains(dst, src)
        && match best {
            Some((other, _)) => key.is_more_specific(other),
            None => true,
        }
}

/// The key's place among the rows; the next one is tried first.
fn find<W: Word, H: Hop>(
    rows: &[WordRow<W, H>],
    next: usize,
    rising: usize,
    places: &Places<W>,
    key: &CompactKey<W>,
) -> Option<usize>
    requires { AreIndexed (keys_of rows.now) rising places.now }
    ensures { MatchOption result (lookup (is_at (key_cmp key.now)) rows.now ≡ None)
        (IsPlace (keys_of rows.now) key.now) }
{
    if has_key(rows, next, key) {
        return Some(next);
    }
    let front = &rows[..rising];
    if !is_past(front, key) {
        if let Ok(place) = front.binary_search_by(|row| row.0.cmp(key)) {
            return Some(place);
        }
    }
    places.find(rows, key)
}

/// Whether this is the key's place among the rows.
pub(crate) fn has_key<W: Word, H: Hop>(
    rows: &[WordRow<W, H>],
    place: usize,
    key: &CompactKey<W>,
) -> bool
    ensures { IsTrue result ↔ IsPlace (keys_of rows.now) key.now place }
{
    place < rows.len() && rows[place].0 == *key
}

/// Whether the key is greater than all of the rows.
fn is_past<W: Word, H: Hop>(rows: &[WordRow<W, H>], key: &CompactKey<W>) -> bool
    requires { IsRising rows.now }
    ensures { IsTrue result ↔ AreAbove key.now rows.now }
{
    match rows.last() {
        Some(row) => row.0 < *key,
        None => true,
    }
}

/// Adds a row.
fn push<W: Word, H: Hop>(
    rows: &mut Vec<WordRow<W, H>>,
    row: WordRow<W, H>,
) -> Result<(), AllocError>
    ensures items { MatchResult result (λ _. rows.new.items ≡ rows.old.items ++ row ∷ [])
        (λ _. rows.new.items ≡ rows.old.items) }
{
    rows.push(row)?;
    Ok(())
}

/// Adds a row, and lists its place.
fn push_placed<W: Word, H: Hop>(
    alloc: Global,
    rows: &mut Vec<WordRow<W, H>>,
    rising: usize,
    places: &mut Places<W>,
    key: CompactKey<W>,
    stored: Stored<H>,
) -> Result<(), AllocError>
    requires indexed { AreIndexed (keys_of rows.old.items) rising places.old }
    requires new { lookup (is_at (key_cmp key)) rows.old.items ≡ None }
    ensures ok { OnOk result ((rows.new.items ≡ rows.old.items ++ (key, Some stored) ∷ [])
        × AreIndexed (keys_of rows.new.items) rising places.new) }
    ensures err { OnErr result ((rows.new.items ≡ rows.old.items)
        × AreIndexed (keys_of rows.new.items) rising places.new) }
{
    let place = rows.len();
    if place >= MOST_ROWS {
        return Err(AllocError);
    }
    places.make_room(alloc, rows, rising)?;
    places.add(&key, place as u32)?;
    push(rows, (key, Some(stored)))?;
    Ok(())
}

/// Puts the rows in the order of their keys.
fn sort<W: Word, T>(rows: &mut Vec<(CompactKey<W>, T)>)
    requires { AreDistinct (keys_of rows.old.items) }
    ensures rising { IsRising rows.new.items }
    ensures same { IsPermutation rows.old.items rows.new.items }
{
    rows.sort_unstable_by(|row, other| row.0.cmp(&other.0));
}
