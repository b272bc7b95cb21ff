//! The entries of many subjects, each found by the one that was found before it.
ghost use Rattle.std.specs.Prelude.{◌≡◌, ◌↔◌, [], length, IfNone, IfOk, IfSome, IsTrue};
ghost use Rattle.std.specs.Prelude.{IsSome, None, OnErr, OnOk, Some, false};
ghost use Rattle.std.specs.BTreeMap.{get, insert_entry, is_at};
ghost use Rattle.std.specs.BTreeMap.Range.{IsLeBy};
ghost use Rattle.std.specs.List.Sorted.{IsStrictlySortedBy};
ghost use Rattle.std.specs.Map.{keys_of, lookup, remove_entry, set_value};
ghost use Rattle.babel_tlv.specs.Keys.{key_cmp};
ghost use Rattle.babel_tlv.specs.Route.{RouteKey};
ghost use Rattle.babel_timeline.specs.Places.{HasGrown, Holds, IsFree, IsPlaced};
ghost use Rattle.babel_timeline.specs.Rows.{subject_cmp};
ghost use Rattle.babel_timeline.specs.Silence.{row_count};
ghost use Rattle.babel_timeline.specs.declared.subject.Subject.{Subject as Of};

use crate::entry::Entry;
use crate::sender::Sender;
use crate::subject::Subject;
use std::alloc::{AllocError, Global};
use std::collections::BTreeMap;
use std::marker::Model;

/// So many cells may be free beside as many as are not, before free ones are looked for.
const SPARE: usize = 64;

/// Where an entry stands; once it is held no more, where another one can.
#[derive(Clone, Copy)]
struct Cell<S> {
    subject: Subject<S>,
    entry: Entry,
    is_held: bool,
}

/// The entries of many subjects. A sender repeats what it says in one order, so the cell behind the
/// one that was found last, and then that one, are looked at before any search.
#[derive(Drop)]
pub(crate) struct Cells<S: Sender> {
    places: BTreeMap<Subject<S>, usize>,
    cells: Vec<Cell<S>>,
    /// The place that was found last.
    last: usize,
    /// The place from which on a free cell is looked for.
    free: usize,
}

impl<S: Sender> Model for Cells<S> {
    ghost use Rattle.babel_timeline.specs.Places.{Entries, IsPlaced, entries_of};

    ghost Value = { Entries S };

    ghost view = { λ c. entries_of c.cells.items c.places.entries };

    ghost invariant = { λ c. IsPlaced S.cmp c.cells.items c.places.entries };
}

/// Whether two subjects are one.
fn are_one<S: Sender>(subject: &Subject<S>, other: &Subject<S>) -> bool
    ensures { IsTrue result ↔ (subject.now ≡ other.now) }
{
    subject == other
}

/// Whether the cell at this place holds an entry of the subject.
#[inline(always)]
fn holds<S: Sender>(cells: &[Cell<S>], place: usize, subject: &Subject<S>) -> bool
    ensures { IsTrue result ↔ Holds cells.now subject.now place }
{
    match cells.get(place) {
        None => false,
        Some(cell) => cell.is_held && are_one(&cell.subject, subject),
    }
}

/// The first free cell from this place on.
fn free_from<S: Sender>(cells: &[Cell<S>], from: usize) -> Option<usize>
    ensures { IfSome result (IsFree cells.now) }
{
    for place in from..cells.len() {
        if !cells[place].is_held {
            return Some(place);
        }
    }
    None
}

/// Where the subject's entry stands: where it is looked for first, or where a search finds it.
fn place_of<S: Sender>(
    places: &BTreeMap<Subject<S>, usize>,
    cells: &[Cell<S>],
    guess: usize,
    subject: &Subject<S>,
) -> Option<usize>
    requires { IsPlaced S.cmp cells.now places.now.entries }
    ensures { result ≡ get (subject_cmp S.cmp) places.now subject.now }
{
    if holds(cells, guess, subject) {
        return Some(guess);
    }
    places.get(subject).copied()
}

/// A place for one more entry, where so many are held: if many cells are free, one of these, else
/// that of a new one.
fn free_place<S: Sender>(
    cells: &mut Vec<Cell<S>>,
    from: &mut usize,
    held: usize,
    free: &Cell<S>,
) -> Result<usize, AllocError>
    requires { free.now.is_held ≡ false }
    ensures place { IfOk result (IsFree cells.new.items) }
    ensures grown { HasGrown cells.old.items cells.new.items }
{
    if cells.len() / 2 > held.saturating_add(SPARE) {
        if let Some(place) = free_from(cells, *from) {
            *from = place + 1;
            return Ok(place);
        }
        *from = 0;
    }
    let place = cells.len();
    cells.push(*free)?;
    Ok(place)
}

/// The first subject from this one on that has a place.
fn first_from<S: Sender>(
    places: &BTreeMap<Subject<S>, usize>,
    from: Subject<S>,
) -> Option<Subject<S>>
    ensures none { IfNone result ((other : Of S) → IsLeBy (subject_cmp S.cmp) from other
        → get (subject_cmp S.cmp) places.now other ≡ None) }
    ensures some { IfSome result (λ first. IsLeBy (subject_cmp S.cmp) from first
        × IsSome (get (subject_cmp S.cmp) places.now first)) }
    ensures least { IfSome result (λ first. (other : Of S) → IsLeBy (subject_cmp S.cmp) from other
        → IsSome (get (subject_cmp S.cmp) places.now other)
        → IsLeBy (subject_cmp S.cmp) first other) }
{
    let (subject, _) = places.range(from..).next()?;
    Some(*subject)
}

/// The last subject up to this one that has a place.
fn last_up_to<S: Sender>(
    places: &BTreeMap<Subject<S>, usize>,
    most: Subject<S>,
) -> Option<Subject<S>>
    ensures none { IfNone result ((other : Of S) → IsLeBy (subject_cmp S.cmp) other most
        → get (subject_cmp S.cmp) places.now other ≡ None) }
    ensures some { IfSome result (λ last. IsLeBy (subject_cmp S.cmp) last most
        × IsSome (get (subject_cmp S.cmp) places.now last)) }
    ensures greatest { IfSome result (λ last. (other : Of S)
        → IsLeBy (subject_cmp S.cmp) other most
        → IsSome (get (subject_cmp S.cmp) places.now other)
        → IsLeBy (subject_cmp S.cmp) other last) }
{
    let (subject, _) = places.range(..=most).next_back()?;
    Some(*subject)
}

/// How many subjects of this one's sender have a place, from it on, where it has the first key.
fn count_from<S: Sender>(places: &BTreeMap<Subject<S>, usize>, from: Subject<S>) -> usize
    requires { (key : RouteKey) → IsLeBy key_cmp from.key key }
    ensures { result ≡ row_count S.cmp from.sender places.now.entries }
{
    let sender = from.sender;
    let mut subjects = places.range(from..);
    let mut count = 0;
    while let Some((subject, _)) = subjects.next() {
        if !has_sender(subject, sender) {
            return count;
        }
        count += 1;
    }
    count
}

/// Whether a subject is of this sender.
fn has_sender<S: Sender>(subject: &Subject<S>, sender: S) -> bool
    ensures { result ≡ is_at (S.cmp sender) subject.now.sender }
{
    sender == subject.sender
}

impl<S: Sender> Cells<S> {
    /// No entries.
    pub(crate) fn new(alloc: Global) -> Cells<S>
        ensures { result ≡ [] }
    {
        Cells {
            places: BTreeMap::new(alloc),
            cells: Vec::new(alloc),
            last: 0,
            free: 0,
        }
    }

    /// How many there are.
    pub(crate) fn len(&self) -> usize
        ensures { result ≡ length self.now }
    {
        self.places.len()
    }

    /// The entry of a subject.
    pub(crate) fn get(&self, subject: &Subject<S>) -> Option<Entry>
        ensures { result ≡ lookup (is_at (subject_cmp S.cmp subject.now)) self.now }
    {
        let place = place_of(&self.places, &self.cells, self.last, subject)?;
        Some(self.cells[place].entry)
    }

    /// The entry of a subject, behind which that of the next is looked for.
    pub(crate) fn find(&mut self, subject: &Subject<S>) -> Option<Entry>
        ensures entry { result ≡ lookup (is_at (subject_cmp S.cmp subject.now)) self.old }
        ensures same { self.new ≡ self.old }
        ensures rising { IsStrictlySortedBy (subject_cmp S.cmp) (keys_of self.new) }
    {
        let next = self.last.saturating_add(1);
        if holds(&self.cells, next, subject) {
            self.last = next;
            return Some(self.cells[next].entry);
        }
        self.find_at(self.last, subject)
    }

    /// The same where it is looked for at this place first.
    pub(crate) fn find_at(&mut self, guess: usize, subject: &Subject<S>) -> Option<Entry>
        ensures entry { result ≡ lookup (is_at (subject_cmp S.cmp subject.now)) self.old }
        ensures same { self.new ≡ self.old }
        ensures rising { IsStrictlySortedBy (subject_cmp S.cmp) (keys_of self.new) }
    {
        let place = place_of(&self.places, &self.cells, guess, subject)?;
        self.last = place;
        Some(self.cells[place].entry)
    }

    /// The place that was found last.
    pub(crate) fn last(&self) -> usize {
        self.last
    }

    /// The next entry is looked for behind this place.
    pub(crate) fn look_behind(&mut self, last: usize)
        ensures { self.new ≡ self.old }
    {
        self.last = last;
    }

    /// How many entries are of this subject's sender, where it has the first key.
    pub(crate) fn count_from(&self, from: Subject<S>) -> usize
        requires { (key : RouteKey) → IsLeBy key_cmp from.key key }
        ensures { result ≡ row_count S.cmp from.sender self.now }
    {
        count_from(&self.places, from)
    }

    /// Has this entry for a subject that has none.
    pub(crate) fn add(&mut self, subject: &Subject<S>, entry: &Entry) -> Result<(), AllocError>
        requires { lookup (is_at (subject_cmp S.cmp subject.now)) self.old ≡ None }
        ensures ok { OnOk result
            (self.new ≡ insert_entry (subject_cmp S.cmp) self.old subject.now entry.now) }
        ensures err { OnErr result (self.new ≡ self.old) }
    {
        let mut cell = Cell {
            subject: *subject,
            entry: *entry,
            is_held: false,
        };
        let place = free_place(&mut self.cells, &mut self.free, self.places.len(), &cell)?;
        match self.places.insert(*subject, place) {
            Ok(_) => {
                cell.is_held = true;
                self.cells[place] = cell;
                self.last = place;
                Ok(())
            }
            Err(_) => Err(AllocError),
        }
    }

    /// Has this entry for a subject in place of the one that it has, if it has one.
    pub(crate) fn replace(&mut self, subject: &Subject<S>, entry: &Entry)
        ensures { self.new ≡ set_value (is_at (subject_cmp S.cmp subject.now)) self.old entry.now }
    {
        if let Some(place) = place_of(&self.places, &self.cells, self.last, subject) {
            self.cells[place].entry = *entry;
        }
    }

    /// Has no entry for a subject, and gives the one that it had.
    pub(crate) fn take(&mut self, subject: &Subject<S>) -> Option<Entry>
        ensures entry { result ≡ lookup (is_at (subject_cmp S.cmp subject.now)) self.old }
        ensures entries { self.new ≡ remove_entry (is_at (subject_cmp S.cmp subject.now)) self.old }
        ensures rising { IsStrictlySortedBy (subject_cmp S.cmp) (keys_of self.old) }
    {
        let place = self.places.remove(subject)?;
        let cell = &mut self.cells[place];
        cell.is_held = false;
        Some(cell.entry)
    }

    /// The first subject from this one on that has an entry.
    pub(crate) fn first_from(&self, from: Subject<S>) -> Option<Subject<S>>
        ensures none { IfNone result ((other : Of S) → IsLeBy (subject_cmp S.cmp) from other
            → lookup (is_at (subject_cmp S.cmp other)) self.now ≡ None) }
        ensures some { IfSome result (λ first. IsLeBy (subject_cmp S.cmp) from first
            × IsSome (lookup (is_at (subject_cmp S.cmp first)) self.now)) }
        ensures least { IfSome result (λ first. (other : Of S)
            → IsLeBy (subject_cmp S.cmp) from other
            → IsSome (lookup (is_at (subject_cmp S.cmp other)) self.now)
            → IsLeBy (subject_cmp S.cmp) first other) }
    {
        first_from(&self.places, from)
    }

    /// The last subject up to this one that has an entry.
    pub(crate) fn last_up_to(&self, most: Subject<S>) -> Option<Subject<S>>
        ensures none { IfNone result ((other : Of S) → IsLeBy (subject_cmp S.cmp) other most
            → lookup (is_at (subject_cmp S.cmp other)) self.now ≡ None) }
        ensures some { IfSome result (λ last. IsLeBy (subject_cmp S.cmp) last most
            × IsSome (lookup (is_at (subject_cmp S.cmp last)) self.now)) }
        ensures greatest { IfSome result (λ last. (other : Of S)
            → IsLeBy (subject_cmp S.cmp) other most
            → IsSome (lookup (is_at (subject_cmp S.cmp other)) self.now)
            → IsLeBy (subject_cmp S.cmp) other last) }
    {
        last_up_to(&self.places, most)
    }
}
