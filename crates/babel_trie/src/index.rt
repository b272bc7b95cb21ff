//! Where the elements of a list are found again.
ghost use Rattle.std.specs.Prelude.{◌≡◌, ◌≢◌, ℕ, ◌+◌, ◌^◌, ◌<◌, ◌↔◌, ◌++◌, ◌∷◌};
ghost use Rattle.std.specs.Prelude.{[], length, slice_get, Some, IfSome, IfNone, IsTrue, OnOk};
ghost use Rattle.babel_trie.specs.Index.{IsNotAmong, IsFreeAmong, IsFull, window};
ghost use Rattle.babel_trie.specs.Index.{first_slot, slot_of, HasDistinct, IsAbsent};
ghost use Rattle.babel_trie.specs.Index.{IsFound, KeepsFound, IsIndexed};
ghost use Rattle.babel_trie.specs.declared.index.Search.TheVariants.{Number, Free, Full};

use crate::lawful::LawfulOrd;
use crate::table::NodeNumber;
use std::alloc::{AllocError, Global};
use std::collections::BTreeMap;

/// In how many slots an element can stand.
const WINDOW: u8 = 16;

/// Where the elements of a list are found again, in which none stands twice. Each has one of a few
/// slots, from the one that its mark leads to on, or, where all of these are taken, a place in a
/// map. So no choice of elements makes a search longer than one in that map. A slot may also have a
/// number that the list had once and has no more, or has for another element by now: each number
/// that is found is looked up in the list.
#[derive(Drop)]
pub struct Index<K: Ord> {
    /// What `slot_of` says of an element's mark and number, or 0 where the slot is free.
    slots: Vec<u64>,
    crowded: BTreeMap<K, NodeNumber>,
    /// How many more numbers are kept before the slots are made anew.
    room: usize,
}

/// Whether this is the number of an element in the list.
fn is_number_of<K: LawfulOrd>(list: &[K], number: NodeNumber, element: &K) -> bool
    ensures { IsTrue result ↔ (slice_get list.now number.0 ≡ Some element.now) }
{
    match list.get(number.index()) {
        None => false,
        Some(other) => other == element,
    }
}

/// What a slot has: the lower half of an element's mark, so that others are told apart from it
/// without a look at the list, and one more than its number. `None` where that is too large.
fn slot_of(mark: u64, number: NodeNumber) -> Option<u64>
    ensures { IfSome result (λ slot. (number.0 + 1 < 2 ^ 32) × (slot ≡ slot_of mark number.0)) }
{
    let next = number.0.checked_add(1)?;
    Some(mark % (1 << 32) * (1 << 32) + u64::from(next))
}

/// The number in a slot, if the mark there is this one.
fn number_in(slot: u64, mark: u64) -> Option<NodeNumber>
    ensures some { IfSome result (λ n. slot ≡ slot_of mark n.0) }
    ensures none { IfNone result ((n : ℕ) → n + 1 < 2 ^ 32 → slot ≢ slot_of mark n) }
{
    if slot >> 32 != mark % (1 << 32) {
        return None;
    }
    let next = (slot % (1 << 32)) as u32;
    let number = next.checked_sub(1)?;
    Some(NodeNumber(number))
}

/// The number in a slot, if it is that of an element with this mark.
fn number_at<K: LawfulOrd>(slot: u64, list: &[K], element: &K, mark: u64) -> Option<NodeNumber>
    ensures some { IfSome result (λ n. slice_get list.now n.0 ≡ Some element.now) }
    ensures none { IfNone result ((n : NodeNumber) → slice_get list.now n.0 ≡ Some element.now
        → n.0 + 1 < 2 ^ 32 → slot ≢ slot_of mark n.0) }
{
    let Some(number) = number_in(slot, mark) else {
        return None;
    };
    if is_number_of(list, number, element) {
        Some(number)
    } else {
        None
    }
}

/// What a search for an element among the slots in which it can stand comes to.
#[derive(Clone, Copy)]
enum Search {
    /// The element's number.
    Number(NodeNumber),
    /// A free slot, before which none has the element's number.
    Free,
    /// All slots are taken, and none has the element's number.
    Full,
}

/// Searches the slots from this one on for the number of an element with this mark.
fn searched<K: LawfulOrd>(slots: &[u64], list: &[K], element: &K, mark: u64, first: usize) -> Search
    ensures number { (n : NodeNumber) → result ≡ Number n
        → slice_get list.now n.0 ≡ Some element.now }
    ensures free { result ≡ Free → (IsFull slots.now window first → ⊥)
        × IsNotAmong list.now element.now mark slots.now window first }
    ensures full { result ≡ Full → IsNotAmong list.now element.now mark slots.now window first }
{
    let mut at = first;
    let mut left = WINDOW;
    while left > 0 && at < slots.len() {
        let slot = slots[at];
        if slot == 0 {
            return Search::Free;
        }
        if let Some(number) = number_at(slot, list, element, mark) {
            return Search::Number(number);
        }
        at += 1;
        left -= 1;
    }
    Search::Full
}

/// The first of the slots from this one on that is free.
fn free_place(slots: &[u64], first: usize) -> Option<usize>
    ensures some { IfSome result (λ place. IsFreeAmong slots.now window first place) }
    ensures none { IfNone result (IsFull slots.now window first) }
{
    let mut at = first;
    let mut left = WINDOW;
    while left > 0 && at < slots.len() {
        if slots[at] == 0 {
            return Some(at);
        }
        at += 1;
        left -= 1;
    }
    None
}

impl<K: LawfulOrd> Index<K> {
    pub fn new(alloc: Global) -> Index<K>
        ensures { IsIndexed K.cmp K.mark [] result }
    {
        Index {
            slots: Vec::new(alloc),
            crowded: BTreeMap::new(alloc),
            room: 0,
        }
    }

    /// The slot at which a search for a mark begins: as far among the slots as the upper half of
    /// the mark among all.
    fn first_slot(&self, mark: u64) -> usize
        ensures { result ≡ first_slot self.now.slots.items mark }
    {
        ((mark >> 32).wrapping_mul(self.slots.len() as u64) >> 32) as usize
    }

    /// How many more numbers are kept before the slots are made anew.
    pub fn room(&self) -> usize
        ensures { result ≡ self.now.room }
    {
        self.room
    }

    /// The number of an element in the list, by its mark. The map is asked only where all slots are
    /// taken in which the element can stand.
    pub fn get(&self, list: &[K], element: &K, mark: u64) -> Option<NodeNumber>
        requires indexed { IsIndexed K.cmp K.mark list.now self.now }
        requires mark { mark ≡ K.mark element.now }
        ensures some { IfSome result (λ n. slice_get list.now n.0 ≡ Some element.now) }
        ensures none { IfNone result (IsAbsent list.now element.now) }
    {
        match searched(&self.slots, list, element, mark, self.first_slot(mark)) {
            Search::Number(number) => Some(number),
            Search::Free => None,
            Search::Full => {
                let kept = *self.crowded.get(element)?;
                if is_number_of(list, kept, element) {
                    Some(kept)
                } else {
                    None
                }
            }
        }
    }

    /// Keeps the number of an element with this mark.
    fn keep(&mut self, element: &K, mark: u64, number: NodeNumber) -> Result<(), AllocError>
        requires { mark ≡ K.mark element.now }
        ensures kept { OnOk result (IsFound K.cmp K.mark self.new element.now number) }
        ensures others { OnOk result (KeepsFound K.cmp K.mark self.old self.new element.now
            number) }
    {
        let first = self.first_slot(mark);
        let Some(place) = free_place(&self.slots, first) else {
            self.crowded.insert(*element, number)?;
            return Ok(());
        };
        let Some(slot) = slot_of(mark, number) else {
            return Err(AllocError);
        };
        self.slots[place] = slot;
        Ok(())
    }

    /// Makes the slots anew where half of them are taken, and finds each element of the list its
    /// place among them. There is room for three times as many elements more, so that few are ever
    /// placed again.
    fn make_room(&mut self, list: &[K]) -> Result<(), AllocError>
        requires indexed { IsIndexed K.cmp K.mark list.now self.old }
        requires distinct { HasDistinct list.now }
        requires few { length list.now < 2 ^ 32 }
        ensures indexed { OnOk result (IsIndexed K.cmp K.mark list.now self.new) }
        ensures room { OnOk result (0 < self.new.room) }
    {
        if self.room > 0 {
            return Ok(());
        }
        self.crowded.clear();
        self.slots.clear();
        self.slots.resize(8 * list.len() + 64, 0)?;
        for at in 0..list.len() {
            let element = &list[at];
            self.keep(element, element.mark(), NodeNumber(at as u32))?;
        }
        self.room = 3 * list.len() + 32;
        Ok(())
    }

    /// Keeps the number of an element with this mark that the list is going to have next, and does
    /// not have.
    pub fn add(
        &mut self,
        list: &[K],
        element: &K,
        mark: u64,
        number: NodeNumber,
    ) -> Result<(), AllocError>
        requires indexed { IsIndexed K.cmp K.mark list.now self.old }
        requires distinct { HasDistinct list.now }
        requires next { number.0 ≡ length list.now }
        requires absent { IsAbsent list.now element.now }
        requires mark { mark ≡ K.mark element.now }
        ensures { OnOk result (IsIndexed K.cmp K.mark (list.now ++ element.now ∷ []) self.new) }
    {
        self.make_room(list)?;
        self.room -= 1;
        self.keep(element, mark, number)?;
        Ok(())
    }
}
