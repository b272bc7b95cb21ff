ghost use Rattle.std.specs.Prelude.{◌≡◌, ◌+◌, ◌^◌, ◌<◌, ◌∷◌, [], ℕ, false, length, IfNone, IfOk};
ghost use Rattle.std.specs.Prelude.{IfSome, None, OnErr, OnOk, Some};
ghost use Rattle.std.specs.BTreeMap.{insert_entry, is_at};
ghost use Rattle.std.specs.Map.{lookup};
ghost use Rattle.std.specs.Option.{option_map};
ghost use Rattle.std.specs.Ordering.{nat_cmp};
ghost use Rattle.babel_capture.specs.Fragments.{Known as AllKnown, are_too_many, changed};
ghost use Rattle.babel_capture.specs.Fragments.{forgotten, is_old, is_past, octets_in, of_id};
ghost use Rattle.babel_capture.specs.Fragments.{of_id_after, settled_step_of, step_of};
ghost use Rattle.babel_capture.specs.Passage.{left_known};
ghost use Rattle.babel_capture.specs.Pieces.{fragment_of};

use crate::datagram::{Datagram, Step};
use crate::fragment::{DatagramId, Fragment};
use std::alloc::{AllocError, Global};
use std::collections::BTreeMap;
use std::marker::Model;

/// How many datagrams are known at most, and how many octets their fragments have, before one more
/// fragment is taken: of those that lack fragments, and of the others.
const MAX_DATAGRAMS: usize = 65_536;

const MAX_OCTETS: u64 = 16 * 1024 * 1024;

/// For how long after its first fragment a datagram is known, in nanoseconds: RFC 8200, 4.5.
pub(crate) const LIFETIME: u128 = 60_000_000_000;

/// Datagrams that are known, each by the number of the packet that the first of its fragments
/// to come came in, and at most one of each identification.
#[derive(Drop)]
pub(crate) struct Known {
    numbers: BTreeMap<DatagramId, u64>,
    datagrams: BTreeMap<u64, Datagram>,
    /// How many octets their fragments had.
    octets: u64,
}

impl Model for Known {
    ghost use Rattle.babel_capture.specs.Fragments.{Known};
    ghost use Rattle.babel_capture.specs.Indexing.{IsIndexed};

    ghost Value = { Known };

    ghost view = { λ k. k.datagrams.entries };

    ghost invariant = { λ k. IsIndexed k.numbers.entries k.datagrams.entries k.octets };
}

/// Whether more than that time passed after the first fragment of the datagram came.
fn is_old(clock: u128, datagram: &Datagram) -> bool
    ensures { result ≡ is_old clock datagram.now }
{
    LIFETIME < clock.saturating_sub(datagram.came)
}

impl Known {
    /// None are known.
    #[tactic(auto, using(crate::proofs::KnownLaws::indexed_none))]
    pub(crate) fn new(alloc: Global) -> Known
        ensures { result ≡ [] }
    {
        Known {
            numbers: BTreeMap::new(alloc),
            datagrams: BTreeMap::new(alloc),
            octets: 0,
        }
    }

    /// Whether the oldest one is given up at this time: it is old, or they are too many, or of too
    /// many octets.
    #[inline(always)]
    pub(crate) fn is_past(&self, clock: u128) -> bool
        ensures { result ≡ is_past clock self.now }
    {
        let Some(oldest) = self.oldest() else {
            return false;
        };
        is_old(clock, oldest) || self.are_too_many()
    }

    /// Whether they are too many, or of too many octets.
    fn are_too_many(&self) -> bool
        ensures { result ≡ are_too_many self.now }
    {
        self.datagrams.len() > MAX_DATAGRAMS || self.octets > MAX_OCTETS
    }

    /// The oldest one.
    fn oldest(&self) -> Option<&Datagram>
        ensures none { IfNone result (self.now ≡ []) }
        ensures some { IfSome result (λ oldest. (number : ℕ) × (others : AllKnown)
            × (self.now ≡ (number, oldest.now) ∷ others)) }
    {
        let oldest = self.datagrams.first_key_value()?;
        Some(oldest.1)
    }

    /// The one of this identification, with its number.
    pub(crate) fn find(&self, id: &DatagramId) -> Option<(u64, &Datagram)>
        ensures { option_map (λ one. (one.0, one.1.now)) result ≡ of_id id.now self.now }
    {
        let Some(number) = self.numbers.get(id).copied() else {
            return None;
        };
        let datagram = self.datagrams.get(&number).unwrap();
        Some((number, datagram))
    }

    /// What a fragment is to the one of its identification, which lacks none or was dropped.
    pub(crate) fn settled_step(&self, fragment: &Fragment<'_>) -> Option<Step>
        requires { fragment.now.offset + fragment.now.len < 2 ^ 16 }
        ensures { result ≡ settled_step_of self.now (fragment_of fragment.now) }
    {
        let (_, datagram) = self.find(&fragment.id)?;
        Some(datagram.settled_step(fragment))
    }

    /// Forgets those that are given up at this time.
    #[inline(always)]
    pub(crate) fn forget_past(&mut self, clock: u128)
        ensures after { self.new ≡ left_known clock self.old }
        ensures none { is_past clock self.new ≡ false }
    {
        while self.is_past(clock) {
            self.pop();
        }
    }

    /// Forgets the oldest one.
    pub(crate) fn pop(&mut self) -> Option<(u64, Datagram)>
        ensures none { IfNone result ((self.old ≡ []) × (self.new ≡ [])) }
        ensures some { IfSome result (λ oldest. self.old ≡ oldest ∷ self.new) }
    {
        let (number, oldest) = self.datagrams.pop_first()?;
        self.numbers.remove(&oldest.id);
        self.octets -= u64::from(oldest.pieces.len());
        Some((number, oldest))
    }

    /// Forgets the one of this identification, and gives it, with its number.
    pub(crate) fn forget(&mut self, id: &DatagramId) -> Option<(u64, Datagram)>
        ensures one { result ≡ of_id id.now self.old }
        ensures after { self.new ≡ forgotten id.now self.old }
        ensures free { of_id id.now self.new ≡ None }
        ensures own { IfSome result (λ one. one.1.id ≡ id.now) }
        ensures held { IfSome result
            (λ one. lookup (is_at (nat_cmp one.0)) self.old ≡ Some one.1) }
        ensures gone { IfSome result (λ one. lookup (is_at (nat_cmp one.0)) self.new ≡ None) }
    {
        let Some(number) = self.numbers.remove(id) else {
            return None;
        };
        let datagram = self.datagrams.remove(&number).unwrap();
        self.octets -= u64::from(datagram.pieces.len());
        Some((number, datagram))
    }

    /// Knows a datagram of which none was known, by this number, which none has.
    pub(crate) fn add(&mut self, number: u64, datagram: Datagram) -> Result<(), AllocError>
        requires own { of_id datagram.id self.old ≡ None }
        requires number { lookup (is_at (nat_cmp number)) self.old ≡ None }
        requires room { octets_in self.old < 2 ^ 63 }
        ensures ok { OnOk result (self.new ≡ insert_entry nat_cmp self.old number datagram) }
        ensures found { OnOk result (of_id datagram.id self.new ≡ Some (number, datagram)) }
        ensures err { OnErr result (self.new ≡ self.old) }
    {
        let id = datagram.id;
        let octets = self.octets + u64::from(datagram.pieces.len());
        if self.numbers.insert(id, number).is_err() {
            return Err(AllocError);
        }
        if self.datagrams.insert(number, datagram).is_err() {
            self.numbers.remove(&id);
            return Err(AllocError);
        }
        self.octets = octets;
        Ok(())
    }

    /// Takes one fragment more of the one of its identification, if that is known.
    pub(crate) fn take(
        &mut self,
        alloc: Global,
        fragment: &Fragment<'_>,
    ) -> Result<Option<Step>, AllocError>
        requires fits { fragment.now.offset + fragment.now.len < 2 ^ 16 }
        requires room { octets_in self.old < 2 ^ 63 }
        ensures step { IfOk result (λ step. step ≡ step_of self.old (fragment_of fragment.now)) }
        ensures changed { OnOk result (self.new ≡ changed self.old (fragment_of fragment.now)) }
        ensures none { IfOk result (λ step. step ≡ None → self.new ≡ self.old) }
        ensures anew { IfOk result (λ step. step ≡ Some Step.Anew → self.new ≡ self.old) }
        ensures kept { OnOk result (of_id fragment.now.id self.new
            ≡ of_id_after self.old (fragment_of fragment.now)) }
        ensures err { OnErr result (self.new ≡ self.old) }
    {
        let Some(number) = self.numbers.get(&fragment.id).copied() else {
            return Ok(None);
        };
        let datagram = self.datagrams.get_mut(&number).unwrap();
        let before = datagram.pieces.len();
        let step = datagram.take(alloc, fragment)?;
        let after = datagram.pieces.len();
        self.octets = self.octets - u64::from(before) + u64::from(after);
        Ok(Some(step))
    }
}
