//! The subjects whose rows may have ended, in the order in which they are looked at.
ghost use Rattle.std.specs.Prelude.{◌≡◌, ◌||◌, ◌&&◌, ◌≤◌, not, true, IfNone, IfSome, IsTrue, OnErr, OnOk};
ghost use Rattle.std.specs.declared.cmp.Ordering.TheVariants.{Less};
ghost use Rattle.std.specs.BTreeSet.{contains, IsEmpty};
ghost use Rattle.babel_timeline.specs.Rows.{expiry_cmp, expiry_of};
ghost use Rattle.babel_timeline.specs.Kept.{NoneBy, is_expiry};
ghost use Rattle.babel_timeline.specs.declared.queue.Expiry.{Expiry as Queued};

use crate::sender::Sender;
use crate::subject::Subject;
use babel_tlv::Key;
use std::alloc::{AllocError, Global};
use std::collections::BTreeMap;
use std::marker::Model;

/// When a subject is looked at. Ordered by time, then by key, then by sender.
#[derive(Clone, Copy, PartialEq, Eq, PartialOrd, Ord)]
pub(crate) struct Expiry<S> {
    pub(crate) time: u128,
    key: Key,
    sender: S,
}

impl<S: Sender> Expiry<S> {
    /// That the subject is looked at at this time.
    fn new(time: u128, subject: &Subject<S>) -> Expiry<S>
        ensures { result ≡ expiry_of time subject.now }
    {
        Expiry {
            time,
            key: subject.key,
            sender: subject.sender,
        }
    }

    /// What is looked at.
    pub(crate) fn subject(&self) -> Subject<S>
        ensures { result ≡ record { sender = self.now.sender; key = self.now.key } }
    {
        Subject {
            sender: self.sender,
            key: self.key,
        }
    }
}

/// The subjects that are to be looked at, each at one time.
#[derive(Drop)]
pub(crate) struct Queue<S: Sender> {
    /// With the place at which the entry of each most likely stands.
    places: BTreeMap<Expiry<S>, usize>,
    /// Before this time there is none.
    soonest: u128,
    /// The place at which the entry of the first that was found most likely stands.
    place: usize,
}

impl<S: Sender> Model for Queue<S> {
    ghost use Rattle.babel_timeline.specs.Kept.{IsSoonest, Waiting, keys_in};

    ghost Value = { Waiting S };

    ghost view = { λ q. record { expiries = keys_in q.places } };

    ghost invariant = { λ q. IsSoonest S.cmp q.soonest (keys_in q.places) };
}

impl<S: Sender> Queue<S> {
    /// Nothing is looked at.
    pub(crate) fn new(alloc: Global) -> Queue<S>
        ensures { IsEmpty result.expiries }
    {
        Queue {
            places: BTreeMap::new(alloc),
            soonest: u128::MAX,
            place: 0,
        }
    }

    /// Whether it is known that nothing is looked at by this time.
    pub(crate) fn is_quiet(&self, until: u128) -> bool
        ensures { IsTrue result → NoneBy S.cmp until self.now.expiries }
    {
        until < self.soonest
    }

    /// What is looked at first, if by this time.
    pub(crate) fn first_by(&mut self, until: u128) -> Option<Expiry<S>>
        ensures same { self.new ≡ self.old }
        ensures none { IfNone result (NoneBy S.cmp until self.new.expiries) }
        ensures by { IfSome result (λ first. first.time ≤ until) }
        ensures some { IfSome result (λ first.
            contains (expiry_cmp S.cmp) self.new.expiries first ≡ true) }
        ensures least { IfSome result (λ first. (other : Queued S)
            → contains (expiry_cmp S.cmp) self.new.expiries other ≡ true
            → ¬ (expiry_cmp S.cmp other first ≡ Less)) }
    {
        if self.is_quiet(until) {
            return None;
        }
        let (expiry, place) = self.places.first_key_value()?;
        let first = *expiry;
        self.place = *place;
        self.soonest = first.time;
        if until < first.time {
            return None;
        }
        Some(first)
    }

    /// The place at which the entry most likely stands of what was found to be first.
    pub(crate) fn place(&self) -> usize {
        self.place
    }

    /// The subject is looked at at this time, if any, besides when it is already. Its entry most
    /// likely stands at this place.
    pub(crate) fn put(
        &mut self,
        subject: &Subject<S>,
        time: Option<u128>,
        place: usize,
    ) -> Result<(), AllocError>
        ensures ok { OnOk result ((other : Queued S)
            → contains (expiry_cmp S.cmp) self.new.expiries other
            ≡ is_expiry S.cmp subject.now time other
            || contains (expiry_cmp S.cmp) self.old.expiries other) }
        ensures err { OnErr result (self.new.expiries.keys ≡ self.old.expiries.keys) }
    {
        if let Some(time) = time {
            match self.places.insert(Expiry::new(time, subject), place) {
                Ok(_) => self.soonest = self.soonest.min(time),
                Err(_) => return Err(AllocError),
            }
        }
        Ok(())
    }

    /// The subject is not looked at at this time, if any.
    pub(crate) fn take_out(&mut self, subject: &Subject<S>, time: Option<u128>)
        ensures { (other : Queued S) → contains (expiry_cmp S.cmp) self.new.expiries other
            ≡ not (is_expiry S.cmp subject.now time other)
            && contains (expiry_cmp S.cmp) self.old.expiries other }
    {
        if let Some(time) = time {
            self.places.remove(&Expiry::new(time, subject));
        }
    }

    /// The subject is looked at at the second time, if any, in place of the first, if any. Its
    /// entry most likely stands at this place.
    pub(crate) fn move_to(
        &mut self,
        subject: &Subject<S>,
        from: Option<u128>,
        to: Option<u128>,
        place: usize,
    ) -> Result<(), AllocError>
        requires { (other : Queued S) → is_expiry S.cmp subject.now from other ≡ true
            → contains (expiry_cmp S.cmp) self.old.expiries other ≡ true }
        ensures ok { OnOk result ((other : Queued S)
            → contains (expiry_cmp S.cmp) self.new.expiries other
            ≡ is_expiry S.cmp subject.now to other
            || (not (is_expiry S.cmp subject.now from other)
            && contains (expiry_cmp S.cmp) self.old.expiries other)) }
        ensures err { OnErr result (self.new.expiries.keys ≡ self.old.expiries.keys) }
    {
        if from != to {
            self.put(subject, to, place)?;
            self.take_out(subject, from);
        }
        Ok(())
    }
}
