ghost use Rattle.std.specs.Prelude.{◌≡◌, ◌+◌, ◌^◌, ◌<◌, ◌≤◌, ◌∷◌, [], IfNone, IfOk, IfSome, OnOk};
ghost use Rattle.std.specs.Prelude.{false, true};
ghost use Rattle.std.specs.Option.{option_map};
ghost use Rattle.babel_capture.specs.Fragments.{begun_in, changed_among, clock_at, octets_in};
ghost use Rattle.babel_capture.specs.Fragments.{forgotten_among, is_past, known_with, of_id};
ghost use Rattle.babel_capture.specs.Fragments.{of_id_after, settled, step_among};
ghost use Rattle.babel_capture.specs.Passage.{left_known, missing_at, sight_at};
ghost use Rattle.babel_capture.specs.Pieces.{fragment_of};

use crate::datagram::{Datagram, Step, is_of_another};
use crate::fragment::{DatagramId, Fragment};
use crate::known::Known;
use crate::time::Time;
use std::alloc::{AllocError, Global};
use std::marker::Model;

/// The datagrams that came in fragments, as far as packets were read.
#[derive(Drop)]
pub(crate) struct Fragments {
    alloc: Global,
    clock: u128,
    last: u64,
    /// Those that lack fragments.
    unfinished: Known,
    /// The others: whole, dropped or none of Babel's.
    others: Known,
}

impl Model for Fragments {
    ghost use Rattle.babel_capture.specs.Fragments.{Reassembly};
    ghost use Rattle.babel_capture.specs.Indexing.{AreNumbered};

    ghost Value = { Reassembly };

    ghost view = { λ f. record {
      clock = f.clock;
      last = f.last;
      known = record { unfinished = f.unfinished; others = f.others };
    } };

    ghost invariant = { λ f. AreNumbered f.last f.unfinished f.others };
}

impl Fragments {
    /// None came.
    #[tactic(auto, using(crate::proofs::FragmentLaws::none_numbered))]
    pub(crate) fn new(alloc: Global) -> Fragments
        ensures { result ≡ record {
          clock = 0;
          last = 0;
          known = record { unfinished = []; others = [] };
        } }
    {
        Fragments {
            alloc,
            clock: 0,
            last: 0,
            unfinished: Known::new(alloc),
            others: Known::new(alloc),
        }
    }

    /// Moves the clock to the time of a packet, if it has one that is later.
    pub(crate) fn tick(&mut self, time: Option<Time>)
        ensures { self.new ≡ record self.old { clock = clock_at self.old.clock time } }
    {
        if let Some(time) = time {
            self.clock = self.clock.max(time.nanoseconds());
        }
    }

    /// Forgets those that lack no fragments, or were dropped, and are old, too many, or of too many
    /// octets.
    #[inline(always)]
    pub(crate) fn forget_others(&mut self)
        ensures after { self.new ≡ record self.old {
          known = record self.old.known {
            others = left_known self.old.clock self.old.known.others;
          };
        } }
        ensures few { is_past self.new.clock self.new.known.others ≡ false }
    {
        self.others.forget_past(self.clock);
    }

    /// Whether the oldest datagram that lacks fragments is given up.
    #[inline(always)]
    pub(crate) fn is_past(&self) -> bool
        ensures { result ≡ is_past self.now.clock self.now.known.unfinished }
    {
        self.unfinished.is_past(self.clock)
    }

    /// Gives up the oldest datagram that lacks fragments, if it is old, or if they are too many, or
    /// of too many octets: the number of the packet that its first fragment came in, and the
    /// datagram.
    pub(crate) fn give_up(&mut self) -> Option<(u64, Datagram)>
        ensures none { IfNone result
            ((is_past self.old.clock self.old.known.unfinished ≡ false)
            × (self.new ≡ self.old)) }
        ensures some { IfSome result (λ oldest.
            (is_past self.old.clock self.old.known.unfinished ≡ true)
            × (self.old.known.unfinished ≡ oldest ∷ self.new.known.unfinished)
            × (self.new.clock ≡ self.old.clock) × (self.new.last ≡ self.old.last)
            × (self.new.known.others ≡ self.old.known.others)) }
    {
        if self.is_past() {
            self.unfinished.pop()
        } else {
            None
        }
    }

    /// Gives up the oldest datagram that lacks fragments, where no more packets come.
    pub(crate) fn give_up_last(&mut self) -> Option<(u64, Datagram)>
        ensures none { IfNone result
            ((self.old.known.unfinished ≡ []) × (self.new ≡ self.old)) }
        ensures some { IfSome result (λ oldest.
            (self.old.known.unfinished ≡ oldest ∷ self.new.known.unfinished)
            × (self.new.clock ≡ self.old.clock) × (self.new.last ≡ self.old.last)) }
    {
        self.unfinished.pop()
    }

    /// Forgets all of them.
    #[tactic(auto, using(crate::proofs::FragmentLaws::none_numbered))]
    pub(crate) fn forget(&mut self)
        ensures { self.new ≡ record self.old {
          last = 0;
          known = record { unfinished = []; others = [] };
        } }
    {
        self.unfinished = Known::new(self.alloc);
        self.others = Known::new(self.alloc);
        self.last = 0;
    }

    /// The datagram of this identification that lacks no fragments, or was dropped, and the number
    /// of the packet that its first fragment came in.
    pub(crate) fn find_settled(&self, id: &DatagramId) -> Option<(u64, &Datagram)>
        ensures { option_map (λ one. (one.0, one.1.now)) result
            ≡ of_id id.now self.now.known.others }
    {
        self.others.find(id)
    }

    /// Takes the fragment of the packet with this number, which is in the block at this offset, and
    /// after which the time of a datagram ends within the window or not.
    pub(crate) fn take(
        &mut self,
        number: u64,
        at: u64,
        ends_within: bool,
        fragment: &Fragment<'_>,
    ) -> Result<Step, AllocError>
        requires later { self.old.last < number }
        requires fits { fragment.now.offset + fragment.now.len < 2 ^ 16 }
        requires room { is_past self.old.clock self.old.known.unfinished ≡ false }
        requires few { is_past self.old.clock self.old.known.others ≡ false }
        ensures step { IfOk result
            (λ step. step ≡ step_among self.old.known (fragment_of fragment.now)) }
        ensures known { OnOk result (self.new.known
            ≡ known_with self.old.known number at self.old.clock ends_within
            (fragment_of fragment.now)) }
        ensures missing { IfOk result
            (λ step. missing_at step (of_id fragment.now.id self.new.known.others)
            ≡ missing_at step
            (of_id_after self.old.known.unfinished (fragment_of fragment.now))) }
        ensures sight { IfOk result
            (λ step. sight_at step (of_id fragment.now.id self.new.known.others)
            ≡ sight_at step
            (of_id_after self.old.known.unfinished (fragment_of fragment.now))) }
        ensures clock { self.new.clock ≡ self.old.clock }
        ensures last { self.new.last ≤ number }
    {
        let step = self.step(fragment)?;
        match step {
            Step::Anew => self.begin(number, at, ends_within, fragment)?,
            Step::Completes | Step::Overlaps => self.settle(&fragment.id)?,
            Step::Added | Step::Ignored => {}
        }
        Ok(step)
    }

    /// Takes a fragment of a datagram that lacks some, and tells what it is to all.
    fn step(&mut self, fragment: &Fragment<'_>) -> Result<Step, AllocError>
        requires fits { fragment.now.offset + fragment.now.len < 2 ^ 16 }
        requires room { is_past self.old.clock self.old.known.unfinished ≡ false }
        ensures step { IfOk result
            (λ step. step ≡ step_among self.old.known (fragment_of fragment.now)) }
        ensures known { OnOk result
            (self.new.known ≡ changed_among self.old.known (fragment_of fragment.now)) }
        ensures kept { OnOk result (of_id fragment.now.id self.new.known.unfinished
            ≡ of_id_after self.old.known.unfinished (fragment_of fragment.now)) }
        ensures anew { IfOk result (λ step. step ≡ Step.Anew → self.new ≡ self.old) }
        ensures clock { self.new.clock ≡ self.old.clock }
        ensures last { self.new.last ≡ self.old.last }
    {
        match self.unfinished.take(self.alloc, fragment)? {
            Some(step) => Ok(step),
            None => Ok(self.others.settled_step(fragment).unwrap_or(Step::Anew)),
        }
    }

    /// Puts the datagram of this identification, which lacks no fragments any more, or was dropped,
    /// among the others.
    fn settle(&mut self, id: &DatagramId) -> Result<(), AllocError>
        requires few { is_past self.old.clock self.old.known.others ≡ false }
        ensures known { OnOk result (self.new.known ≡ settled id.now self.old.known) }
        ensures kept { OnOk result (of_id id.now self.new.known.others
            ≡ of_id id.now self.old.known.unfinished) }
        ensures clock { self.new.clock ≡ self.old.clock }
        ensures last { self.new.last ≡ self.old.last }
    {
        self.others.forget(id);
        match self.unfinished.forget(id) {
            Some((number, datagram)) => self.others.add(number, datagram),
            None => Ok(()),
        }
    }

    /// Begins a datagram with a fragment, in place of one of the same identification.
    fn begin(
        &mut self,
        number: u64,
        at: u64,
        ends_within: bool,
        fragment: &Fragment<'_>,
    ) -> Result<(), AllocError>
        requires later { self.old.last < number }
        requires fits { fragment.now.offset + fragment.now.len < 2 ^ 16 }
        requires room { is_past self.old.clock self.old.known.unfinished ≡ false }
        requires few { is_past self.old.clock self.old.known.others ≡ false }
        ensures known { OnOk result (self.new.known
            ≡ begun_in (forgotten_among fragment.now.id self.old.known) number at
            self.old.clock ends_within (fragment_of fragment.now)) }
        ensures clock { self.new.clock ≡ self.old.clock }
        ensures last { self.new.last ≤ number }
    {
        self.unfinished.forget(&fragment.id);
        self.others.forget(&fragment.id);
        let datagram = Datagram::new(self.alloc, at, self.clock, ends_within, fragment)?;
        self.last = number;
        if is_of_another(fragment) {
            self.others.add(number, datagram)
        } else {
            self.unfinished.add(number, datagram)
        }
    }
}
