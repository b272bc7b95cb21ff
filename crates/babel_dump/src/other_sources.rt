//! Routes for other sources than that of an answer.
ghost use Rattle.std.specs.Prelude.{◌≡◌, ◌∷◌, ◌++◌, Any, IfErr, List, OnOk, Some, [], true};
ghost use Rattle.std.specs.Option.{SomeIff};
ghost use Rattle.babel_capture.specs.Counts.{Made};
ghost use Rattle.babel_capture.specs.Sinking.{IsTold};
ghost use Rattle.babel_timeline.specs.declared.telling.Telling.TheVariants as tellings;
ghost use Rattle.babel_timeline.specs.declared.telling.Telling.{Telling as TellingSaid};
ghost use Rattle.babel_dump.specs.EventsRun.{AreOthers, NotesOthers, since_in, was_held};
ghost use Rattle.babel_dump.specs.EventsRun.{without_pair};
ghost use Rattle.babel_dump.specs.Followed.{HasHeardOthers, RefusesUnheard, Suits};
ghost use Rattle.babel_dump.specs.declared.events_job.Events.{Events as EventsSaid};
ghost use Rattle.babel_dump.specs.declared.speaker.Speaker.{Speaker as SpeakerSaid};

use crate::addr_pair::AddrPair;
use crate::any_source::is_source_specific;
use crate::events_job::Events;
use crate::hear_said::hear_said;
use crate::hearing::{Unheard, factor};
use crate::note::Note;
use crate::push_event::held_after;
use crate::since::Since;
use crate::speaker::Speaker;
use crate::spelling::Spelling;
use babel_capture::{Origin, Record};
use babel_prefix::Addr;
use babel_timeline::{Change, Subject, Teller, Telling};
use std::alloc::{AllocError, Global};
use std::collections::BTreeSet;

/// The routes to the destination of an answer that are not for every source: RFC 9079, 3.2.
#[derive(Drop)]
pub struct OtherSources {
    /// The destination, and the source of the answer: 0.0.0.0, or ::.
    pair: AddrPair,
    /// What senders hold, for whichever destination.
    teller: Teller<Speaker>,
    /// What was told last of it.
    told: Vec<Telling<Speaker>>,
    /// Those that were held just before the moment from which on it is told, or since.
    held: BTreeSet<Subject<Speaker>>,
}

/// Takes a change of what is held: a route of the destination that is not for every source is kept if
/// it was held just before the moment, or changed since.
fn keep_change(
    dst: &Addr,
    change: &Change<Speaker>,
    since: &Since,
    held: &mut BTreeSet<Subject<Speaker>>,
) -> Result<(), AllocError>
    ensures { OnOk result ((told : List (TellingSaid SpeakerSaid))
        → AreOthers dst.now since.now.moment told held.old → AreOthers dst.now since.now.moment
        (told ++ tellings.Change change.now ∷ []) held.new) }
{
    let subject = change.subject;
    if !is_source_specific(subject.key, dst) {
        return Ok(());
    }
    if was_held(change, since) {
        held.insert(subject)?;
    } else {
        held.remove(&subject);
    }
    Ok(())
}

/// Whether something was held just before the moment, or since, where this change is the last.
fn was_held(change: &Change<Speaker>, since: &Since) -> bool
    ensures { result ≡ was_held since.now.moment (Some change.now) }
{
    since.is_from(change.time) || held_after(change.kind).is_some()
}

/// Takes the changes that were told.
fn keep_changes(
    dst: &Addr,
    told: &[Telling<Speaker>],
    since: &Since,
    held: &mut BTreeSet<Subject<Speaker>>,
) -> Result<(), AllocError>
    ensures { OnOk result ((earlier : List (TellingSaid SpeakerSaid))
        → AreOthers dst.now since.now.moment earlier held.old
        → AreOthers dst.now since.now.moment (earlier ++ told.now) held.new) }
{
    for telling in told {
        keep_telling(dst, telling, since, held)?;
    }
    Ok(())
}

/// Takes what was told, if it is a change.
fn keep_telling(
    dst: &Addr,
    telling: &Telling<Speaker>,
    since: &Since,
    held: &mut BTreeSet<Subject<Speaker>>,
) -> Result<(), AllocError>
    ensures { OnOk result ((told : List (TellingSaid SpeakerSaid))
        → AreOthers dst.now since.now.moment told held.old
        → AreOthers dst.now since.now.moment (told ++ telling.now ∷ []) held.new) }
{
    match telling {
        Telling::Change(change) => keep_change(dst, change, since, held),
        Telling::Answer { .. } => Ok(()),
        Telling::Request { .. } => Ok(()),
        Telling::Silent { .. } => Ok(()),
        Telling::Returns { .. } => Ok(()),
    }
}

/// The note of a sender that has routes for other sources than that of its answers, if they are for
/// any source.
pub(crate) fn source_note(
    others: &Option<OtherSources>,
    spelling: Spelling,
    origin: &Origin,
) -> Option<Note> {
    let others = others.as_ref()?;
    let Origin { place, sender } = *origin;
    let source = others.source_for(Speaker { sender, place })?;
    Some(Note::Source(spelling, source))
}

impl OtherSources {
    /// Nothing was heard.
    pub(crate) fn new(alloc: Global, events: &Events, pair: AddrPair) -> OtherSources
        requires any { events.now.is_any_source ≡ true }
        requires of { events.now.pair ≡ Some pair }
        ensures { HasHeardOthers events.now [] result }
    {
        let limit = events.limits.entries();
        OtherSources {
            pair,
            teller: Teller::new(alloc, factor(events.expiry), limit, events.view, None),
            told: Vec::new(alloc),
            held: BTreeSet::new(alloc),
        }
    }

    /// Hears a record of a capture, of whichever destination its packet tells.
    pub(crate) fn hear(
        &mut self,
        events: &Events,
        said: &Record<'_>,
        since: &Since,
    ) -> Result<(), Unheard>
        ensures heard { OnOk result ((made : List Made) (one : Made) → IsTold one said.now
            → since.now.moment ≡ since_in events.now.since (made ++ one ∷ [])
            → HasHeardOthers events.now made self.old
            → HasHeardOthers events.now (made ++ one ∷ []) self.new) }
        ensures refused { Suits (without_pair events.now) self.old.teller → IfErr result
            (RefusesUnheard (without_pair events.now) said.now self.old.teller) }
    {
        self.told.clear();
        let via_v6 = events.limits.via_v6();
        hear_said(&mut self.teller, via_v6, said, &mut self.told)?;
        Ok(self.keep(since)?)
    }

    /// Takes what has expired by this moment.
    pub(crate) fn expire(&mut self, until: u128, since: &Since) -> Result<(), AllocError>
        ensures { OnOk result ((events : EventsSaid) (made : List Made)
            → since.now.moment ≡ since_in events.since made → HasHeardOthers events made self.old
            → NotesOthers events (Some until) made self.new) }
    {
        self.told.clear();
        self.teller.expire(until, &mut self.told)?;
        self.keep(since)
    }

    /// Takes the changes that were told last.
    fn keep(&mut self, since: &Since) -> Result<(), AllocError>
        ensures same { (self.new.teller ≡ self.old.teller) × (self.new.pair ≡ self.old.pair) }
        ensures held { OnOk result ((earlier : List (TellingSaid SpeakerSaid))
            → AreOthers self.old.pair.dst since.now.moment earlier self.old.held
            → AreOthers self.old.pair.dst since.now.moment (earlier ++ self.old.told.items)
            self.new.held) }
    {
        let (dst, told) = (self.pair.dst, &self.told);
        keep_changes(&dst, told, since, &mut self.held)
    }

    /// The source of the answer, if the sender has other routes.
    fn source_for(&self, sender: Speaker) -> Option<Addr>
        ensures { SomeIff result (Any (λ subject. subject.sender ≡ sender) self.now.held.keys)
            self.now.pair.src }
    {
        for subject in self.held.iter() {
            if subject.sender == sender {
                return Some(self.pair.src);
            }
        }
        None
    }
}
