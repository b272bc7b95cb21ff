//! What the senders of a capture say, heard record by record, and what is told of it.
ghost use Rattle.std.specs.Prelude.{◌≡◌, ◌≢◌, ◌++◌, ◌||◌, ◌^◌, ◌<◌, ◌≤◌, ◌∷◌, List, [], IfOk};
ghost use Rattle.std.specs.Prelude.{IfErr, IfSome, OnOk, Some, None, ◌&&◌, not};
ghost use Rattle.std.specs.BTreeSet.{contains};
ghost use Rattle.std.specs.Option.{option_map};
ghost use Rattle.babel_capture.specs.declared.missed.Missed.{Missed as MissedSaid};
ghost use Rattle.babel_capture.specs.Counts.{Made};
ghost use Rattle.babel_capture.specs.Sinking.{IsTold, missed_said};
ghost use Rattle.babel_timeline.specs.Hearing.{octets_heard, report_of};
ghost use Rattle.babel_timeline.specs.declared.telling.Telling.{Telling as TellingSaid};
ghost use Rattle.babel_dump.specs.EventsRun.{is_from, is_of, requests_asked, requests_made};
ghost use Rattle.babel_dump.specs.EventsRun.{told_from};
ghost use Rattle.babel_dump.specs.Followed.{EndsBy, HasHeard, HearsRecord, RefusesUnheard, Suits};
ghost use Rattle.babel_dump.specs.Followed.{TellsNext, TellsThen, unlost_by};
ghost use Rattle.babel_dump.specs.Speakers.{speaker_cmp};
ghost use Rattle.babel_dump.specs.declared.speaker.Speaker.{Speaker as SpeakerSaid};

use crate::addr_pair::AddrPair;
use crate::events_job::Events;
use crate::factor::Factor;
use crate::hear_said::hear_said;
use crate::left_out::LeftOutDatagram;
use crate::push_event::speaker_of;
use crate::remarks::Remarks;
use crate::since::Since;
use crate::speaker::Speaker;
use babel_capture::{BabelPacket, Missed, Origin, Record, Said, Time};
use babel_prefix::Addr;
use babel_table::Report;
use babel_timeline::{Teller, Telling, tell_requests, unicast};
use babel_tlv::Fault as DumpFault;
use std::alloc::{AllocError, Global};
use std::collections::BTreeSet;

/// Why a record can't be heard.
#[derive(Clone, Copy)]
pub(crate) enum Unheard {
    Memory,
    /// The TLVs of this sender are refused: by an offset in its dump.
    Sender { origin: Origin, fault: DumpFault },
}

impl From<AllocError> for Unheard {
    ghost use Rattle.std.specs.Prelude.{◌≡◌};
    ghost use Rattle.babel_dump.specs.declared.hearing.Unheard.TheVariants as unheard;

    ghost from_gives = { λ _ fault. fault ≡ unheard.Memory };

    fn from(_error: AllocError) -> Unheard {
        Unheard::Memory
    }
}

impl Unheard {
    /// That of a packet of this sender which has this fault.
    pub(crate) fn of(origin: Origin, fault: DumpFault) -> Unheard
        ensures memory { fault ≡ DumpFault.Memory → result ≡ Unheard.Memory }
        ensures sender { fault ≢ DumpFault.Memory → result ≡ Unheard.Sender origin fault }
    {
        match fault {
            DumpFault::Memory => Unheard::Memory,
            fault => Unheard::Sender { origin, fault },
        }
    }
}

/// What was heard of the senders of a capture.
#[derive(Drop)]
pub(crate) struct Hearing {
    teller: Teller<Speaker>,
    /// Of whom a datagram is missed: no more is told of them.
    lost: BTreeSet<Speaker>,
    /// From which moment on it is told.
    since: Since,
    /// What the last record told.
    heard: Vec<Telling<Speaker>>,
    /// What of it is told from the moment on.
    printed: Vec<Telling<Speaker>>,
}

impl Hearing {
    /// Nothing was heard.
    pub(crate) fn new(alloc: Global, events: &Events) -> Hearing
        ensures { HasHeard events.now [] [] result }
    {
        let teller = Teller::new(
            alloc,
            factor(events.expiry),
            events.limits.entries(),
            events.view,
            asked(events.pair),
        );
        let since = Since::new(alloc);
        Hearing {
            teller,
            lost: BTreeSet::new(alloc),
            since,
            heard: Vec::new(alloc),
            printed: Vec::new(alloc),
        }
    }

    /// How many octets were heard of a sender.
    pub(crate) fn octets(&self, speaker: Speaker) -> u64
        ensures { result ≡ octets_heard speaker_cmp self.now.teller.heard.entries speaker }
    {
        self.teller.octets(speaker)
    }

    /// How many TLVs were heard of a sender, and which of them were ignored.
    pub(crate) fn report(&self, speaker: Speaker) -> Report
        ensures { result ≡ report_of speaker_cmp self.now.teller.heard.entries speaker }
    {
        self.teller.report(speaker)
    }

    /// From which moment on it is told.
    pub(crate) fn since(&self) -> &Since
        ensures { result.now ≡ self.now.since }
    {
        &self.since
    }

    /// Hears a record of a capture; adds what is told of it, also where its packet has a fault.
    #[inline(always)]
    pub(crate) fn hear_record(
        &mut self,
        events: &Events,
        said: &Record<'_>,
        told: &mut Vec<Telling<Speaker>>,
    ) -> Result<(), Unheard>
        ensures lost { self.new.lost ≡ self.old.lost }
        ensures heard { OnOk result ((one : Made) → Suits events.now self.old.teller
            → IsTold one said.now
            → HearsRecord events.now one self.old.teller self.new.teller self.new.heard.items) }
        ensures untimed { said.now.time ≡ None → self.new.heard.items ≡ [] }
        ensures from { OnOk result (TellsNext events.now.since said.now.time self.old.since
            self.new.heard.items self.new.since self.new.printed.items) }
        ensures told { OnOk result (told.new.items
            ≡ told.old.items ++ unlost_by self.old.lost self.new.printed.items) }
        ensures refused { Suits events.now self.old.teller → IfErr result
            (RefusesUnheard events.now said.now self.old.teller) }
    {
        self.since.begin(events.since, said.time);
        self.heard.clear();
        let heard = self.hear(events, said);
        self.tell(nanoseconds(said.time), told)?;
        heard
    }

    /// Hears the record, and keeps what it tells.
    #[inline(always)]
    fn hear(&mut self, events: &Events, said: &Record<'_>) -> Result<(), Unheard>
        requires { self.old.heard.items ≡ [] }
        ensures same { (self.new.lost ≡ self.old.lost) × (self.new.since ≡ self.old.since) }
        ensures untimed { said.now.time ≡ None → self.new.heard.items ≡ [] }
        ensures heard { OnOk result ((one : Made) → Suits events.now self.old.teller
            → IsTold one said.now
            → HearsRecord events.now one self.old.teller self.new.teller self.new.heard.items) }
        ensures refused { Suits events.now self.old.teller → IfErr result
            (RefusesUnheard events.now said.now self.old.teller) }
    {
        hear_said(
            &mut self.teller,
            events.limits.via_v6(),
            said,
            &mut self.heard,
        )
    }

    /// Takes what was told up to this time; adds what of it is told from the moment on.
    #[inline(always)]
    fn tell(
        &mut self,
        time: Option<u128>,
        told: &mut Vec<Telling<Speaker>>,
    ) -> Result<(), AllocError>
        ensures same { (self.new.teller ≡ self.old.teller) × (self.new.lost ≡ self.old.lost)
            × (self.new.heard ≡ self.old.heard) }
        ensures from { OnOk result (TellsThen time self.old.since self.old.heard.items
            self.new.since self.new.printed.items) }
        ensures told { OnOk result (told.new.items
            ≡ told.old.items ++ unlost_by self.old.lost self.new.printed.items) }
    {
        self.printed.clear();
        self.since.take(time, &self.heard, &mut self.printed)?;
        self.add(told)
    }

    /// Adds what is told from the moment on of senders that are not lost.
    #[inline(always)]
    fn add(&self, told: &mut Vec<Telling<Speaker>>) -> Result<(), AllocError>
        ensures { OnOk result (told.new.items
            ≡ told.old.items ++ unlost_by self.now.lost self.now.printed.items) }
    {
        for telling in &self.printed {
            if !self.lost.contains(&speaker_of(telling)) {
                told.push(*telling)?;
            }
        }
        Ok(())
    }

    /// Adds what the record's packet requests, where it has one, and a time.
    #[inline(always)]
    pub(crate) fn request(
        &self,
        events: &Events,
        said: &Record<'_>,
        told: &mut Vec<Telling<Speaker>>,
    ) -> Result<(), AllocError>
        ensures { OnOk result ((one : Made) → IsTold one said.now → told.new.items
            ≡ told.old.items ++ unlost_by self.now.lost
            (told_from self.now.since.moment (requests_made events.now one))) }
    {
        let Some(time) = said.time else {
            return Ok(());
        };
        let time = time.nanoseconds();
        match &said.said {
            Said::Packet(packet) => self.add_requests(events, time, packet, told),
            _ => Ok(()),
        }
    }

    /// Adds what a packet requests, if that is told.
    fn add_requests(
        &self,
        events: &Events,
        time: u128,
        packet: &BabelPacket<'_>,
        told: &mut Vec<Telling<Speaker>>,
    ) -> Result<(), AllocError>
        ensures { OnOk result (told.new.items ≡ told.old.items ++ unlost_by self.now.lost
            (told_from self.now.since.moment
            (requests_asked events.now time packet.now.origin packet.now.destination.now
            packet.now.octets.now))) }
    {
        let Origin { place, sender } = packet.origin;
        let speaker = Speaker { sender, place };
        if !self.tells_requests(events, time, &speaker) {
            return Ok(());
        }
        let to = unicast(*packet.destination);
        tell_requests(
            events.limits.via_v6(),
            speaker,
            &to,
            time,
            packet.octets,
            told,
        )
    }

    /// Whether it is told what a sender requests then: where that is asked for, from the moment on,
    /// and while the sender is not lost.
    fn tells_requests(&self, events: &Events, time: u128, speaker: &Speaker) -> bool
        ensures { result ≡ (events.now.requests && is_from self.now.since.moment time
            && not (contains speaker_cmp self.now.lost speaker.now)) }
    {
        events.requests && self.since.is_from(time) && !self.is_lost(speaker)
    }

    /// Whether no more is told of a sender.
    fn is_lost(&self, speaker: &Speaker) -> bool
        ensures { result ≡ contains speaker_cmp self.now.lost speaker.now }
    {
        self.lost.contains(speaker)
    }

    /// Tells no more of the sender whose datagram is missed by the record, if one is. Adds by what a
    /// sender is lost.
    #[inline(always)]
    pub(crate) fn lose(&mut self, said: &Record<'_>, by: &mut Remarks) -> Result<(), AllocError>
        ensures same { (self.new.teller ≡ self.old.teller) × (self.new.since ≡ self.old.since) }
        ensures lost { OnOk result ((speaker : SpeakerSaid)
            → contains speaker_cmp self.new.lost speaker
            ≡ contains speaker_cmp self.old.lost speaker
            || is_of speaker (option_map (λ (m : MissedSaid). m.origin) (missed_said said.now.said))) }
    {
        let Said::Missed(missed) = &said.said else {
            return Ok(());
        };
        let Missed { origin, reason } = *missed;
        let Origin { place, sender } = origin;
        match self.lost.insert(Speaker { sender, place }) {
            Ok(true) => {
                let packet = said.number;
                by.lost(origin, LeftOutDatagram { packet, reason })?;
                Ok(())
            }
            Ok(false) => Ok(()),
            Err(_) => Err(AllocError),
        }
    }

    /// Tells what has expired by this moment.
    pub(crate) fn expire(
        &mut self,
        events: &Events,
        until: u128,
        told: &mut Vec<Telling<Speaker>>,
    ) -> Result<(), AllocError>
        ensures { Suits events.now self.old.teller → OnOk result (EndsBy events.now until
            self.old self.new told.old.items told.new.items) }
    {
        self.heard.clear();
        self.teller.expire(until, &mut self.heard)?;
        self.tell(Some(until), told)
    }
}

/// A time in nanoseconds since the start of 1970, if there is one.
fn nanoseconds(time: Option<Time>) -> Option<u128>
    ensures { result ≡ time }
{
    Some(time?.nanoseconds())
}

/// The ten-millionths of a factor, if there is one.
pub(crate) fn factor(expiry: Option<Factor>) -> Option<u64>
    ensures { result ≡ expiry }
{
    match expiry {
        Some(factor) => Some(factor.ten_millionths()),
        None => None,
    }
}

/// The two addresses that are asked for, if they are.
fn asked(pair: Option<AddrPair>) -> Option<(Addr, Addr)>
    ensures are { result ≡ option_map (λ pair. (pair.dst, pair.src)) pair }
    ensures one_family { IfSome result (λ pair. pair.0.family ≡ pair.1.family) }
{
    match pair {
        Some(pair) => Some((pair.dst, pair.src)),
        None => None,
    }
}
