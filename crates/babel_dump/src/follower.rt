//! What the records of a capture tell, heard as they are read.
ghost use Rattle.std.specs.Prelude.{◌≡◌, ◌+◌, ◌++◌, ◌⊎◌, ◌^◌, ◌<◌, ◌≤◌, List, [], IfErr, IfOk, IsErr};
ghost use Rattle.std.specs.Prelude.{None};
ghost use Rattle.std.specs.Prelude.{OnOk, Some, drop, false, length, take, true};
ghost use Rattle.babel_capture.specs.Counts.{Made};
ghost use Rattle.babel_capture.specs.Sinking.{IsTold, left_said, packet_said};
ghost use Rattle.babel_tlv.specs.Framing.{framed};
ghost use Rattle.babel_dump.specs.EventsRun.{NotesSome, since_in};
ghost use Rattle.babel_dump.specs.Followed.{HasHeard, HearsFollowed, HearsFront, HearsTold};
ghost use Rattle.babel_dump.specs.Followed.{TellsBehind};
ghost use Rattle.babel_dump.specs.Followed.{HearsOthers, IsWholeTold, KnowsOthers, RefusesFront};
ghost use Rattle.babel_dump.specs.Followed.{RefusesOthers, RefusesTold, RefusesUnheard};
ghost use Rattle.babel_dump.specs.Followed.{RefusesUsually, Stops, StopsFollowed, Suits, trouble_of};
ghost use Rattle.babel_dump.specs.FollowedSenders.{is_followed, with_followed};
ghost use Rattle.babel_dump.specs.Remarks.{SaysRemarks};
ghost use Rattle.babel_dump.specs.declared.events_job.Events.{Events as EventsSaid};
ghost use Rattle.babel_dump.specs.declared.hearing.Unheard.TheVariants as unheard;
ghost use Rattle.babel_dump.specs.declared.stop.Stop.{Stop as StopSaid};
ghost use Rattle.babel_dump.specs.declared.stop.Stop.TheVariants as stops;

use crate::events_job::Events;
use crate::followed_senders::{FollowedSenders, octets_of, sender_of};
use crate::hearing::{Hearing, Unheard};
use crate::left_out::LeftOutDatagram;
use crate::other_sources::OtherSources;
use crate::remarks::Remarks;
use crate::says::Says;
use crate::since::append;
use crate::speaker::{Speaker, speaker_at};
use crate::stop::Stop;
use crate::trouble::Trouble;
use crate::unread_tlv::{UnreadTlv, packet_of};
use babel_capture::{BabelPacket, Gathered, Origin, Reason, Record, Said, Sink};
use babel_timeline::Telling;
use babel_tlv::Start;
use std::alloc::{AllocError, Global};
use std::mem::replace;

/// Hears the records of a capture one after another, up to the first that has a fault.
#[derive(Drop)]
pub(crate) struct Follower<'a> {
    alloc: Global,
    events: &'a Events,
    /// Whose records are heard.
    pub senders: FollowedSenders,
    pub hearing: Hearing,
    /// What was told and is not written yet.
    pub told: Vec<Telling<Speaker>>,
    /// Where the answers are for any source, the routes for others.
    pub other_sources: Option<OtherSources>,
    /// What there is to say of what was not read.
    remarks: Remarks,
    /// Why no more is heard.
    fault: Option<Stop>,
}

impl<'a> Follower<'a> {
    /// Nothing was heard.
    pub(crate) fn new(alloc: Global, events: &'a Events) -> Follower<'a>
        ensures events { result.events.now ≡ events.now }
        ensures nobody { result.senders.senders.entries ≡ [] }
        ensures none { HasHeard events.now [] [] result.hearing }
        ensures others { KnowsOthers events.now [] result.other_sources }
        ensures told { result.told.items ≡ [] }
        ensures fault { result.fault ≡ None }
    {
        Follower {
            alloc,
            events,
            senders: FollowedSenders::new(alloc),
            hearing: Hearing::new(alloc, events),
            told: Vec::new(alloc),
            other_sources: other_sources(alloc, events),
            remarks: Remarks::new(alloc, events),
            fault: None,
        }
    }

    /// Why no more is heard, if a record had a fault.
    pub(crate) fn fault(&self) -> Result<(), Trouble>
        ensures none { OnOk result (self.now.fault ≡ None) }
        ensures some { IfErr result (λ trouble. (stop : StopSaid)
            × (self.now.fault ≡ Some stop) × (trouble ≡ trouble_of stop)) }
    {
        match self.fault {
            None => Ok(()),
            Some(fault) => Err(Trouble::from(fault)),
        }
    }

    /// Hears a record as `follow` does. What was told before it stays, and if memory runs out nothing
    /// is told besides.
    #[inline(always)]
    fn follow_on(&mut self, told: &Record<'_>) -> Result<(), Stop>
        ensures same { (self.new.events.now ≡ self.old.events.now)
            × (self.new.fault ≡ self.old.fault) }
        ensures behind { IfErr result
            (TellsBehind self.old.told.items self.new.told.items) }
        ensures heard { OnOk result
            (HearsFollowed self.old.events.now told.now self.old self.new) }
        ensures stops { IfErr result (StopsFollowed self.old.events.now told.now self.old) }
    {
        let mut before = replace(&mut self.told, Vec::new(self.alloc));
        match self.follow(told) {
            Ok(()) => {
                let put = put_behind(&mut before, &self.told);
                self.told = before;
                put
            }
            Err(stop) => {
                let stopped = put_refused(&mut before, &self.told, stop);
                self.told = before;
                Err(stopped)
            }
        }
    }

    /// Hears a record; of a sender that is not followed no more than that it came.
    #[inline(always)]
    fn follow(&mut self, told: &Record<'_>) -> Result<(), Stop>
        ensures same { (self.new.events.now ≡ self.old.events.now)
            × (self.new.fault ≡ self.old.fault) }
        ensures heard { OnOk result
            (HearsFollowed self.old.events.now told.now self.old self.new) }
        ensures stops { IfErr result (StopsFollowed self.old.events.now told.now self.old) }
    {
        if self.follows(told)? {
            return self.hear_all(told);
        }
        self.hear_all(&Record {
            said: Said::Nothing,
            ..*told
        })
    }

    /// Whether the sender of a record is followed, if it has one. There is to say which is the first
    /// that is not.
    fn follows(&mut self, told: &Record<'_>) -> Result<bool, Unheard>
        ensures same { (self.new.events.now ≡ self.old.events.now)
            × (self.new.hearing ≡ self.old.hearing) × (self.new.told ≡ self.old.told)
            × (self.new.fault ≡ self.old.fault) }
        ensures others { self.new.other_sources ≡ self.old.other_sources }
        ensures follows { IfOk result (λ follows. (one : Made) → IsTold one told.now
            → (follows ≡ is_followed self.old.senders.senders.entries one.what)
            × (self.new.senders.senders.entries
            ≡ with_followed self.old.senders.senders.entries one.what)) }
        ensures memory { IfErr result (λ why. why ≡ unheard.Memory) }
    {
        let Some((origin, is_packet)) = sender_of(told) else {
            return Ok(true);
        };
        if self.senders.meet(&origin, is_packet, octets_of(told))? {
            return Ok(true);
        }
        self.remarks.not_followed(&origin, told.number)?;
        Ok(false)
    }

    /// Hears a record, and the routes for other sources, if they are asked for.
    #[inline(always)]
    fn hear_all(&mut self, told: &Record<'_>) -> Result<(), Stop>
        ensures same { (self.new.events.now ≡ self.old.events.now)
            × (self.new.fault ≡ self.old.fault) }
        ensures senders { self.new.senders ≡ self.old.senders }
        ensures heard { OnOk result
            (HearsTold self.old.events.now told.now self.old self.new) }
        ensures others { OnOk result (HearsOthers self.old.events.now told.now
            self.new.hearing.since.moment self.old.other_sources self.new.other_sources) }
        ensures stops { IfErr result (Stops self.old.events.now told.now self.old self.new) }
    {
        self.hear(told)?;
        Ok(self.hear_others(told)?)
    }

    /// Hears the routes for other sources, if they are asked for.
    #[inline(always)]
    fn hear_others(&mut self, told: &Record<'_>) -> Result<(), Unheard>
        ensures same { (self.new.events ≡ self.old.events) × (self.new.hearing ≡ self.old.hearing)
            × (self.new.told ≡ self.old.told) × (self.new.fault ≡ self.old.fault) }
        ensures senders { self.new.senders ≡ self.old.senders }
        ensures others { OnOk result (HearsOthers self.old.events.now told.now
            self.old.hearing.since.moment self.old.other_sources self.new.other_sources) }
        ensures refused { IfErr result
            (RefusesOthers self.old.events.now told.now self.old.other_sources) }
    {
        match &mut self.other_sources {
            Some(others) => others.hear(self.events, told, self.hearing.since()),
            None => Ok(()),
        }
    }

    /// Takes what has expired by this moment, if there is one, of the routes for other sources.
    pub(crate) fn expire_others(&mut self, until: Option<u128>) -> Result<(), AllocError>
        ensures same { (self.new.events ≡ self.old.events)
            × (self.new.hearing ≡ self.old.hearing) × (self.new.told ≡ self.old.told)
            × (self.new.fault ≡ self.old.fault) }
        ensures senders { self.new.senders ≡ self.old.senders }
        ensures others { OnOk result ((events : EventsSaid) (made : List Made)
            → self.old.hearing.since.moment ≡ since_in events.since made
            → KnowsOthers events made self.old.other_sources
            → NotesSome events until made self.new.other_sources) }
    {
        let Some(until) = until else {
            return Ok(());
        };
        match &mut self.other_sources {
            Some(others) => others.expire(until, self.hearing.since()),
            None => Ok(()),
        }
    }

    /// Hears a record, as it is asked for.
    #[inline(always)]
    fn hear(&mut self, told: &Record<'_>) -> Result<(), Stop>
        ensures same { (self.new.events.now ≡ self.old.events.now)
            × (self.new.fault ≡ self.old.fault) }
        ensures senders { self.new.senders ≡ self.old.senders }
        ensures others { self.new.other_sources ≡ self.old.other_sources }
        ensures heard { OnOk result
            (HearsTold self.old.events.now told.now self.old self.new) }
        ensures whole { OnOk result (self.old.events.now.strict ≡ true
            → IsWholeTold self.old.events.now told.now self.old) }
        ensures refused { IfErr result
            (RefusesTold self.old.events.now told.now self.old self.new) }
        ensures usually { self.old.events.now.strict ≡ false → IfErr result
            (RefusesUsually self.old.events.now told.now self.old) }
    {
        if self.events.strict {
            self.hear_strictly(told)
        } else {
            Ok(self.hear_whole(told)?)
        }
    }

    /// Hears a record, and then what it requests; adds what there is to say of what was not read.
    #[inline(always)]
    fn hear_whole(&mut self, told: &Record<'_>) -> Result<(), Unheard>
        ensures same { (self.new.events.now ≡ self.old.events.now)
            × (self.new.fault ≡ self.old.fault) }
        ensures senders { self.new.senders ≡ self.old.senders }
        ensures others { self.new.other_sources ≡ self.old.other_sources }
        ensures heard { OnOk result
            (HearsTold self.old.events.now told.now self.old self.new) }
        ensures refused { Suits self.old.events.now self.old.hearing.teller → IfErr result
            (RefusesUnheard self.old.events.now told.now self.old.hearing.teller) }
    {
        self.hearing.hear_record(self.events, told, &mut self.told)?;
        self.hearing.request(self.events, told, &mut self.told)?;
        self.hearing.lose(told, &mut self.remarks)?;
        add_remarks(&mut self.remarks, &self.hearing, told)?;
        Ok(())
    }

    /// The number of the first packet of a sender that is not followed.
    pub(crate) fn not_followed(&self) -> Option<u64> {
        self.remarks.not_followed
    }

    /// Says what was not read since it was said last.
    pub(crate) fn say<S: Says>(&mut self, gathered: &Gathered, says: &mut S)
        ensures said { SaysRemarks S.hears gathered.now self.old.remarks.hint says.old
            self.old.remarks.remarks.items says.new }
        ensures none_waits { self.new.remarks.remarks.items ≡ [] }
        ensures same { (self.new.events ≡ self.old.events)
            × (self.new.hearing ≡ self.old.hearing) × (self.new.told ≡ self.old.told)
            × (self.new.fault ≡ self.old.fault) }
        ensures senders { self.new.senders ≡ self.old.senders }
        ensures others { self.new.other_sources ≡ self.old.other_sources }
    {
        self.remarks.say(gathered, says);
    }

    /// Hears a record of a capture that is read strictly: of a packet the TLVs before the first that
    /// is ignored, for which it is refused, as for a datagram that was left out.
    fn hear_strictly(&mut self, told: &Record<'_>) -> Result<(), Stop>
        ensures same { (self.new.events.now ≡ self.old.events.now)
            × (self.new.fault ≡ self.old.fault) }
        ensures senders { self.new.senders ≡ self.old.senders }
        ensures others { self.new.other_sources ≡ self.old.other_sources }
        ensures heard { OnOk result
            (HearsTold self.old.events.now told.now self.old self.new) }
        ensures whole { OnOk result (IsWholeTold self.old.events.now told.now self.old) }
        ensures refused { IfErr result
            (RefusesTold self.old.events.now told.now self.old self.new) }
    {
        match &told.said {
            Said::Packet(packet) => self.hear_packet_strictly(told, packet),
            Said::Missed(missed) => self.refuse(told, missed.reason),
            Said::LeftOut { reason, .. } => self.refuse(told, *reason),
            Said::Nothing => Ok(self.hear_whole(told)?),
        }
    }

    /// Refuses a datagram that was left out, once all is told that has expired by then.
    fn refuse(&mut self, told: &Record<'_>, reason: Reason) -> Result<(), Stop>
        requires { left_said told.now.said ≡ Some reason }
        ensures same { (self.new.events.now ≡ self.old.events.now)
            × (self.new.fault ≡ self.old.fault) }
        ensures senders { self.new.senders ≡ self.old.senders }
        ensures others { self.new.other_sources ≡ self.old.other_sources }
        ensures refused { IsErr result × IfErr result
            (RefusesTold self.old.events.now told.now self.old self.new) }
    {
        self.hearing.hear_record(self.events, told, &mut self.told)?;
        let packet = told.number;
        Err(Stop::LeftOut(LeftOutDatagram { packet, reason }))
    }

    /// Hears a packet up to its first TLV that is ignored.
    fn hear_packet_strictly(
        &mut self,
        told: &Record<'_>,
        packet: &BabelPacket<'_>,
    ) -> Result<(), Stop>
        requires { packet_said told.now.said ≡ Some packet.now }
        ensures same { (self.new.events.now ≡ self.old.events.now)
            × (self.new.fault ≡ self.old.fault) }
        ensures senders { self.new.senders ≡ self.old.senders }
        ensures others { self.new.other_sources ≡ self.old.other_sources }
        ensures heard { OnOk result
            (HearsTold self.old.events.now told.now self.old self.new) }
        ensures whole { OnOk result (IsWholeTold self.old.events.now told.now self.old) }
        ensures refused { IfErr result
            (RefusesTold self.old.events.now told.now self.old self.new) }
    {
        let origin = packet.origin;
        let start = Start {
            sender: origin.sender,
            via_v6: self.events.limits.via_v6(),
        };
        let at = self.hearing.octets(speaker_at(&origin));
        match UnreadTlv::first(&start, at, packet.octets) {
            Ok(None) => Ok(self.hear_whole(told)?),
            Ok(Some(unread)) => {
                self.hear_front(told, packet, unread.before)?;
                Err(Stop::Ignored {
                    origin,
                    tlv: unread.tlv,
                    ignores_encoding_4: unread.ignores_encoding_4,
                })
            }
            Err(fault) => {
                self.hear_whole(told)?;
                Err(Stop::Unheard(Unheard::Sender { origin, fault }))
            }
        }
    }

    /// Hears so many octets of a packet's body, as a packet.
    fn hear_front(
        &mut self,
        told: &Record<'_>,
        packet: &BabelPacket<'_>,
        before: usize,
    ) -> Result<(), Unheard>
        requires fits { 4 + before ≤ length packet.now.octets.now }
        requires short { before < 2 ^ 16 }
        ensures same { (self.new.events.now ≡ self.old.events.now)
            × (self.new.fault ≡ self.old.fault) }
        ensures senders { self.new.senders ≡ self.old.senders }
        ensures others { self.new.other_sources ≡ self.old.other_sources }
        ensures heard { OnOk result (HearsFront self.old.events.now told.now packet.now
            (framed (take before (drop 4 packet.now.octets.now))) self.old self.new) }
        ensures refused { Suits self.old.events.now self.old.hearing.teller → IfErr result
            (RefusesFront self.old.events.now told.now packet.now
            (framed (take before (drop 4 packet.now.octets.now))) self.old.hearing.teller) }
    {
        let octets = packet_of(self.alloc, &packet.octets[4..4 + before])?;
        let front = BabelPacket {
            octets: &octets,
            ..*packet
        };
        self.hear_whole(&Record {
            said: Said::Packet(front),
            ..*told
        })
    }
}

/// Puts what a record told behind what was told before it.
fn put_behind(before: &mut Vec<Telling<Speaker>>, told: &[Telling<Speaker>]) -> Result<(), Stop>
    ensures ok { OnOk result (before.new.items ≡ before.old.items ++ told.now) }
    ensures behind { IfErr result (TellsBehind before.old.items before.new.items) }
    ensures memory { IfErr result (λ stop. stop ≡ stops.Unheard unheard.Memory) }
{
    match append(before, told) {
        Ok(()) => Ok(()),
        Err(_) => Err(Stop::Unheard(Unheard::Memory)),
    }
}

/// Puts what a record told for which no more is heard behind what was told before it, unless memory
/// ran out, or does then.
fn put_refused(before: &mut Vec<Telling<Speaker>>, told: &[Telling<Speaker>], stop: Stop) -> Stop
    ensures behind { TellsBehind before.old.items before.new.items result }
    ensures why { (result ≡ stops.Unheard unheard.Memory) ⊎ (result ≡ stop) }
{
    if stop.is_memory() {
        return stop;
    }
    match append(before, told) {
        Ok(()) => stop,
        Err(_) => Stop::Unheard(Unheard::Memory),
    }
}

/// No routes, where answers are for any source.
fn other_sources(alloc: Global, events: &Events) -> Option<OtherSources>
    ensures { KnowsOthers events.now [] result }
{
    if !events.is_any_source {
        return None;
    }
    Some(OtherSources::new(alloc, events, events.pair?))
}

/// Adds what of a record that was heard was not read.
#[inline(always)]
fn add_remarks(
    remarks: &mut Remarks,
    hearing: &Hearing,
    told: &Record<'_>,
) -> Result<(), AllocError> {
    match &told.said {
        Said::Packet(packet) => remarks.ignored(hearing, packet),
        Said::LeftOut { origin, reason } => {
            let (packet, reason) = (told.number, *reason);
            remarks.left_out(*origin, LeftOutDatagram { packet, reason })
        }
        Said::Missed(_) | Said::Nothing => Ok(()),
    }
}

impl Sink for Follower<'_> {
    ghost use Rattle.babel_dump.specs.Followed.{Follows};

    ghost has = { Follows };

    fn take(&mut self, told: &Record<'_>) {
        if self.fault.is_none() {
            if let Err(fault) = self.follow_on(told) {
                self.fault = Some(fault);
            }
        }
    }
}
