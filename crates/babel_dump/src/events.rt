//! `events`: what the senders in a capture announce, change and retract, and what expires, told as
//! the capture is read.
ghost use Rattle.std.specs.Prelude.{◌≡◌, ◌+◌, ◌-◌, ◌++◌, ◌^◌, ◌<◌, ◌≤◌, ◌⊎◌, ℕ, List, []};
ghost use Rattle.std.specs.Prelude.{◌∷◌, None, IfErr, IfOk, OnErr, OnOk, false, if◌then◌else◌};
ghost use Rattle.std.specs.Prelude.{map};
ghost use Rattle.std.specs.Prelude.{true, vec_capacity};
ghost use Rattle.std.specs.List.{flat_map};
ghost use Rattle.babel_capture.specs.Capture.{moment_read};
ghost use Rattle.babel_capture.specs.Counts.{Made};
ghost use Rattle.babel_timeline.specs.declared.telling.Telling.{Telling as TellingSaid};
ghost use Rattle.babel_dump.specs.Device.{HasRoomToCount, HasRoomToWrite};
ghost use Rattle.babel_dump.specs.EventsCause.{EventsCause, Fails, HasNobody, HasUnread};
ghost use Rattle.babel_dump.specs.EventsCause.{IsBackwards, IsTooLate, IsUnreadIn, RefusesOctets};
ghost use Rattle.babel_dump.specs.EventsCause.{RefusesPiece, RefusesToEnd, RefusesWhole};
ghost use Rattle.babel_dump.specs.EventsCause.{TellsFault, nameless};
ghost use Rattle.babel_dump.specs.EventsRun.{AreReadWhole, NotesSome, TellsEvents, WroteLines};
ghost use Rattle.babel_dump.specs.EventsRun.{heard_status, since_in};
ghost use Rattle.babel_dump.specs.EventsStart.{StartsEvents, WroteBehind, WroteSome};
ghost use Rattle.babel_dump.specs.EventsStart.{WroteStart};
ghost use Rattle.babel_dump.specs.Followed.{Ends, EndsAt, Goes, HasFollowed, IsFollowed};
ghost use Rattle.babel_dump.specs.Followed.{IsFollowedToEnd, KnowsOthers, Suits, named_event};
ghost use Rattle.babel_dump.specs.FollowedSenders.{with_packets};
ghost use Rattle.babel_dump.specs.HeardSenders.{heard_of, heard_told};
ghost use Rattle.babel_dump.specs.Run.{output};
ghost use Rattle.babel_dump.specs.Slices.{WroteFront};
ghost use Rattle.babel_dump.specs.declared.events_job.Events.{Events as EventsSaid};
ghost use Rattle.babel_dump.specs.declared.input_fault.InputFault.TheVariants as input_faults;
ghost use Rattle.babel_dump.specs.declared.run_fault.Side.TheVariants as sides;
ghost use Rattle.babel_dump.specs.declared.speaker.Speaker.{Speaker as SpeakerSaid};

use crate::absence::Absence;
use crate::byte_in::ByteIn;
use crate::byte_out::ByteOut;
use crate::capture_input::refuse_left_out;
use crate::event_line::write_event;
use crate::events_job::Events;
use crate::events_outcome::{EventsOutcome, HeardSender};
use crate::follower::Follower;
use crate::input::refuse_unread;
use crate::input_fault::InputFault;
use crate::moment_words::{moment_from, moments_of};
use crate::other_sources::OtherSources;
use crate::outcome::{Outcome, Reports};
use crate::push_event::speaker_of;
use crate::says::Says;
use crate::slice_buffer::slice_buffer;
use crate::speaker::Speaker;
use crate::told_filter::keeps_told;
use crate::trouble::Trouble;
use crate::write::{WriteFailed, write_text};
use babel_capture::{Capture, Fault, Gathered, Origin, Report, Wanted};
use babel_timeline::Telling;
use std::alloc::{AllocError, Global};

/// How many octets one read asks for.
const PIECE: usize = 65_536;

/// How many octets a capture has at most: no file is longer.
const MOST: u64 = 1 << 62;

/// How many octets a block has at most before its length is known.
const LONGEST_HEADER: u64 = 24;

/// A capture that is followed: how far it was read, and what its senders hold.
#[derive(Drop)]
struct Followed<'a> {
    capture: Capture,
    follower: Follower<'a>,
    /// It is empty between two reads.
    buffer: Vec<u8>,
}

/// Reads a capture to its end, or to its first fault, and tells what changes as it is read: the
/// lines are flushed after each read. At a fault the lines up to there stand. Whose datagrams are
/// left out since they lack something, and so are told of no more, is said at once.
pub fn run_events<R: ByteIn, W: ByteOut, S: Says>(
    alloc: Global,
    events: &Events,
    reader: &mut R,
    writer: &mut W,
    says: &mut S,
) -> Result<EventsOutcome, Trouble>
    requires reader { HasRoomToCount (R.state reader.old) }
    requires writer { HasRoomToWrite (W.state writer.old) }
    ensures tells { IfOk result (λ answer. TellsEvents events.now (R.state reader.old)
        (R.state reader.new) (output (W.state writer.old) (W.state writer.new)) answer) }
    ensures start { OnErr result (StartsEvents events.now (R.state reader.old)
        (R.state reader.new) (output (W.state writer.old) (W.state writer.new))) }
    ensures cause { IfErr result (EventsCause events.now (R.state reader.old)
        (R.state reader.new) (output (W.state writer.old) (W.state writer.new))) }
{
    let mut followed = Followed::new(alloc, events)?;
    match followed.run(alloc, events, reader, writer, says) {
        Ok(answer) => Ok(answer),
        Err(mut trouble) => {
            followed.add_name(alloc, &mut trouble)?;
            Err(trouble)
        }
    }
}

impl<'a> Followed<'a> {
    /// A capture of which nothing was read.
    fn new(alloc: Global, events: &'a Events) -> Result<Followed<'a>, Trouble>
        ensures none { IfOk result (IsFollowed events.now [] []) }
        ensures told { IfOk result (λ followed. followed.follower.told.items ≡ []) }
        ensures empty { IfOk result (λ followed. followed.buffer.items ≡ []) }
        ensures room { IfOk result (λ followed. 2048 ≤ vec_capacity followed.buffer) }
        ensures memory { IfErr result (Fails events.now (λ _. ⊥) ⊥ ⊥ ⊥ (λ _. ⊥)) }
    {
        let buffer = slice_buffer(alloc)?;
        let (sender, place) = (events.sender, events.place);
        let wanted = Wanted {
            sender,
            place,
            are_listed: events.strict,
            accepts_missing: events.accept_missing,
        };
        let capture = Capture::within(alloc, MOST, events.window, events.accept_cut, wanted);
        let follower = Follower::new(alloc, events);
        Ok(Followed {
            capture,
            follower,
            buffer,
        })
    }

    /// Reads the capture to its end, and tells what ends then.
    fn run<R: ByteIn, W: ByteOut, S: Says>(
        &mut self,
        alloc: Global,
        events: &Events,
        reader: &mut R,
        writer: &mut W,
        says: &mut S,
    ) -> Result<EventsOutcome, Trouble>
        requires reader { HasRoomToCount (R.state reader.old) }
        requires writer { HasRoomToWrite (W.state writer.old) }
        requires none { IsFollowed events.now [] [] self.old }
        requires told { self.old.follower.told.items ≡ [] }
        requires empty { self.old.buffer.items ≡ [] }
        requires room { 2048 ≤ vec_capacity self.old.buffer }
        ensures tells { IfOk result (λ answer. TellsEvents events.now (R.state reader.old)
            (R.state reader.new) (output (W.state writer.old) (W.state writer.new)) answer) }
        ensures start { OnErr result (WroteStart events.now (R.state reader.old)
            (R.state reader.new) (output (W.state writer.old) (W.state writer.new))) }
        ensures cause { IfErr result (EventsCause events.now (R.state reader.old)
            (R.state reader.new) (output (W.state writer.old) (W.state writer.new))) }
    {
        self.follow(events, reader, writer, says)?;
        self.end(alloc, events, writer, says)
    }

    /// Reads the capture to its end, piece by piece.
    fn follow<R: ByteIn, W: ByteOut, S: Says>(
        &mut self,
        events: &Events,
        reader: &mut R,
        writer: &mut W,
        says: &mut S,
    ) -> Result<(), Trouble>
        requires reader { HasRoomToCount (R.state reader.old) }
        requires writer { HasRoomToWrite (W.state writer.old) }
        requires none { IsFollowed events.now [] [] self.old }
        requires told { self.old.follower.told.items ≡ [] }
        requires empty { self.old.buffer.items ≡ [] }
        requires room { 2048 ≤ vec_capacity self.old.buffer }
        ensures told { OnOk result (self.new.follower.told.items ≡ []) }
        ensures empty { OnOk result (self.new.buffer.items ≡ []) }
        ensures room { OnOk result (2048 ≤ vec_capacity self.new.buffer) }
        ensures failures { OnOk result ((W.state writer.new).failures
            ≡ (W.state writer.old).failures) }
        ensures flushes { OnOk result ((W.state writer.new).flushes
            ≤ (W.state writer.old).flushes + 2 ^ 62 + 24) }
        ensures followed { OnOk result (HasFollowed events.now (R.state reader.old)
            (R.state reader.new) (output (W.state writer.old) (W.state writer.new)) self.new) }
        ensures start { OnErr result (WroteStart events.now (R.state reader.old)
            (R.state reader.new) (output (W.state writer.old) (W.state writer.new))) }
        ensures cause { IfErr result (EventsCause events.now (R.state reader.old)
            (R.state reader.new) (output (W.state writer.old) (W.state writer.new))) }
    {
        let mut piece = [0; PIECE];
        // Each read gives an octet at least, but for the last, and the capture refuses the first
        // block past the limit.
        'reads: for _ in 0..MOST + LONGEST_HEADER {
            match reader.read(&mut piece) {
                Ok(0) => return Ok(()),
                Ok(n) => self.take(events, &piece[..n], writer, says)?,
                Err(_) => return Err(Trouble::from(InputFault::Read)),
            }
        }
        unreachable!()
    }

    /// Takes the next octets of the capture; says what of their packets was not read, and writes what
    /// they tell, also where they have a fault. If `--since` is later than `--until` it does neither.
    fn take<W: ByteOut, S: Says>(
        &mut self,
        events: &Events,
        piece: &[u8],
        writer: &mut W,
        says: &mut S,
    ) -> Result<(), Trouble>
        requires few_failures { (W.state writer.old).failures < 2 ^ 64 - 1 }
        requires few_flushes { (W.state writer.old).flushes < 2 ^ 64 - 1 }
        requires told { self.old.follower.told.items ≡ [] }
        requires empty { self.old.buffer.items ≡ [] }
        requires room { 2048 ≤ vec_capacity self.old.buffer }
        ensures said { OnOk result (self.new.follower.remarks.remarks.items ≡ []) }
        ensures said_first { IfErr result (λ trouble. IsBackwards trouble
            ⊎ (self.new.follower.remarks.remarks.items ≡ [])) }
        ensures told { OnOk result (self.new.follower.told.items ≡ []) }
        ensures empty { OnOk result (self.new.buffer.items ≡ []) }
        ensures room { OnOk result (2048 ≤ vec_capacity self.new.buffer) }
        ensures failures { OnOk result ((W.state writer.new).failures
            ≡ (W.state writer.old).failures) }
        ensures flushes { OnOk result ((W.state writer.new).flushes
            ≡ (W.state writer.old).flushes + 1) }
        ensures followed { OnOk result ((fed : List ℕ) (told : List (TellingSaid SpeakerSaid))
            → IsFollowed events.now fed told self.old → Goes events.now (fed ++ piece.now) told
            (output (W.state writer.old) (W.state writer.new)) self.new) }
        ensures start { OnErr result ((fed : List ℕ) (told : List (TellingSaid SpeakerSaid))
            → IsFollowed events.now fed told self.old → WroteBehind events.now (fed ++ piece.now)
            told (output (W.state writer.old) (W.state writer.new))) }
        ensures cause { IfErr result (λ trouble. (fed : List ℕ)
            (told : List (TellingSaid SpeakerSaid)) → IsFollowed events.now fed told self.old
            → Fails events.now (RefusesPiece events.now (fed ++ piece.now)) ⊥ ⊥
            ((W.state writer.old).failures < (W.state writer.new).failures)
            (RefusesOctets events.now (fed ++ piece.now)) trouble) }
    {
        let fed = self.capture.feed(piece, &mut self.follower);
        self.in_order(events)?;
        let gathered = self.capture.gathered();
        self.follower.say(gathered, says);
        self.write(events, writer)?;
        self.follower.fault()?;
        match fed {
            Ok(()) => Ok(()),
            Err(fault) => Err(of_capture(fault)),
        }
    }

    /// Whether `--since` is no later than `--until`, by the capture's first packet.
    fn in_order(&self, events: &Events) -> Result<(), Trouble>
        ensures { IfErr result (λ trouble. IsBackwards trouble × IsTooLate events.now) }
    {
        let (_, until) = moments_of(&events.window);
        if let (Some(since), Some(until), Some(first)) = (
            events.since,
            until,
            self.capture.start(),
        ) {
            if moment_from(first, until) < moment_from(first, since) {
                return Err(Trouble::Backwards {
                    since: "--since",
                    until: "--until",
                });
            }
        }
        Ok(())
    }

    /// Writes the lines of what was told, and flushes.
    fn write<W: ByteOut>(&mut self, events: &Events, writer: &mut W) -> Result<(), Trouble>
        requires few_failures { (W.state writer.old).failures < 2 ^ 64 - 1 }
        requires few_flushes { (W.state writer.old).flushes < 2 ^ 64 - 1 }
        requires empty { self.old.buffer.items ≡ [] }
        requires room { 2048 ≤ vec_capacity self.old.buffer }
        ensures same { (self.new.capture ≡ self.old.capture)
            × (self.new.follower.events.now ≡ self.old.follower.events.now)
            × (self.new.follower.hearing ≡ self.old.follower.hearing)
            × (self.new.follower.fault ≡ self.old.follower.fault) }
        ensures senders { self.new.follower.senders ≡ self.old.follower.senders }
        ensures others { self.new.follower.other_sources ≡ self.old.follower.other_sources }
        ensures remarks { self.new.follower.remarks ≡ self.old.follower.remarks }
        ensures told { OnOk result (self.new.follower.told.items ≡ []) }
        ensures empty { OnOk result (self.new.buffer.items ≡ []) }
        ensures room { OnOk result (2048 ≤ vec_capacity self.new.buffer) }
        ensures failures { OnOk result ((W.state writer.new).failures
            ≡ (W.state writer.old).failures) }
        ensures flushes { OnOk result ((W.state writer.new).flushes
            ≡ (W.state writer.old).flushes + 1) }
        ensures lines { OnOk result (WroteLines events.now self.old.follower.told.items
            (output (W.state writer.old) (W.state writer.new))) }
        ensures some { OnErr result (WroteSome events.now self.old.follower.told.items
            (output (W.state writer.old) (W.state writer.new))) }
        ensures cause { IfErr result (Fails events.now (λ _. ⊥) ⊥ ⊥
            ((W.state writer.old).failures < (W.state writer.new).failures) (λ _. ⊥)) }
    {
        let gathered = self.capture.gathered();
        let told = &self.follower.told;
        write_told(writer, events, gathered, told, &mut self.buffer)?;
        self.follower.told.clear();
        write_text(writer, &self.buffer)?;
        self.buffer.clear();
        Ok(())
    }

    /// Ends the capture, of which all was read: tells what has expired up to the moment that it was
    /// read to. One that is read strictly is refused then, if a sender has no Update.
    fn end<W: ByteOut, S: Says>(
        &mut self,
        alloc: Global,
        events: &Events,
        writer: &mut W,
        says: &mut S,
    ) -> Result<EventsOutcome, Trouble>
        requires few_failures { (W.state writer.old).failures < 2 ^ 64 - 1 }
        requires few_flushes { (W.state writer.old).flushes < 2 ^ 64 - 1 }
        requires told { self.old.follower.told.items ≡ [] }
        requires empty { self.old.buffer.items ≡ [] }
        requires room { 2048 ≤ vec_capacity self.old.buffer }
        ensures ends { IfOk result (λ answer. (fed : List ℕ) (told : List (TellingSaid SpeakerSaid))
            → IsFollowed events.now fed told self.old → Ends events.now fed told
            (output (W.state writer.old) (W.state writer.new)) answer) }
        ensures start { OnErr result ((fed : List ℕ) (told : List (TellingSaid SpeakerSaid))
            → IsFollowed events.now fed told self.old → WroteBehind events.now fed told
            (output (W.state writer.old) (W.state writer.new))) }
        ensures cause { IfErr result (λ trouble. (fed : List ℕ)
            (told : List (TellingSaid SpeakerSaid)) → IsFollowed events.now fed told self.old
            → Fails events.now (RefusesWhole events.now fed) (HasNobody events.now fed) ⊥
            ((W.state writer.old).failures < (W.state writer.new).failures)
            (HasUnread events.now fed) trouble) }
    {
        let cut = self.end_capture(events, says)?;
        let senders = self.senders(alloc)?;
        let status = self.status(events, &senders)?;
        self.expire(events)?;
        self.write(events, writer)?;
        let report = self.capture.gathered().report();
        refuse_senders(events.strict, &report, &senders)?;
        let other_sources = self.other_sources()?;
        let outcome = Outcome {
            status,
            reports: Reports::Capture { report, cut },
        };
        Ok(EventsOutcome {
            outcome,
            senders,
            not_followed: self.follower.not_followed(),
            other_sources,
        })
    }

    /// Where the answers are for any source, the routes for others, up to the moment that the
    /// capture was read to.
    fn other_sources(&mut self) -> Result<Option<OtherSources>, AllocError>
        ensures { IfOk result (λ others. (events : EventsSaid) (made : List Made)
            → self.old.follower.hearing.since.moment ≡ since_in events.since made
            → KnowsOthers events made self.old.follower.other_sources
            → NotesSome events (moment_read self.old.capture) made others) }
    {
        let moment = self.capture.moment();
        self.follower.expire_others(moment)?;
        Ok(self.follower.other_sources.take())
    }

    /// What was heard of each sender that is followed and has packets, by place, then by address.
    fn senders(&self, alloc: Global) -> Result<Vec<HeardSender>, AllocError>
        ensures { IfOk result (λ senders. map heard_told senders.items
            ≡ map (heard_of self.now) (with_packets self.now.follower.senders.senders.entries)) }
    {
        let mut senders = Vec::new(alloc);
        for (origin, has_packets) in self.follower.senders.senders.iter() {
            self.add_heard(alloc, *origin, *has_packets, &mut senders)?;
        }
        Ok(senders)
    }

    /// Adds what was heard of this sender, if it has packets.
    fn add_heard(
        &self,
        alloc: Global,
        origin: Origin,
        has_packets: bool,
        senders: &mut Vec<HeardSender>,
    ) -> Result<(), AllocError>
        ensures { OnOk result (map heard_told senders.new.items ≡ map heard_told senders.old.items
            ++ (if has_packets then heard_of self.now origin ∷ [] else [])) }
    {
        if !has_packets {
            return Ok(());
        }
        senders.push(self.heard(alloc, origin)?)?;
        Ok(())
    }

    /// What was heard of this sender.
    fn heard(&self, alloc: Global, origin: Origin) -> Result<HeardSender, AllocError>
        ensures { IfOk result (λ heard. heard_told heard ≡ heard_of self.now origin) }
    {
        let Origin { place, sender } = origin;
        let mut name = Vec::new(alloc);
        name.extend_from_slice(self.capture.gathered().name(place.interface))?;
        let report = self.follower.hearing.report(Speaker { sender, place });
        Ok(HeardSender {
            origin,
            name,
            report,
        })
    }

    /// Adds the name of the interface to a trouble, where it is a sender's.
    fn add_name(&self, alloc: Global, trouble: &mut Trouble) -> Result<(), AllocError>
        ensures { nameless trouble.new ≡ nameless trouble.old }
    {
        if let Trouble::Sender { origin, name, .. } = trouble {
            let heard = self.heard(alloc, *origin)?;
            *name = Some(heard.name);
        }
        Ok(())
    }

    /// Tells what has expired by the moment that the capture was read to.
    fn expire(&mut self, events: &Events) -> Result<(), AllocError>
        ensures same { (self.new.capture ≡ self.old.capture)
            × (self.new.buffer ≡ self.old.buffer) }
        ensures others { self.new.follower.other_sources ≡ self.old.follower.other_sources }
        ensures ends { Suits events.now self.old.follower.hearing.teller → OnOk result
            (EndsAt events.now (moment_read self.old.capture) self.old self.new) }
    {
        match self.capture.moment() {
            Some(moment) => {
                let follower = &mut self.follower;
                follower.hearing.expire(events, moment, &mut follower.told)
            }
            None => Ok(()),
        }
    }

    /// Ends the capture: datagrams of which fragments are missing are left out then, which is said.
    /// Where it is cut short, if that is accepted.
    fn end_capture<S: Says>(
        &mut self,
        events: &Events,
        says: &mut S,
    ) -> Result<Option<u64>, Trouble>
        requires empty { self.old.buffer.items ≡ [] }
        requires room { 2048 ≤ vec_capacity self.old.buffer }
        ensures said { self.new.follower.remarks.remarks.items ≡ [] }
        ensures empty { self.new.buffer.items ≡ [] }
        ensures room { 2048 ≤ vec_capacity self.new.buffer }
        ensures ended { IfOk result (λ cut. (fed : List ℕ) (told : List (TellingSaid SpeakerSaid))
            → IsFollowed events.now fed told self.old
            → IsFollowedToEnd events.now fed told cut self.new) }
        ensures cause { IfErr result (λ trouble. (fed : List ℕ)
            (told : List (TellingSaid SpeakerSaid)) → IsFollowed events.now fed told self.old
            → Fails events.now (RefusesWhole events.now fed) ⊥ ⊥ ⊥
            (RefusesToEnd events.now fed) trouble) }
    {
        let end = self.capture.end(&mut self.follower);
        self.follower.say(self.capture.gathered(), says);
        self.follower.fault()?;
        match end {
            Ok(Some(at)) if !events.accept_cut => Err(of_capture(Fault::CutShort { at })),
            Ok(cut) => Ok(cut),
            Err(fault) => Err(of_capture(fault)),
        }
    }

    /// The exit status: 1 where no sender has packets, and none is named.
    fn status(&self, events: &Events, senders: &[HeardSender]) -> Result<u8, Trouble>
        ensures status { IfOk result (λ status. status ≡ heard_status senders.now) }
        ensures cause { IfErr result (Fails events.now (λ _. ⊥) (senders.now ≡ []) ⊥ ⊥
            (λ _. ⊥)) }
    {
        if !senders.is_empty() {
            return Ok(0);
        }
        if events.sender.is_some() {
            let absence = Absence::of(&self.capture, &events.window);
            return Err(Trouble::from(InputFault::NoPackets(absence)));
        }
        Ok(1)
    }
}

/// Writes the lines of what was told and the filter keeps, but for the last of them, which the
/// buffer has.
fn write_told<W: ByteOut>(
    writer: &mut W,
    events: &Events,
    gathered: &Gathered,
    told: &[Telling<Speaker>],
    buffer: &mut Vec<u8>,
) -> Result<(), WriteFailed>
    requires few_failures { (W.state writer.old).failures < 2 ^ 64 - 1 }
    requires empty { buffer.old.items ≡ [] }
    requires room { 2048 ≤ vec_capacity buffer.old }
    ensures front { WroteFront (output (W.state writer.old) (W.state writer.new))
        (flat_map (named_event events.now gathered.now) told.now) buffer.new.items result }
    ensures room { OnOk result (2048 ≤ vec_capacity buffer.new) }
{
    for telling in told {
        write_kept(writer, events, gathered, telling, buffer)?;
    }
    Ok(())
}

/// Writes the line of what is told, if the filter keeps it, after what the buffer has, but for the
/// last of both, which the buffer has then.
fn write_kept<W: ByteOut>(
    writer: &mut W,
    events: &Events,
    gathered: &Gathered,
    told: &Telling<Speaker>,
    buffer: &mut Vec<u8>,
) -> Result<(), WriteFailed>
    requires few_failures { (W.state writer.old).failures < 2 ^ 64 - 1 }
    requires room { 2048 ≤ vec_capacity buffer.old }
    ensures front { WroteFront (output (W.state writer.old) (W.state writer.new))
        (buffer.old.items ++ named_event events.now gathered.now told.now) buffer.new.items result }
    ensures room { OnOk result (2048 ≤ vec_capacity buffer.new) }
{
    if keeps_told(&events.filter, told) {
        let name = gathered.name(speaker_of(told).place.interface);
        write_event(
            writer,
            &events.format,
            events.view,
            events.pair,
            name,
            told,
            buffer,
        )?;
    }
    Ok(())
}

/// Refuses a capture that is read strictly where a datagram was left out, or of a sender a TLV was
/// ignored, or it has no Update: the first of these senders.
fn refuse_senders(strict: bool, report: &Report, senders: &[HeardSender]) -> Result<(), Trouble>
    ensures whole { OnOk result (strict ≡ true → AreReadWhole report.now senders.now) }
    ensures unread { IfErr result
        (λ trouble. (strict ≡ true) × IsUnreadIn report.now senders.now trouble) }
{
    refuse_left_out(strict, report)?;
    for heard in senders {
        if let Err(fault) = refuse_unread(strict, None, &heard.report) {
            return Err(Trouble::of_sender(heard.origin, fault));
        }
    }
    Ok(())
}

/// The fault of a capture.
fn of_capture(fault: Fault) -> Trouble
    ensures { TellsFault sides.First (input_faults.Capture fault) result }
{
    Trouble::from(InputFault::Capture(fault))
}
