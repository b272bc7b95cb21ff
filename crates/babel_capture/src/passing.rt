ghost use Rattle.std.specs.Prelude.{◌≡◌, ◌≢◌, ◌+◌, ◌*◌, ◌^◌, ◌<◌, ◌≤◌, ◌++◌, ◌∷◌, [], ◌⊎◌, false};
ghost use Rattle.std.specs.Prelude.{true, IfErr, IfOk, OnOk, ℕ, length};
ghost use Rattle.babel_capture.specs.Blocks.{no_passage, passage_after, sightings_in};
ghost use Rattle.babel_capture.specs.Contents.{captured_of, content_of, names_in};
ghost use Rattle.babel_capture.specs.Fragments.{is_past, known_with, of_id};
ghost use Rattle.babel_capture.specs.Gathering.{BlockNeedsMemory, IsGathered, IsRefused};
ghost use Rattle.babel_capture.specs.Gathering.{IsFragment, SightNeedsMemory};
ghost use Rattle.babel_capture.specs.Passage.{fragment_sightings, missing_at, missing_in};
ghost use Rattle.babel_capture.specs.Passage.{passed_at, given_up, left_known, sight_at, sight_in};
ghost use Rattle.babel_capture.specs.Passage.{sighting_as, sightings_at, sightings_skipped};
ghost use Rattle.babel_capture.specs.Passage.{skipped_of};
ghost use Rattle.babel_capture.specs.Passing.{passage_of_passed, ticked, GivesLast, GivesUp};
ghost use Rattle.babel_capture.specs.Pieces.{fragment_of};
ghost use Rattle.babel_capture.specs.Sinking.{GatherMore, GatherSome, Sinks};
ghost use Rattle.babel_capture.specs.Times.{time_in};

use crate::block::{Block, Packet};
use crate::datagram::Step;
use crate::fault::Fault;
use crate::fragment::{DatagramId, Fragment};
use crate::fragments::Fragments;
use crate::gathered::Gathered;
use crate::seen::Seen;
use crate::sink::Sink;
use crate::time::Time;
use crate::wanted::Wanted;
use std::alloc::Global;
use std::marker::Model;

/// What is gathered of the packets of a capture, where fragments of datagrams are put together.
#[derive(Drop)]
pub struct Passing {
    alloc: Global,
    gathered: Gathered,
    fragments: Fragments,
}

impl Model for Passing {
    ghost use Rattle.std.specs.Prelude.{◌≤◌, ◌+◌, length};
    ghost use Rattle.babel_capture.specs.Passing.{Passed};

    ghost Value = { Passed };

    ghost view = { λ p. record {
      gathering = p.gathered;
      clock = p.fragments.clock;
      known = p.fragments.known;
    } };

    // Each datagram that is known, or of which fragments are missing, has a packet of its own.
    ghost invariant = { λ p. (p.fragments.last ≤ p.gathered.report.packets)
        × (p.gathered.report.missing + length p.fragments.known.unfinished
        ≤ p.gathered.report.packets) };
}

/// Tells of the packet in the block at this offset, which is a fragment of a datagram with this
/// identification, after what that is to those that are known.
fn take_step<S: Sink>(
    alloc: Global,
    fragments: &Fragments,
    gathered: &mut Gathered,
    step: Step,
    at: u64,
    packet: &Packet<'_>,
    id: &DatagramId,
    sink: &mut S,
) -> Result<(), Fault>
    requires { gathered.old.report.packets + 1 + gathered.old.report.missing + 1 < 2 ^ 64 }
    ensures wanted { gathered.new.wanted ≡ gathered.old.wanted }
    ensures names { gathered.new.names ≡ gathered.old.names }
    ensures packets { OnOk result
        (gathered.new.report.packets ≡ gathered.old.report.packets + 1) }
    ensures missing { OnOk result (gathered.new.report.missing ≡ gathered.old.report.missing
        + length (missing_at step (of_id id.now fragments.now.known.others))) }
    ensures no_less { IfErr result
        (λ _. gathered.new.report.missing ≡ gathered.old.report.missing) }
    ensures no_fewer { gathered.old.report.packets ≤ gathered.new.report.packets }
    ensures report { gathered.new.report.packets ≤ gathered.old.report.packets + 1 }
    ensures ok { OnOk result (Sinks S.has sink.old sink.new (GatherMore gathered.old gathered.new
        (missing_at step (of_id id.now fragments.now.known.others)
        ++ sighting_as (gathered.old.report.packets + 1) at (captured_of packet.now)
        (sight_at step (of_id id.now fragments.now.known.others)) ∷ []))) }
    ensures stopped { IfErr result (λ _. sink.new ≡ sink.old) }
    ensures err { IfErr result (λ fault. (fault ≡ Fault.Memory)
        ⊎ IsRefused gathered.old.wanted gathered.old.senders
        (missing_at step (of_id id.now fragments.now.known.others)
        ++ sighting_as (gathered.old.report.packets + 1) at (captured_of packet.now)
        (sight_at step (of_id id.now fragments.now.known.others)) ∷ []) fault) }
{
    if let Some((number, datagram)) = fragments.find_settled(id) {
        match step {
            Step::Completes => {
                let octets = datagram.pieces.joined(alloc)?;
                let seen = datagram.look_whole(&octets);
                return gathered.take_seen(at, packet, &packet.time(), &seen, sink);
            }
            Step::Overlaps => gathered.miss(number, datagram, sink)?,
            _ => {}
        }
    }
    gathered.pass(packet, &packet.time(), sink);
    Ok(())
}

impl Passing {
    /// What no packets give.
    pub fn new(alloc: Global, wanted: Wanted) -> Passing
        ensures none { (IsGathered [] result.gathering) × (result.gathering.names ≡ []) }
        ensures passage { passage_of_passed result ≡ no_passage }
        ensures wanted { result.gathering.wanted ≡ wanted }
    {
        Passing {
            alloc,
            gathered: Gathered::new(alloc, wanted),
            fragments: Fragments::new(alloc),
        }
    }

    /// What was gathered so far.
    pub fn gathered(&self) -> &Gathered
        ensures { result.now ≡ self.now.gathering }
    {
        &self.gathered
    }

    /// What was gathered.
    pub fn into_gathered(self) -> Gathered
        ensures { result ≡ self.gathering }
    {
        self.gathered
    }

    /// Takes what the block at this offset says, and tells the sink of its packet, if it says one,
    /// and before it of each datagram of which fragments are missing that is given up then.
    pub fn take_said<S: Sink>(
        &mut self,
        at: u64,
        said: &Block<'_>,
        sink: &mut S,
    ) -> Result<(), Fault>
        requires { 2 * (self.old.gathering.report.packets + 1) < 2 ^ 64 }
        ensures wanted { self.new.gathering.wanted ≡ self.old.gathering.wanted }
        ensures names { OnOk result (self.new.gathering.names
            ≡ self.old.gathering.names ++ names_in (content_of said.now)) }
        ensures report { self.new.gathering.report.packets
            ≤ self.old.gathering.report.packets + 1 }
        ensures ok { OnOk result (Sinks S.has sink.old sink.new (GatherMore self.old.gathering
            self.new.gathering
            (sightings_in (passage_of_passed self.old) at (content_of said.now)))) }
        ensures passage { OnOk result (passage_of_passed self.new
            ≡ passage_after (passage_of_passed self.old) at (content_of said.now)) }
        ensures stopped { IfErr result (λ _. Sinks S.has sink.old sink.new (GatherSome
            self.old.gathering
            (sightings_in (passage_of_passed self.old) at (content_of said.now)))) }
        ensures err { IfErr result (λ fault. (fault ≡ Fault.Memory)
            ⊎ IsRefused self.old.gathering.wanted self.old.gathering.senders
            (sightings_in (passage_of_passed self.old) at (content_of said.now)) fault) }
        ensures memory { IfErr result (λ fault. fault ≡ Fault.Memory → BlockNeedsMemory
            self.old.gathering.wanted self.old.gathering.senders (content_of said.now)) }
    {
        match said {
            Block::Packet(packet) => self.take_packet(at, packet, sink),
            Block::Skipped(packet) => self.skip_packet(at, packet, sink),
            Block::File { .. } => self.gathered.add_name(&[]),
            Block::Interface { name, .. } => self.gathered.add_name(name),
            Block::Section(_) | Block::Other => Ok(()),
        }
    }

    /// Takes the packet in the block at this offset.
    fn take_packet<S: Sink>(
        &mut self,
        at: u64,
        packet: &Packet<'_>,
        sink: &mut S,
    ) -> Result<(), Fault>
        requires { 2 * (self.old.gathering.report.packets + 1) < 2 ^ 64 }
        ensures wanted { self.new.gathering.wanted ≡ self.old.gathering.wanted }
        ensures names { self.new.gathering.names ≡ self.old.gathering.names }
        ensures report { self.new.gathering.report.packets
            ≤ self.old.gathering.report.packets + 1 }
        ensures ok { OnOk result (Sinks S.has sink.old sink.new (GatherMore self.old.gathering
            self.new.gathering
            (sightings_at (passage_of_passed self.old) at (captured_of packet.now)))) }
        ensures passage { OnOk result (passage_of_passed self.new
            ≡ passed_at (passage_of_passed self.old) at (captured_of packet.now)) }
        ensures stopped { IfErr result (λ _. Sinks S.has sink.old sink.new (GatherSome
            self.old.gathering
            (sightings_at (passage_of_passed self.old) at (captured_of packet.now)))) }
        ensures err { IfErr result (λ fault. (fault ≡ Fault.Memory)
            ⊎ IsRefused self.old.gathering.wanted self.old.gathering.senders
            (sightings_at (passage_of_passed self.old) at (captured_of packet.now)) fault) }
        ensures memory { IfErr result (λ fault. fault ≡ Fault.Memory → SightNeedsMemory
            self.old.gathering.wanted self.old.gathering.senders
            (sight_in (captured_of packet.now))) }
    {
        let seen = packet.look();
        let came = packet.time();
        self.pass_time(packet, &came, sink)?;
        if let Seen::Fragment(fragment) = &seen {
            return self.take_fragment(at, packet, fragment, sink);
        }
        self.gathered.take_seen(at, packet, &came, &seen, sink)
    }

    /// Skips the packet in the block at this offset, of which a fragment is kept: its datagram may
    /// come within the window.
    fn skip_packet<S: Sink>(
        &mut self,
        at: u64,
        packet: &Packet<'_>,
        sink: &mut S,
    ) -> Result<(), Fault>
        requires { 2 * (self.old.gathering.report.packets + 1) < 2 ^ 64 }
        ensures wanted { self.new.gathering.wanted ≡ self.old.gathering.wanted }
        ensures names { self.new.gathering.names ≡ self.old.gathering.names }
        ensures report { self.new.gathering.report.packets
            ≤ self.old.gathering.report.packets + 1 }
        ensures ok { OnOk result (Sinks S.has sink.old sink.new (GatherMore self.old.gathering
            self.new.gathering
            (sightings_skipped (passage_of_passed self.old) at (captured_of packet.now)))) }
        ensures passage { OnOk result (passage_of_passed self.new
            ≡ passed_at (passage_of_passed self.old) at (captured_of packet.now)) }
        ensures stopped { IfErr result (λ _. Sinks S.has sink.old sink.new (GatherSome
            self.old.gathering
            (sightings_skipped (passage_of_passed self.old) at (captured_of packet.now)))) }
        ensures err { IfErr result (λ fault. (fault ≡ Fault.Memory)
            ⊎ IsRefused self.old.gathering.wanted self.old.gathering.senders
            (sightings_skipped (passage_of_passed self.old) at (captured_of packet.now)) fault) }
        ensures memory { IfErr result (λ fault. fault ≡ Fault.Memory
            → IsFragment (sight_in (captured_of packet.now))) }
    {
        let seen = packet.look();
        self.pass_time(packet, &packet.time(), sink)?;
        if let Seen::Fragment(fragment) = &seen {
            return self.skip_fragment(at, packet, &seen, fragment, sink);
        }
        self.gathered.skip(packet, &seen, sink);
        Ok(())
    }

    /// Gives up the datagrams that are old once this packet came, at this time, or too many, and
    /// tells the sink of those of which fragments are missing.
    #[inline(always)]
    fn pass_time<S: Sink>(
        &mut self,
        packet: &Packet<'_>,
        time: &Option<Time>,
        sink: &mut S,
    ) -> Result<(), Fault>
        requires count { 2 * self.old.gathering.report.packets < 2 ^ 64 }
        requires time { time.now ≡ time_in (captured_of packet.now).moment }
        ensures wanted { self.new.gathering.wanted ≡ self.old.gathering.wanted }
        ensures names { self.new.gathering.names ≡ self.old.gathering.names }
        ensures packets { self.new.gathering.report.packets
            ≡ self.old.gathering.report.packets }
        ensures gives { OnOk result (Sinks S.has sink.old sink.new
            (GivesUp (ticked self.old (captured_of packet.now)) self.new)) }
        ensures all { OnOk result
            (is_past self.new.clock self.new.known.unfinished ≡ false) }
        ensures few { OnOk result (is_past self.new.clock self.new.known.others ≡ false) }
        ensures stopped { IfErr result (λ _. Sinks S.has sink.old sink.new (GatherSome
            self.old.gathering (missing_in (given_up (ticked self.old (captured_of
            packet.now)).clock self.old.known.unfinished)))) }
        ensures err { IfErr result (λ fault. IsRefused self.old.gathering.wanted
            self.old.gathering.senders (missing_in (given_up (ticked self.old (captured_of
            packet.now)).clock self.old.known.unfinished)) fault) }
        ensures memory { IfErr result (λ fault. fault ≢ Fault.Memory) }
    {
        self.fragments.tick(*time);
        self.fragments.forget_others();
        self.give_up(sink)
    }

    /// Gives up the datagrams that are old, or too many, and tells the sink of those of which
    /// fragments are missing.
    fn give_up<S: Sink>(&mut self, sink: &mut S) -> Result<(), Fault>
        requires { 2 * self.old.gathering.report.packets < 2 ^ 64 }
        ensures wanted { self.new.gathering.wanted ≡ self.old.gathering.wanted }
        ensures names { self.new.gathering.names ≡ self.old.gathering.names }
        ensures packets { self.new.gathering.report.packets
            ≡ self.old.gathering.report.packets }
        ensures gives { OnOk result (Sinks S.has sink.old sink.new (GivesUp self.old self.new)) }
        ensures all { OnOk result
            (is_past self.new.clock self.new.known.unfinished ≡ false) }
        ensures stopped { IfErr result (λ _. Sinks S.has sink.old sink.new (GatherSome
            self.old.gathering (missing_in (given_up self.old.clock self.old.known.unfinished)))) }
        ensures err { IfErr result (λ fault. IsRefused self.old.gathering.wanted
            self.old.gathering.senders (missing_in (given_up self.old.clock
            self.old.known.unfinished)) fault) }
        ensures memory { IfErr result (λ fault. fault ≢ Fault.Memory) }
    {
        // At nearly all packets none is given up, and that is asked without a call.
        while self.fragments.is_past() && self.give_up_one(sink)? {}
        Ok(())
    }

    /// Gives up the oldest datagram, if it is old, or they are too many, and tells the sink of it
    /// if fragments of it are missing: whether it did.
    #[inline(never)]
    fn give_up_one<S: Sink>(&mut self, sink: &mut S) -> Result<bool, Fault>
        requires { 2 * self.old.gathering.report.packets < 2 ^ 64 }
        ensures wanted { self.new.gathering.wanted ≡ self.old.gathering.wanted }
        ensures names { self.new.gathering.names ≡ self.old.gathering.names }
        ensures packets { self.new.gathering.report.packets
            ≡ self.old.gathering.report.packets }
        ensures gives { OnOk result (Sinks S.has sink.old sink.new (GivesUp self.old self.new)) }
        ensures none { IfOk result (λ gave. gave ≡ false
            → is_past self.new.clock self.new.known.unfinished ≡ false) }
        ensures fewer { IfOk result (λ gave. gave ≡ true
            → length self.new.known.unfinished < length self.old.known.unfinished) }
        ensures stopped { IfErr result (λ _. sink.new ≡ sink.old) }
        ensures err { IfErr result (λ fault. IsRefused self.old.gathering.wanted
            self.old.gathering.senders (missing_in (given_up self.old.clock
            self.old.known.unfinished)) fault) }
        ensures memory { IfErr result (λ fault. fault ≢ Fault.Memory) }
    {
        let Some((number, datagram)) = self.fragments.give_up() else {
            return Ok(false);
        };
        if datagram.is_lost() {
            self.gathered.miss(number, &datagram, sink)?;
        }
        Ok(true)
    }

    /// Gives up each datagram that is known, since no more packets come, and tells the sink of
    /// those of which fragments are missing.
    pub fn end<S: Sink>(&mut self, sink: &mut S) -> Result<(), Fault>
        requires { 2 * self.old.gathering.report.packets < 2 ^ 64 }
        ensures wanted { self.new.gathering.wanted ≡ self.old.gathering.wanted }
        ensures names { self.new.gathering.names ≡ self.old.gathering.names }
        ensures packets { self.new.gathering.report.packets
            ≡ self.old.gathering.report.packets }
        ensures none { OnOk result (self.new.known.unfinished ≡ []) }
        ensures senders { OnOk result
            (self.new.gathering.senders ≡ self.old.gathering.senders) }
        ensures ok { OnOk result (Sinks S.has sink.old sink.new
            (GatherMore self.old.gathering self.new.gathering
            (missing_in self.old.known.unfinished))) }
        ensures stopped { IfErr result (λ _. Sinks S.has sink.old sink.new
            (GatherSome self.old.gathering (missing_in self.old.known.unfinished))) }
        ensures err { IfErr result (λ fault. IsRefused self.old.gathering.wanted
            self.old.gathering.senders (missing_in self.old.known.unfinished) fault) }
        ensures memory { IfErr result (λ fault. fault ≢ Fault.Memory) }
    {
        while self.give_up_last(sink)? {}
        Ok(())
    }

    /// Gives up the oldest datagram, and tells the sink of it if fragments of it are missing:
    /// whether there was one.
    fn give_up_last<S: Sink>(&mut self, sink: &mut S) -> Result<bool, Fault>
        requires { 2 * self.old.gathering.report.packets < 2 ^ 64 }
        ensures wanted { self.new.gathering.wanted ≡ self.old.gathering.wanted }
        ensures names { self.new.gathering.names ≡ self.old.gathering.names }
        ensures packets { self.new.gathering.report.packets
            ≡ self.old.gathering.report.packets }
        ensures gives { OnOk result
            (Sinks S.has sink.old sink.new (GivesLast self.old self.new)) }
        ensures none { IfOk result (λ gave. gave ≡ false → self.new.known.unfinished ≡ []) }
        ensures fewer { IfOk result (λ gave. gave ≡ true
            → length self.new.known.unfinished < length self.old.known.unfinished) }
        ensures stopped { IfErr result (λ _. sink.new ≡ sink.old) }
        ensures err { IfErr result (λ fault. IsRefused self.old.gathering.wanted
            self.old.gathering.senders (missing_in self.old.known.unfinished) fault) }
        ensures memory { IfErr result (λ fault. fault ≢ Fault.Memory) }
    {
        let Some((number, datagram)) = self.fragments.give_up_last() else {
            return Ok(false);
        };
        if datagram.is_lost() {
            self.gathered.miss(number, &datagram, sink)?;
        }
        Ok(true)
    }

    /// Takes the fragment that a packet is, which is in the block at this offset.
    fn take_fragment<S: Sink>(
        &mut self,
        at: u64,
        packet: &Packet<'_>,
        fragment: &Fragment<'_>,
        sink: &mut S,
    ) -> Result<(), Fault>
        requires count { 2 * (self.old.gathering.report.packets + 1) < 2 ^ 64 }
        requires fits { fragment.now.offset + fragment.now.len < 2 ^ 16 }
        requires room { is_past self.old.clock self.old.known.unfinished ≡ false }
        requires few { is_past self.old.clock self.old.known.others ≡ false }
        ensures wanted { self.new.gathering.wanted ≡ self.old.gathering.wanted }
        ensures names { self.new.gathering.names ≡ self.old.gathering.names }
        ensures packets { OnOk result (self.new.gathering.report.packets
            ≡ self.old.gathering.report.packets + 1) }
        ensures report { self.new.gathering.report.packets
            ≤ self.old.gathering.report.packets + 1 }
        ensures ok { OnOk result (Sinks S.has sink.old sink.new (GatherMore self.old.gathering
            self.new.gathering (fragment_sightings (passage_of_passed self.old) at
            (captured_of packet.now) (fragment_of fragment.now)))) }
        ensures known { OnOk result (self.new.known ≡ known_with self.old.known
            (self.old.gathering.report.packets + 1) at self.old.clock packet.now.ends_within
            (fragment_of fragment.now)) }
        ensures clock { OnOk result (self.new.clock ≡ self.old.clock) }
        ensures stopped { IfErr result (λ _. sink.new ≡ sink.old) }
        ensures err { IfErr result (λ fault. (fault ≡ Fault.Memory)
            ⊎ IsRefused self.old.gathering.wanted self.old.gathering.senders
            (fragment_sightings (passage_of_passed self.old) at (captured_of packet.now)
            (fragment_of fragment.now)) fault) }
    {
        let number = self.gathered.report().packets() + 1;
        let step = match self
            .fragments
            .take(number, at, packet.ends_within, fragment)
        {
            Ok(step) => step,
            Err(_) => {
                self.fragments.forget();
                return Err(Fault::Memory);
            }
        };
        let told = take_step(
            self.alloc,
            &self.fragments,
            &mut self.gathered,
            step,
            at,
            packet,
            &fragment.id,
            sink,
        );
        if let Err(fault) = told {
            self.fragments.forget();
            return Err(fault);
        }
        Ok(())
    }
    /// Skips a packet that is seen as a fragment, which is kept, in the block at this offset.
    fn skip_fragment<S: Sink>(
        &mut self,
        at: u64,
        packet: &Packet<'_>,
        seen: &Seen<'_>,
        fragment: &Fragment<'_>,
        sink: &mut S,
    ) -> Result<(), Fault>
        requires count { 2 * (self.old.gathering.report.packets + 1) < 2 ^ 64 }
        requires fits { fragment.now.offset + fragment.now.len < 2 ^ 16 }
        requires room { is_past self.old.clock self.old.known.unfinished ≡ false }
        requires few { is_past self.old.clock self.old.known.others ≡ false }
        ensures wanted { self.new.gathering.wanted ≡ self.old.gathering.wanted }
        ensures names { self.new.gathering.names ≡ self.old.gathering.names }
        ensures packets { OnOk result (self.new.gathering.report.packets
            ≡ self.old.gathering.report.packets + 1) }
        ensures report { self.new.gathering.report.packets
            ≤ self.old.gathering.report.packets + 1 }
        ensures ok { OnOk result (Sinks S.has sink.old sink.new (GatherMore self.old.gathering
            self.new.gathering (skipped_of (self.old.gathering.report.packets + 1) at
            (captured_of packet.now) ∷ []))) }
        ensures known { OnOk result (self.new.known ≡ known_with self.old.known
            (self.old.gathering.report.packets + 1) at self.old.clock packet.now.ends_within
            (fragment_of fragment.now)) }
        ensures clock { OnOk result (self.new.clock ≡ self.old.clock) }
        ensures stopped { IfErr result (λ _. sink.new ≡ sink.old) }
        ensures err { IfErr result (λ fault. fault ≡ Fault.Memory) }
    {
        let number = self.gathered.report().packets() + 1;
        match self
            .fragments
            .take(number, at, packet.ends_within, fragment)
        {
            Ok(_) => {
                self.gathered.skip(packet, seen, sink);
                Ok(())
            }
            Err(_) => {
                self.fragments.forget();
                Err(Fault::Memory)
            }
        }
    }
}
