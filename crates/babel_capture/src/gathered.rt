ghost use Rattle.std.specs.Prelude.{◌≡◌, ◌≢◌, ◌+◌, ◌^◌, ◌<◌, ◌≤◌, ◌++◌, ◌∷◌, [], ◌⊎◌, ℕ, OnOk};
ghost use Rattle.std.specs.Prelude.{IfErr};
ghost use Rattle.babel_capture.specs.Contents.{captured_of};
ghost use Rattle.babel_capture.specs.Fragments.{lost_sight};
ghost use Rattle.babel_capture.specs.Gathering.{IsGathered, IsLeft, RefusesSight, SightNeedsMemory};
ghost use Rattle.babel_capture.specs.Gathering.{name_of};
ghost use Rattle.babel_capture.specs.Passage.{missing_of, sighting_as, skipped_of};
ghost use Rattle.babel_capture.specs.Sight.{other, sight_of};
ghost use Rattle.babel_capture.specs.Sinking.{GatherMore, Sinks};
ghost use Rattle.babel_capture.specs.Times.{time_in};

use crate::block::Packet;
use crate::datagram::Datagram;
use crate::fault::Fault;
use crate::finding::Finding;
use crate::outside::Outside;
use crate::report::Report;
use crate::seen::Seen;
use crate::sink::{Record, Said, Sink};
use crate::tallies::{Origin, Tallies, Tally};
use crate::time::Time;
use crate::wanted::Wanted;
use std::alloc::Global;
use std::collections::BTreeMap;
use std::marker::Model;

/// What is gathered of the packets of a capture.
#[derive(Drop)]
pub struct Gathered {
    alloc: Global,
    wanted: Wanted,
    names: Vec<Vec<u8>>,
    report: Report,
    senders: Tallies,
    outside: Outside,
}

impl Model for Gathered {
    ghost use Rattle.std.specs.Prelude.{map};
    ghost use Rattle.babel_capture.specs.Gathering.{Gathering};

    ghost Value = { Gathering };

    ghost view = { λ g. record {
      wanted = g.wanted;
      names = map (λ name. name.items) g.names.items;
      report = g.report;
      senders = g.senders;
    } };
}

impl Gathered {
    /// What no packets give.
    pub fn new(alloc: Global, wanted: Wanted) -> Gathered
        ensures none { (IsGathered [] result) × (result.names ≡ []) }
        ensures wanted { result.wanted ≡ wanted }
    {
        Gathered {
            alloc,
            wanted,
            names: Vec::new(alloc),
            report: Report::new(),
            senders: Tallies::new(alloc),
            outside: Outside::new(),
        }
    }

    /// Whose datagrams are wanted.
    pub fn wanted(&self) -> Wanted
        ensures { result ≡ self.now.wanted }
    {
        self.wanted
    }

    /// The name of the interface with this number, as the capture has it; empty where it has none.
    pub fn name(&self, interface: u64) -> &[u8]
        ensures { result.now ≡ name_of self.now interface }
    {
        match self.names.get(interface as usize) {
            Some(name) => name,
            None => &[],
        }
    }

    /// How many packets the capture has, and which wanted datagrams were left out.
    pub fn report(&self) -> Report
        ensures { result ≡ self.now.report }
    {
        self.report
    }

    /// How many packets each wanted sender sent at each place, and of how many octets, by place,
    /// then by address, where senders are listed. Datagrams that were left out are not counted.
    pub fn senders(&self) -> &BTreeMap<Origin, Tally>
        ensures { result.now.entries ≡ self.now.senders }
    {
        self.senders.as_map()
    }

    /// When the first packet came of the one sender that is named, of those that were passed over
    /// for their place or their time; `None` where there is none, or it has no time, and where no
    /// sender is named.
    pub fn first_outside(&self) -> Option<Time> {
        self.outside.first()
    }

    /// Takes the packet in the block at this offset, which came then and is seen so, and tells the
    /// sink what is found in it.
    #[inline(always)]
    pub(crate) fn take_seen<S: Sink>(
        &mut self,
        at: u64,
        packet: &Packet<'_>,
        came: &Option<Time>,
        seen: &Seen<'_>,
        sink: &mut S,
    ) -> Result<(), Fault>
        requires count { self.old.report.packets + 1 + self.old.report.missing < 2 ^ 64 }
        requires time { came.now ≡ time_in (captured_of packet.now).moment }
        ensures wanted { self.new.wanted ≡ self.old.wanted }
        ensures names { self.new.names ≡ self.old.names }
        ensures packets { OnOk result
            (self.new.report.packets ≡ self.old.report.packets + 1) }
        ensures missing { self.new.report.missing ≡ self.old.report.missing }
        ensures no_less { self.old.report.packets ≤ self.new.report.packets }
        ensures report { self.new.report.packets ≤ self.old.report.packets + 1 }
        ensures ok { OnOk result (Sinks S.has sink.old sink.new (GatherMore self.old self.new
            (sighting_as (self.old.report.packets + 1) at (captured_of packet.now)
            (sight_of seen.now) ∷ []))) }
        ensures stopped { IfErr result (λ _. sink.new ≡ sink.old) }
        ensures err { IfErr result (λ fault. (fault ≡ Fault.Memory)
            ⊎ RefusesSight self.old.wanted self.old.senders at (sight_of seen.now) fault) }
        ensures memory { IfErr result (λ fault. fault ≡ Fault.Memory → SightNeedsMemory
            self.old.wanted self.old.senders (sight_of seen.now)) }
    {
        // Nearly all packets of most captures end here.
        if let Seen::Other = seen {
            self.pass(packet, came, sink);
            return Ok(());
        }
        let finding = self.wanted.finding(seen);
        if let Finding::Refused(lack) = finding {
            return Err(lack.fault(at));
        }
        self.outside.note(&self.wanted, packet, seen, &finding);
        let (counted, time) = (*came, *came);
        let are_listed = self.wanted.are_listed;
        let interval = self.senders.take(at, *came, &finding, are_listed)?;
        let section = packet.babel_section(seen);
        self.report
            .count(packet.link, counted, section, &finding, interval);
        let told = Record {
            number: self.report.packets(),
            time,
            said: finding.said(),
        };
        sink.take(&told);
        Ok(())
    }

    /// Tells the sink of a datagram of which fragments are missing, the first of which to come had
    /// this number.
    pub(crate) fn miss<S: Sink>(
        &mut self,
        number: u64,
        datagram: &Datagram,
        sink: &mut S,
    ) -> Result<(), Fault>
        requires { self.old.report.packets + self.old.report.missing + 1 < 2 ^ 64 }
        ensures wanted { self.new.wanted ≡ self.old.wanted }
        ensures names { self.new.names ≡ self.old.names }
        ensures senders { self.new.senders ≡ self.old.senders }
        ensures packets { self.new.report.packets ≡ self.old.report.packets }
        ensures missing { OnOk result
            (self.new.report.missing ≡ self.old.report.missing + 1) }
        ensures not_missed { IfErr result
            (λ _. self.new.report.missing ≡ self.old.report.missing) }
        ensures ok { OnOk result (Sinks S.has sink.old sink.new (GatherMore self.old self.new
            (missing_of (number, datagram.now) ∷ []))) }
        ensures taken { OnOk result (IsLeft self.old.wanted (lost_sight datagram.now)) }
        ensures stopped { IfErr result (λ _. sink.new ≡ sink.old) }
        ensures err { IfErr result (λ fault. RefusesSight self.old.wanted self.old.senders
            datagram.now.at (lost_sight datagram.now) fault) }
        ensures memory { IfErr result (λ fault. fault ≢ Fault.Memory) }
    {
        let seen = datagram.look_lost();
        let finding = self.wanted.finding(&seen);
        if let Finding::Refused(lack) = finding {
            return Err(lack.fault(datagram.at));
        }
        self.report.count_missing(number, &finding);
        sink.take(&Record {
            number,
            time: None,
            said: finding.said(),
        });
        Ok(())
    }

    /// Takes a packet at which nothing of Babel is seen, and which came then, and tells the sink of
    /// it.
    pub(crate) fn pass<S: Sink>(&mut self, packet: &Packet<'_>, time: &Option<Time>, sink: &mut S)
        requires count { self.old.report.packets + 1 < 2 ^ 64 }
        requires time { time.now ≡ time_in (captured_of packet.now).moment }
        ensures wanted { self.new.wanted ≡ self.old.wanted }
        ensures names { self.new.names ≡ self.old.names }
        ensures packets { self.new.report.packets ≡ self.old.report.packets + 1 }
        ensures missing { self.new.report.missing ≡ self.old.report.missing }
        ensures passed { (at : ℕ) → Sinks S.has sink.old sink.new (GatherMore self.old self.new
            (sighting_as (self.old.report.packets + 1) at (captured_of packet.now) other ∷ [])) }
    {
        self.report.count_other(time);
        sink.take(&Record {
            number: self.report.packets(),
            time: *time,
            said: Said::Nothing,
        });
    }

    /// Skips a packet, which is seen so, and of which the sink is told no more than that it is one
    /// of the capture.
    pub(crate) fn skip<S: Sink>(&mut self, packet: &Packet<'_>, seen: &Seen<'_>, sink: &mut S)
        requires { self.old.report.packets + 1 < 2 ^ 64 }
        ensures wanted { self.new.wanted ≡ self.old.wanted }
        ensures names { self.new.names ≡ self.old.names }
        ensures packets { self.new.report.packets ≡ self.old.report.packets + 1 }
        ensures missing { self.new.report.missing ≡ self.old.report.missing }
        ensures skipped { (at : ℕ) → Sinks S.has sink.old sink.new (GatherMore self.old self.new
            (skipped_of (self.old.report.packets + 1) at (captured_of packet.now) ∷ [])) }
    {
        self.outside.pass(&self.wanted, packet, seen);
        self.report.count_skipped();
        sink.take(&Record {
            number: self.report.packets(),
            time: None,
            said: Said::Nothing,
        });
    }

    /// Keeps the name of an interface.
    pub(crate) fn add_name(&mut self, name: &[u8]) -> Result<(), Fault>
        ensures wanted { self.new.wanted ≡ self.old.wanted }
        ensures names { OnOk result (self.new.names ≡ self.old.names ++ name.now ∷ []) }
        ensures report { self.new.report ≡ self.old.report }
        ensures senders { self.new.senders ≡ self.old.senders }
        ensures err { IfErr result (λ fault. fault ≡ Fault.Memory) }
    {
        let mut kept = Vec::new(self.alloc);
        kept.extend_from_slice(name)?;
        match self.names.push(kept) {
            Ok(()) => Ok(()),
            Err(_) => Err(Fault::Memory),
        }
    }
}
