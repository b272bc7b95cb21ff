//! What senders hold as their packets come, and what is told of it.
ghost use Rattle.std.specs.Prelude.{◌≡◌, ◌≢◌, ◌+◌, ◌<◌, ◌^◌, ◌∷◌, [], length, true, IfErr, IfOk};
ghost use Rattle.std.specs.Prelude.{IfSome, IsTrue, None, OnOk};
ghost use Rattle.babel_tlv.specs.FrameFaults.{BeginsPacket, PacketFault};
ghost use Rattle.babel_tlv.specs.Frames.{tlv_value};
ghost use Rattle.babel_timeline.specs.Hearing.{CountsAt, CountsPacket, octets_heard};
ghost use Rattle.babel_timeline.specs.Hearing.{report_of};
ghost use Rattle.babel_timeline.specs.Refusing.{RefusesPacket};
ghost use Rattle.babel_timeline.specs.Rows.{AllLast};
ghost use Rattle.babel_timeline.specs.SilencesTold.{TellsCounts, TellsOnlyReturns, TellsReturns};
ghost use Rattle.babel_timeline.specs.SilencesTold.{TellsSilences, hellos_among, hellos_heard};
ghost use Rattle.babel_timeline.specs.SilencesTold.{scheduled, watches};
ghost use Rattle.babel_timeline.specs.Telling.{Hears, TellsEnds, of_rows};
ghost use Rattle.babel_timeline.specs.Taking.{KeepsBounds};

use crate::asked::Asked;
use crate::heard::Heard;
use crate::interest::Interest;
use crate::sender::Sender;
use crate::telling::Telling;
use crate::timeline::Timeline;
use crate::watch::Watch;
use babel_prefix::Addr;
use babel_table::{Report, Stamp};
use babel_tlv::{Fault, Frame, Hello, Start, Tlv, Tlvs, View, frame};
use std::alloc::{AllocError, Global};
use std::collections::BTreeMap;

/// What many senders hold as their packets come, as a view sees it, and what is told of it: each
/// change; or, where two addresses are asked for, each change of a sender's answer for them.
#[derive(Drop)]
pub struct Teller<S: Sender> {
    timeline: Timeline<S>,
    interest: Interest,
    /// What of each sender was heard.
    heard: BTreeMap<S, Heard>,
    /// Whose Hellos are waited for, where rows end and each change is told.
    watch: Watch<S>,
}

/// The body of a packet, whose first octet lies at this offset; else the fault: RFC 8966, 4.2.
fn body_of(packet: &[u8], at: u64) -> Result<&[u8], Fault>
    requires { at + length packet.now < 2 ^ 64 }
    ensures ok { IfOk result (λ body. BeginsPacket packet.now body.now) }
    ensures err { IfErr result (PacketFault at packet.now) }
{
    match frame(packet, at) {
        Frame::Whole { body, .. } => Ok(body),
        Frame::More => Err(Fault::Truncated { at }),
        Frame::Bad(fault) => Err(fault),
    }
}

/// Takes a whole packet of a sender, of which this was heard before; counts its octets and TLVs.
fn take<S: Sender>(
    interest: &Interest,
    timeline: &mut Timeline<S>,
    sender: S,
    start: &Start,
    time: u128,
    packet: &[u8],
    heard: &mut Heard,
    told: &mut Vec<Telling<S>>,
) -> Result<(), Fault>
    requires in_time { time < 2 ^ 96 }
    requires last { AllLast S.cmp timeline.old.factor time timeline.old.rows }
    ensures same { KeepsBounds timeline.old timeline.new }
    ensures ok { OnOk result (Hears S.cmp timeline.old.factor interest.now.asked
        interest.now.view sender start.now time heard.old.octets packet.now
        timeline.old.rows timeline.new.rows told.old.items told.new.items) }
    ensures octets { OnOk result (heard.new.octets ≡ heard.old.octets + length packet.now) }
    ensures counts { OnOk result
        (CountsAt heard.old.octets start.now packet.now heard.old.report heard.new.report) }
    ensures refused { IfErr result (λ fault. fault ≢ Fault.Memory
        → RefusesPacket S.cmp timeline.old.limit interest.now.asked sender timeline.old.factor
        interest.now.view start.now time heard.old.octets heard.old.report.tlvs packet.now
        timeline.old.rows timeline.new.rows told.old.items told.new.items fault) }
{
    let at = heard.octets;
    let Some(octets) = at.checked_add(packet.len() as u64) else {
        return Err(Fault::TooLong);
    };

    // There are no more TLVs than octets.
    if heard.report.tlvs() > at {
        return Err(Fault::TooLong);
    }
    heard.octets = octets;
    let body = body_of(packet, at)?;
    let place = at + 4;
    let report = &mut heard.report;
    interest.take_body(timeline, sender, start, time, body, place, report, told)
}

/// Takes all that has expired and who has fallen silent by this time, in order: of one time who is
/// silent last. Adds what this tells.
fn expire_watched<S: Sender>(
    interest: &Interest,
    timeline: &mut Timeline<S>,
    watch: &mut Watch<S>,
    until: u128,
    told: &mut Vec<Telling<S>>,
) -> Result<(), AllocError>
    requires { interest.now.asked ≡ None }
    ensures bounds { KeepsBounds timeline.old timeline.new }
    ensures ok { OnOk result (TellsEnds S.cmp timeline.old.factor None until
        timeline.old.rows timeline.new.rows
        (of_rows None told.old.items) (of_rows None told.new.items)) }
    ensures last { OnOk result (AllLast S.cmp timeline.old.factor until timeline.new.rows) }
    ensures silences { OnOk result
        (TellsSilences S.cmp [] until told.old.items told.new.items watch.old watch.new) }
    ensures holding { OnOk result (TellsCounts S.cmp timeline.old.factor timeline.old.rows
        told.old.items told.new.items) }
{
    while let Some(silence) = watch.fall_silent(until)? {
        interest.expire(timeline, silence.time, told)?;
        Telling::add_silence(told, &silence, timeline.count_of(silence.sender))?;
    }
    interest.expire(timeline, until, told)
}

/// Takes the Hellos of a packet of a sender that came at this time; tells that it returns, if it was
/// silent.
fn hear_hellos<S: Sender>(
    watch: &mut Watch<S>,
    sender: S,
    time: u128,
    packet: &[u8],
    told: &mut Vec<Telling<S>>,
) -> Result<(), AllocError>
    requires { time < 2 ^ 96 }
    ensures rows { OnOk result (of_rows None told.new.items ≡ of_rows None told.old.items) }
    ensures returns { OnOk result (TellsReturns S.cmp (hellos_heard sender time packet.now) time
        told.old.items told.new.items watch.old watch.new) }
    ensures only { OnOk result (TellsOnlyReturns time told.old.items told.new.items) }
{
    let [_, _, _, _, body @ ..] = packet else {
        return Ok(());
    };
    let mut tlvs = Tlvs::new(body, 0);
    while let Some(tlv) = tlvs.advance() {
        hear_hello(watch, sender, time, &tlv, told)?;
    }
    Ok(())
}

/// Takes a TLV if it is a multicast Hello that says when the next one comes.
fn hear_hello<S: Sender>(
    watch: &mut Watch<S>,
    sender: S,
    time: u128,
    tlv: &Tlv<'_>,
    told: &mut Vec<Telling<S>>,
) -> Result<(), AllocError>
    requires { time < 2 ^ 96 }
    ensures rows { OnOk result (of_rows None told.new.items ≡ of_rows None told.old.items) }
    ensures returns { OnOk result (TellsReturns S.cmp
        (hellos_among sender time (tlv_value tlv.now ∷ [])) time told.old.items told.new.items
        watch.old watch.new) }
    ensures only { OnOk result (TellsOnlyReturns time told.old.items told.new.items) }
{
    let Some(interval) = scheduled(tlv) else {
        return Ok(());
    };
    if watch.hear(sender, Stamp::new(time, interval))? {
        return Telling::add_return(told, time, sender);
    }
    Ok(())
}

/// The Interval of a multicast Hello that says when the next one comes.
fn scheduled(tlv: &Tlv<'_>) -> Option<u16>
    ensures { result ≡ scheduled (tlv_value tlv.now) }
{
    let hello = Hello::read(tlv)?;
    if hello.is_scheduled() {
        Some(hello.interval)
    } else {
        None
    }
}

impl<S: Sender> Teller<S> {
    /// Nothing was heard. There may be at most so many rows of all senders together; what is
    /// announced ends so many ten-millionths of its Interval later, or never without a factor. The
    /// addresses that are asked for are a destination and a source, of one family.
    pub fn new(
        alloc: Global,
        factor: Option<u64>,
        limit: u32,
        view: View,
        pair: Option<(Addr, Addr)>,
    ) -> Teller<S>
        requires { IfSome pair (λ pair. pair.0.family ≡ pair.1.family) }
        ensures rows { result.timeline ≡ record { factor = factor; limit = limit; rows = [] } }
        ensures view { result.interest.view ≡ view }
        ensures asked { result.interest.asked ≡ pair }
        ensures heard { result.heard.entries ≡ [] }
        ensures watch { result.watch ≡ record { rows = []; silent = record { keys = [] } } }
    {
        let asked = match pair {
            None => None,
            Some((dst, src)) => Some(Asked::new(dst, src)),
        };
        Teller {
            timeline: Timeline::new(alloc, factor, limit),
            interest: Interest { view, asked },
            heard: BTreeMap::new(alloc),
            watch: Watch::new(alloc),
        }
    }

    /// Takes all that has expired by this time, in order; adds what it tells.
    #[inline(always)]
    pub fn expire(&mut self, until: u128, told: &mut Vec<Telling<S>>) -> Result<(), AllocError>
        ensures same { (self.new.timeline.factor ≡ self.old.timeline.factor)
            × (self.new.interest ≡ self.old.interest) }
        ensures limit { self.new.timeline.limit ≡ self.old.timeline.limit }
        ensures ok { OnOk result (TellsEnds S.cmp self.old.timeline.factor
            self.old.interest.asked until self.old.timeline.rows self.new.timeline.rows
            (of_rows self.old.interest.asked told.old.items)
            (of_rows self.old.interest.asked told.new.items)) }
        ensures last { OnOk result
            (AllLast S.cmp self.old.timeline.factor until self.new.timeline.rows) }
        ensures heard { self.new.heard ≡ self.old.heard }
        ensures silences { watches self.old.timeline.factor self.old.interest.asked ≡ true
            → OnOk result (TellsSilences S.cmp [] until told.old.items told.new.items
            self.old.watch self.new.watch) }
        ensures holding { watches self.old.timeline.factor self.old.interest.asked ≡ true
            → OnOk result (TellsCounts S.cmp self.old.timeline.factor self.old.timeline.rows
            told.old.items told.new.items) }
    {
        if self.is_watching() {
            let timeline = &mut self.timeline;
            return expire_watched(&self.interest, timeline, &mut self.watch, until, told);
        }
        self.interest.expire(&mut self.timeline, until, told)
    }

    /// How many octets the packets that were heard of a sender have.
    pub fn octets(&self, sender: S) -> u64
        ensures { result ≡ octets_heard S.cmp self.now.heard.entries sender }
    {
        match self.heard.get(&sender) {
            Some(heard) => heard.octets,
            None => 0,
        }
    }

    /// Whether it is told who is silent: where rows end and each change is told.
    fn is_watching(&self) -> bool
        ensures is { result ≡ watches self.now.timeline.factor self.now.interest.asked }
        ensures none { IsTrue result → self.now.interest.asked ≡ None }
    {
        self.interest.asked.is_none() && self.timeline.has_factor()
    }

    /// Takes the Hellos of a packet of a sender that came at this time, before its other TLVs.
    fn hear_hellos(
        &mut self,
        sender: S,
        time: u128,
        packet: &[u8],
        told: &mut Vec<Telling<S>>,
    ) -> Result<(), AllocError>
        requires { time < 2 ^ 96 }
        ensures same { (self.new.timeline ≡ self.old.timeline)
            × (self.new.interest ≡ self.old.interest) × (self.new.heard ≡ self.old.heard) }
        ensures told { OnOk result (of_rows self.old.interest.asked told.new.items
            ≡ of_rows self.old.interest.asked told.old.items) }
        ensures returns { watches self.old.timeline.factor self.old.interest.asked ≡ true
            → OnOk result (TellsReturns S.cmp (hellos_heard sender time packet.now) time
            told.old.items told.new.items self.old.watch self.new.watch) }
        ensures only { OnOk result (TellsOnlyReturns time told.old.items told.new.items) }
    {
        if self.is_watching() {
            return hear_hellos(&mut self.watch, sender, time, packet, told);
        }
        Ok(())
    }

    /// How many TLVs the packets that were heard of a sender have, and which were ignored; the
    /// offsets are those in its packets, end to end.
    pub fn report(&self, sender: S) -> Report
        ensures { result ≡ report_of S.cmp self.now.heard.entries sender }
    {
        match self.heard.get(&sender) {
            Some(heard) => heard.report,
            None => Report::new(),
        }
    }

    /// Takes a whole packet of a sender, which came at this time, and what has expired by then;
    /// adds what that tells, and counts the TLVs. A fault counts the octets of that sender's packets,
    /// end to end. What was told before the fault stays in `told`.
    pub fn hear(
        &mut self,
        sender: S,
        start: Start,
        time: u128,
        packet: &[u8],
        told: &mut Vec<Telling<S>>,
    ) -> Result<(), Fault>
        requires { time < 2 ^ 96 }
        ensures same { (self.new.timeline.factor ≡ self.old.timeline.factor)
            × (self.new.interest ≡ self.old.interest) }
        ensures limit { self.new.timeline.limit ≡ self.old.timeline.limit }
        ensures ok { OnOk result (Hears S.cmp self.old.timeline.factor self.old.interest.asked
            self.old.interest.view sender start time
            (octets_heard S.cmp self.old.heard.entries sender) packet.now
            self.old.timeline.rows self.new.timeline.rows
            (of_rows self.old.interest.asked told.old.items)
            (of_rows self.old.interest.asked told.new.items)) }
        ensures counts { OnOk result (CountsPacket S.cmp sender start packet.now
            self.old.heard.entries self.new.heard.entries) }
        ensures silences { watches self.old.timeline.factor self.old.interest.asked ≡ true
            → OnOk result (TellsSilences S.cmp (hellos_heard sender time packet.now) time
            told.old.items told.new.items self.old.watch self.new.watch) }
        ensures holding { watches self.old.timeline.factor self.old.interest.asked ≡ true
            → OnOk result (TellsCounts S.cmp self.old.timeline.factor self.old.timeline.rows
            told.old.items told.new.items) }
        // What changes by the TLVs before a fault is told, too.
        ensures refused { IfErr result (λ fault. fault ≢ Fault.Memory
            → RefusesPacket S.cmp self.old.timeline.limit self.old.interest.asked sender
            self.old.timeline.factor self.old.interest.view start time
            (octets_heard S.cmp self.old.heard.entries sender)
            (report_of S.cmp self.old.heard.entries sender).tlvs packet.now
            self.old.timeline.rows self.new.timeline.rows
            (of_rows self.old.interest.asked told.old.items)
            (of_rows self.old.interest.asked told.new.items) fault) }
    {
        self.expire(time, told)?;
        self.hear_hellos(sender, time, packet, told)?;
        self.hear_packet(sender, start, time, packet, told)
    }

    /// Takes a whole packet of a sender, and what has expired by its time, but for its Hellos.
    fn hear_packet(
        &mut self,
        sender: S,
        start: Start,
        time: u128,
        packet: &[u8],
        told: &mut Vec<Telling<S>>,
    ) -> Result<(), Fault>
        requires in_time { time < 2 ^ 96 }
        requires last { AllLast S.cmp self.old.timeline.factor time self.old.timeline.rows }
        ensures same { (self.new.timeline.factor ≡ self.old.timeline.factor)
            × (self.new.interest ≡ self.old.interest) × (self.new.watch ≡ self.old.watch) }
        ensures limit { self.new.timeline.limit ≡ self.old.timeline.limit }
        ensures ok { OnOk result (Hears S.cmp self.old.timeline.factor self.old.interest.asked
            self.old.interest.view sender start time
            (octets_heard S.cmp self.old.heard.entries sender) packet.now
            self.old.timeline.rows self.new.timeline.rows told.old.items told.new.items) }
        ensures counts { OnOk result (CountsPacket S.cmp sender start packet.now
            self.old.heard.entries self.new.heard.entries) }
        ensures refused { IfErr result (λ fault. fault ≢ Fault.Memory
            → RefusesPacket S.cmp self.old.timeline.limit self.old.interest.asked sender
            self.old.timeline.factor self.old.interest.view start time
            (octets_heard S.cmp self.old.heard.entries sender)
            (report_of S.cmp self.old.heard.entries sender).tlvs packet.now
            self.old.timeline.rows self.new.timeline.rows told.old.items told.new.items fault) }
    {
        if let Some(heard) = self.heard.get_mut(&sender) {
            let timeline = &mut self.timeline;
            return take(
                &self.interest,
                timeline,
                sender,
                &start,
                time,
                packet,
                heard,
                told,
            );
        }
        let mut heard = Heard::nothing();
        let timeline = &mut self.timeline;
        let taken = take(
            &self.interest,
            timeline,
            sender,
            &start,
            time,
            packet,
            &mut heard,
            told,
        );
        match self.heard.insert(sender, heard) {
            Ok(_) => taken,
            Err(_) => Err(Fault::Memory),
        }
    }
}
