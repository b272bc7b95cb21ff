ghost use Rattle.std.specs.Prelude.{◌≡◌, ◌≤◌, ◌<◌, ◌+◌, ◌^◌, ◌∷◌, [], length, drop};
ghost use Rattle.std.specs.Prelude.{OnOk, IfOk, IfErr, List, true};
ghost use Rattle.babel_table.specs.Feeding.{IsPartial, IsReady, IsRefused, StopsWithin, event_at};
ghost use Rattle.babel_tlv.specs.Pairs.{EventFits};
ghost use Rattle.babel_tlv.specs.EventKinds.{event_of};
ghost use Rattle.babel_tlv.specs.Says.{sayings_after};
ghost use Rattle.babel_tlv.specs.Framing.{tlvs_of};
ghost use Rattle.babel_tlv.specs.FrameFaults.{AreTlvs};
ghost use Rattle.babel_tlv.specs.Frames.{tlv_value};
ghost use Rattle.babel_tlv.specs.declared.start.Start.{Start as StartValue};
ghost use Rattle.babel_tlv.specs.Context.{context_after, first_context};
ghost use Rattle.babel_tlv.specs.Framing.{TlvAt};
ghost use Rattle.babel_table.specs.Live.{KeepsTime};
ghost use Rattle.babel_table.specs.Moments.{told_at, told_from};
ghost use Rattle.babel_table.specs.Words.{HearsPackets, after_all, after_told, told_then};

use crate::live::LiveRows;
use crate::report::Report;
use babel_tlv::{EventKind, Fault, Frame, Route, Start, State, Tlv, Tlvs, frame};

/// The table so far. Marks have been made at most as often as TLVs were seen.
#[derive(Drop)]
pub struct SoFar {
    /// What is held for each key.
    pub rows: LiveRows,
    /// What was seen of TLVs.
    pub report: Report,
    ghost counted: { rows.last ≤ report.tlvs },
}

impl SoFar {
    ghost use Rattle.babel_table.specs.Streams.{FailsAtTlv, FailsInBody, StopsInPackets};
    ghost use Rattle.babel_table.specs.Streams.{TakesPackets, TakesSayings, TakesTlv, table_of};

    /// Takes what a TLV says of a route.
    pub fn take(&mut self, tlv: &Tlv<'_>, kind: EventKind, route: &Route) -> Result<(), Fault>
        requires fits { EventFits (event_of kind route.now) }
        requires room { self.old.report.tlvs + 1 < 2 ^ 64 }
        ensures mode { self.new.rows.mode ≡ self.old.rows.mode }
        ensures entries { self.new.rows.entries ≡ self.old.rows.entries }
        ensures tlvs { self.new.report.tlvs ≡ self.old.report.tlvs + 1 }

        // The table after some TLVs is then that after these and this one.
        ensures ok { OnOk result (TakesSayings self.old
            (event_at (tlv_value tlv.now) (event_of kind route.now) ∷ []) self.new) }
        ensures refused { IfErr result (IsRefused self.old.rows.mode self.old.rows.entries
            tlv.now.at (event_of kind route.now) self.old.rows.rows) }
        ensures time { KeepsTime self.old.rows self.new.rows }
        ensures words { self.old.rows.runs ≡ true → OnOk result (self.new.rows.words
            ≡ after_told self.old.rows.mode self.old.rows.factor (told_then self.old.rows.when.time
            (tlv_value tlv.now) (event_of kind route.now)) self.old.rows.words) }
    {
        self.report.count(tlv, kind);
        self.rows.set_interval(tlv.body);
        let taken = self.rows.take(kind, route, tlv.at);
        self.rows.are_few();
        taken
    }

    /// Takes a TLV of a packet, after the TLVs that left this state.
    fn take_tlv(&mut self, state: &mut State, tlv: &Tlv<'_>, route: &mut Route) -> Result<(), Fault>
        requires { self.old.report.tlvs + 1 < 2 ^ 64 }
        ensures mode { self.new.rows.mode ≡ self.old.rows.mode }
        ensures entries { self.new.rows.entries ≡ self.old.rows.entries }
        ensures tlvs { self.new.report.tlvs ≤ self.old.report.tlvs + 1 }

        // Where it is the next TLV of its packet, it is then taken, or it fails.
        ensures ok { OnOk result
            (TakesTlv self.old state.old (tlv_value tlv.now) self.new state.new) }
        ensures fails { IfErr result (FailsAtTlv self.old state.old (tlv_value tlv.now)) }
        ensures time { KeepsTime self.old.rows self.new.rows }
        ensures words { self.old.rows.runs ≡ true → OnOk result (self.new.rows.words
            ≡ after_told self.old.rows.mode self.old.rows.factor
            (told_at self.old.rows.when.time state.old (tlv_value tlv.now)) self.old.rows.words) }
        ensures state { OnOk result ((start : StartValue) (earlier : List TlvAt)
            → state.old ≡ context_after start earlier
            → state.new ≡ context_after start (tlv_value tlv.now ∷ earlier)) }
    {
        let kind = state.step_into(tlv, route)?;
        self.take(tlv, kind, route)
    }

    /// Takes the TLVs of a packet's body, whose first octet lies at this offset. If the body is not
    /// TLVs to its end, that is the fault, whatever TLV fails before: RFC 8966, 4.3.
    pub fn take_body(&mut self, start: &Start, body: &[u8], at: u64) -> Result<(), Fault>
        requires fits { at + length body.now < 2 ^ 64 }
        requires room { self.old.report.tlvs + length body.now < 2 ^ 64 }
        ensures mode { self.new.rows.mode ≡ self.old.rows.mode }
        ensures entries { self.new.rows.entries ≡ self.old.rows.entries }
        ensures tlvs { self.new.report.tlvs ≤ self.old.report.tlvs + length body.now }

        // The table after some TLVs is then that after these and those of the body.
        ensures whole { OnOk result (AreTlvs at body.now (tlvs_of at body.now)) }
        ensures ok { OnOk result
            (TakesSayings self.old (sayings_after start.now [] (tlvs_of at body.now)) self.new) }
        ensures fails { IfErr result (FailsInBody self.old start.now at body.now) }
        ensures time { KeepsTime self.old.rows self.new.rows }
        ensures words { self.old.rows.runs ≡ true → OnOk result (self.new.rows.words
            ≡ after_all self.old.rows.mode self.old.rows.factor (told_from self.old.rows.when.time
            (first_context start.now) (tlvs_of at body.now)) self.old.rows.words) }
    {
        let mut state = State::at(*start);
        let mut route = Route::unwritten();
        let mut tlvs = Tlvs::new(body, at);
        while let Some(tlv) = tlvs.advance() {
            if let Err(fault) = self.take_tlv(&mut state, &tlv, &mut route) {
                tlvs.check_rest()?;
                return Err(fault);
            }
        }
        tlvs.check_rest()
    }

    /// Takes the whole packets that the octets begin with, the first at this offset: how many
    /// octets they are.
    pub fn take_packets(&mut self, start: &Start, octets: &[u8], at: u64) -> Result<usize, Fault>
        requires fits { at + length octets.now < 2 ^ 64 }
        requires room { self.old.report.tlvs + length octets.now < 2 ^ 64 }
        ensures mode { self.new.rows.mode ≡ self.old.rows.mode }
        ensures entries { self.new.rows.entries ≡ self.old.rows.entries }
        ensures took { IfOk result (λ used. TakesPackets
            self.old start.now at octets.now self.new (drop used octets.now) (at + used)) }
        ensures used { IfOk result (λ used. used ≤ length octets.now) }
        ensures tlvs { IfOk result (λ used. self.new.report.tlvs ≤ self.old.report.tlvs + used) }
        ensures partial { IfOk result (λ used. IsPartial (drop used octets.now)) }
        ensures stops { IfErr result (StopsInPackets self.old start.now at octets.now) }
        ensures time { KeepsTime self.old.rows self.new.rows }
        ensures words { self.old.rows.runs ≡ true → IfOk result (λ used. HearsPackets
            self.old.rows.mode self.old.rows.factor self.old.rows.when.time start.now at octets.now
            self.old.rows.words self.new.rows.words (drop used octets.now)) }
    {
        let mut rest = octets;
        let mut place = at;
        loop {
            match frame(rest, place) {
                Frame::Whole { body, used } => {
                    self.take_body(start, body, place + 4)?;
                    rest = &rest[used..];
                    place += used as u64;
                }
                Frame::More => return Ok(octets.len() - rest.len()),
                Frame::Bad(fault) => return Err(fault),
            }
        }
    }

    /// The same of a dump that may have this many octets in all. Those past that aren't looked at.
    pub fn take_within(
        &mut self,
        bytes: u32,
        start: &Start,
        octets: &[u8],
        at: u64,
    ) -> Result<usize, Fault>
        requires { IsReady bytes self.old.report.tlvs at [] }
        ensures mode { self.new.rows.mode ≡ self.old.rows.mode }
        ensures entries { self.new.rows.entries ≡ self.old.rows.entries }
        ensures took { IfOk result (λ used. TakesPackets
            self.old start.now at octets.now self.new (drop used octets.now) (at + used)) }
        ensures used { IfOk result (λ used. used ≤ length octets.now) }
        ensures tlvs { IfOk result (λ used. self.new.report.tlvs ≤ self.old.report.tlvs + used) }
        ensures partial { IfOk result (λ used. IsPartial (drop used octets.now)) }
        ensures in_limit { OnOk result (at + length octets.now ≤ bytes) }
        ensures stops { IfErr result (StopsWithin bytes self.old.rows.mode self.old.rows.entries
            start.now at [] octets.now (table_of self.old)) }
        ensures time { KeepsTime self.old.rows self.new.rows }
        ensures words { self.old.rows.runs ≡ true → IfOk result (λ used. HearsPackets
            self.old.rows.mode self.old.rows.factor self.old.rows.when.time start.now at octets.now
            self.old.rows.words self.new.rows.words (drop used octets.now)) }
    {
        let room = (bytes as u64 - at) as usize;
        if octets.len() <= room {
            return self.take_packets(start, octets, at);
        }
        self.take_packets(start, &octets[..room], at)?;
        Err(Fault::TooLong)
    }
}
