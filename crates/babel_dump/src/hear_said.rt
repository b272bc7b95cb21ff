//! What the records of a capture say, heard one after another.
ghost use Rattle.std.specs.Prelude.{◌≡◌, ◌^◌, ◌<◌, [], IfErr, None, OnOk};
ghost use Rattle.babel_capture.specs.Counts.{Made};
ghost use Rattle.babel_capture.specs.Sinking.{IsTold};
ghost use Rattle.babel_dump.specs.Followed.{HearsPacket, HearsRecord, RefusesTeller};
ghost use Rattle.babel_dump.specs.Followed.{RefusesUnheard, Suits};
ghost use Rattle.babel_dump.specs.declared.events_job.Events.{Events as EventsSaid};

use crate::hearing::Unheard;
use crate::speaker::Speaker;
use babel_capture::{BabelPacket, Origin, Record, Said};
use babel_timeline::{Teller, Telling};
use babel_tlv::Start;

/// Hears a record of a capture, whether encoding 4 is read or not; adds what it tells, also where its
/// packet has a fault.
#[inline(always)]
pub(crate) fn hear_said(
    teller: &mut Teller<Speaker>,
    via_v6: bool,
    said: &Record<'_>,
    told: &mut Vec<Telling<Speaker>>,
) -> Result<(), Unheard>
    requires { told.old.items ≡ [] }
    ensures untimed { said.now.time ≡ None → told.new.items ≡ [] }
    ensures heard { (events : EventsSaid) → via_v6 ≡ events.limits.via_v6 → Suits events teller.old
        → OnOk result ((one : Made) → IsTold one said.now
        → HearsRecord events one teller.old teller.new told.new.items) }
    ensures refused { (events : EventsSaid) → via_v6 ≡ events.limits.via_v6
        → Suits events teller.old → IfErr result (RefusesUnheard events said.now teller.old) }
{
    let Some(time) = said.time else {
        return Ok(());
    };
    let time = time.nanoseconds();
    match &said.said {
        Said::Packet(packet) => hear_packet(teller, via_v6, time, packet, told),
        _ => Ok(teller.expire(time, told)?),
    }
}

/// Hears a packet that came at this time.
fn hear_packet(
    teller: &mut Teller<Speaker>,
    via_v6: bool,
    time: u128,
    packet: &BabelPacket<'_>,
    told: &mut Vec<Telling<Speaker>>,
) -> Result<(), Unheard>
    requires { time < 2 ^ 96 }
    ensures heard { (events : EventsSaid) → via_v6 ≡ events.limits.via_v6 → Suits events teller.old
        → OnOk result (HearsPacket events packet.now.origin time packet.now.octets.now teller.old
        teller.new told.old.items told.new.items) }
    ensures refused { (events : EventsSaid) → via_v6 ≡ events.limits.via_v6
        → Suits events teller.old → IfErr result (RefusesTeller events packet.now.origin time
        packet.now.octets.now teller.old) }
{
    let Origin { place, sender } = packet.origin;
    let start = Start { sender, via_v6 };
    let speaker = Speaker { sender, place };
    match teller.hear(speaker, start, time, packet.octets, told) {
        Ok(()) => Ok(()),
        Err(fault) => Err(Unheard::of(packet.origin, fault)),
    }
}
