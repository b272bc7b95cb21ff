//! The packets of a sender in a capture, which a table is made of.
ghost use Rattle.std.specs.Prelude.{◌≡◌, ◌≢◌, ◌∷◌, ℕ, List, [], None, IfErr, IfOk, IfSome};
ghost use Rattle.std.specs.Option.{unwrap_or};
ghost use Rattle.babel_table.specs.DumpFault.{DumpFault, HasNoFault};
ghost use Rattle.babel_table.specs.Feeding.{HasHeard};
ghost use Rattle.babel_table.specs.Moments.{IsTableAt, dump_of};
ghost use Rattle.babel_table.specs.TableOf.{IsTableOf};
ghost use Rattle.babel_dump.specs.Fed.{HearsMore};

use crate::factor::Factor;
use crate::input::Expired;
use crate::reading::Reading;
use babel_capture::{Record, Said, Sink, Time};
use babel_table::{Table, TimedFeeder};
use babel_tlv::Fault;
use std::alloc::Global;

/// Feeds a feeder the packets that it takes, each with its time.
#[derive(Drop)]
pub(crate) struct PacketFeeder {
    pub feeder: TimedFeeder,
}

impl PacketFeeder {
    /// One that took nothing, for the table of a dump that is read so.
    pub(crate) fn new(alloc: Global, reading: &Reading) -> Result<PacketFeeder, Fault>
        ensures heard { IfOk result (λ packets. HasHeard packets.feeder []) }
        ensures made { IfOk result (λ packets. (packets.feeder.limits ≡ reading.now.limits)
            × (packets.feeder.mode ≡ reading.now.mode)
            × (packets.feeder.sender ≡ reading.now.sender) × (packets.feeder.fault ≡ None)) }
        ensures factor { IfOk result
            (λ packets. IfSome reading.now.expiry (λ factor. packets.feeder.factor ≡ factor)) }
        ensures err { IfErr result (λ fault. fault ≡ Fault.Memory) }
    {
        let factor = reading.expiry.unwrap_or(Factor::usual()).ten_millionths();
        let feeder = TimedFeeder::new(
            alloc,
            reading.limits,
            reading.mode,
            reading.sender,
            reading.seed,
            factor,
        )?;
        Ok(PacketFeeder { feeder })
    }

    /// Takes a packet, which came at this time, or at none that is known. Its fault, if it has one,
    /// the feeder keeps.
    pub(crate) fn feed(&mut self, time: Option<Time>, packet: &[u8])
        ensures { HearsMore self.old.feeder self.new.feeder
            ((unwrap_or time 0, packet.now) ∷ []) }
    {
        let time = time.unwrap_or(Time::first()).nanoseconds();
        let _ = self.feeder.feed_at(time, packet);
    }

    /// How many rows were not announced again in time by this moment, if none is left out for that.
    pub(crate) fn count_expired(&self, expired: Option<Expired>, moment: Option<u128>) -> usize {
        match (expired, moment) {
            (None, Some(moment)) => self.feeder.count_expired(moment),
            _ => 0,
        }
    }

    /// The table of the packets that it took, without what has expired.
    pub(crate) fn finish(self, expired: Option<Expired>) -> Result<Table, Fault>
        ensures whole { IfOk result (λ table. expired ≡ None → (packets : List (ℕ × List ℕ))
            → HasHeard self.feeder packets
            → HasNoFault self.feeder.limits self.feeder.mode self.feeder.sender (dump_of packets)
            × IsTableOf self.feeder.limits self.feeder.mode self.feeder.sender (dump_of packets)
            table) }
        ensures at { IfOk result (λ table. IfSome expired (λ at. (packets : List (ℕ × List ℕ))
            → HasHeard self.feeder packets
            → HasNoFault self.feeder.limits self.feeder.mode self.feeder.sender (dump_of packets)
            × IsTableAt self.feeder.limits self.feeder.mode self.feeder.sender packets
            self.feeder.factor at.moment table)) }
        ensures fault { IfErr result (λ fault. fault ≢ Fault.Memory
            → (packets : List (ℕ × List ℕ)) → HasHeard self.feeder packets
            → DumpFault self.feeder.limits self.feeder.mode self.feeder.sender (dump_of packets)
            fault) }
    {
        let feeder = self.feeder.into_feeder()?;
        match expired {
            Some(Expired { moment, .. }) => feeder.finish_at(moment),
            None => feeder.finish(),
        }
    }
}

impl Sink for PacketFeeder {
    ghost use Rattle.babel_dump.specs.Fed.{FeedsOn};

    ghost has = { FeedsOn };

    fn take(&mut self, told: &Record<'_>) {
        if let Said::Packet(packet) = &told.said {
            self.feed(told.time, packet.octets);
        }
    }
}
