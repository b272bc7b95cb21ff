//! The tables of the senders in a capture, each of its own packets.
ghost use Rattle.std.specs.Prelude.{◌≡◌, ◌∷◌, ◌++◌, List, [], None, IfOk, OnOk};
ghost use Rattle.std.specs.BTreeMap.{insert_entry};
ghost use Rattle.std.specs.Option.{unwrap_or};
ghost use Rattle.babel_capture.specs.Counts.{Made};
ghost use Rattle.babel_capture.specs.Sinking.{IsTold};
ghost use Rattle.babel_capture.specs.Tallies.{origin_cmp};
ghost use Rattle.babel_dump.specs.EachSender.{AreHeard, AreOwn, FeedsOwn, IsFedOwn, MissesOwn};
ghost use Rattle.babel_dump.specs.EachSender.{table_at};
ghost use Rattle.babel_dump.specs.declared.sender_tables.SenderTable.{SenderTable as TableSaid};

use crate::each_sender::EachSender;
use crate::left_out::LeftOutDatagram;
use crate::packet_feeder::PacketFeeder;
use babel_capture::{BabelPacket, Origin, Record, Said, Sink, Time};
use babel_tlv::Fault;
use std::alloc::Global;
use std::collections::BTreeMap;

/// What was heard of a sender at its place, and the first datagram of it that is missed.
#[derive(Drop)]
pub struct SenderTable {
    pub(crate) packets: PacketFeeder,
    pub(crate) missed: Option<LeftOutDatagram>,
}

/// Feeds the table of each sender whose key is asked for its own packets.
#[derive(Drop)]
pub(crate) struct SenderTables<'a> {
    alloc: Global,
    each: &'a EachSender,
    seed: u128,
    pub tables: BTreeMap<Origin, SenderTable>,
    /// Whether memory ran out, so that packets are missing.
    pub has_failed: bool,
}

impl<'a> SenderTables<'a> {
    /// Nothing was heard.
    pub(crate) fn new(alloc: Global, each: &'a EachSender, seed: u128) -> SenderTables<'a>
        ensures each { result.each.now ≡ each.now }
        ensures none { AreHeard result [] }
    {
        SenderTables {
            alloc,
            each,
            seed,
            tables: BTreeMap::new(alloc),
            has_failed: false,
        }
    }

    /// The table of a sender of which nothing was heard.
    fn first(&self, origin: Origin) -> Result<SenderTable, Fault>
        ensures { IfOk result (λ table. IsFedOwn self.now.each.now origin [] None table) }
    {
        let packets = PacketFeeder::new(self.alloc, &self.each.reading(origin, self.seed))?;
        Ok(SenderTable {
            packets,
            missed: None,
        })
    }

    /// Keeps a table.
    fn put(&mut self, origin: Origin, table: SenderTable) -> Result<(), Fault>
        ensures same { (self.new.each.now ≡ self.old.each.now)
            × (self.new.has_failed ≡ self.old.has_failed) }
        ensures put { OnOk result (self.new.tables.entries
            ≡ insert_entry origin_cmp self.old.tables.entries origin table) }
    {
        match self.tables.insert(origin, table) {
            Ok(_) => Ok(()),
            Err(_) => Err(Fault::Memory),
        }
    }

    /// Feeds the table of a sender a packet.
    fn feed(&mut self, time: Option<Time>, packet: &BabelPacket<'_>) -> Result<(), Fault>
        ensures same { (self.new.each.now ≡ self.old.each.now)
            × (self.new.has_failed ≡ self.old.has_failed) }
        ensures fed { OnOk result ((table : TableSaid)
            × (self.new.tables.entries ≡ insert_entry origin_cmp self.old.tables.entries
            packet.now.origin table)
            × FeedsOwn self.old.each.now packet.now.origin
            (table_at self.old.tables.entries packet.now.origin)
            (unwrap_or time 0, packet.now.octets.now) table) }
    {
        if let Some(table) = self.tables.get_mut(&packet.origin) {
            table.packets.feed(time, packet.octets);
            return Ok(());
        }
        let mut table = self.first(packet.origin)?;
        table.packets.feed(time, packet.octets);
        self.put(packet.origin, table)
    }

    /// Notes that a datagram of a sender is missed.
    fn miss(&mut self, origin: Origin, datagram: LeftOutDatagram) -> Result<(), Fault>
        ensures same { (self.new.each.now ≡ self.old.each.now)
            × (self.new.has_failed ≡ self.old.has_failed) }
        ensures missed { OnOk result ((table : TableSaid)
            × (self.new.tables.entries ≡ insert_entry origin_cmp self.old.tables.entries
            origin table)
            × MissesOwn self.old.each.now origin (table_at self.old.tables.entries origin)
            datagram table) }
    {
        if let Some(table) = self.tables.get_mut(&origin) {
            table.missed = table.missed.or(Some(datagram));
            return Ok(());
        }
        let mut table = self.first(origin)?;
        table.missed = Some(datagram);
        self.put(origin, table)
    }

    /// Hears a record.
    fn hear(&mut self, told: &Record<'_>) -> Result<(), Fault>
        ensures same { (self.new.each.now ≡ self.old.each.now)
            × (self.new.has_failed ≡ self.old.has_failed) }
        ensures heard { OnOk result ((made : List Made) (one : Made) → IsTold one told.now
            → AreOwn self.old.each.now made self.old.tables.entries
            → AreOwn self.old.each.now (made ++ one ∷ []) self.new.tables.entries) }
    {
        match &told.said {
            Said::Packet(packet) => {
                if self.each.asks_for(&packet.origin) {
                    self.feed(told.time, packet)
                } else {
                    Ok(())
                }
            }
            Said::Missed(missed) => {
                if self.each.asks_for(&missed.origin) {
                    let (packet, reason) = (told.number, missed.reason);
                    self.miss(missed.origin, LeftOutDatagram { packet, reason })
                } else {
                    Ok(())
                }
            }
            Said::LeftOut { .. } | Said::Nothing => Ok(()),
        }
    }
}

impl Sink for SenderTables<'_> {
    ghost use Rattle.babel_dump.specs.EachSender.{KeepsOwn};

    ghost has = { KeepsOwn };

    fn take(&mut self, told: &Record<'_>) {
        if !self.has_failed {
            self.has_failed = self.hear(told).is_err();
        }
    }
}
