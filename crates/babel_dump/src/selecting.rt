//! The packets of a capture, heard as they are read for what a router in it selects.
ghost use Rattle.std.specs.Prelude.{◌≡◌, ◌∷◌, ◌++◌, List, [], OnOk, false};
ghost use Rattle.babel_capture.specs.Counts.{Made};
ghost use Rattle.babel_capture.specs.Sinking.{IsTold};
ghost use Rattle.babel_selection.specs.Announcing.{AreDistances};
ghost use Rattle.babel_selection.specs.Distances.{OwnUpdate};
ghost use Rattle.babel_selection.specs.Hearing.{no_ihus};
ghost use Rattle.babel_dump.specs.EachSender.{AreHeard};
ghost use Rattle.babel_dump.specs.SelectHeard.{updates_made};

use crate::link_sink::{LinkSink, nanoseconds};
use crate::select_job::Select;
use crate::sender_tables::SenderTables;
use babel_capture::{Record, Said, Sink};
use babel_selection::Sources;
use babel_tlv::Start;
use std::alloc::{AllocError, Global};

/// The tables of the senders, what they say of links, and the source table of the router, as its
/// own Updates build it.
#[derive(Drop)]
pub(crate) struct Selecting<'a> {
    select: &'a Select,
    pub tables: SenderTables<'a>,
    pub links: LinkSink,
    pub sources: Sources,
    /// Whether memory ran out, so that Updates of the router are missing.
    has_failed: bool,
}

impl<'a> Selecting<'a> {
    /// Nothing was heard. Keys are found by this seed.
    pub(crate) fn new(alloc: Global, select: &'a Select, seed: u128) -> Selecting<'a>
        ensures select { result.select.now ≡ select.now }
        ensures each { result.tables.each.now ≡ select.now.each }
        ensures tables { AreHeard result.tables [] }
        ensures hellos { result.links.heard.hellos ≡ [] }
        ensures ihus { result.links.heard.ihus ≡ no_ihus }
        ensures heard { result.links.has_failed ≡ false }
        ensures sources { result.sources ≡ [] }
        ensures sound { result.has_failed ≡ false }
    {
        Selecting {
            select,
            tables: SenderTables::new(alloc, &select.each, seed),
            links: LinkSink::new(alloc),
            sources: Sources::new(alloc),
            has_failed: false,
        }
    }

    /// Whether memory ran out, so that packets are missing.
    pub(crate) fn has_failed(&self) -> bool
        ensures tables { result ≡ false → self.now.tables.has_failed ≡ false }
        ensures links { result ≡ false → self.now.links.has_failed ≡ false }
        ensures updates { result ≡ false → self.now.has_failed ≡ false }
    {
        self.has_failed || self.tables.has_failed || self.links.has_failed
    }
}

/// Hears the Updates of a record, if they are the router's own.
fn hear_updates(select: &Select, sources: &mut Sources, told: &Record<'_>) -> Result<(), AllocError>
    ensures { OnOk result ((one : Made) → IsTold one told.now → (before : List OwnUpdate)
        → AreDistances before sources.old
        → AreDistances (before ++ updates_made select.now (one ∷ [])) sources.new) }
{
    match &told.said {
        Said::Packet(packet) => {
            if select.is_own(&packet.origin) {
                let start = Start {
                    sender: packet.origin.sender,
                    via_v6: select.each.limits.via_v6(),
                };
                sources.hear_packet(start, nanoseconds(told.time), packet.octets)
            } else {
                Ok(())
            }
        }
        _ => Ok(()),
    }
}

impl Sink for Selecting<'_> {
    ghost use Rattle.babel_dump.specs.SelectHeard.{KeepsSelecting};

    ghost has = { KeepsSelecting };

    fn take(&mut self, told: &Record<'_>) {
        self.tables.take(told);
        self.links.take(told);
        if !self.has_failed {
            self.has_failed = hear_updates(self.select, &mut self.sources, told).is_err();
        }
    }
}
