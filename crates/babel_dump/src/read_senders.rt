//! The senders in captures whose own tables are read, and what there is to know of each.
ghost use Rattle.std.specs.Prelude.{◌≡◌, List, IfErr, IfOk, None};
ghost use Rattle.std.specs.Result.{result_ok};
ghost use Rattle.babel_capture.specs.Counts.{Made};
ghost use Rattle.babel_capture.specs.Gathering.{name_of};
ghost use Rattle.babel_dump.specs.AskedRun.{misplaced_told};
ghost use Rattle.babel_dump.specs.EachSender.{IsFedOwn, first_missed, own_packets};
ghost use Rattle.babel_dump.specs.Fed.{AreWhole};
ghost use Rattle.babel_dump.specs.Packets.{packets_made};
ghost use Rattle.babel_dump.specs.PairsMade.{heard_in};
ghost use Rattle.babel_dump.specs.ToldPairs.{IsOwnRead};

use crate::capture_input::CaptureRead;
use crate::capture_notes::CaptureNotes;
use crate::done::{DumpRead, ToldSender};
use crate::each_sender::EachSender;
use crate::input_fault::InputFault;
use crate::notes::Notes;
use crate::own_table::{OwnTable, read_own};
use crate::run_fault::Side;
use crate::sender_tables::SenderTable;
use crate::trouble::Trouble;
use babel_capture::Origin;
use babel_table::Table;
use babel_tlv::Fault;
use std::alloc::{AllocError, Global};

/// A capture that was read for the table of each sender.
#[derive(Clone, Copy)]
pub(crate) struct Captured<'a> {
    pub side: Side,
    pub each: &'a EachSender,
    pub read: &'a CaptureRead,
}

impl<'a> Captured<'a> {
    /// The capture on this side, of which this was read.
    pub fn on(side: Side, each: &'a EachSender, read: &'a CaptureRead) -> Captured<'a> {
        Captured { side, each, read }
    }

    /// The name of the interface of a sender.
    pub fn name(&self, origin: &Origin) -> &[u8]
        ensures { result.now ≡ name_of self.now.read.now.gathered origin.now.place.interface }
    {
        self.read.gathered.name(origin.place.interface)
    }

    /// Adds what there is to know of it, whose senders are each told by themselves.
    pub fn note(&self, notes: &mut Notes) -> Result<(), AllocError> {
        let interval = self.each.interval(&self.read.gathered);
        notes.add_capture(self.side, CaptureNotes::apart(self.read), interval)
    }
}

/// The senders whose tables were read.
#[derive(Drop)]
pub struct ReadSenders {
    /// What was read of each, or why it is refused.
    pub told: Vec<ToldSender>,
    /// How many rows their tables have in all.
    rows: u32,
}

impl ReadSenders {
    /// None was read.
    pub(crate) fn new(alloc: Global) -> ReadSenders {
        ReadSenders {
            told: Vec::new(alloc),
            rows: 0,
        }
    }

    /// The table of a sender, which is noted; or why it is refused.
    ///
    /// # Errors
    ///
    /// `TooManyRoutes` where the tables have more rows in all than the limit.
    pub(crate) fn own(
        &mut self,
        alloc: Global,
        captured: &Captured<'_>,
        origin: Origin,
        table: SenderTable,
    ) -> Result<Result<Table, InputFault>, Trouble>
        ensures own { IfOk result (λ own. (made : List Made) → AreWhole (packets_made made)
            → IsFedOwn captured.now.each.now origin (own_packets origin made)
            (first_missed origin made) table
            → IsOwnRead captured.now.each.now (heard_in captured.now.read.now made) origin
            (result_ok own)) }
        ensures placed { IfErr result (λ trouble. misplaced_told trouble ≡ None) }
    {
        match read_own(captured.each, captured.read.moment, table) {
            Ok(
                OwnTable {
                    table,
                    expired_rows,
                },
            ) => {
                self.count(captured.each, table.rows().len())?;
                let report = *table.report();
                let read = Ok(DumpRead {
                    report,
                    expired_rows,
                    note: None,
                });
                self.push(alloc, captured, &origin, read)?;
                Ok(Ok(table))
            }
            Err(InputFault::Dump(Fault::TooManyRoutes { .. })) => Err(Trouble::TooManyRoutes),
            Err(InputFault::Dump(Fault::Memory)) => Err(Trouble::from(AllocError)),
            Err(fault) => Ok(Err(fault)),
        }
    }

    /// Counts so many rows more.
    pub(crate) fn count(&mut self, each: &EachSender, rows: usize) -> Result<(), Trouble>
        ensures { IfErr result (λ trouble. misplaced_told trouble ≡ None) }
    {
        match each.rows_with(self.rows, rows) {
            Some(rows) => {
                self.rows = rows;
                Ok(())
            }
            None => Err(Trouble::TooManyRoutes),
        }
    }

    /// Notes what was read of a sender, or why it is refused.
    pub(crate) fn push(
        &mut self,
        alloc: Global,
        captured: &Captured<'_>,
        origin: &Origin,
        read: Result<DumpRead, InputFault>,
    ) -> Result<(), Trouble>
        ensures { IfErr result (λ trouble. misplaced_told trouble ≡ None) }
    {
        let sender = ToldSender::new(alloc, &captured.read.gathered, origin, read)?;
        match self.told.push(sender.on(captured.side)) {
            Ok(()) => Ok(()),
            Err(error) => Err(Trouble::from(AllocError::from(error))),
        }
    }
}
