//! What is told of the senders in a capture, one after another.
ghost use Rattle.std.specs.Prelude.{◌≡◌, ◌+◌, ◌∷◌, ◌++◌, ◌≤◌, List, [], IfOk, OnOk};
ghost use Rattle.std.specs.Map.{keys_of};
ghost use Rattle.babel_capture.specs.Counts.{Made};
ghost use Rattle.babel_dump.specs.Fed.{AreWhole};
ghost use Rattle.babel_dump.specs.ToldSenders.{AreTexts, FoundText, TellsSenders, lesser, line_of};
ghost use Rattle.babel_dump.specs.ToldSenders.{read_of, rows_of, statuses_with};
ghost use Rattle.babel_dump.specs.Packets.{packets_made};
ghost use Rattle.babel_dump.specs.EachSender.{AreOwn};

use crate::capture_input::CaptureRead;
use crate::done::{DumpRead, ToldSender};
use crate::each_sender::EachSender;
use crate::input_fault::InputFault;
use crate::key::TableText;
use crate::sender_tables::SenderTable;
use crate::statuses::lesser;
use crate::trouble::Trouble;
use babel_capture::Origin;
use babel_tlv::Fault;
use std::alloc::{AllocError, Global};
use std::collections::BTreeMap;

/// What is told of senders of which each has a text, or a fault.
#[derive(Drop)]
pub struct ToldSenders {
    pub senders: Vec<ToldSender>,
    /// Their lines, one after another.
    pub lines: Vec<u8>,
    /// The least status of each thing that was asked of them; 1 if all are refused.
    pub statuses: Vec<u8>,
    /// How many rows their tables have in all.
    rows: u32,
}

impl ToldSenders {
    /// What is told of these tables.
    ///
    /// # Errors
    ///
    /// `TooManyRoutes` where they have more rows in all than the limit.
    pub fn of(
        alloc: Global,
        each: &EachSender,
        read: &CaptureRead,
        tables: BTreeMap<Origin, SenderTable>,
    ) -> Result<ToldSenders, Trouble>
        ensures { IfOk result (λ made. (records : List Made) → AreWhole (packets_made records)
            → AreOwn each.now records tables.entries → AreTexts each.now records read.now.moment
            read.now.gathered (keys_of tables.entries) made) }
    {
        let mut made = ToldSenders {
            senders: Vec::new(alloc),
            lines: Vec::new(alloc),
            statuses: each.first_statuses(alloc)?,
            rows: 0,
        };
        for (origin, table) in tables {
            let key = each.sender_text(alloc, read, origin, table);
            made.push(alloc, each, read, &origin, key)?;
        }
        Ok(made)
    }

    /// Takes what is told of one more sender, or why nothing is.
    fn push(
        &mut self,
        alloc: Global,
        each: &EachSender,
        read: &CaptureRead,
        origin: &Origin,
        key: Result<TableText, InputFault>,
    ) -> Result<(), Trouble>
        ensures { OnOk result ((found : List FoundText)
            → TellsSenders each.now read.now.gathered found self.old → TellsSenders each.now
            read.now.gathered (found ++ record { origin = origin.now; key = key } ∷ []) self.new) }
    {
        let told = self.tell(alloc, each, key)?;
        let sender = ToldSender::new(alloc, &read.gathered, origin, told)?;
        match self.senders.push(sender) {
            Ok(()) => Ok(()),
            Err(error) => Err(Trouble::from(AllocError::from(error))),
        }
    }

    /// What is told of a sender: what was read for its text, which is taken, or why it has none.
    fn tell(
        &mut self,
        alloc: Global,
        each: &EachSender,
        key: Result<TableText, InputFault>,
    ) -> Result<Result<DumpRead, InputFault>, Trouble>
        ensures same { self.new.senders ≡ self.old.senders }
        ensures lines { OnOk result
            (self.new.lines.items ≡ self.old.lines.items ++ line_of key) }
        ensures rows { OnOk result (self.new.rows ≡ self.old.rows + rows_of key) }
        ensures few { OnOk result (self.old.rows ≤ each.now.limits.entries
            → self.new.rows ≤ each.now.limits.entries) }
        ensures statuses { OnOk result
            (self.new.statuses.items ≡ statuses_with self.old.statuses.items key) }
        ensures read { IfOk result (λ read. read ≡ read_of key) }
    {
        match key {
            Ok(key) => Ok(Ok(self.take(alloc, each, key)?)),
            Err(InputFault::Dump(Fault::TooManyRoutes { .. })) => Err(Trouble::TooManyRoutes),
            Err(InputFault::Dump(Fault::Memory)) => Err(Trouble::from(AllocError)),
            Err(fault) => Ok(Err(fault)),
        }
    }

    /// Takes a text: what was read for it.
    fn take(
        &mut self,
        alloc: Global,
        each: &EachSender,
        key: TableText,
    ) -> Result<DumpRead, Trouble>
        ensures same { self.new.senders ≡ self.old.senders }
        ensures lines { OnOk result
            (self.new.lines.items ≡ self.old.lines.items ++ key.line.items) }
        ensures rows { OnOk result (self.new.rows ≡ self.old.rows + key.rows) }
        ensures few { OnOk result (self.new.rows ≤ each.now.limits.entries) }
        ensures statuses { OnOk result
            (self.new.statuses.items ≡ lesser self.old.statuses.items key.statuses.items) }
        ensures read { IfOk result
            (λ read. read_of (Ok key) ≡ Ok read) }
    {
        let Some(rows) = each.rows_with(self.rows, key.rows) else {
            return Err(Trouble::TooManyRoutes);
        };
        self.rows = rows;
        self.statuses = lesser(alloc, &self.statuses, &key.statuses)?;
        self.lines.extend_from_slice(&key.line)?;
        Ok(DumpRead {
            report: key.report,
            expired_rows: key.expired_rows,
            note: key.source,
        })
    }
}
