//! What is asked for of each sender in a capture, where there is no `--from`.
ghost use Rattle.std.specs.Prelude.{◌≡◌, ◌+◌, ◌^◌, ◌<◌, ◌≤◌, ◌-◌, List, IfErr, IfNone, IfOk};
ghost use Rattle.std.specs.Prelude.{IfSome, OnOk, map};
ghost use Rattle.babel_capture.specs.Counts.{Made};
ghost use Rattle.babel_capture.specs.Gathering.{name_of};
ghost use Rattle.babel_dump.specs.Device.{HasRoomToCount};
ghost use Rattle.babel_dump.specs.Fed.{AreWhole};
ghost use Rattle.babel_dump.specs.Given.{reads};
ghost use Rattle.babel_dump.specs.Packets.{packets_made};
ghost use Rattle.babel_dump.specs.Parts.{FoundTooMany, Gathered};
ghost use Rattle.babel_dump.specs.Run.{capture_calls};
ghost use Rattle.babel_dump.specs.EachSender.{GaveSenders, IsFedOwn, IsLedBy, IsSenderText};
ghost use Rattle.babel_dump.specs.EachSender.{AsksPairs, IsToldOf, NoSenderText, SenderFinds};
ghost use Rattle.babel_dump.specs.EachSender.{SenderFindsTooMany, SendersCause, capture_read_by};
ghost use Rattle.babel_dump.specs.EachSender.{each_from};
ghost use Rattle.babel_dump.specs.EachSender.{first_missed, is_asked, own_packets, read_by};
ghost use Rattle.babel_dump.specs.InFormat.{each_in};
ghost use Rattle.babel_dump.specs.RunText.{pair_status};
ghost use Rattle.babel_dump.specs.Tasks.{TaskFindsTooMany};
ghost use Rattle.babel_dump.specs.ToldSenders.{first_statuses};
ghost use Rattle.babel_dump.specs.declared.each_sender.SenderTask.TheVariants as sender_tasks;

use crate::addr_pair::AddrPair;
use crate::any_source::any_source;
use crate::byte_in::ByteIn;
use crate::capture_input::{CaptureRead, read_capture};
use crate::capture_reading::CaptureReading;
use crate::collected::text_of;
use crate::each::{found_answers, read_pairs};
use crate::factor::Factor;
use crate::format::Format;
use crate::input_fault::InputFault;
use crate::job::{DumpFile, Task};
use crate::key::{TableText, make_key};
use crate::key_name::origin_output;
use crate::led::{lead_output, push_led};
use crate::left_out::first_unmissed;
use crate::note::Note;
use crate::own_table::{OwnTable, read_own};
use crate::reading::{Reading, capture_limit};
use crate::run_fault::RunFault;
use crate::sender_tables::{SenderTable, SenderTables};
use crate::statuses::one_status;
use crate::tasks::found_of;
use babel_capture::{Gathered as GatheredPackets, Origin, Place, Wanted, Window};
use babel_prefix::Family;
use babel_table::{Limits, Table};
use babel_tlv::{Fault, Mode};
use std::alloc::{AllocError, Global};
use std::collections::BTreeMap;

/// What is asked for of each sender in a capture.
#[derive(Drop)]
pub struct EachSender {
    /// How many octets are read at most, and how many rows the senders' tables have at most in all:
    /// `--max-octets`, `--max-routes`.
    pub limits: Limits,
    /// Whether retracted keys stay as unreachable rows: `--hold`.
    pub mode: Mode,
    /// The place whose senders alone are asked for: `--interface`.
    pub place: Option<Place>,
    /// Which packets are read, by when they came: `--since`, `--until`.
    pub window: Window,
    /// After how many times its Interval a row is gone: `--expiry`. None is where it is left out.
    pub expiry: Option<Factor>,
    /// Whether a capture that is cut short is read to its last whole record: `--accept-cut`.
    pub accept_cut: bool,
    /// Whether a datagram of which fragments are missing is left out: `--accept-missing`.
    pub accept_missing: bool,
    /// Whether the capture is refused if a datagram was left out of it that is not missed, and a
    /// dump if a TLV of it is ignored, or it has no Update: `--strict`.
    pub strict: bool,
    /// What is told of each.
    pub task: SenderTask,
    /// The pairs that are looked up in each, once they are read.
    pub asked: Vec<AddrPair>,
    pub file: DumpFile,
    pub format: Format,
    pub quiet: bool,
}

/// What is told of each sender in a capture.
#[derive(Drop)]
pub enum SenderTask {
    /// What this finds of its dump.
    Dump(Task),
    /// `lookup --each`: what it answers for each of the pairs that a file asks for.
    Each {
        /// Where the pairs are read from: PAIRS.
        pairs: DumpFile,
        /// Whether the rows that answer are written: `--with-prefix`.
        with_prefix: bool,
    },
}

/// What was read of a capture, and the table of each sender that is asked for.
#[derive(Drop)]
pub struct SendersRead {
    pub read: CaptureRead,
    pub tables: BTreeMap<Origin, SenderTable>,
}

impl EachSender {
    /// How the dump of a sender at its place is read, whose keys are found by this seed.
    pub(crate) fn reading(&self, origin: Origin, seed: u128) -> Reading
        ensures { result ≡ read_by self.now origin seed }
    {
        Reading {
            limits: self.limits,
            mode: self.mode,
            sender: origin.sender,
            is_capture: true,
            seed,
            place: Some(origin.place),
            window: self.window,
            time_option: None,
            expiry: self.expiry,
            accept_cut: self.accept_cut,
            accept_missing: self.accept_missing,
            strict: self.strict,
        }
    }

    /// How the capture is read. Of what lacks something each sender is refused by itself.
    pub(crate) fn capture_reading(&self) -> CaptureReading
        ensures { result ≡ capture_read_by self.now }
    {
        CaptureReading {
            limit: capture_limit(self.limits.bytes()),
            window: self.window,
            accept_cut: self.accept_cut,
            accept_missing: self.accept_missing,
            strict: false,
        }
    }

    /// Where the pairs that are looked up are read from, if any are.
    pub(crate) fn pairs(&self) -> Option<&DumpFile> {
        match &self.task {
            SenderTask::Dump(_) => None,
            SenderTask::Each { pairs, .. } => Some(pairs),
        }
    }

    /// Whether each sender's key is told.
    pub(crate) fn has_keys(&self) -> bool {
        matches!(self.task, SenderTask::Dump(Task::Key { .. }))
    }

    /// Reads the pairs that are looked up, if any are.
    pub(crate) fn ask<S: ByteIn>(&mut self, alloc: Global, pairs: &mut S) -> Result<(), RunFault>
        requires { HasRoomToCount (S.state pairs.old) }
        ensures { OnOk result
            (AsksPairs self.old (reads (S.state pairs.old) (S.state pairs.new)) self.new) }
    {
        if let SenderTask::Each { .. } = self.task {
            let reading = Reading::of(self.limits, self.mode, any_source(Family::V4));
            self.asked = read_pairs(alloc, reading, pairs)?;
        }
        Ok(())
    }

    /// A status of each thing that is asked, before any sender is told.
    pub(crate) fn first_statuses(&self, alloc: Global) -> Result<Vec<u8>, AllocError>
        ensures { IfOk result (λ statuses. statuses.items
            ≡ first_statuses self.now.task self.now.asked.items) }
    {
        match self.task {
            SenderTask::Dump(_) => one_status(alloc, 1),
            SenderTask::Each { .. } => self.asked.iter().map(|_| 1).collect(alloc),
        }
    }

    /// Whether this sender at its place is asked for.
    pub(crate) fn asks_for(&self, origin: &Origin) -> bool
        ensures { result ≡ is_asked self.now.place origin.now }
    {
        match self.place {
            None => true,
            Some(place) => origin.place == place,
        }
    }

    /// Reads a capture to its end, or to its first fault, for the table of each sender. The seed is
    /// that by which keys are found in them.
    pub fn gather<R: ByteIn>(
        &self,
        alloc: Global,
        seed: u128,
        reader: &mut R,
    ) -> Result<SendersRead, InputFault>
        requires { HasRoomToCount (R.state reader.old) }
        ensures { let input = each_from self.now (R.state reader.old) (R.state reader.new) in
            Gathered (capture_calls input) (SendersCause self.now input)
            (GaveSenders self.now input) result }
    {
        let mut senders = SenderTables::new(alloc, self, seed);
        let how = self.capture_reading();
        let wanted = Wanted {
            accepts_missing: how.accept_missing,
            ..Wanted::everyone()
        };
        let read = read_capture(alloc, how, wanted, reader, &mut senders);
        if senders.has_failed {
            return Err(InputFault::from(AllocError));
        }
        let read = read?;
        match first_unmissed(&read.gathered.report(), self.accept_missing) {
            Some(datagram) if self.strict => Err(InputFault::LeftOut(datagram)),
            _ => Ok(SendersRead {
                read,
                tables: senders.tables,
            }),
        }
    }

    /// The greatest Interval of the Updates that announce, of the senders that are asked for.
    pub fn interval(&self, gathered: &GatheredPackets) -> Option<u16> {
        let mut greatest = None;
        for (origin, tally) in gathered.senders() {
            if self.asks_for(origin) {
                greatest = greatest.max(tally.interval);
            }
        }
        greatest
    }

    /// What is told of a sender at its place, of whose packets this is the table, in the capture of
    /// which this was read.
    ///
    /// # Errors
    ///
    /// `LeftOut` with the first datagram of this sender that is not all there; or why the dump is
    /// refused.
    pub fn sender_text(
        &self,
        alloc: Global,
        read: &CaptureRead,
        origin: Origin,
        table: SenderTable,
    ) -> Result<TableText, InputFault>
        ensures ok { IfOk result (λ key. (made : List Made) → AreWhole (packets_made made)
            → IsFedOwn self.now origin (own_packets origin made) (first_missed origin made) table
            → IsSenderText self.now made read.now.moment origin
            (name_of read.now.gathered origin.place.interface) key) }
        ensures err { IfErr result (λ fault. (made : List Made) → AreWhole (packets_made made)
            → IsFedOwn self.now origin (own_packets origin made) (first_missed origin made) table
            → NoSenderText self.now made read.now.moment origin fault) }
    {
        let OwnTable {
            table,
            expired_rows,
        } = read_own(self, read.moment, table)?;
        let reading = Reading::of(self.limits, self.mode, origin.sender);
        let name = read.gathered.name(origin.place.interface);
        let key = self.told_of(alloc, reading, origin, name, table)?;
        Ok(key.with_expired_rows(expired_rows))
    }

    /// What is told of the table of a sender at its place, whose interface has this name.
    fn told_of(
        &self,
        alloc: Global,
        reading: Reading,
        origin: Origin,
        name: &[u8],
        table: Table,
    ) -> Result<TableText, Fault>
        ensures ok { IfOk result
            (λ key. IsToldOf self.now.task self.now reading origin name.now key table) }
        ensures err { IfErr result
            (FoundTooMany (SenderFindsTooMany self.now.task reading.limits table)) }
    {
        match &self.task {
            SenderTask::Dump(task) => self.told_by(alloc, reading, *task, origin, name, table),
            SenderTask::Each { .. } => self.led_of(alloc, reading, origin, name, table),
        }
    }

    /// What its task over a dump tells of it.
    fn told_by(
        &self,
        alloc: Global,
        reading: Reading,
        task: Task,
        origin: Origin,
        name: &[u8],
        table: Table,
    ) -> Result<TableText, Fault>
        requires { self.now.task ≡ sender_tasks.Dump task }
        ensures ok { IfOk result
            (λ key. IsToldOf (sender_tasks.Dump task) self.now reading origin name.now key table) }
        ensures err { IfErr result (FoundTooMany (TaskFindsTooMany task reading.limits table)) }
    {
        match task {
            Task::Key { form, view } => {
                let (format, file) = (&self.format, self.file.name());
                let named = origin_output(alloc, format, file, origin, name)?;
                make_key(alloc, reading, form, view, format, &named, table)
            }
            _ => self.led_of(alloc, reading, origin, name, table),
        }
    }

    /// What is found of the table, each line led by the sender.
    fn led_of(
        &self,
        alloc: Global,
        reading: Reading,
        origin: Origin,
        name: &[u8],
        table: Table,
    ) -> Result<TableText, Fault>
        ensures ok { IfOk result (λ key. IsLedBy self.now reading origin name.now key table) }
        ensures err { IfErr result
            (FoundTooMany (SenderFindsTooMany self.now.task reading.limits table)) }
    {
        let (report, rows) = (*table.report(), table.rows().len());
        let (text, statuses, source) = self.found(alloc, reading, table)?;
        let lead = lead_output(alloc, &self.format, origin, name)?;
        let mut line = Vec::new(alloc);
        push_led(&mut line, &self.format, &lead, &text)?;
        Ok(TableText {
            line,
            report,
            statuses,
            rows,
            expired_rows: 0,
            source,
        })
    }

    /// What is found of the table: its text, and the status of each thing that is asked.
    fn found(
        &self,
        alloc: Global,
        reading: Reading,
        table: Table,
    ) -> Result<(Vec<u8>, Vec<u8>, Option<Note>), Fault>
        ensures ok { IfOk result (λ found.
            SenderFinds self.now.task self.now reading table found.0.items found.1.items) }
        ensures err { IfErr result
            (FoundTooMany (SenderFindsTooMany self.now.task reading.limits table)) }
    {
        match &self.task {
            SenderTask::Dump(task) => self.found_by(alloc, reading, *task, table),
            SenderTask::Each { with_prefix, .. } => {
                let (text, statuses) = self.found_answers(alloc, *with_prefix, table)?;
                Ok((text, statuses, None))
            }
        }
    }

    /// What a task finds of it.
    fn found_by(
        &self,
        alloc: Global,
        reading: Reading,
        task: Task,
        table: Table,
    ) -> Result<(Vec<u8>, Vec<u8>, Option<Note>), Fault>
        ensures ok { IfOk result (λ found. SenderFinds (sender_tasks.Dump task) self.now reading
            table found.0.items found.1.items) }
        ensures err { IfErr result
            (FoundTooMany (TaskFindsTooMany task reading.limits table)) }
    {
        let (format, quiet) = (&self.format, self.quiet);
        let found = found_of(alloc, reading, &self.file, task, format, quiet, table)?;
        let statuses = one_status(alloc, found.outcome.status)?;
        let source = found.outcome.source_note(format.spelling());
        Ok((text_of(alloc, format, found)?, statuses, source))
    }

    /// What it answers for each of the pairs.
    fn found_answers(
        &self,
        alloc: Global,
        with_prefix: bool,
        table: Table,
    ) -> Result<(Vec<u8>, Vec<u8>), AllocError>
        ensures text { IfOk result (λ found.
            found.0.items ≡ each_in self.now.format with_prefix table self.now.asked.items) }
        ensures statuses { IfOk result (λ found.
            found.1.items ≡ map (pair_status table) self.now.asked.items) }
    {
        let mut asked = Vec::with_capacity(alloc, self.asked.len())?;
        asked.extend_from_slice(&self.asked)?;
        let (found, statuses) = found_answers(alloc, with_prefix, asked, table)?;
        Ok((text_of(alloc, &self.format, found)?, statuses))
    }

    /// How many rows tables have in all, where some have so many, and one more so many; `None` if
    /// that is more than `--max-routes`.
    pub fn rows_with(&self, before: u32, rows: usize) -> Option<u32>
        ensures some { IfSome result
            (λ all. (all ≡ before + rows) × (all ≤ self.now.limits.entries)) }
        ensures none { IfNone result (self.now.limits.entries < before + rows) }
    {
        let left = self.limits.entries().checked_sub(before)?;
        if rows > left as usize {
            return None;
        }
        Some(before + rows as u32)
    }
}
