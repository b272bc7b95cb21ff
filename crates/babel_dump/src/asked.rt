//! What the program's words ask for.
use crate::byte_in::FromReader;
use crate::each_pair::EachPair;
use crate::each_sender::EachSender;
use crate::events_job::Events;
use crate::format::Format;
use crate::job::{DumpFile, Job, Work};
use crate::key_text::Named;
use crate::lone_sender::{Lone, LoneSender};
use crate::origins_job::Origins;
use crate::reading::capture_limit;
use crate::run_fault::Side;
use crate::select_job::Select;
use crate::spelling::Spelling;
use crate::trouble::Trouble;
use babel_table::Limits;
use std::alloc::Global;
use std::io::Read;

/// What is asked for: of one input, or of two.
#[derive(Drop)]
pub enum Asked {
    /// What is found of dumps, or of a capture.
    Job(Job),
    /// What is found of each sender in a capture, where there is no `--from`.
    EachSender(EachSender),
    /// What is found of the sender that alone announces in a capture, where there is no `--from`.
    Lone(Lone),
    /// What is found of the senders in two captures, of each with its fellow, where there is no
    /// `--from`.
    EachPair(EachPair),
    /// What the senders in captures originate, on one side or on two: `--origins`.
    Origins(Origins),
    /// `events`: what changed in a capture, and when.
    Events(Events),
    /// `select`: which routes a router uses, of those that its neighbours announce.
    Select(Select),
}

impl Asked {
    /// Where the input is read from, or the first of two.
    pub fn file(&self) -> &DumpFile {
        match self {
            Asked::Job(job) | Asked::Lone(Lone { job, .. }) => job.file(),
            Asked::EachSender(each) => &each.file,
            Asked::EachPair(pairs) => &pairs.left.file,
            Asked::Origins(origins) => &origins.left.file,
            Asked::Events(events) => &events.file,
            Asked::Select(select) => &select.each.file,
        }
    }

    /// Where the other dump of a comparison is read from, or the pairs of `--each`.
    pub fn other(&self) -> Option<&DumpFile> {
        match self {
            Asked::Job(job) => job.other(),
            Asked::EachSender(each) => each.pairs(),
            Asked::EachPair(pairs) => Some(&pairs.right.file),
            Asked::Origins(origins) => match &origins.right {
                Some(right) => Some(&right.file),
                None => None,
            },
            Asked::Lone(_) | Asked::Events(_) | Asked::Select(_) => None,
        }
    }

    /// Where more captures on this side are read from, of `--origins`.
    pub fn more(&self, side: Side) -> &[DumpFile] {
        match self {
            Asked::Origins(origins) => origins.more(side),
            _ => &[],
        }
    }

    /// Where the input on this side is read from.
    pub(crate) fn input(&self, side: Side) -> Option<&DumpFile> {
        match side {
            Side::First => Some(self.file()),
            Side::Other => self.other(),
        }
    }

    /// Where the capture is read from that has this place among those of both sides, of `--origins`.
    pub(crate) fn capture(&self, place: usize) -> Option<&DumpFile> {
        match self {
            Asked::Origins(origins) => origins.file_at(place),
            _ => None,
        }
    }

    /// What a line on standard error about the capture at this place begins with: its file, where
    /// there are several on a side.
    pub(crate) fn named_capture(&self, place: usize) -> Named<'_> {
        match self {
            Asked::Origins(origins) => Named(origins.name_at(place)),
            _ => self.named(),
        }
    }

    /// What a line on standard error about its input begins with: of `key`, which may have many
    /// files, the file.
    pub(crate) fn named(&self) -> Named<'_> {
        match self {
            Asked::Job(job) => job.named(),
            Asked::EachSender(each) if each.has_keys() => Named(Some(each.file.name())),
            _ => Named(None),
        }
    }

    /// Whether two dumps are compared.
    pub(crate) fn compares(&self) -> bool {
        match self {
            Asked::Job(job) => matches!(job.work, Work::Two { .. }),
            Asked::EachPair(_) => true,
            Asked::Origins(origins) => origins.right.is_some(),
            Asked::EachSender(_) | Asked::Lone(_) | Asked::Events(_) | Asked::Select(_) => false,
        }
    }

    /// Whether the sender is named, so that what is said of it does not name it again.
    pub(crate) fn names_sender(&self) -> bool {
        match self {
            Asked::Job(_) | Asked::Lone(_) => true,
            Asked::EachSender(_) | Asked::EachPair(_) | Asked::Origins(_) | Asked::Select(_) => {
                false
            }
            Asked::Events(events) => events.sender.is_some(),
        }
    }

    /// Whether `--accept-missing` would leave out a datagram of which fragments are missing: neither
    /// that nor `--strict` is given.
    pub(crate) fn could_accept_missing(&self) -> bool {
        let (accepts, is_strict) = match self {
            Asked::Job(job) | Asked::Lone(Lone { job, .. }) => match (&job.work, job.reading()) {
                (Work::Capture { reading, .. }, _) => (reading.accept_missing, reading.strict),
                (_, Some(reading)) => (reading.accept_missing, reading.strict),
                (_, None) => return false,
            },
            Asked::EachSender(each) => (each.accept_missing, each.strict),
            Asked::EachPair(pairs) => (pairs.left.accept_missing, pairs.left.strict),
            Asked::Origins(origins) => (origins.left.accept_missing, origins.left.strict),
            Asked::Events(events) => (events.accept_missing, events.strict),
            Asked::Select(select) => (select.each.accept_missing, select.strict),
        };
        !accepts && !is_strict
    }

    /// The sender that alone announces, if it was found.
    pub(crate) fn lone_sender(&self) -> Option<&LoneSender> {
        match self {
            Asked::Lone(lone) => lone.sender.as_ref(),
            _ => None,
        }
    }

    /// Whether no note comes after the output.
    pub(crate) fn is_quiet(&self) -> bool {
        match self {
            Asked::Job(job) | Asked::Lone(Lone { job, .. }) => job.quiet,
            Asked::EachSender(each) => each.quiet,
            Asked::EachPair(pairs) => pairs.left.quiet,
            Asked::Origins(origins) => origins.left.quiet,
            Asked::Events(events) => events.quiet,
            Asked::Select(select) => select.each.quiet,
        }
    }

    /// How addresses are written in the notes of the output, if it is JSON and has notes; that of
    /// `key` has none.
    pub(crate) fn json_notes(&self) -> Option<Spelling> {
        let is_key = self.named().0.is_some();
        match self.format() {
            Format::Json(style) if !self.is_quiet() && !is_key => Some(style.spelling),
            _ => None,
        }
    }

    /// Where the names are read from that stand after addresses and router-ids, if any do.
    pub fn names(&self) -> Option<&DumpFile> {
        match &self.format().style().names {
            Some(names) => Some(&names.file),
            None => None,
        }
    }

    /// Reads the names, if any are asked for.
    ///
    /// # Errors
    ///
    /// Why they are refused.
    pub fn read_names<R: Read + Drop>(&mut self, alloc: Global, reader: R) -> Result<(), Trouble> {
        let format = match self {
            Asked::Job(job) | Asked::Lone(Lone { job, .. }) => &mut job.format,
            Asked::EachSender(each) => &mut each.format,
            Asked::EachPair(pairs) => &mut pairs.left.format,
            Asked::Origins(origins) => &mut origins.left.format,
            Asked::Events(events) => &mut events.format,
            Asked::Select(select) => &mut select.each.format,
        };
        match format {
            Format::Text(style) | Format::Json(style) => match &mut style.names {
                Some(names) => {
                    let read = names.read(alloc, &mut FromReader::new(reader));
                    read.map_err(Trouble::Names)
                }
                None => Ok(()),
            },
        }
    }

    /// How what is found is written.
    fn format(&self) -> &Format {
        match self {
            Asked::Job(job) | Asked::Lone(Lone { job, .. }) => &job.format,
            Asked::EachSender(each) => &each.format,
            Asked::EachPair(pairs) => &pairs.left.format,
            Asked::Origins(origins) => &origins.left.format,
            Asked::Events(events) => &events.format,
            Asked::Select(select) => &select.each.format,
        }
    }

    /// The limits of the dumps that it reads; `None` where it reads none.
    pub(crate) fn limits(&self) -> Option<Limits> {
        match self {
            Asked::Job(job) | Asked::Lone(Lone { job, .. }) => match job.reading() {
                Some(reading) => Some(reading.limits),
                None => None,
            },
            Asked::EachSender(each) => Some(each.limits),
            Asked::EachPair(pairs) => Some(pairs.left.limits),
            Asked::Origins(origins) => Some(origins.left.limits),
            Asked::Events(events) => Some(events.limits),
            Asked::Select(select) => Some(select.each.limits),
        }
    }

    /// How many octets of a capture are read at most.
    pub(crate) fn most_octets_of_capture(&self) -> Option<u32> {
        match self {
            Asked::Job(
                Job {
                    work: Work::Capture { reading, .. },
                    ..
                },
            )
            | Asked::Lone(Lone { reading, .. }) => Some(reading.limit),
            _ => Some(capture_limit(self.limits()?.bytes())),
        }
    }
}
