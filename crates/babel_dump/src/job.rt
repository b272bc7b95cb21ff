ghost use Rattle.std.specs.Prelude.{◌≡◌, IfErr, None, OnOk, Some};
ghost use Rattle.std.specs.Option.{option_copied};
ghost use Rattle.babel_dump.specs.Files.{first_file, name_of, other_file, reading_of};
ghost use Rattle.babel_dump.specs.Misplaced.{begun_work, misplaced_by, misplaced_in};
ghost use Rattle.babel_dump.specs.Misplaced.{source_begun, work_begun};
ghost use Rattle.babel_dump.specs.LoneSender.{source_with, task_with, with_sender};
ghost use Rattle.babel_dump.specs.declared.run_fault.Side.TheVariants as sides;

use crate::addr_pair::AddrPair;
use crate::begun::Begins;
use crate::capture_reading::CaptureReading;
use crate::factor::Factor;
use crate::filter::Filter;
use crate::format::Format;
use crate::key_text::Named;
use crate::misplaced::misplaced;
use crate::moment_words::moments_of;
use crate::reading::Reading;
use crate::run_fault::Side;
use babel_canon::Body;
use babel_capture::{Origin, Place, Window};
use babel_prefix::Addr;
use babel_tlv::View;
use std::alloc::AllocError;

/// What the program's words ask for.
#[derive(Drop)]
pub struct Job {
    pub work: Work,
    /// How what is found is written; text where the command has no `--json`.
    pub format: Format,
    /// Whether no note comes after the output, and of `show` no line after the rows: `--quiet`.
    pub quiet: bool,
}

/// What is read, and what is found of it.
#[derive(Drop)]
pub enum Work {
    /// One dump is read.
    Dump {
        source: DumpSource,
        task: Task,
    },
    /// `lookup --each`: what a dump answers for each of the pairs that a file asks for.
    Each {
        source: DumpSource,
        /// Where the pairs are read from: PAIRS.
        pairs: DumpFile,
        /// Whether the rows that answer are written: `--with-prefix`.
        with_prefix: bool,
    },
    /// Two dumps are read.
    Two {
        first: DumpSource,
        other: DumpSource,
        /// Which fields of what is announced count: those that `--ignore` does not name.
        view: View,
        task: Comparison,
    },
    /// A capture is read, and not for the dump of a sender in it.
    Capture {
        reading: CaptureReading,
        file: DumpFile,
        task: CaptureTask,
    },
}

/// Where a dump, or a capture that has it, is read from, and how.
#[derive(Drop)]
pub struct DumpSource {
    pub reading: Reading,
    pub file: DumpFile,
}

/// What is found of a dump.
#[derive(Clone, Copy)]
pub enum Task {
    /// `show`: the rows of its table and its report.
    Show {
        /// Which rows are shown, or summed up.
        filter: Filter,
        /// Whether only how many rows there are is shown: `--summary`.
        summary: bool,
    },
    /// `lookup`: what it answers for two addresses.
    Lookup {
        pair: AddrPair,
        /// Whether the row that answers is written: `--with-prefix`.
        with_prefix: bool,
    },
    /// `lookup` without `--src`: what it answers for a destination, from 0.0.0.0 or ::.
    AnySource {
        dst: Addr,
        with_prefix: bool,
    },
    /// `normalise`: its canonical octets, or its route octets.
    Normalise {
        form: Form,
        view: View,
        /// How many octets the body of a canonical packet has at most: `--body`.
        body: Body,
        /// Whether the octets are written as hexadecimal digits: `--hex`.
        hex: bool,
    },
    /// `key`: the digest of these octets.
    Key {
        form: Form,
        view: View,
    },
    /// `pairs`: its canonical pairs, or its rows.
    Pairs {
        form: Form,
        view: View,
        /// Which pairs or rows are listed, or counted.
        filter: Filter,
        /// Whether they are only counted: `--count`.
        count: bool,
    },
}

/// What of dumps counts.
#[derive(Clone, Copy)]
pub enum Form {
    /// What they answer, in whichever rows.
    Answers,
    /// Their rows: `--routes`.
    Routes,
}

/// What is found of two dumps.
#[derive(Clone, Copy)]
pub enum Comparison {
    /// `compare`: where their answers, or their rows, differ.
    Compare { form: Form, listed: Listed },
    /// `diff`: the rows that they hold differently.
    Diff(DiffStyle),
}

/// What is written of differences.
#[derive(Clone, Copy)]
pub enum Listed {
    /// The first of them.
    First,
    /// Each of them: `--all`.
    All,
    /// How many there are: `--count`.
    Count,
}

/// What is found of a capture.
#[derive(Clone, Copy)]
pub enum CaptureTask {
    /// `senders`: who sent Babel packets.
    Senders,
    /// `extract`: the dump of one sender.
    Extract {
        /// The sender: `--from`.
        sender: Addr,
        /// Where its packets were captured: `--interface`. Where it is left out, there may be only
        /// one place.
        place: Option<Place>,
        /// Whether the dump is written as hexadecimal digits: `--hex`.
        hex: bool,
    },
    /// `links`: what routers say of the links to their neighbours.
    Links {
        /// Where these links were captured: `--interface`. Where it is left out, at each place.
        place: Option<Place>,
        /// After how many times its Interval an IHU has lapsed: `--expiry`.
        expiry: Factor,
    },
}

impl CaptureTask {
    /// Has what it writes be of this sender at its place.
    fn send(&mut self, origin: Origin)
        ensures { self.new ≡ task_with origin self.old }
    {
        if let CaptureTask::Extract { sender, place, .. } = self {
            *sender = origin.sender;
            *place = Some(origin.place);
        }
    }
}

/// How what `diff` writes looks.
#[derive(Clone, Copy)]
pub struct DiffStyle {
    /// Whether a last line says how many rows are gone, new, changed, and alike: `--stat`.
    pub stat: bool,
    /// Whether rows of its text are in colour: `--color`.
    pub coloured: bool,
}

/// Where a dump, a capture, or the pairs of `--each`, are read from.
#[derive(Drop)]
pub enum DumpFile {
    /// Standard input: `-`, or a name that is left out.
    StandardInput,
    /// The file of this name.
    Named(String),
}

impl DumpFile {
    /// The name of the file; `-` of standard input.
    pub fn name(&self) -> &str
        ensures { result.now ≡ name_of self.now }
    {
        match self {
            DumpFile::StandardInput => "-",
            DumpFile::Named(name) => name.as_str(),
        }
    }
}

impl Job {
    /// Where the input is read from, or the first of two.
    pub fn file(&self) -> &DumpFile
        ensures { result.now ≡ first_file self.now }
    {
        match &self.work {
            Work::Dump { source, .. } | Work::Each { source, .. } => &source.file,
            Work::Two { first, .. } => &first.file,
            Work::Capture { file, .. } => file,
        }
    }

    /// What a line on standard error about its input begins with: of `key`, which may have many
    /// files, the file.
    pub(crate) fn named(&self) -> Named<'_> {
        match &self.work {
            Work::Dump {
                source,
                task: Task::Key { .. },
            } => Named(Some(source.file.name())),
            _ => Named(None),
        }
    }

    /// Where the other dump of a comparison is read from, or the pairs of `--each`.
    pub fn other(&self) -> Option<&DumpFile>
        ensures { option_copied result ≡ other_file self.now }
    {
        match &self.work {
            Work::Two { other, .. } => Some(&other.file),
            Work::Each { pairs, .. } => Some(pairs),
            Work::Dump { .. } | Work::Capture { .. } => None,
        }
    }

    /// How its dump is read, or the first of two; `None` where it reads captures alone.
    pub fn reading(&self) -> Option<Reading>
        ensures { result ≡ reading_of sides.First self.now.work }
    {
        match &self.work {
            Work::Dump { source, .. } | Work::Each { source, .. } => Some(source.reading),
            Work::Two { first, .. } => Some(first.reading),
            Work::Capture { .. } => None,
        }
    }

    /// How the other dump of a comparison is read.
    pub fn other_reading(&self) -> Option<Reading>
        ensures { result ≡ reading_of sides.Other self.now.work }
    {
        match &self.work {
            Work::Two { other, .. } => Some(other.reading),
            _ => None,
        }
    }

    /// The option that is for captures alone and was given for a dump, by whether FILE and OTHER
    /// are captures.
    fn misplaced(&self, is_capture: bool, other_is_capture: bool) -> Option<&'static str>
        ensures { option_copied result ≡ misplaced_in self.now.work is_capture other_is_capture }
    {
        match &self.work {
            Work::Dump { source, .. } | Work::Each { source, .. } => {
                misplaced(&source.reading, None, is_capture, other_is_capture)
            }
            Work::Two { first, other, .. } => misplaced(
                &first.reading,
                Some(&other.reading),
                is_capture,
                other_is_capture,
            ),
            Work::Capture { .. } => None,
        }
    }

    /// Sees what the first octets of its inputs are, of FILE and of OTHER: which dumps are read of
    /// captures that have them. Their keys are found by this seed.
    ///
    /// # Errors
    ///
    /// The option that is for captures alone and was given for a dump. None is told where a read
    /// failed, which the run then tells.
    pub fn begin(&mut self, first: Begins, other: Begins, seed: u128) -> Result<(), &'static str>
        ensures ok { OnOk result (self.new.work ≡ begun_work first other seed self.old.work) }
        ensures same { (self.new.format ≡ self.old.format) × (self.new.quiet ≡ self.old.quiet) }
        ensures none { OnOk result (misplaced_by first other self.old.work ≡ None) }
        ensures err { IfErr result
            (λ option. misplaced_by first other self.old.work ≡ Some option.now) }
    {
        if first != Begins::Failed && other != Begins::Failed {
            let are = (first != Begins::Dump, other != Begins::Dump);
            if let Some(option) = self.misplaced(are.0, are.1) {
                return Err(option);
            }
        }
        let are_captures = (first == Begins::Capture, other == Begins::Capture);
        self.work.begin(are_captures, seed);
        Ok(())
    }

    /// The options that say from when and up to when packets are read of the input on this side: of
    /// the other those of the first where these say the same.
    pub(crate) fn moment_options(&self, side: Side) -> (&'static str, &'static str) {
        match (&self.work, side) {
            (Work::Two { first, other, .. }, Side::Other) => {
                other_moment_options(&first.reading.window, &other.reading.window)
            }
            _ => ("--since", "--until"),
        }
    }

    /// Whether its output says which TLVs were ignored, as that of `show` does.
    pub(crate) fn reports_ignored(&self) -> bool {
        match self.work {
            Work::Dump { task, .. } => matches!(task, Task::Show { .. }),
            _ => false,
        }
    }

    /// Whether it tells of links, as `links` does: of no routes, and so of no Interval of Updates.
    pub(crate) fn tells_links(&self) -> bool {
        match self.work {
            Work::Capture { task, .. } => matches!(task, CaptureTask::Links { .. }),
            _ => false,
        }
    }

    /// Whether its notes say how many datagrams are too short, as those of `senders` do.
    pub(crate) fn counts_short(&self) -> bool {
        match self.work {
            Work::Capture { task, .. } => matches!(task, CaptureTask::Senders),
            _ => false,
        }
    }
}

impl Work {
    /// Has its dumps be read of captures, or not, with keys found by this seed.
    fn begin(&mut self, are_captures: (bool, bool), seed: u128)
        ensures { self.new ≡ work_begun are_captures.0 are_captures.1 seed self.old }
    {
        match self {
            Work::Dump { source, .. } => source.begin(are_captures.0, seed),
            Work::Each { source, .. } => source.begin(are_captures.0, seed),
            Work::Two { first, other, .. } => {
                first.begin(are_captures.0, seed);
                other.begin(are_captures.1, seed);
            }
            Work::Capture { .. } => {}
        }
    }
}

impl Work {
    /// Has the one dump that it reads, or writes, be that of this sender at its place.
    pub(crate) fn send(&mut self, origin: Origin)
        ensures { self.new ≡ with_sender origin self.old }
    {
        match self {
            Work::Dump { source, .. } => source.send(origin),
            Work::Capture { task, .. } => task.send(origin),
            Work::Each { .. } | Work::Two { .. } => {}
        }
    }

    /// How its input is read, or the first of two, where that is a capture.
    pub(crate) fn capture_reading(&self) -> CaptureReading {
        match self {
            Work::Dump { source, .. } | Work::Each { source, .. } => source.reading.of_capture(),
            Work::Two { first, .. } => first.reading.of_capture(),
            Work::Capture { reading, .. } => *reading,
        }
    }
}

impl DumpSource {
    /// Has it be that of this sender at its place.
    fn send(&mut self, origin: Origin)
        ensures { self.new ≡ source_with origin self.old }
    {
        self.reading.sender = origin.sender;
        self.reading.place = Some(origin.place);
    }

    /// Has it be read of a capture, or not, with keys found by this seed.
    fn begin(&mut self, is_capture: bool, seed: u128)
        ensures { self.new ≡ source_begun is_capture seed self.old }
    {
        self.reading.is_capture = is_capture;
        self.reading.seed = seed;
    }
}

/// Why the program's words give no job, with the text to print, which ends its last line.
#[derive(Drop)]
pub enum Refusal {
    /// The words are wrong: for standard error, status 2.
    Usage(String),
    /// As `Usage`: the first word is no command. It may be a file.
    NoCommand { text: String, word: String },
    /// As `Usage`: this word is taken for an option, and the command has none such. It may be a
    /// file.
    NoOption { text: String, word: String },
    /// The words ask for help: for standard output, status 0.
    Help(String),
    /// An allocation was refused: `out of memory` on standard error, status 5.
    Memory,
}

impl From<AllocError> for Refusal {
    fn from(_error: AllocError) -> Refusal {
        Refusal::Memory
    }
}

/// The options that say from when and up to when packets are read of the other of two inputs.
pub(crate) fn other_moment_options(first: &Window, other: &Window) -> (&'static str, &'static str) {
    let (since, until) = moments_of(first);
    let (other_since, other_until) = moments_of(other);
    (
        if other_since == since {
            "--since"
        } else {
            "--other-since"
        },
        if other_until == until {
            "--until"
        } else {
            "--other-until"
        },
    )
}
