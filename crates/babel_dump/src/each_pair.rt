//! What is asked for of the senders in two captures, where there is no `--from`.
ghost use Rattle.std.specs.Prelude.{◌≡◌, IfOk};
ghost use Rattle.babel_dump.specs.Command.{Tells};
ghost use Rattle.babel_dump.specs.EachPair.{IsAloneText, IsPairText, alone_in, told_in};
ghost use Rattle.babel_dump.specs.Led.{lead_in};
ghost use Rattle.babel_dump.specs.Parts.{Says};
ghost use Rattle.babel_dump.specs.SlicedRows.{found_text};

use crate::alone::{found_all_rows, found_only};
use crate::both::SeenTables;
use crate::collected::text_of;
use crate::each_sender::EachSender;
use crate::format::Format;
use crate::job::{Comparison, other_moment_options};
use crate::led::{lead_output, push_led};
use crate::note::Note;
use crate::run_fault::{RunFault, Side};
use crate::slices::Found;
use crate::tasks::found_of_both;
use babel_capture::Origin;
use babel_table::Table;
use babel_tlv::View;
use std::alloc::{AllocError, Global};

/// What is asked for of each sender in one of two captures and its fellow in the other.
#[derive(Drop)]
pub struct EachPair {
    /// How the first capture is read, for the table of each of its senders; and how what is found
    /// is written.
    pub left: EachSender,
    /// How the other is.
    pub right: EachSender,
    /// Which fields of what is announced count: those that `--ignore` does not name.
    pub view: View,
    /// What is told of each pair.
    pub task: Comparison,
}

/// What is told of a pair.
#[derive(Drop)]
pub(crate) struct PairText {
    pub lines: Vec<u8>,
    pub status: u8,
    /// How many routes differ where their answers are the same, if any.
    pub routes: Option<Note>,
}

impl EachPair {
    /// The options that say from when and up to when packets are read of the capture on this side:
    /// of the other those of the first where these say the same.
    pub(crate) fn moment_options(&self, side: Side) -> (&'static str, &'static str) {
        match side {
            Side::First => ("--since", "--until"),
            Side::Other => other_moment_options(&self.left.window, &self.right.window),
        }
    }

    /// What the comparison finds of the tables of a sender and its fellow. The interface of the
    /// first has this name.
    pub(crate) fn text_of_both(
        &self,
        alloc: Global,
        left: Origin,
        right: Origin,
        name: &[u8],
        table: Table,
        other: Table,
    ) -> Result<PairText, RunFault>
        ensures { IfOk result (λ text.
            IsPairText self.now left right name.now table other text.lines.items text.status) }
    {
        let seen = SeenTables {
            left: table.seen(self.view),
            right: other.seen(self.view),
        };
        let (one, two) = (self.left.reading(left, 0), self.right.reading(right, 0));
        let (file, other_file) = (self.left.file.name(), self.right.file.name());
        let (view, task, format) = (self.view, self.task, &self.left.format);
        let found = found_of_both(alloc, one, two, view, task, format, file, other_file, seen)?;
        Ok(self.told(alloc, left, name, found)?)
    }

    /// What is told of a sender that only the capture on this side has, and whose interface has
    /// this name.
    pub(crate) fn text_alone(
        &self,
        alloc: Global,
        side: Side,
        origin: &Origin,
        name: &[u8],
        table: Table,
    ) -> Result<PairText, AllocError>
        ensures { IfOk result (λ text.
            IsAloneText self.now side origin.now name.now table text.lines.items text.status) }
    {
        let seen = table.seen(self.view);
        let found = self.found_alone(alloc, side, origin, &seen)?;
        drop(seen);
        self.told(alloc, *origin, name, found)
    }

    /// What the comparison finds of a table that has no fellow, as the view shows it.
    fn found_alone(
        &self,
        alloc: Global,
        side: Side,
        origin: &Origin,
        table: &Table,
    ) -> Result<Found, AllocError>
        ensures { IfOk result (Says self.now.left.format (Tells table.now.report
            (alone_in self.now side origin.now table.now.rows) 1)) }
    {
        let format = &self.left.format;
        let style = match self.task {
            Comparison::Compare { .. } => return found_only(alloc, format, side, table),
            Comparison::Diff(style) => style,
        };
        let one = self.left.reading(*origin, 0);
        let two = self.right.reading(*origin, 0);
        let (file, other_file) = (self.left.file.name(), self.right.file.name());
        let view = self.view;
        found_all_rows(
            alloc, one, two, view, style, format, file, other_file, side, table,
        )
    }

    /// What was found, each line led by the sender; but the lines of `diff` as people read them,
    /// whose heads name it.
    fn told(
        &self,
        alloc: Global,
        origin: Origin,
        name: &[u8],
        found: Found,
    ) -> Result<PairText, AllocError>
        ensures text { IfOk result (λ text. text.lines.items ≡ told_in self.now.task
            self.now.left.format (lead_in self.now.left.format origin name.now)
            (found_text self.now.left.format found)) }
        ensures status { IfOk result (λ text. text.status ≡ found.outcome.status) }
    {
        let (format, status) = (&self.left.format, found.outcome.status);
        let routes = found.outcome.routes_note();
        let text = text_of(alloc, format, found)?;
        if let (Comparison::Diff(_), Format::Text(_)) = (self.task, format) {
            return Ok(PairText {
                lines: text,
                status,
                routes,
            });
        }
        let lead = lead_output(alloc, format, origin, name)?;
        let mut lines = Vec::new(alloc);
        push_led(&mut lines, format, &lead, &text)?;
        Ok(PairText {
            lines,
            status,
            routes,
        })
    }
}
