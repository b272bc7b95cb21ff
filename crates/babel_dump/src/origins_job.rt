//! What `show --origins` and `diff --origins` ask for.
ghost use Rattle.std.specs.Prelude.{◌≡◌};
ghost use Rattle.std.specs.Option.{option_copied};
ghost use Rattle.babel_dump.specs.OriginText.{captures_on};

use crate::each_sender::EachSender;
use crate::filter::Filter;
use crate::job::{DiffStyle, DumpFile, other_moment_options};
use crate::run_fault::Side;

/// What the senders in captures originate, or what those on one side originate and those on the
/// other do not.
#[derive(Drop)]
pub struct Origins {
    /// How each capture on the first side is read, and the file of the first of them; and how what
    /// is found is written.
    pub left: EachSender,
    /// How each on the other side is, of `diff`.
    pub right: Option<EachSender>,
    /// The files of more captures on the first side.
    pub more_left: Vec<DumpFile>,
    /// Those on the other side.
    pub more_right: Vec<DumpFile>,
    /// Which rows count.
    pub filter: Filter,
    /// Whether metrics count: `--ignore` does not name them.
    pub has_metric: bool,
    /// How what two sides hold differently is written.
    pub style: DiffStyle,
}

impl Origins {
    /// How the captures on this side are read, if there are any.
    pub(crate) fn on(&self, side: Side) -> Option<&EachSender>
        ensures { option_copied result ≡ captures_on side self.now }
    {
        match side {
            Side::First => Some(&self.left),
            Side::Other => self.right.as_ref(),
        }
    }

    /// The files of more captures on this side than the first.
    pub(crate) fn more(&self, side: Side) -> &[DumpFile] {
        match side {
            Side::First => &self.more_left,
            Side::Other => &self.more_right,
        }
    }

    /// The file of the capture that has this place among those of both sides.
    pub(crate) fn file_at(&self, place: usize) -> Option<&DumpFile> {
        match place.checked_sub(self.more_left.len().saturating_add(1)) {
            None => nth_file(&self.left, &self.more_left, place),
            Some(place) => nth_file(self.right.as_ref()?, &self.more_right, place),
        }
    }

    /// Its name, where there are several captures on a side.
    pub(crate) fn name_at(&self, place: usize) -> Option<&str> {
        if self.more_left.is_empty() && self.more_right.is_empty() {
            return None;
        }
        Some(self.file_at(place)?.name())
    }

    /// The options that say from when and up to when packets are read of the captures on this side:
    /// of the other those of the first where these say the same.
    pub(crate) fn moment_options(&self, side: Side) -> (&'static str, &'static str) {
        match (side, &self.right) {
            (Side::Other, Some(right)) => other_moment_options(&self.left.window, &right.window),
            _ => ("--since", "--until"),
        }
    }
}

/// The file of the capture at this place on a side, of which the first is read so.
fn nth_file<'a>(first: &'a EachSender, more: &'a [DumpFile], place: usize) -> Option<&'a DumpFile> {
    match place.checked_sub(1) {
        None => Some(&first.file),
        Some(place) => more.get(place),
    }
}
