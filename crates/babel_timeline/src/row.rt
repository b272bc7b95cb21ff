ghost use Rattle.std.specs.Prelude.{◌≡◌};
ghost use Rattle.babel_timeline.specs.Rows.{end_of};

use babel_table::Stamp;
use babel_tlv::Ann;

/// What is held for a subject.
#[derive(Clone, Copy)]
pub struct Row {
    /// What was announced last.
    pub ann: Ann,
    /// When it was announced last.
    pub when: Stamp,
}

impl Row {
    /// When it ends, so many ten-millionths of its Interval later, or never without a factor.
    pub(crate) fn end(&self, factor: Option<u64>) -> Option<u128>
        ensures { result ≡ end_of factor self.now.when }
    {
        self.when.end(u128::from(factor?))
    }
}
