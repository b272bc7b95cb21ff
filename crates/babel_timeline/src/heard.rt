ghost use Rattle.std.specs.Prelude.{◌≡◌};
ghost use Rattle.babel_timeline.specs.Hearing.{nothing_heard};

use babel_table::Report;

/// What was heard of a sender.
#[derive(Clone, Copy)]
pub(crate) struct Heard {
    /// How many octets its packets have.
    pub(crate) octets: u64,
    /// How many TLVs they have, and which were ignored.
    pub(crate) report: Report,
}

impl Heard {
    /// Nothing was heard.
    pub(crate) fn nothing() -> Heard
        ensures { result ≡ nothing_heard }
    {
        Heard {
            octets: 0,
            report: Report::new(),
        }
    }
}
