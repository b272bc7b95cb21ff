ghost use Rattle.std.specs.Prelude.{◌≡◌};
ghost use Rattle.babel_selection.specs.Links.{rxcost_at};

use babel_table::Stamp;

/// What an IHU says, and when: RFC 8966, 4.6.6.
#[derive(Clone, Copy)]
pub struct IhuSaid {
    /// What receiving costs its sender; 65,535 is infinite.
    pub rxcost: u16,
    /// When it came, with its Interval.
    pub when: Stamp,
}

impl IhuSaid {
    /// The Rxcost, unless the IHU has lapsed at the moment, so many ten-millionths of its Interval
    /// after it: RFC 8966, appendix B.
    pub fn rxcost_at(&self, factor: u64, moment: u128) -> Option<u16>
        ensures { result ≡ rxcost_at factor moment self.now }
    {
        if self.when.has_expired(u128::from(factor), moment) {
            return None;
        }
        Some(self.rxcost)
    }
}

/// An IHU that was heard.
#[derive(Clone, Copy)]
pub struct IhuFrom<S> {
    /// Who sent it.
    pub router: S,
    /// Whom it names; `None` for each other one that sends there.
    pub neighbour: Option<S>,
    pub said: IhuSaid,
}
