ghost use Rattle.std.specs.Prelude.{◌≡◌, ◌+◌, ◌≤◌, IfSome};
ghost use Rattle.babel_prefix.specs.Short.{gap_in};
ghost use Rattle.babel_prefix.specs.Text.{groups_from};

use crate::text::group;

/// Fewer zero groups are never shortened (RFC 5952, 4.2.2).
const LEAST: u8 = 2;

/// What `::` stands for in the short text of an IPv6 address: its longest run of two or more zero
/// groups, and of several the first (RFC 5952, 4.2).
#[derive(Clone, Copy)]
pub struct Gap {
    /// The number of groups before the run.
    pub start: u8,
    /// The number of groups of the run.
    pub len: u8,
}

impl Gap {
    /// The gap of the eight groups of a number; `None` if no two zero groups are side by side.
    pub(crate) fn of(bits: u128) -> Option<Gap>
        ensures value { result ≡ gap_in (groups_from 8 bits) }
        ensures two { IfSome result (λ gap. 2 ≤ gap.len) }
        ensures within { IfSome result (λ gap. gap.start + gap.len ≤ 8) }
    {
        let mut run = 0;
        let mut len = 0;
        let mut after = 0;
        for place in 0..8 {
            run = if group(bits, place) == 0 { run + 1 } else { 0 };
            if run >= len {
                len = run;
                after = place + 1 - run;
            }
        }
        if len < LEAST {
            return None;
        }
        let start = 8 - after - len;
        Some(Gap { start, len })
    }
}
