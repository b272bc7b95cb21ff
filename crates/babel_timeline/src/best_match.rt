ghost use Rattle.std.specs.Prelude.{◌≡◌, ◌↔◌, IsTrue};

use babel_tlv::{Ann, Key};

/// The best match for two addresses: RFC 9079, 4.
#[derive(Clone, Copy, PartialEq, Eq)]
pub struct BestMatch {
    /// What the route is for.
    pub key: Key,
    /// What is announced for it.
    pub ann: Ann,
}

/// Whether two matches are one.
fn are_one(best: &BestMatch, other: &BestMatch) -> bool
    ensures { IsTrue result ↔ (best.now ≡ other.now) }
{
    best == other
}

/// Whether two answers are one.
pub(crate) fn answer_alike(answer: &Option<BestMatch>, other: &Option<BestMatch>) -> bool
    ensures { IsTrue result ↔ (answer.now ≡ other.now) }
{
    match answer {
        None => other.is_none(),
        Some(best) => match other {
            None => false,
            Some(other) => are_one(best, other),
        },
    }
}
