ghost use Rattle.std.specs.Prelude.{◌≡◌};
ghost use Rattle.babel_dump.specs.EventsRun.{speaker_at};

use babel_capture::{Origin, Place};
use babel_prefix::Addr;
use babel_timeline::Sender;

/// A sender of Babel packets, at the place where they were captured, as one who speaks in a
/// timeline. Ordered by address, then by place.
#[derive(Clone, Copy, PartialEq, Eq, PartialOrd, Ord)]
pub struct Speaker {
    pub sender: Addr,
    pub place: Place,
}

impl Sender for Speaker {
    ghost use Rattle.std.proofs.Common.{rules};
    ghost use Rattle.babel_dump.specs.Speakers.{exact_by};

    ghost exact = { exact_by _ (λ a b. Prim.search rules) };
}

/// A sender at a place, as one who speaks.
pub(crate) fn speaker_at(origin: &Origin) -> Speaker
    ensures { result ≡ speaker_at origin.now }
{
    let Origin { place, sender } = *origin;
    Speaker { sender, place }
}
