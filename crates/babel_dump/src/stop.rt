ghost use Rattle.std.specs.Prelude.{◌≡◌, ◌↔◌, IsTrue};
ghost use Rattle.babel_dump.specs.declared.hearing.Unheard.TheVariants as unheard;
ghost use Rattle.babel_dump.specs.declared.stop.Stop.TheVariants as stops;

use crate::hearing::Unheard;
use crate::ignored::IgnoredTlv;
use crate::left_out::LeftOutDatagram;
use babel_capture::Origin;

/// Why no more of a capture is heard.
#[derive(Clone, Copy)]
pub(crate) enum Stop {
    /// A record can't be heard.
    Unheard(Unheard),
    /// A TLV of this sender was ignored, and the capture is read strictly.
    Ignored {
        origin: Origin,
        tlv: IgnoredTlv,
        /// Whether it is an Update that is ignored because its encoding is 4: RFC 9229.
        ignores_encoding_4: bool,
    },
    /// A datagram was left out, and the capture is read strictly.
    LeftOut(LeftOutDatagram),
}

impl Stop {
    /// Whether memory ran out.
    pub(crate) fn is_memory(&self) -> bool
        ensures { IsTrue result ↔ (self.now ≡ stops.Unheard unheard.Memory) }
    {
        match self {
            Stop::Unheard(Unheard::Memory) => true,
            Stop::Unheard(Unheard::Sender { .. }) => false,
            Stop::Ignored { .. } => false,
            Stop::LeftOut(_) => false,
        }
    }
}

impl From<Unheard> for Stop {
    ghost use Rattle.std.specs.Prelude.{◌≡◌};
    ghost use Rattle.babel_dump.specs.declared.stop.Stop.TheVariants as stops;

    ghost from_gives = { λ fault stop. stop ≡ stops.Unheard fault };

    fn from(fault: Unheard) -> Stop {
        Stop::Unheard(fault)
    }
}
