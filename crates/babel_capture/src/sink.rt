//! What takes the packets of a capture, one after another, as they are read.
ghost use Rattle.std.specs.Prelude.{◌∷◌, ◌++◌, ⊤, [], List};
ghost use Rattle.babel_capture.specs.Counts.{Made};
ghost use Rattle.babel_capture.specs.Sinking.{IsTold};

use crate::missed::Missed;
use crate::reason::Reason;
use crate::tallies::Origin;
use crate::time::Time;
use babel_prefix::Addr;

/// What is told of a packet of a capture.
#[derive(Clone, Copy)]
pub struct Record<'a> {
    /// Its number in the capture, from 1.
    pub number: u64,
    /// When it came, where its record has a time of the years 1970 to 9999 and is not skipped.
    pub time: Option<Time>,
    /// What is found in it.
    pub said: Said<'a>,
}

/// What is found in a packet of a capture.
#[derive(Clone, Copy)]
pub enum Said<'a> {
    /// Nothing that is wanted.
    Nothing,
    /// A Babel packet that is wanted.
    Packet(BabelPacket<'a>),
    /// A wanted datagram that lacks something and is left out, where no sender is named.
    Missed(Missed),
    /// A wanted datagram that is left out for this reason, though nothing of it is missing.
    LeftOut { origin: Origin, reason: Reason },
}

/// A Babel packet of a capture: RFC 8966, 4.2.
#[derive(Clone, Copy)]
pub struct BabelPacket<'a> {
    /// Who sent it, and where it was captured.
    pub origin: Origin,
    /// The address that it was sent to.
    pub destination: &'a Addr,
    /// Its header and its body.
    pub octets: &'a [u8],
}

/// What takes packets one after another. One that can't take a packet keeps why, and takes none of
/// those after it.
pub trait Sink {
    // These packets made the second of the first.
    ghost has: { Self → Self → List Made → Type 0 };

    /// Takes the next packet of a capture, where it lies.
    fn take(&mut self, told: &Record<'_>)
        ensures { (start : Self) (made : List Made) (one : Made) → IsTold one told.now
            → has start self.old made → has start self.new (made ++ one ∷ []) };
}

/// A sink that keeps nothing.
#[derive(Clone, Copy)]
pub struct NoSink;

impl Sink for NoSink {
    ghost has = { λ _ _ _. ⊤ };

    fn take(&mut self, _told: &Record<'_>) {}
}
