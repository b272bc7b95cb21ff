ghost use Rattle.std.specs.Prelude.{◌≡◌, ◌≢◌};
ghost use Rattle.babel_capture.specs.Lack.{lack_fault, lack_reason, lacks_fragments};

use crate::fault::Fault;
use crate::reason::Reason;

/// Why a datagram is not all there.
#[derive(Clone, Copy)]
pub enum Lack {
    /// Fragments of it are missing: RFC 791, 3.2; RFC 8200, 4.5.
    Fragment,
    /// Its length, in the header of IP or of UDP, is more than what there was of it.
    CutShort,
    /// The recorder kept only a part of it.
    Snapped,
}

impl Lack {
    /// Why the datagram is left out.
    pub fn reason(self) -> Reason
        ensures { result ≡ lack_reason self }
    {
        match self {
            Lack::Fragment => Reason::Fragment,
            Lack::CutShort => Reason::CutShort,
            Lack::Snapped => Reason::Snapped,
        }
    }

    /// Whether fragments of the datagram are missing.
    pub fn is_of_fragments(self) -> bool
        ensures { result ≡ lacks_fragments self }
    {
        matches!(self, Lack::Fragment)
    }

    /// The fault of a capture whose dump lacks it: the datagram is in the block at this offset.
    pub fn fault(self, at: u64) -> Fault
        ensures value { result ≡ lack_fault at self }
        ensures memory { result ≢ Fault.Memory }
    {
        match self {
            Lack::Fragment => Fault::Fragment { at },
            Lack::CutShort => Fault::DatagramCutShort { at },
            Lack::Snapped => Fault::Snapped { at },
        }
    }
}
