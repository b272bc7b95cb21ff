ghost use Rattle.std.specs.Prelude.{◌≡◌};
ghost use Rattle.babel_dump.specs.Run.{input_status};
ghost use Rattle.babel_dump.specs.Trouble.{is_empty_window};

use crate::absence::Absence;
use crate::ignored::IgnoredTlv;
use crate::interfaces::Interfaces;
use crate::left_out::LeftOutDatagram;
use babel_capture::Fault as CaptureFault;
use babel_tlv::Fault;
use std::alloc::AllocError;
use std::fmt;
use thiserror::Error;

/// Why an input, a dump or a capture, gave no result. `Display` gives the line for
/// standard error.
#[derive(Drop, PartialEq, Eq, Error)]
pub enum InputFault {
    /// The dump is refused, or an allocation was.
    #[error("{0}")]
    Dump(Fault),
    /// A TLV of the dump was ignored, and the dump is read strictly.
    #[error("{tlv}")]
    Ignored {
        tlv: IgnoredTlv,
        /// Whether an Update of the dump was ignored because its encoding is 4.
        ignores_encoding_4: bool,
    },
    /// The capture is refused, or an allocation was.
    #[error("{0}")]
    Capture(CaptureFault),
    /// A wanted datagram was left out, and the capture, or the dump of it, is read strictly.
    #[error("{0}")]
    LeftOut(LeftOutDatagram),
    /// The dump has no Update, and is read strictly.
    #[error("no Updates")]
    NoUpdates,
    /// The sender whose dump is asked for sent on several interfaces, and none of them is named.
    #[error("packets from this sender on several interfaces: {0}")]
    SeveralInterfaces(Interfaces),
    /// The sender whose dump is asked for has no packets in the capture.
    #[error("{0}")]
    NoPackets(Absence),
    /// A read failed.
    #[error("read failed")]
    Read,
}

impl fmt::Debug for InputFault {
    fn fmt<W: fmt::Write>(&self, out: &mut fmt::Formatter<W>) -> fmt::Result {
        fmt::Display::fmt(self, out)
    }
}

impl InputFault {
    /// The exit status of the program: 5 where an allocation was refused, 4 where a read failed,
    /// else 3.
    pub fn status(&self) -> u8
        ensures { result ≡ input_status self.now }
    {
        match self {
            InputFault::Dump(Fault::Memory) | InputFault::Capture(CaptureFault::Memory) => 5,
            InputFault::Read => 4,
            _ => 3,
        }
    }

    /// Whether by the capture's first packet `--since` is later than `--until`.
    pub(crate) fn is_empty_window(&self) -> bool
        ensures { result ≡ is_empty_window self.now }
    {
        matches!(self, InputFault::Capture(CaptureFault::EmptyWindow { .. }))
    }
}

impl From<Fault> for InputFault {
    ghost use Rattle.std.specs.Prelude.{◌≡◌};
    ghost use Rattle.babel_dump.specs.declared.input_fault.InputFault.TheVariants as input_faults;

    ghost from_gives = { λ fault input. input ≡ input_faults.Dump fault };

    fn from(fault: Fault) -> InputFault {
        InputFault::Dump(fault)
    }
}

impl From<CaptureFault> for InputFault {
    ghost use Rattle.std.specs.Prelude.{◌≡◌};
    ghost use Rattle.babel_dump.specs.declared.input_fault.InputFault.TheVariants as input_faults;

    ghost from_gives = { λ fault input. input ≡ input_faults.Capture fault };

    fn from(fault: CaptureFault) -> InputFault {
        InputFault::Capture(fault)
    }
}

impl From<AllocError> for InputFault {
    ghost use Rattle.std.specs.Prelude.{◌≡◌};
    ghost use Rattle.babel_tlv.specs.declared.fault.Fault.TheVariants as faults;
    ghost use Rattle.babel_dump.specs.declared.input_fault.InputFault.TheVariants as input_faults;

    ghost from_gives = { λ _ input. input ≡ input_faults.Dump faults.Memory };

    fn from(_error: AllocError) -> InputFault {
        InputFault::Dump(Fault::Memory)
    }
}
