ghost use Rattle.std.specs.Prelude.{◌≡◌};
ghost use Rattle.babel_dump.specs.Run.{exit_status, fault_status};

use crate::input_fault::InputFault;
use crate::pairs_fault::PairsFault;
use crate::write::WriteFailed;
use babel_tlv::Fault;
use std::alloc::AllocError;
use std::fmt;
use thiserror::Error;

/// Which of two inputs. A command over one has the first alone.
#[derive(Clone, Copy, PartialEq, Eq)]
pub enum Side {
    /// FILE.
    First,
    /// OTHER of a comparison.
    Other,
}

impl Side {
    /// The option that names the sender of the dump on this side.
    pub fn option(self) -> &'static str {
        match self {
            Side::First => "--from",
            Side::Other => "--other-from",
        }
    }

    /// The option that names the place where the packets of the dump on this side were captured.
    pub fn place_option(self) -> &'static str {
        match self {
            Side::First => "--interface",
            Side::Other => "--other-interface",
        }
    }
}

impl fmt::Display for Side {
    /// The text before a fault of the input on this side.
    fn fmt<W: fmt::Write>(&self, f: &mut fmt::Formatter<W>) -> fmt::Result {
        match self {
            Side::First => Ok(()),
            Side::Other => f.write_str("other: "),
        }
    }
}

/// Why a run gave no status. `Display` gives the line for standard error.
#[derive(Drop, PartialEq, Eq, Error)]
pub enum RunFault {
    /// The input on this side is refused, could not be read, or there was no memory for it. Running
    /// out of memory is the other input's fault only while that is read.
    #[error("{0}{1}")]
    Input(Side, InputFault),
    /// The pairs of `--each` are refused.
    #[error("{0}")]
    Pairs(PairsFault),
    /// A write or the last flush failed, or a write took nothing.
    #[error("write failed")]
    Write,
}

impl fmt::Debug for RunFault {
    fn fmt<W: fmt::Write>(&self, out: &mut fmt::Formatter<W>) -> fmt::Result {
        fmt::Display::fmt(self, out)
    }
}

impl From<InputFault> for RunFault {
    ghost use Rattle.std.specs.Prelude.{◌≡◌};
    ghost use Rattle.babel_dump.specs.declared.run_fault.Side.TheVariants as sides;
    ghost use Rattle.babel_dump.specs.declared.run_fault.RunFault.TheVariants as run_faults;

    ghost from_gives = { λ fault run. run ≡ run_faults.Input sides.First fault };

    fn from(fault: InputFault) -> RunFault {
        RunFault::Input(Side::First, fault)
    }
}

impl From<Fault> for RunFault {
    ghost use Rattle.std.specs.Prelude.{◌≡◌};
    ghost use Rattle.babel_dump.specs.declared.input_fault.InputFault.TheVariants as input_faults;
    ghost use Rattle.babel_dump.specs.declared.run_fault.Side.TheVariants as sides;
    ghost use Rattle.babel_dump.specs.declared.run_fault.RunFault.TheVariants as run_faults;

    ghost from_gives = { λ fault run.
        run ≡ run_faults.Input sides.First (input_faults.Dump fault) };

    fn from(fault: Fault) -> RunFault {
        RunFault::Input(Side::First, InputFault::Dump(fault))
    }
}

impl From<AllocError> for RunFault {
    ghost use Rattle.std.specs.Prelude.{◌≡◌};
    ghost use Rattle.babel_tlv.specs.declared.fault.Fault.TheVariants as faults;
    ghost use Rattle.babel_dump.specs.declared.input_fault.InputFault.TheVariants as input_faults;
    ghost use Rattle.babel_dump.specs.declared.run_fault.Side.TheVariants as sides;
    ghost use Rattle.babel_dump.specs.declared.run_fault.RunFault.TheVariants as run_faults;

    ghost from_gives = { λ _ run.
        run ≡ run_faults.Input sides.First (input_faults.Dump faults.Memory) };

    fn from(_error: AllocError) -> RunFault {
        RunFault::Input(Side::First, InputFault::Dump(Fault::Memory))
    }
}

impl From<WriteFailed> for RunFault {
    ghost use Rattle.std.specs.Prelude.{◌≡◌};
    ghost use Rattle.babel_dump.specs.declared.run_fault.RunFault.TheVariants as run_faults;

    ghost from_gives = { λ _ run. run ≡ run_faults.Write };

    fn from(_failed: WriteFailed) -> RunFault {
        RunFault::Write
    }
}

impl RunFault {
    /// The exit status of the program: 2 where the pairs of `--each` are refused, 3 where an input
    /// is, 4 where a read or a write failed, 5 where an allocation was refused.
    pub fn status(&self) -> u8
        ensures { result ≡ fault_status self.now }
    {
        match self {
            RunFault::Input(_, fault) => fault.status(),
            RunFault::Pairs(PairsFault::Read) => 4,
            RunFault::Pairs(_) => 2,
            RunFault::Write => 4,
        }
    }
}

/// The exit status of the program for what a run gave: the run's own, or that of its fault.
pub fn status_of(outcome: &Result<u8, RunFault>) -> u8
    ensures { result ≡ exit_status outcome.now }
{
    match outcome {
        Ok(status) => *status,
        Err(fault) => fault.status(),
    }
}
