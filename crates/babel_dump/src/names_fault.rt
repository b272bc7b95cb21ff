ghost use Rattle.std.specs.Prelude.{◌≡◌};
ghost use Rattle.babel_dump.specs.Each.{RefusesText};
ghost use Rattle.babel_dump.specs.Given.{Input};
ghost use Rattle.babel_dump.specs.NamesRead.{NamesCause};
ghost use Rattle.babel_dump.specs.Trouble.{names_status};

use crate::pairs_fault::PairsFault;
use crate::run_fault::RunFault;
use std::alloc::AllocError;
use thiserror::Error;

/// Why the names of `--names` are refused. `Display` gives the line for standard error.
#[derive(Clone, Copy, Debug, PartialEq, Eq, Error)]
pub enum NamesFault {
    /// The line with this number, from 1, is no address or router-id with a name, or one had a name
    /// before.
    #[error("not a name at line {line}")]
    NotAName { line: usize },
    /// There are more octets than the limit.
    #[error("names too long")]
    TooLong,
    /// A read failed.
    #[error("read failed")]
    Read,
    /// Out of memory.
    #[error("out of memory")]
    Memory,
}

impl NamesFault {
    /// The exit status of the program.
    pub(crate) fn status(self) -> u8
        ensures { result ≡ names_status self }
    {
        match self {
            NamesFault::NotAName { .. } | NamesFault::TooLong => 2,
            NamesFault::Read => 4,
            NamesFault::Memory => 5,
        }
    }

    /// Why a text of names was not read.
    pub(crate) fn of_text(fault: RunFault) -> NamesFault
        ensures { (input : Input) → RefusesText input fault → NamesCause input result }
    {
        match fault {
            RunFault::Pairs(PairsFault::TooLong) => NamesFault::TooLong,
            RunFault::Pairs(_) => NamesFault::Read,
            RunFault::Input(..) | RunFault::Write => NamesFault::Memory,
        }
    }
}

impl From<AllocError> for NamesFault {
    ghost use Rattle.std.specs.Prelude.{◌≡◌};
    ghost use Rattle.babel_dump.specs.declared.names_fault.NamesFault.TheVariants as names_faults;

    ghost from_gives = { λ _ fault. fault ≡ names_faults.Memory };

    fn from(_error: AllocError) -> NamesFault {
        NamesFault::Memory
    }
}
