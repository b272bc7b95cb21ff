//! Reads a capture on a side, for the tables of all its senders.
ghost use Rattle.std.specs.Prelude.{◌≡◌, ◌⊎◌, IfErr, IfOk, None};
ghost use Rattle.babel_dump.specs.AskedRun.{GaveOn, IsDump, misplaced_told};

use crate::absence::Absence;
use crate::begun::{Begins, Begun};
use crate::each_sender::{EachSender, SendersRead};
use crate::input_fault::InputFault;
use crate::run_fault::Side;
use crate::trouble::Trouble;
use std::alloc::Global;
use std::io::Read;

/// Reads the capture on a side, which is to have a sender that is asked for; these options have it
/// read from a moment and up to one. A dump is refused so.
pub(crate) fn gather_on<R: Read + Drop>(
    alloc: Global,
    seed: u128,
    each: &EachSender,
    side: Side,
    options: (&'static str, &'static str),
    refusal: Trouble,
    reader: R,
) -> Result<SendersRead, Trouble>
    ensures made { IfOk result (GaveOn each.now (R.remaining reader)) }
    ensures refused { IfErr result (λ trouble. (misplaced_told trouble ≡ None)
        ⊎ ((trouble ≡ refusal) × IsDump (R.remaining reader))) }
{
    let begun = Begun::new(reader);
    if let Begins::Dump = begun.begins() {
        return Err(refusal);
    }
    match each.gather(alloc, seed, &mut begun.into_device()) {
        Ok(read) => {
            if read.tables.is_empty() {
                let absent = InputFault::NoPackets(Absence::at(each.place));
                return Err(Trouble::of_input(side, absent, options));
            }
            Ok(read)
        }
        Err(fault) => Err(Trouble::of_input(side, fault, options)),
    }
}
