//! Reads captures, one after another, for what their senders originate.
ghost use Rattle.std.specs.Prelude.{◌≡◌, ◌∷◌, IfErr, IfOk, OnOk, map};
ghost use Rattle.babel_dump.specs.AskedRun.{AreAllReadOn, AreReadOn, HaveDump, IsDump};
ghost use Rattle.babel_dump.specs.AskedRun.{IsMisplacedIn, IsOriginsRefused, IsReadOn};
ghost use Rattle.babel_dump.specs.AskedRun.{WroteOrigins};
ghost use Rattle.babel_dump.specs.Device.{HasRoomToWrite};
ghost use Rattle.babel_dump.specs.OriginText.{captures_on};
ghost use Rattle.babel_dump.specs.OriginsMade.{TakesRead};
ghost use Rattle.babel_dump.specs.Run.{output};

use crate::byte_out::ByteOut;
use crate::done::Done;
use crate::each_sender::{EachSender, SendersRead};
use crate::gather_on::gather_on;
use crate::inputs::Inputs;
use crate::origins_job::Origins;
use crate::origins_text::{OriginsText, origins_text};
use crate::read_senders::Captured;
use crate::run_fault::Side;
use crate::told_capture::ToldCaptures;
use crate::told_origins::ToldOrigins;
use crate::trouble::Trouble;
use crate::write::write_text;
use std::alloc::Global;
use std::io::Read;

/// Reads captures, those of the first side before those of the other, each to its end before the
/// next, and writes what their senders originate.
pub(crate) fn tell_origins<R: Read, W: ByteOut>(
    alloc: Global,
    seed: u128,
    origins: &Origins,
    inputs: &mut Inputs<R>,
    others: &mut Inputs<R>,
    writer: &mut W,
) -> Result<Done, Trouble>
    requires { HasRoomToWrite (W.state writer.old) }
    ensures done { IfOk result (WroteOrigins origins.now
        (R.remaining inputs.old.first ∷ map R.remaining inputs.old.more.items)
        (R.remaining others.old.first ∷ map R.remaining others.old.more.items)
        (output (W.state writer.old) (W.state writer.new))) }
    ensures refused { IfErr result (IsOriginsRefused
        (R.remaining inputs.old.first ∷ map R.remaining inputs.old.more.items)
        (R.remaining others.old.first ∷ map R.remaining others.old.more.items)) }
{
    let mut told = ToldOrigins::new(alloc);
    take_on(alloc, seed, origins, Side::First, inputs, &mut told)?;
    take_on(alloc, seed, origins, Side::Other, others, &mut told)?;
    let OriginsText { lines, status } = origins_text(alloc, origins, &told.originated.all)?;
    let captures = ToldCaptures::of(alloc, origins, told.captures)?;
    let done = Done::new(alloc)?.of_origins(captures, status);
    write_text(writer, &lines)?;
    Ok(done)
}

/// Takes what the senders in the captures on a side originate, if there are any.
fn take_on<R: Read>(
    alloc: Global,
    seed: u128,
    origins: &Origins,
    side: Side,
    inputs: &mut Inputs<R>,
    told: &mut ToldOrigins,
) -> Result<(), Trouble>
    ensures taken { OnOk result (TakesRead origins.now.filter side
        (IsReadOn (captures_on side origins.now)
        (R.remaining inputs.old.first ∷ map R.remaining inputs.old.more.items))
        told.old.originated.all.entries told.new.originated.all.entries) }
    ensures refused { IfErr result (IsMisplacedIn (HaveDump
        (R.remaining inputs.old.first ∷ map R.remaining inputs.old.more.items))) }
{
    match origins.on(side) {
        Some(each) => take_captures(alloc, seed, origins, side, each, inputs, told),
        None => Ok(()),
    }
}

/// Takes what the senders in captures on a side originate, one capture after another.
fn take_captures<R: Read>(
    alloc: Global,
    seed: u128,
    origins: &Origins,
    side: Side,
    each: &EachSender,
    inputs: &mut Inputs<R>,
    told: &mut ToldOrigins,
) -> Result<(), Trouble>
    ensures taken { OnOk result (TakesRead origins.now.filter side
        (AreAllReadOn each.now
        (R.remaining inputs.old.first ∷ map R.remaining inputs.old.more.items))
        told.old.originated.all.entries told.new.originated.all.entries) }
    ensures refused { IfErr result (IsMisplacedIn (HaveDump
        (R.remaining inputs.old.first ∷ map R.remaining inputs.old.more.items))) }
{
    inputs.begun = 1;
    take_capture(alloc, seed, origins, side, each, &mut inputs.first, told)?;
    for stream in inputs.more.iter_mut() {
        inputs.begun = inputs.begun.saturating_add(1);
        take_capture(alloc, seed, origins, side, each, stream, told)?;
    }
    Ok(())
}

/// Takes what the senders in a capture on a side originate.
fn take_capture<R: Read + Drop>(
    alloc: Global,
    seed: u128,
    origins: &Origins,
    side: Side,
    each: &EachSender,
    reader: R,
    told: &mut ToldOrigins,
) -> Result<(), Trouble>
    ensures taken { OnOk result (TakesRead origins.now.filter side
        (AreReadOn each.now (R.remaining reader))
        told.old.originated.all.entries told.new.originated.all.entries) }
    ensures refused { IfErr result (IsMisplacedIn (IsDump (R.remaining reader))) }
{
    let options = origins.moment_options(side);
    let refusal = Trouble::Misplaced(side, "--origins");
    let SendersRead { read, tables } = gather_on(
        alloc, seed, each, side, options, refusal, reader,
    )?;
    let captured = Captured {
        side,
        each,
        read: &read,
    };
    told.take(alloc, &origins.filter, &captured, tables)?;
    told.note(alloc, &captured)
}
