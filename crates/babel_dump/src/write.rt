ghost use Rattle.std.specs.Prelude.{◌-◌, ◌^◌, ◌<◌, []};
ghost use Rattle.babel_dump.specs.Run.{output};
ghost use Rattle.babel_dump.specs.Slices.{WroteFront, WroteText};

use crate::byte_out::ByteOut;

/// The device failed, or took nothing.
#[derive(Clone, Copy)]
pub struct WriteFailed;

/// Writes the octets, by as many calls as it takes.
#[tactic(auto, using(crate::proofs::Devices::taking, crate::proofs::SliceLaws::took_all))]
pub(crate) fn write_all<W: ByteOut>(writer: &mut W, octets: &[u8]) -> Result<(), WriteFailed>
    requires { (W.state writer.old).failures < 2 ^ 64 - 1 }
    ensures { WroteFront (output (W.state writer.old) (W.state writer.new)) octets.now [] result }
{
    let mut taken = 0;
    while taken < octets.len() {
        match writer.write(&octets[taken..]) {
            Ok(0) | Err(_) => return Err(WriteFailed),
            Ok(n) => taken += n,
        }
    }
    Ok(())
}

/// Writes the text whole, and then flushes once.
pub(crate) fn write_text<W: ByteOut>(writer: &mut W, text: &[u8]) -> Result<(), WriteFailed>
    requires few_failures { (W.state writer.old).failures < 2 ^ 64 - 1 }
    requires few_flushes { (W.state writer.old).flushes < 2 ^ 64 - 1 }
    ensures { WroteText (output (W.state writer.old) (W.state writer.new)) text.now result }
{
    write_all(writer, text)?;
    match writer.flush() {
        Ok(()) => Ok(()),
        Err(_) => Err(WriteFailed),
    }
}
