//! Lines of `events`, as they are written.
ghost use Rattle.std.specs.Prelude.{◌≡◌, ◌++◌, ◌-◌, ◌^◌, ◌<◌, ◌≤◌, OnOk, vec_capacity};
ghost use Rattle.babel_dump.specs.EventParts.{event_after_name, event_to_name};
ghost use Rattle.babel_dump.specs.EventText.{event_in};
ghost use Rattle.babel_dump.specs.Run.{output};
ghost use Rattle.babel_dump.specs.Slices.{HasRoom, TookRoom, WroteFront};

use crate::addr_pair::AddrPair;
use crate::byte_out::ByteOut;
use crate::format::Format;
use crate::output::{closing, opening};
use crate::push::push_text;
use crate::push_event::{
    push_event_end, push_event_end_json, push_event_front, push_event_front_json,
};
use crate::slices::{make_room, write_name};
use crate::speaker::Speaker;
use crate::write::WriteFailed;
use babel_timeline::Telling;
use babel_tlv::View;

/// Writes the line of what is told after what the buffer has, but for the last of both, which the
/// buffer has then. The name is that of the sender's interface, and the pair is what is asked for,
/// if it is.
pub fn write_event<W: ByteOut>(
    writer: &mut W,
    format: &Format,
    view: View,
    pair: Option<AddrPair>,
    name: &[u8],
    told: &Telling<Speaker>,
    buffer: &mut Vec<u8>,
) -> Result<(), WriteFailed>
    requires few_failures { (W.state writer.old).failures < 2 ^ 64 - 1 }
    requires room { 2048 ≤ vec_capacity buffer.old }
    ensures front { WroteFront (output (W.state writer.old) (W.state writer.new))
        (buffer.old.items ++ event_in format.now view pair name.now told.now)
        buffer.new.items result }
    ensures room { OnOk result (2048 ≤ vec_capacity buffer.new) }
{
    make_room(writer, buffer)?;
    push_to_name(buffer, format, name, told);
    write_name(writer, format, name, buffer)?;
    make_room(writer, buffer)?;
    push_after_name(buffer, format, view, pair, name, told);
    Ok(())
}

/// Appends a line up to the octets of its interface's name.
fn push_to_name(buffer: &mut Vec<u8>, format: &Format, name: &[u8], told: &Telling<Speaker>)
    requires { HasRoom buffer.old 2048 }
    ensures text { buffer.new.items
        ≡ buffer.old.items ++ event_to_name format.now name.now told.now }
    ensures room { TookRoom buffer.old buffer.new 2048 }
{
    match format {
        Format::Text(style) => push_event_front(buffer, style, name, told),
        Format::Json(style) => push_event_front_json(buffer, style, told),
    }
    push_text(buffer, opening(format, name));
}

/// Appends a line after the octets of its interface's name.
fn push_after_name(
    buffer: &mut Vec<u8>,
    format: &Format,
    view: View,
    pair: Option<AddrPair>,
    name: &[u8],
    told: &Telling<Speaker>,
)
    requires { HasRoom buffer.old 2048 }
    ensures text { buffer.new.items
        ≡ buffer.old.items ++ event_after_name format.now view pair name.now told.now }
    ensures room { TookRoom buffer.old buffer.new 2048 }
{
    push_text(buffer, closing(format, name));
    match format {
        Format::Text(style) => push_event_end(buffer, style, view, told),
        Format::Json(style) => push_event_end_json(buffer, style, view, pair, told),
    }
}
