//! What the line of a key names, in its format: a file, and perhaps a sender in it.
ghost use Rattle.std.specs.Prelude.{◌≡◌, ◌++◌, ◌≤◌, IfOk, OnOk, length};
ghost use Rattle.std.specs.List.{flat_map};
ghost use Rattle.babel_dump.specs.NameText.{escaped, name_json, name_text};
ghost use Rattle.babel_dump.specs.KeyText.{file_in, file_member, json_octet};
ghost use Rattle.babel_dump.specs.EachSender.{origin_in, sender_members, sender_name};
ghost use Rattle.babel_dump.specs.Slices.{HasRoom, TookRoom};

use crate::diff::{ROOM, push_place};
use crate::format::Format;
use crate::push::{push_hex, push_name_octet, push_octet, push_text};
use crate::push_addr::push_addr;
use crate::push_json::push_place_json;
use crate::spelling::Spelling;
use babel_capture::Origin;
use std::alloc::{AllocError, Global};

/// What names a file.
pub(crate) fn file_output(alloc: Global, format: &Format, file: &str) -> Result<Vec<u8>, AllocError>
    ensures { IfOk result (λ named. named.items ≡ file_in format.now file.now) }
{
    let mut named = Vec::new(alloc);
    match format {
        Format::Text(_) => named.extend_from_slice(file.as_bytes())?,
        Format::Json(_) => push_file_json(&mut named, file.as_bytes())?,
    }
    Ok(named)
}

/// What names the dump of a sender at its place, whose interface has this name.
pub(crate) fn origin_output(
    alloc: Global,
    format: &Format,
    file: &str,
    origin: Origin,
    name: &[u8],
) -> Result<Vec<u8>, AllocError>
    ensures { IfOk result (λ named. named.items ≡ origin_in format.now file.now origin name.now) }
{
    match format {
        Format::Text(_) => sender_name(alloc, file, origin),
        Format::Json(_) => sender_members(alloc, file, origin, name),
    }
}

/// `FILE ADDRESS interface N`.
fn sender_name(alloc: Global, file: &str, origin: Origin) -> Result<Vec<u8>, AllocError>
    ensures { IfOk result (λ name. name.items ≡ sender_name file.now origin) }
{
    let mut name = Vec::new(alloc);
    name.extend_from_slice(file.as_bytes())?;
    name.reserve(ROOM)?;
    push_octet(&mut name, b' ');
    push_addr(&mut name, Spelling::Long, origin.sender);
    push_place(&mut name, Some(origin.place));
    Ok(name)
}

/// The file, the sender and its place: members of an object.
fn sender_members(
    alloc: Global,
    file: &str,
    origin: Origin,
    name: &[u8],
) -> Result<Vec<u8>, AllocError>
    ensures { IfOk result (λ text. text.items ≡ sender_members file.now origin name.now) }
{
    let mut members = Vec::new(alloc);
    push_file_json(&mut members, file.as_bytes())?;
    members.reserve(168)?;
    push_text(&mut members, r#","sender":""#);
    push_addr(&mut members, Spelling::Long, origin.sender);
    push_text(&mut members, "\"");
    push_place_json(&mut members, origin.place);
    push_name_json(&mut members, name)?;
    Ok(members)
}

/// Appends a name, if there is one: ` (NAME)`.
pub(crate) fn push_name_text(line: &mut Vec<u8>, name: &[u8]) -> Result<(), AllocError>
    ensures { OnOk result (line.new.items ≡ line.old.items ++ name_text name.now) }
{
    if name.is_empty() {
        return Ok(());
    }
    line.extend_from_slice(b" (")?;
    push_escaped(line, r"\x", name)?;
    line.push(b')')?;
    Ok(())
}

/// Appends a name: a string, or `null`.
pub(crate) fn push_name_json(line: &mut Vec<u8>, name: &[u8]) -> Result<(), AllocError>
    ensures { OnOk result (line.new.items ≡ line.old.items ++ name_json name.now) }
{
    if name.is_empty() {
        line.extend_from_slice(b"null")?;
        return Ok(());
    }
    line.push(b'"')?;
    push_escaped(line, r"\\x", name)?;
    line.push(b'"')?;
    Ok(())
}

/// Appends the octets of a name, with this before two digits.
fn push_escaped(line: &mut Vec<u8>, escape: &str, name: &[u8]) -> Result<(), AllocError>
    requires { length escape.now ≤ 3 }
    ensures { OnOk result (line.new.items ≡ line.old.items ++ escaped escape.now name.now) }
{
    for octet in name {
        line.reserve(5)?;
        push_name_octet(line, escape, *octet);
    }
    Ok(())
}

/// Appends the name of a file: a member of an object.
fn push_file_json(line: &mut Vec<u8>, file: &[u8]) -> Result<(), AllocError>
    ensures { OnOk result (line.new.items ≡ line.old.items ++ file_member file.now) }
{
    line.extend_from_slice(br#""file":""#)?;
    push_json_octets(line, file)?;
    line.push(b'"')?;
    Ok(())
}

/// Appends the octets of a string.
fn push_json_octets(line: &mut Vec<u8>, octets: &[u8]) -> Result<(), AllocError>
    ensures { OnOk result
        (line.new.items ≡ line.old.items ++ flat_map json_octet octets.now) }
{
    for octet in octets {
        line.reserve(6)?;
        push_json_octet(line, *octet);
    }
    Ok(())
}

/// Appends an octet of a string.
fn push_json_octet(buffer: &mut Vec<u8>, octet: u8)
    requires { HasRoom buffer.old 6 }
    ensures text { buffer.new.items ≡ buffer.old.items ++ json_octet octet }
    ensures room { TookRoom buffer.old buffer.new 6 }
{
    if octet == b'"' {
        push_text(buffer, r#"\""#);
    } else if octet == b'\\' {
        push_text(buffer, r"\\");
    } else if octet < 32 {
        push_text(buffer, r"\u00");
        push_hex(buffer, octet);
    } else {
        push_octet(buffer, octet);
    }
}
