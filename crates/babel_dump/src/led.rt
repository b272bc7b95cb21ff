//! Lines of which each is led by the sender that they are told of.
ghost use Rattle.std.specs.Prelude.{◌≡◌, ◌++◌, IfOk, OnOk, true};
ghost use Rattle.babel_dump.specs.Led.{lead_in, lead_json, lead_text, led, led_octet};

use crate::diff::ROOM;
use crate::format::Format;
use crate::key_name::{push_name_json, push_name_text};
use crate::push::{push_link, push_marked, push_octet, push_text};
use crate::push_addr::push_addr;
use crate::push_event::push_interface;
use crate::push_json::push_place_json;
use crate::push_named::push_sender_json;
use crate::style::Style;
use babel_capture::Origin;
use std::alloc::{AllocError, Global};

/// What leads the lines of a sender at its place, whose interface has this name.
pub(crate) fn lead_output(
    alloc: Global,
    format: &Format,
    origin: Origin,
    name: &[u8],
) -> Result<Vec<u8>, AllocError>
    ensures { IfOk result (λ lead. lead.items ≡ lead_in format.now origin name.now) }
{
    match format {
        Format::Text(style) => text_lead(alloc, style, origin, name),
        Format::Json(style) => json_lead(alloc, style, origin, name),
    }
}

/// The sender, and its place where that is told.
fn text_lead(
    alloc: Global,
    style: &Style,
    origin: Origin,
    name: &[u8],
) -> Result<Vec<u8>, AllocError>
    ensures { IfOk result (λ lead. lead.items ≡ lead_text style.now origin name.now) }
{
    let mut lead = Vec::new(alloc);
    lead.reserve(ROOM)?;
    push_addr(&mut lead, style.spelling, origin.sender);
    push_name_text(&mut lead, style.of_address(origin.sender))?;
    lead.reserve(ROOM)?;
    push_interface(&mut lead, origin.place, name);
    push_name_text(&mut lead, name)?;
    lead.reserve(ROOM)?;
    push_link(&mut lead, origin.place.link);
    push_marked(&mut lead, " vlan ", ".", &origin.place.vlans.numbers());
    push_octet(&mut lead, b' ');
    Ok(lead)
}

/// The first members of an object.
fn json_lead(
    alloc: Global,
    style: &Style,
    origin: Origin,
    name: &[u8],
) -> Result<Vec<u8>, AllocError>
    ensures { IfOk result (λ lead. lead.items ≡ lead_json style.now origin name.now) }
{
    let mut lead = Vec::new(alloc);
    lead.reserve(504)?;
    push_text(&mut lead, r#"{"sender":"#);
    push_sender_json(&mut lead, style, origin.sender);
    push_place_json(&mut lead, origin.place);
    push_name_json(&mut lead, name)?;
    lead.push(b',')?;
    Ok(lead)
}

/// Appends lines, each led so.
pub(crate) fn push_led(
    text: &mut Vec<u8>,
    format: &Format,
    lead: &[u8],
    lines: &[u8],
) -> Result<(), AllocError>
    ensures { OnOk result
        (text.new.items ≡ text.old.items ++ led format.now lead.now true lines.now) }
{
    let mut is_first = true;
    for octet in lines {
        push_led_octet(text, format, lead, is_first, *octet)?;
        is_first = *octet == b'\n';
    }
    Ok(())
}

/// Appends an octet of a line, and before its first the lead, which in JSON takes its place.
fn push_led_octet(
    text: &mut Vec<u8>,
    format: &Format,
    lead: &[u8],
    is_first: bool,
    octet: u8,
) -> Result<(), AllocError>
    ensures { OnOk result
        (text.new.items ≡ text.old.items ++ led_octet format.now lead.now is_first octet) }
{
    if is_first {
        text.extend_from_slice(lead)?;
        if let Format::Json(_) = format {
            return Ok(());
        }
    }
    text.push(octet)?;
    Ok(())
}
