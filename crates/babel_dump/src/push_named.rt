//! Names of addresses and router-ids, appended to a buffer that has room for them.
ghost use Rattle.std.specs.Prelude.{◌≡◌, ◌*◌, ◌++◌, ◌≤◌, length};
ghost use Rattle.babel_dump.specs.NameText.{escaped, name_json, name_text};
ghost use Rattle.babel_dump.specs.Names.{name_member, named_address, named_router, named_sender};
ghost use Rattle.babel_dump.specs.Slices.{HasRoom, TookRoom};

use crate::push::{push_name_octet, push_router_id, push_text};
use crate::push_addr::push_addr;
use crate::style::Style;
use babel_prefix::Addr;

/// Appends an address, and its name, if it has one.
pub(crate) fn push_named_addr(buffer: &mut Vec<u8>, style: &Style, addr: Addr)
    requires { HasRoom buffer.old 362 }
    ensures text { buffer.new.items ≡ buffer.old.items ++ named_address style.now addr }
    ensures room { TookRoom buffer.old buffer.new 362 }
{
    push_addr(buffer, style.spelling, addr);
    push_name(buffer, style.of_address(addr));
}

/// Appends a router-id, and its name, if it has one.
pub(crate) fn push_named_id(buffer: &mut Vec<u8>, style: &Style, router_id: [u8; 8])
    requires { HasRoom buffer.old 339 }
    ensures text { buffer.new.items ≡ buffer.old.items ++ named_router style.now router_id }
    ensures room { TookRoom buffer.old buffer.new 339 }
{
    push_router_id(buffer, router_id);
    push_name(buffer, style.of_router(router_id));
}

/// Appends a sender, and its name where names are asked for: a string, and a member of an object.
pub(crate) fn push_sender_json(buffer: &mut Vec<u8>, style: &Style, sender: Addr)
    requires { HasRoom buffer.old 380 }
    ensures text { buffer.new.items ≡ buffer.old.items ++ named_sender style.now sender }
    ensures room { TookRoom buffer.old buffer.new 380 }
{
    push_text(buffer, "\"");
    push_addr(buffer, style.spelling, sender);
    push_text(buffer, "\"");
    push_name_member(buffer, style, "sender_name", style.of_address(sender));
}

/// Appends a name where names are asked for: a member of an object.
pub(crate) fn push_name_member(buffer: &mut Vec<u8>, style: &Style, member: &str, name: &[u8])
    requires room { HasRoom buffer.old 339 }
    requires brief { length member.now ≤ 13 }
    requires short { length name.now ≤ 64 }
    ensures text { buffer.new.items
        ≡ buffer.old.items ++ name_member style.now member.now name.now }
    ensures room { TookRoom buffer.old buffer.new 339 }
{
    if style.names.is_some() {
        push_text(buffer, ",\"");
        push_text(buffer, member);
        push_text(buffer, "\":");
        push_name_json(buffer, name);
    }
}

/// Appends a name, if there is one: ` (NAME)`.
fn push_name(buffer: &mut Vec<u8>, name: &[u8])
    requires room { HasRoom buffer.old 323 }
    requires short { length name.now ≤ 64 }
    ensures text { buffer.new.items ≡ buffer.old.items ++ name_text name.now }
    ensures room { TookRoom buffer.old buffer.new 323 }
{
    if !name.is_empty() {
        push_text(buffer, " (");
        push_escaped(buffer, r"\x", name);
        push_text(buffer, ")");
    }
}

/// Appends a name: a string, or `null`.
fn push_name_json(buffer: &mut Vec<u8>, name: &[u8])
    requires room { HasRoom buffer.old 322 }
    requires short { length name.now ≤ 64 }
    ensures text { buffer.new.items ≡ buffer.old.items ++ name_json name.now }
    ensures room { TookRoom buffer.old buffer.new 322 }
{
    if name.is_empty() {
        push_text(buffer, "null");
        return;
    }
    push_text(buffer, "\"");
    push_escaped(buffer, r"\\x", name);
    push_text(buffer, "\"");
}

/// Appends the octets of a name, with this before two digits.
fn push_escaped(buffer: &mut Vec<u8>, escape: &str, name: &[u8])
    requires room { HasRoom buffer.old (5 * length name.now) }
    requires brief { length escape.now ≤ 3 }
    ensures text { buffer.new.items ≡ buffer.old.items ++ escaped escape.now name.now }
    ensures room { TookRoom buffer.old buffer.new (5 * length name.now) }
{
    for octet in name {
        push_name_octet(buffer, escape, *octet);
    }
}
