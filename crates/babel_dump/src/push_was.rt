//! What was held before a change, appended to a buffer that has room for it.
ghost use Rattle.std.specs.Prelude.{◌≡◌, ◌+◌, ◌++◌, ◌≤◌, ◌==◌, codes, length};
ghost use Rattle.std.specs.Fmt.{decimal};
ghost use Rattle.std.specs.Str.{bytes_eq};
ghost use Rattle.babel_dump.specs.EventText.{differing_text, is_same_address, unless_same};
ghost use Rattle.babel_dump.specs.EventText.{was_text};
ghost use Rattle.babel_dump.specs.Names.{named_address, named_router};
ghost use Rattle.babel_dump.specs.Slices.{HasRoom, TookRoom};

use crate::push::{push_decimal, push_text};
use crate::push_named::{push_named_addr, push_named_id};
use crate::style::Style;
use babel_prefix::Addr;
use babel_timeline::ChangeKind;
use babel_tlv::Ann;

/// Appends what was held before, where something else is held after it: the fields that differ.
pub(crate) fn push_was(buffer: &mut Vec<u8>, style: &Style, kind: ChangeKind)
    requires { HasRoom buffer.old 740 }
    ensures text { buffer.new.items ≡ buffer.old.items ++ was_text style.now kind }
    ensures room { TookRoom buffer.old buffer.new 740 }
{
    if let ChangeKind::Changed { before, now } = kind {
        push_text(buffer, " was");
        push_differing(buffer, style, before, now);
    }
}

/// Appends the fields that are others now.
fn push_differing(buffer: &mut Vec<u8>, style: &Style, before: Ann, now: Ann)
    requires { HasRoom buffer.old 736 }
    ensures text { buffer.new.items ≡ buffer.old.items ++ differing_text style.now before now }
    ensures room { TookRoom buffer.old buffer.new 736 }
{
    push_next_hop(buffer, style, before.next_hop(), now.next_hop());
    push_id(buffer, style, before.router_id(), now.router_id());
    push_number(buffer, " seqno ", before.seqno(), now.seqno());
    push_number(buffer, " metric ", before.metric(), now.metric());
}

/// Whether two addresses are one.
fn are_one(address: Addr, other: Addr) -> bool
    ensures { result ≡ is_same_address address other }
{
    address == other
}

/// Appends the next hop, unless it is the same now.
fn push_next_hop(buffer: &mut Vec<u8>, style: &Style, before: Addr, now: Addr)
    requires { HasRoom buffer.old 367 }
    ensures text { buffer.new.items ≡ buffer.old.items ++ unless_same
        (is_same_address before now) (codes " via ") (named_address style.now before) }
    ensures room { TookRoom buffer.old buffer.new 367 }
{
    if !are_one(before, now) {
        push_text(buffer, " via ");
        push_named_addr(buffer, style, before);
    }
}

/// Appends the router-id, unless it is the same now.
fn push_id(buffer: &mut Vec<u8>, style: &Style, before: [u8; 8], now: [u8; 8])
    requires { HasRoom buffer.old 343 }
    ensures text { buffer.new.items ≡ buffer.old.items ++ unless_same
        (bytes_eq before now) (codes " id ") (named_router style.now before) }
    ensures room { TookRoom buffer.old buffer.new 343 }
{
    if before != now {
        push_text(buffer, " id ");
        push_named_id(buffer, style, before);
    }
}

/// Appends a number after its name, unless it is the same now.
fn push_number(buffer: &mut Vec<u8>, name: &str, before: u16, now: u16)
    requires room { HasRoom buffer.old 13 }
    requires short { length name.now ≤ 8 }
    ensures text { buffer.new.items ≡ buffer.old.items
        ++ unless_same (before == now) name.now (decimal before) }
    ensures room { TookRoom buffer.old buffer.new 13 }
{
    if before != now {
        push_text(buffer, name);
        push_decimal(buffer, before);
    }
}
