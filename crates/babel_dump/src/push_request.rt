//! Texts of requests, appended to a buffer that has room for them.
ghost use Rattle.std.specs.Prelude.{◌≡◌, ◌++◌};
ghost use Rattle.babel_dump.specs.RequestText.{key_json, key_text, request_json, request_text};
ghost use Rattle.babel_dump.specs.RequestText.{to_json, to_text};
ghost use Rattle.babel_dump.specs.Slices.{HasRoom, TookRoom};

use crate::push::{push_decimal, push_text};
use crate::push_addr::{push_addr, push_from, push_prefix};
use crate::push_json::{push_addressed, push_kept_id};
use crate::push_named::push_named_id;
use crate::spelling::Spelling;
use crate::style::Style;
use babel_prefix::Addr;
use babel_tlv::{Key, Request};

/// Appends a key.
pub(crate) fn push_key(buffer: &mut Vec<u8>, spelling: Spelling, key: Key)
    requires { HasRoom buffer.old 97 }
    ensures text { buffer.new.items ≡ buffer.old.items ++ key_text spelling key }
    ensures room { TookRoom buffer.old buffer.new 97 }
{
    push_text(buffer, " ");
    push_prefix(buffer, spelling, key.dst());
    push_from(buffer, spelling, key.src());
}

/// Appends of whom it is requested, where that is one.
pub(crate) fn push_to(buffer: &mut Vec<u8>, spelling: Spelling, to: Option<Addr>)
    requires { HasRoom buffer.old 43 }
    ensures text { buffer.new.items ≡ buffer.old.items ++ to_text spelling to }
    ensures room { TookRoom buffer.old buffer.new 43 }
{
    if let Some(to) = to {
        push_text(buffer, " to ");
        push_addr(buffer, spelling, to);
    }
}

/// Appends what is requested.
pub(crate) fn push_request(buffer: &mut Vec<u8>, style: &Style, request: &Request)
    requires { HasRoom buffer.old 452 }
    ensures text { buffer.new.items ≡ buffer.old.items ++ request_text style.now request.now }
    ensures room { TookRoom buffer.old buffer.new 452 }
{
    match request {
        Request::All => push_text(buffer, " all"),
        Request::Route(key) => push_key(buffer, style.spelling, *key),
        Request::Seqno {
            key,
            router_id,
            seqno,
        } => {
            push_key(buffer, style.spelling, *key);
            push_text(buffer, " id ");
            push_named_id(buffer, style, *router_id);
            push_text(buffer, " seqno ");
            push_decimal(buffer, *seqno);
        }
    }
}

/// Appends of whom it is requested: a member of an object.
pub(crate) fn push_to_json(buffer: &mut Vec<u8>, spelling: Spelling, to: Option<Addr>)
    requires { HasRoom buffer.old 47 }
    ensures text { buffer.new.items ≡ buffer.old.items ++ to_json spelling to }
    ensures room { TookRoom buffer.old buffer.new 47 }
{
    match to {
        Some(to) => {
            push_text(buffer, r#""to":""#);
            push_addr(buffer, spelling, to);
            push_text(buffer, r#"","#);
        }
        None => push_text(buffer, r#""to":null,"#),
    }
}

/// Appends what is requested: four members of an object.
pub(crate) fn push_request_json(buffer: &mut Vec<u8>, style: &Style, request: &Request)
    requires { HasRoom buffer.old 502 }
    ensures text { buffer.new.items ≡ buffer.old.items ++ request_json style.now request.now }
    ensures room { TookRoom buffer.old buffer.new 502 }
{
    match request {
        Request::All => push_text(
            buffer,
            r#""destination":null,"source":null,"router_id":null,"seqno":null"#,
        ),
        Request::Route(key) => {
            push_key_json(buffer, style.spelling, *key);
            push_text(buffer, r#","router_id":null,"seqno":null"#);
        }
        Request::Seqno {
            key,
            router_id,
            seqno,
        } => {
            push_key_json(buffer, style.spelling, *key);
            push_text(buffer, r#","router_id":"#);
            push_kept_id(buffer, style, true, *router_id);
            push_text(buffer, r#","seqno":"#);
            push_decimal(buffer, *seqno);
        }
    }
}

/// Appends a key: two members of an object.
pub(crate) fn push_key_json(buffer: &mut Vec<u8>, spelling: Spelling, key: Key)
    requires { HasRoom buffer.old 114 }
    ensures text { buffer.new.items ≡ buffer.old.items ++ key_json spelling key }
    ensures room { TookRoom buffer.old buffer.new 114 }
{
    push_addressed(buffer, spelling, key.dst(), key.src());
}
