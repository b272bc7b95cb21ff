//! Lines as JSON (RFC 8259), appended to a buffer that has room for them. No text of an address
//! or a router-id has a character that JSON escapes.
ghost use Rattle.std.specs.Prelude.{◌≡◌, ◌+◌, ◌++◌, Some, length};
ghost use Rattle.babel_dump.specs.CaptureText.{interval_json, number_json, place_json};
ghost use Rattle.babel_dump.specs.CaptureText.{sender_end_json, sender_front_json, vlans_json};
ghost use Rattle.babel_dump.specs.JsonText.{addressed_json, announcement_json, answer_json};
ghost use Rattle.babel_dump.specs.JsonText.{answered_front, counts_json, differ_json};
ghost use Rattle.babel_dump.specs.JsonText.{count_json, lookup_json, next_hop_json, pair_json};
ghost use Rattle.babel_dump.specs.JsonText.{route_json, route_member, router_json};
ghost use Rattle.babel_dump.specs.Slices.{HasRoom, TookRoom};

use crate::addr_pair::AddrPair;
use crate::output::Answered;
use crate::push::{
    push_decimal, push_marked, push_number, push_octet, push_router_id, push_seconds, push_text,
};
use crate::push_addr::{Shown, push_addr};
use crate::push_named::push_name_member;
use crate::push_time::push_time_json;
use crate::spelling::Spelling;
use crate::style::Style;
use babel_capture::{Origin, Place, Tally, Vlans};
use babel_prefix::Addr;
use babel_tlv::{Ann, Held, Key, View};

/// Appends a row of a table, as the runs show it under a view.
pub(crate) fn push_pair_json(buffer: &mut Vec<u8>, style: &Style, view: View, key: Key, held: Held)
    requires { HasRoom buffer.old 923 }
    ensures text { buffer.new.items ≡ buffer.old.items ++ pair_json style.now view (key, held) }
    ensures room { TookRoom buffer.old buffer.new 923 }
{
    push_answered(buffer, style, view, key.dst(), key.src(), Some(held));
    push_text(buffer, "}\n");
}

/// Appends what is answered by a row for a destination and a source: an object.
pub(crate) fn push_lookup_json(buffer: &mut Vec<u8>, style: &Style, answered: &Answered)
    requires { HasRoom buffer.old 1052 }
    ensures text { buffer.new.items ≡ buffer.old.items ++ lookup_json style.now
        answered.now.with_prefix answered.now.pair.dst answered.now.pair.src answered.now.row }
    ensures room { TookRoom buffer.old buffer.new 1052 }
{
    let held = answered.held();
    let AddrPair { dst, src } = answered.pair;
    push_answered(buffer, style, View::all(), dst, src, held);
    push_route_member(buffer, style.spelling, answered);
    push_text(buffer, "}\n");
}

/// Appends the prefixes of the row that answers, where they are asked for: a member of an object.
fn push_route_member(buffer: &mut Vec<u8>, spelling: Spelling, answered: &Answered)
    requires { HasRoom buffer.old 129 }
    ensures text { buffer.new.items
        ≡ buffer.old.items ++ route_member spelling answered.now.with_prefix answered.now.row }
    ensures room { TookRoom buffer.old buffer.new 129 }
{
    if answered.with_prefix {
        push_text(buffer, r#","route":"#);
        push_route_json(buffer, spelling, answered.row);
    }
}

/// Appends the prefixes of a row: an object, or `null`.
fn push_route_json(buffer: &mut Vec<u8>, spelling: Spelling, row: Option<(Key, Held)>)
    requires { HasRoom buffer.old 120 }
    ensures text { buffer.new.items ≡ buffer.old.items ++ route_json spelling row }
    ensures room { TookRoom buffer.old buffer.new 120 }
{
    match row {
        Some((key, _)) => {
            push_text(buffer, "{");
            push_addressed(buffer, spelling, key.dst(), key.src());
            push_text(buffer, "}");
        }
        None => push_text(buffer, "null"),
    }
}

/// Appends what is answered for a destination and a source, under a view: the front of an object.
pub(crate) fn push_answered<A: Shown>(
    buffer: &mut Vec<u8>,
    style: &Style,
    view: View,
    dst: A,
    src: A,
    answer: Option<Held>,
)
    requires { HasRoom buffer.old 921 }
    ensures text { buffer.new.items ≡ buffer.old.items
        ++ answered_front style.now view (A.text style.now.spelling dst)
        (A.text style.now.spelling src) answer }
    ensures room { TookRoom buffer.old buffer.new 921 }
{
    push_text(buffer, "{");
    push_addressed(buffer, style.spelling, dst, src);
    push_text(buffer, r#","answer":"#);
    push_answer_json(buffer, style, view, answer);
}

/// Appends what two tables answer for a destination and a source, under a view: an object.
pub(crate) fn push_differ_json<A: Shown>(
    buffer: &mut Vec<u8>,
    style: &Style,
    view: View,
    dst: A,
    src: A,
    left: Option<Held>,
    right: Option<Held>,
)
    requires { HasRoom buffer.old 1735 }
    ensures text { buffer.new.items ≡ buffer.old.items
        ++ differ_json style.now view (A.text style.now.spelling dst)
        (A.text style.now.spelling src) left right }
    ensures room { TookRoom buffer.old buffer.new 1735 }
{
    push_text(buffer, r#"{"same":false,"#);
    push_addressed(buffer, style.spelling, dst, src);
    push_text(buffer, r#","left":"#);
    push_answer_json(buffer, style, view, left);
    push_text(buffer, r#","right":"#);
    push_answer_json(buffer, style, view, right);
    push_text(buffer, "}");
    push_octet(buffer, b'\n');
}

/// Appends how many rows and pairs there are: an object.
pub(crate) fn push_counts_json(buffer: &mut Vec<u8>, rows: usize, pairs: usize)
    requires { HasRoom buffer.old 61 }
    ensures text { buffer.new.items ≡ buffer.old.items ++ counts_json rows pairs }
    ensures room { TookRoom buffer.old buffer.new 61 }
{
    push_text(buffer, r#"{"routes":"#);
    push_decimal(buffer, rows);
    push_text(buffer, r#","pairs":"#);
    push_decimal(buffer, pairs);
    push_text(buffer, "}");
    push_octet(buffer, b'\n');
}

/// Appends how many there are of what has this name: an object.
pub(crate) fn push_count_json(buffer: &mut Vec<u8>, name: &str, count: usize)
    requires { HasRoom buffer.old (length name.now + 27) }
    ensures text { buffer.new.items ≡ buffer.old.items ++ count_json name.now count }
    ensures room { TookRoom buffer.old buffer.new (length name.now + 27) }
{
    push_text(buffer, r#"{""#);
    push_text(buffer, name);
    push_text(buffer, r#"":"#);
    push_decimal(buffer, count);
    push_text(buffer, "}");
    push_octet(buffer, b'\n');
}

/// Appends a sender and its place: the front of an object, up to the interface's name.
pub(crate) fn push_sender_front_json(buffer: &mut Vec<u8>, spelling: Spelling, origin: Origin)
    requires { HasRoom buffer.old 165 }
    ensures text { buffer.new.items ≡ buffer.old.items ++ sender_front_json spelling origin }
    ensures room { TookRoom buffer.old buffer.new 165 }
{
    push_text(buffer, r#"{"sender":""#);
    push_addr(buffer, spelling, origin.sender);
    push_text(buffer, "\"");
    push_place_json(buffer, origin.place);
}

/// Appends a place, up to the interface's name: members of an object.
pub(crate) fn push_place_json(buffer: &mut Vec<u8>, place: Place)
    requires { HasRoom buffer.old 114 }
    ensures text { buffer.new.items ≡ buffer.old.items ++ place_json place }
    ensures room { TookRoom buffer.old buffer.new 114 }
{
    push_text(buffer, r#","interface":"#);
    push_decimal(buffer, place.interface);
    push_text(buffer, r#","link":"#);
    push_number_json(buffer, place.link);
    push_text(buffer, r#","vlans":"#);
    push_vlans_json(buffer, place.vlans);
    push_text(buffer, r#","name":"#);
}

/// Appends what a sender sent: the end of an object.
pub(crate) fn push_sender_end_json(buffer: &mut Vec<u8>, tally: Tally)
    requires { HasRoom buffer.old 243 }
    ensures text { buffer.new.items ≡ buffer.old.items ++ sender_end_json tally }
    ensures room { TookRoom buffer.old buffer.new 243 }
{
    push_text(buffer, r#","packets":"#);
    push_decimal(buffer, tally.packets);
    push_text(buffer, r#","octets":"#);
    push_decimal(buffer, tally.octets);
    push_text(buffer, r#","updates":"#);
    push_decimal(buffer, tally.updates);
    push_text(buffer, r#","interval":"#);
    push_interval_json(buffer, tally.interval);
    push_text(buffer, r#","first":"#);
    push_time_json(buffer, tally.first);
    push_text(buffer, r#","last":"#);
    push_time_json(buffer, tally.last);
    push_text(buffer, r#","trailers":"#);
    push_decimal(buffer, tally.trailers);
    push_text(buffer, "}");
    push_octet(buffer, b'\n');
}

/// Appends the numbers of VLANs: an array.
fn push_vlans_json(buffer: &mut Vec<u8>, vlans: Vlans)
    requires { HasRoom buffer.old 46 }
    ensures text { buffer.new.items ≡ buffer.old.items ++ vlans_json vlans }
    ensures room { TookRoom buffer.old buffer.new 46 }
{
    push_text(buffer, "[");
    push_marked(buffer, "", ",", &vlans.numbers());
    push_text(buffer, "]");
}

/// Appends an Interval in seconds, or `null`.
pub(crate) fn push_interval_json(buffer: &mut Vec<u8>, interval: Option<u16>)
    requires { HasRoom buffer.old 23 }
    ensures text { buffer.new.items ≡ buffer.old.items ++ interval_json interval }
    ensures room { TookRoom buffer.old buffer.new 23 }
{
    match interval {
        Some(interval) => push_seconds(buffer, u64::from(interval)),
        None => push_text(buffer, "null"),
    }
}

/// Appends a number, or `null`.
fn push_number_json(buffer: &mut Vec<u8>, link: Option<u32>)
    requires { HasRoom buffer.old 10 }
    ensures text { buffer.new.items ≡ buffer.old.items ++ number_json link }
    ensures room { TookRoom buffer.old buffer.new 10 }
{
    match link {
        Some(number) => push_decimal(buffer, number),
        None => push_text(buffer, "null"),
    }
}

/// Appends a destination and a source: two members of an object.
pub(crate) fn push_addressed<A: Shown>(buffer: &mut Vec<u8>, spelling: Spelling, dst: A, src: A)
    requires { HasRoom buffer.old 114 }
    ensures text { buffer.new.items
        ≡ buffer.old.items ++ addressed_json (A.text spelling dst) (A.text spelling src) }
    ensures room { TookRoom buffer.old buffer.new 114 }
{
    push_text(buffer, r#""destination":""#);
    dst.push(buffer, spelling);
    push_text(buffer, r#"","source":""#);
    src.push(buffer, spelling);
    push_text(buffer, "\"");
}

/// Appends what is answered, under a view: an object, or `null`.
pub(crate) fn push_answer_json(
    buffer: &mut Vec<u8>,
    style: &Style,
    view: View,
    answer: Option<Held>,
)
    requires { HasRoom buffer.old 792 }
    ensures text { buffer.new.items ≡ buffer.old.items ++ answer_json style.now view answer }
    ensures room { TookRoom buffer.old buffer.new 792 }
{
    match answer {
        Some(held) => push_held_json(buffer, style, view, held),
        None => push_text(buffer, "null"),
    }
}

/// Appends what stands for a key, under a view: an object.
fn push_held_json(buffer: &mut Vec<u8>, style: &Style, view: View, held: Held)
    requires { HasRoom buffer.old 792 }
    ensures text { buffer.new.items ≡ buffer.old.items ++ answer_json style.now view (Some held) }
    ensures room { TookRoom buffer.old buffer.new 792 }
{
    match held {
        Held::Route(ann) => push_announcement_json(buffer, style, view, ann),
        Held::Unreachable => push_text(buffer, r#"{"unreachable":true}"#),
    }
}

/// Appends the route that is announced, under a view: an object.
fn push_announcement_json(buffer: &mut Vec<u8>, style: &Style, view: View, ann: Ann)
    requires { HasRoom buffer.old 792 }
    ensures text { buffer.new.items ≡ buffer.old.items ++ announcement_json style.now view ann }
    ensures room { TookRoom buffer.old buffer.new 792 }
{
    push_text(buffer, r#"{"next_hop":"#);
    push_next_hop(buffer, style, view.next_hop, ann.next_hop());
    push_text(buffer, r#","router_id":"#);
    push_kept_id(buffer, style, view.router_id, ann.router_id());
    push_text(buffer, r#","seqno":"#);
    push_number(buffer, view.seqno, "null", ann.seqno());
    push_text(buffer, r#","metric":"#);
    push_number(buffer, view.metric, "null", ann.metric());
    push_text(buffer, "}");
}

/// Appends the next hop and its name where it is kept, or `null`.
fn push_next_hop(buffer: &mut Vec<u8>, style: &Style, kept: bool, next_hop: Addr)
    requires { HasRoom buffer.old 380 }
    ensures text { buffer.new.items ≡ buffer.old.items ++ next_hop_json style.now kept next_hop }
    ensures room { TookRoom buffer.old buffer.new 380 }
{
    if kept {
        push_text(buffer, "\"");
        push_addr(buffer, style.spelling, next_hop);
        push_text(buffer, "\"");
        push_name_member(buffer, style, "next_hop_name", style.of_address(next_hop));
    } else {
        push_text(buffer, "null");
        push_name_member(buffer, style, "next_hop_name", &[]);
    }
}

/// Appends the router-id and its name where it is kept, or `null`.
pub(crate) fn push_kept_id(buffer: &mut Vec<u8>, style: &Style, kept: bool, router_id: [u8; 8])
    requires { HasRoom buffer.old 357 }
    ensures text { buffer.new.items ≡ buffer.old.items ++ router_json style.now kept router_id }
    ensures room { TookRoom buffer.old buffer.new 357 }
{
    if kept {
        push_text(buffer, "\"");
        push_router_id(buffer, router_id);
        push_text(buffer, "\"");
        push_name_member(buffer, style, "router_name", style.of_router(router_id));
    } else {
        push_text(buffer, "null");
        push_name_member(buffer, style, "router_name", &[]);
    }
}
