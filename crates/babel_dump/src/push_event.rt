//! Lines of `events`, part by part, appended to a buffer that has room for them.
ghost use Rattle.std.specs.Prelude.{◌≡◌, ◌+◌, ◌++◌, ◌≤◌, length};
ghost use Rattle.babel_timeline.specs.Changes.{held_after, held_before};
ghost use Rattle.babel_dump.specs.EventText.{after_text, ann_of, answers_json, asked_json};
ghost use Rattle.babel_dump.specs.EventText.{best_text, event_end, route_json};
ghost use Rattle.babel_dump.specs.EventText.{event_end_json, event_front, event_front_json};
ghost use Rattle.babel_dump.specs.EventText.{held_from, held_until, interface_text, kind_verb};
ghost use Rattle.babel_dump.specs.EventText.{silence_json, silence_text, speaker_of};
ghost use Rattle.babel_dump.specs.EventText.{tells_place, time_of, told_json, told_text, verb};
ghost use Rattle.babel_dump.specs.Slices.{HasRoom, TookRoom};

use crate::addr_pair::AddrPair;
use crate::push::{push_announcement, push_decimal, push_link, push_marked, push_octet, push_text};
use crate::push_json::{push_addressed, push_answer_json, push_place_json};
use crate::push_named::{push_named_addr, push_sender_json};
use crate::push_request::{
    push_key, push_key_json, push_request, push_request_json, push_to, push_to_json,
};
use crate::push_time::{push_time_json, push_time_or};
use crate::push_was::push_was;
use crate::speaker::Speaker;
use crate::spelling::Spelling;
use crate::style::Style;
use babel_capture::{Place, Time};
use babel_timeline::{BestMatch, ChangeKind, Telling};
use babel_tlv::{Ann, Held, View};

/// Appends a line of text up to the name of the interface.
pub(crate) fn push_event_front(
    buffer: &mut Vec<u8>,
    style: &Style,
    name: &[u8],
    told: &Telling<Speaker>,
)
    requires { HasRoom buffer.old 424 }
    ensures text { buffer.new.items
        ≡ buffer.old.items ++ event_front style.now name.now told.now }
    ensures room { TookRoom buffer.old buffer.new 424 }
{
    let speaker = speaker_of(told);
    push_time_or(buffer, Time::new(time_of(told)));
    push_text(buffer, " ");
    push_named_addr(buffer, style, speaker.sender);
    push_interface(buffer, speaker.place, name);
}

/// Appends the rest of a line of text.
pub(crate) fn push_event_end(
    buffer: &mut Vec<u8>,
    style: &Style,
    view: View,
    told: &Telling<Speaker>,
)
    requires { HasRoom buffer.old 1643 }
    ensures text { buffer.new.items ≡ buffer.old.items ++ event_end style.now view told.now }
    ensures room { TookRoom buffer.old buffer.new 1643 }
{
    let place = speaker_of(told).place;
    push_link(buffer, place.link);
    push_marked(buffer, " vlan ", ".", &place.vlans.numbers());
    push_text(buffer, " ");
    push_text(buffer, verb(told));
    push_told(buffer, style, view, told);
    push_octet(buffer, b'\n');
}

/// Appends an object up to the name of the interface.
pub(crate) fn push_event_front_json(buffer: &mut Vec<u8>, style: &Style, told: &Telling<Speaker>)
    requires { HasRoom buffer.old 545 }
    ensures text { buffer.new.items ≡ buffer.old.items ++ event_front_json style.now told.now }
    ensures room { TookRoom buffer.old buffer.new 545 }
{
    let speaker = speaker_of(told);
    push_text(buffer, r#"{"time":"#);
    push_time_json(buffer, Time::new(time_of(told)));
    push_text(buffer, r#","sender":"#);
    push_sender_json(buffer, style, speaker.sender);
    push_place_json(buffer, speaker.place);
}

/// Appends the rest of an object.
pub(crate) fn push_event_end_json(
    buffer: &mut Vec<u8>,
    style: &Style,
    view: View,
    pair: Option<AddrPair>,
    told: &Telling<Speaker>,
)
    requires { HasRoom buffer.old 1866 }
    ensures text { buffer.new.items
        ≡ buffer.old.items ++ event_end_json style.now view pair told.now }
    ensures room { TookRoom buffer.old buffer.new 1866 }
{
    push_text(buffer, r#","event":""#);
    push_text(buffer, verb(told));
    push_text(buffer, "\"");
    push_told_json(buffer, style, view, pair, told);
    push_text(buffer, "}");
    push_octet(buffer, b'\n');
}

/// When it was.
pub(crate) fn time_of(told: &Telling<Speaker>) -> u128
    ensures { result ≡ time_of told.now }
{
    match told {
        Telling::Change(change) => change.time,
        Telling::Answer { time, .. } | Telling::Request { time, .. } => *time,
        Telling::Silent { time, .. } | Telling::Returns { time, .. } => *time,
    }
}

/// Of whom it is told.
pub(crate) fn speaker_of(told: &Telling<Speaker>) -> Speaker
    ensures { result ≡ speaker_of told.now }
{
    match told {
        Telling::Change(change) => change.subject.sender,
        Telling::Answer { sender, .. } | Telling::Request { sender, .. } => *sender,
        Telling::Silent { sender, .. } | Telling::Returns { sender, .. } => *sender,
    }
}

/// What is held after it, or answered from then on.
fn held_from(told: &Telling<Speaker>) -> Option<Held>
    ensures { result ≡ held_from told.now }
{
    let answer = match told {
        Telling::Change(change) => held_after(change.kind),
        Telling::Answer { answer, .. } => ann_of(answer),
        Telling::Request { .. } => None,
        Telling::Silent { .. } | Telling::Returns { .. } => None,
    };
    Some(Held::Route(answer?))
}

/// What was held before it, or answered until then.
fn held_until(told: &Telling<Speaker>) -> Option<Held>
    ensures { result ≡ held_until told.now }
{
    let answer = match told {
        Telling::Change(change) => held_before(change.kind),
        Telling::Answer { before, .. } => ann_of(before),
        Telling::Request { .. } => None,
        Telling::Silent { .. } | Telling::Returns { .. } => None,
    };
    Some(Held::Route(answer?))
}

/// What is announced for a best match.
fn ann_of(best: &Option<BestMatch>) -> Option<Ann>
    ensures { result ≡ ann_of best.now }
{
    match best {
        Some(best) => Some(best.ann),
        None => None,
    }
}

/// What is held after a change.
pub(crate) fn held_after(kind: ChangeKind) -> Option<Ann>
    ensures { result ≡ held_after kind }
{
    match kind {
        ChangeKind::Announced(now) | ChangeKind::Changed { now, .. } => Some(now),
        ChangeKind::Retracted(_) | ChangeKind::Expired(_) => None,
    }
}

/// What was held before a change.
pub(crate) fn held_before(kind: ChangeKind) -> Option<Ann>
    ensures { result ≡ held_before kind }
{
    match kind {
        ChangeKind::Announced(_) => None,
        ChangeKind::Changed { before, .. } => Some(before),
        ChangeKind::Retracted(before) | ChangeKind::Expired(before) => Some(before),
    }
}

/// What happens.
fn verb(told: &Telling<Speaker>) -> &'static str
    ensures text { result.now ≡ verb told.now }
    ensures short { length result.now ≤ 9 }
{
    match told {
        Telling::Change(change) => kind_verb(change.kind),
        Telling::Answer { .. } => "answers",
        Telling::Request { .. } => "requests",
        Telling::Silent { .. } => "silent",
        Telling::Returns { .. } => "returns",
    }
}

/// How what is held changes.
fn kind_verb(kind: ChangeKind) -> &'static str
    ensures text { result.now ≡ kind_verb kind }
    ensures short { length result.now ≤ 9 }
{
    match kind {
        ChangeKind::Announced(_) => "announces",
        ChangeKind::Changed { .. } => "changes",
        ChangeKind::Retracted(_) => "retracts",
        ChangeKind::Expired(_) => "expires",
    }
}

/// Whether the place is told, whose interface has this name.
fn tells_place(place: Place, name: &[u8]) -> bool
    ensures { result ≡ tells_place place name.now }
{
    !name.is_empty() || place != Place::on(0)
}

/// Appends the number of the interface, where the place is told.
pub(crate) fn push_interface(buffer: &mut Vec<u8>, place: Place, name: &[u8])
    requires { HasRoom buffer.old 31 }
    ensures text { buffer.new.items ≡ buffer.old.items ++ interface_text place name.now }
    ensures room { TookRoom buffer.old buffer.new 31 }
{
    if tells_place(place, name) {
        push_text(buffer, " interface ");
        push_decimal(buffer, place.interface);
    }
}

/// Appends what is told.
fn push_told(buffer: &mut Vec<u8>, style: &Style, view: View, told: &Telling<Speaker>)
    requires { HasRoom buffer.old 1572 }
    ensures text { buffer.new.items ≡ buffer.old.items ++ told_text style.now view told.now }
    ensures room { TookRoom buffer.old buffer.new 1572 }
{
    match told {
        Telling::Change(change) => {
            push_key(buffer, style.spelling, change.subject.key);
            push_after(buffer, style, view, held_after(change.kind));
            push_was(buffer, style, change.kind);
        }
        Telling::Answer { answer, .. } => push_best(buffer, style, view, answer),
        Telling::Request { to, request, .. } => {
            push_to(buffer, style.spelling, *to);
            push_request(buffer, style, request);
        }
        Telling::Silent { since, routes, .. } => push_silence(buffer, *since, *routes),
        Telling::Returns { .. } => {}
    }
}

/// Appends the route that answers, under a view, or `none`.
fn push_best(buffer: &mut Vec<u8>, style: &Style, view: View, best: &Option<BestMatch>)
    requires { HasRoom buffer.old 832 }
    ensures text { buffer.new.items ≡ buffer.old.items ++ best_text style.now view best.now }
    ensures room { TookRoom buffer.old buffer.new 832 }
{
    match best {
        Some(best) => {
            push_key(buffer, style.spelling, best.key);
            push_after(buffer, style, view, Some(best.ann));
        }
        None => push_text(buffer, " none"),
    }
}

/// Appends since when a sender is silent, and how many routes it holds.
fn push_silence(buffer: &mut Vec<u8>, since: u128, routes: usize)
    requires { HasRoom buffer.old 74 }
    ensures text { buffer.new.items ≡ buffer.old.items ++ silence_text since routes }
    ensures room { TookRoom buffer.old buffer.new 74 }
{
    push_text(buffer, " since ");
    push_time_or(buffer, Time::new(since));
    push_text(buffer, ", holding ");
    push_decimal(buffer, routes);
    push_text(buffer, if routes == 1 { " route" } else { " routes" });
}

/// Appends the same: two members of an object.
fn push_silence_json(buffer: &mut Vec<u8>, since: u128, routes: usize)
    requires { HasRoom buffer.old 71 }
    ensures text { buffer.new.items ≡ buffer.old.items ++ silence_json since routes }
    ensures room { TookRoom buffer.old buffer.new 71 }
{
    push_text(buffer, r#","since":"#);
    push_time_json(buffer, Time::new(since));
    push_text(buffer, r#","routes":"#);
    push_decimal(buffer, routes);
}

/// Appends what is held after a change, under a view, or nothing where nothing is.
fn push_after(buffer: &mut Vec<u8>, style: &Style, view: View, after: Option<Ann>)
    requires { HasRoom buffer.old 735 }
    ensures text { buffer.new.items ≡ buffer.old.items ++ after_text style.now view after }
    ensures room { TookRoom buffer.old buffer.new 735 }
{
    if let Some(ann) = after {
        push_text(buffer, " ");
        push_announcement(buffer, style, view, ann);
    }
}

/// Appends what is told, and of a change and an answer what is held and what was: members of an
/// object.
fn push_told_json(
    buffer: &mut Vec<u8>,
    style: &Style,
    view: View,
    pair: Option<AddrPair>,
    told: &Telling<Speaker>,
)
    requires { HasRoom buffer.old 1844 }
    ensures text { buffer.new.items ≡ buffer.old.items ++ told_json style.now view pair told.now }
    ensures room { TookRoom buffer.old buffer.new 1844 }
{
    match told {
        Telling::Change(change) => {
            let key = change.subject.key;
            push_text(buffer, ",");
            push_addressed(buffer, style.spelling, key.dst(), key.src());
            push_answers(buffer, style, view, told);
        }
        Telling::Answer { answer, .. } => {
            push_text(buffer, ",");
            push_asked(buffer, style.spelling, pair);
            push_route(buffer, style.spelling, answer);
            push_answers(buffer, style, view, told);
        }
        Telling::Request { to, request, .. } => {
            push_text(buffer, ",");
            push_to_json(buffer, style.spelling, *to);
            push_request_json(buffer, style, request);
        }
        Telling::Silent { since, routes, .. } => push_silence_json(buffer, *since, *routes),
        Telling::Returns { .. } => {}
    }
}

/// Appends what is held after it, or answered from then on, and what was before: two members of an
/// object.
fn push_answers(buffer: &mut Vec<u8>, style: &Style, view: View, told: &Telling<Speaker>)
    requires { HasRoom buffer.old 1604 }
    ensures text { buffer.new.items ≡ buffer.old.items ++ answers_json style.now view told.now }
    ensures room { TookRoom buffer.old buffer.new 1604 }
{
    push_text(buffer, r#","answer":"#);
    push_answer_json(buffer, style, view, held_from(told));
    push_text(buffer, r#","before":"#);
    push_answer_json(buffer, style, view, held_until(told));
}

/// Appends which route answers, or that none does: a member of an object.
fn push_route(buffer: &mut Vec<u8>, spelling: Spelling, best: &Option<BestMatch>)
    requires { HasRoom buffer.old 125 }
    ensures text { buffer.new.items ≡ buffer.old.items ++ route_json spelling best.now }
    ensures room { TookRoom buffer.old buffer.new 125 }
{
    match best {
        Some(best) => {
            push_text(buffer, r#","route":{"#);
            push_key_json(buffer, spelling, best.key);
            push_text(buffer, "}");
        }
        None => push_text(buffer, r#","route":null"#),
    }
}

/// Appends the destination and the source that are asked for: two members of an object.
fn push_asked(buffer: &mut Vec<u8>, spelling: Spelling, pair: Option<AddrPair>)
    requires { HasRoom buffer.old 114 }
    ensures text { buffer.new.items ≡ buffer.old.items ++ asked_json spelling pair }
    ensures room { TookRoom buffer.old buffer.new 114 }
{
    match pair {
        Some(pair) => push_addressed(buffer, spelling, pair.dst, pair.src),
        None => push_text(buffer, r#""destination":null,"source":null"#),
    }
}
