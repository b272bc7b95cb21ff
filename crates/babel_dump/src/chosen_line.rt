//! Lines of `select`.
ghost use Rattle.std.specs.Prelude.{◌≡◌, ◌++◌, ◌≤◌, OnOk, length};
ghost use Rattle.babel_dump.specs.SelectText.{chosen_end, chosen_end_json, chosen_front};
ghost use Rattle.babel_dump.specs.SelectText.{chosen_front_json, chosen_in, chosen_with};
ghost use Rattle.babel_dump.specs.SelectText.{distance_json, forbidding_text, metric_text};
ghost use Rattle.babel_dump.specs.SelectText.{state_json, state_name};
ghost use Rattle.babel_dump.specs.Slices.{HasRoom, TookRoom};

use crate::format::Format;
use crate::led::lead_output;
use crate::push::{push_decimal, push_octet, push_pair, push_text};
use crate::push_json::{push_addressed, push_answer_json};
use crate::speaker::Speaker;
use crate::style::Style;
use babel_capture::{Gathered, Origin};
use babel_selection::{ChosenRoute, Distance, INFINITY, RouteState};
use babel_tlv::{Held, View};
use std::alloc::{AllocError, Global};

/// No line is longer, but for the sender and its place.
const ROOM: usize = 1040;

/// Appends the line of a route.
pub(crate) fn push_chosen(
    alloc: Global,
    text: &mut Vec<u8>,
    format: &Format,
    gathered: &Gathered,
    route: &ChosenRoute<Speaker>,
) -> Result<(), AllocError>
    ensures { OnOk result
        (text.new.items ≡ text.old.items ++ chosen_in format.now gathered.now route.now) }
{
    let Speaker { sender, place } = route.offer.by;
    let name = gathered.name(place.interface);
    let lead = lead_output(alloc, format, Origin { place, sender }, name)?;
    push_led_route(text, format, &lead, route)
}

/// Appends the line of a route of a sender, which is led so.
fn push_led_route(
    text: &mut Vec<u8>,
    format: &Format,
    lead: &[u8],
    route: &ChosenRoute<Speaker>,
) -> Result<(), AllocError>
    ensures { OnOk result
        (text.new.items ≡ text.old.items ++ chosen_with format.now lead.now route.now) }
{
    match format {
        Format::Text(style) => {
            text.reserve(ROOM)?;
            push_front(text, style, route);
            text.extend_from_slice(lead)?;
            text.reserve(ROOM)?;
            push_end(text, route);
        }
        Format::Json(style) => {
            text.extend_from_slice(lead)?;
            text.reserve(ROOM)?;
            push_front_json(text, style, route);
            push_end_json(text, route);
        }
    }
    Ok(())
}

/// Appends a line up to the sender.
fn push_front(buffer: &mut Vec<u8>, style: &Style, route: &ChosenRoute<Speaker>)
    requires { HasRoom buffer.old 835 }
    ensures text { buffer.new.items ≡ buffer.old.items ++ chosen_front style.now route.now }
    ensures room { TookRoom buffer.old buffer.new 835 }
{
    let held = Held::Route(route.offer.ann);
    push_pair(buffer, style, View::all(), route.offer.key, held);
    push_text(buffer, " by ");
}

/// Appends the rest of the line.
fn push_end(buffer: &mut Vec<u8>, route: &ChosenRoute<Speaker>)
    requires { HasRoom buffer.old 64 }
    ensures text { buffer.new.items ≡ buffer.old.items ++ chosen_end route.now }
    ensures room { TookRoom buffer.old buffer.new 64 }
{
    push_text(buffer, "cost ");
    push_metric(buffer, route.offer.cost);
    push_text(buffer, " total ");
    push_metric(buffer, route.offer.total);
    push_octet(buffer, b' ');
    push_text(buffer, state_name(route.state));
    push_forbidding(buffer, route);
    push_octet(buffer, b'\n');
}

/// Appends a cost or a metric in decimal, or that it is infinite.
fn push_metric(buffer: &mut Vec<u8>, metric: u16)
    requires { HasRoom buffer.old 8 }
    ensures text { buffer.new.items ≡ buffer.old.items ++ metric_text metric }
    ensures room { TookRoom buffer.old buffer.new 8 }
{
    if metric == INFINITY {
        push_text(buffer, "infinite");
    } else {
        push_decimal(buffer, metric);
    }
}

/// What a route is to the router.
fn state_name(state: Option<RouteState>) -> &'static str
    ensures text { result.now ≡ state_name state }
    ensures short { length result.now ≤ 11 }
{
    match state {
        None => "own",
        Some(RouteState::Unheard) => "unheard",
        Some(RouteState::Unreachable) => "unreachable",
        Some(RouteState::Unfeasible) => "unfeasible",
        Some(RouteState::Selected) => "selected",
        Some(RouteState::Feasible) => "feasible",
    }
}

/// Appends the seqno and the metric of the entry that forbids a route, if one does.
fn push_forbidding(buffer: &mut Vec<u8>, route: &ChosenRoute<Speaker>)
    requires { HasRoom buffer.old 12 }
    ensures text { buffer.new.items
        ≡ buffer.old.items ++ forbidding_text route.now.state route.now.distance }
    ensures room { TookRoom buffer.old buffer.new 12 }
{
    let (Some(RouteState::Unfeasible), Some(distance)) = (route.state, route.distance) else {
        return;
    };
    push_octet(buffer, b' ');
    push_decimal(buffer, distance.seqno);
    push_octet(buffer, b' ');
    push_decimal(buffer, distance.metric);
}

/// Appends the members of an object that follow the sender: those of a row of a table.
fn push_front_json(buffer: &mut Vec<u8>, style: &Style, route: &ChosenRoute<Speaker>)
    requires { HasRoom buffer.old 920 }
    ensures text { buffer.new.items ≡ buffer.old.items ++ chosen_front_json style.now route.now }
    ensures room { TookRoom buffer.old buffer.new 920 }
{
    let (key, held) = (route.offer.key, Held::Route(route.offer.ann));
    push_addressed(buffer, style.spelling, key.dst(), key.src());
    push_text(buffer, r#","answer":"#);
    push_answer_json(buffer, style, View::all(), Some(held));
}

/// Appends the rest of the object.
fn push_end_json(buffer: &mut Vec<u8>, route: &ChosenRoute<Speaker>)
    requires { HasRoom buffer.old 100 }
    ensures text { buffer.new.items ≡ buffer.old.items ++ chosen_end_json route.now }
    ensures room { TookRoom buffer.old buffer.new 100 }
{
    push_text(buffer, r#","cost":"#);
    push_decimal(buffer, route.offer.cost);
    push_text(buffer, r#","total":"#);
    push_decimal(buffer, route.offer.total);
    push_state_json(buffer, route);
}

/// Appends what a route is to the router, and the entry for it.
fn push_state_json(buffer: &mut Vec<u8>, route: &ChosenRoute<Speaker>)
    requires { HasRoom buffer.old 72 }
    ensures text { buffer.new.items ≡ buffer.old.items ++ state_json route.now }
    ensures room { TookRoom buffer.old buffer.new 72 }
{
    push_text(buffer, r#","state":""#);
    push_text(buffer, state_name(route.state));
    push_text(buffer, r#"","distance":"#);
    push_distance_json(buffer, route.distance);
    push_text(buffer, "}");
    push_octet(buffer, b'\n');
}

/// Appends an entry of the source table: an object, or `null`.
fn push_distance_json(buffer: &mut Vec<u8>, distance: Option<Distance>)
    requires { HasRoom buffer.old 32 }
    ensures text { buffer.new.items ≡ buffer.old.items ++ distance_json distance }
    ensures room { TookRoom buffer.old buffer.new 32 }
{
    match distance {
        Some(distance) => {
            push_text(buffer, r#"{"seqno":"#);
            push_decimal(buffer, distance.seqno);
            push_text(buffer, r#","metric":"#);
            push_decimal(buffer, distance.metric);
            push_text(buffer, "}");
        }
        None => push_text(buffer, "null"),
    }
}
