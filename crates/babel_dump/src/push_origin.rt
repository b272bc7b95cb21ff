//! Lines of who originates what, appended to a buffer that has room for them.
ghost use Rattle.std.specs.Prelude.{◌≡◌, ◌++◌};
ghost use Rattle.babel_dump.specs.OriginText.{change_json, change_line, marked_origin};
ghost use Rattle.babel_dump.specs.OriginText.{origin_front, origin_json, origin_members};
ghost use Rattle.babel_dump.specs.OriginText.{origin_text, side_json};
ghost use Rattle.babel_dump.specs.Slices.{HasRoom, TookRoom};

use crate::diff_rows::{row_end, row_mark};
use crate::originated::{Announced, OnSides, Origination};
use crate::push::{push_decimal, push_number, push_text};
use crate::push_addr::{push_from, push_prefix};
use crate::push_json::{push_addressed, push_kept_id};
use crate::push_named::push_named_id;
use crate::run_fault::Side;
use crate::style::Style;

/// Appends what is originated, without the line's end: the metric, or `-` where it does not count.
pub(crate) fn push_origin(
    buffer: &mut Vec<u8>,
    style: &Style,
    has_metric: bool,
    one: &Origination,
    announced: Announced,
)
    requires { HasRoom buffer.old 469 }
    ensures text { buffer.new.items
        ≡ buffer.old.items ++ origin_text style.now has_metric one.now announced }
    ensures room { TookRoom buffer.old buffer.new 469 }
{
    push_prefix(buffer, style.spelling, one.key.dst());
    push_from(buffer, style.spelling, one.key.src());
    push_text(buffer, " id ");
    push_named_id(buffer, style, one.router_id);
    push_text(buffer, " metric ");
    push_number(buffer, has_metric, "-", announced.metric);
    push_text(buffer, " senders ");
    push_decimal(buffer, announced.senders);
}

/// Appends what is originated: an object.
pub(crate) fn push_origin_json(
    buffer: &mut Vec<u8>,
    style: &Style,
    one: &Origination,
    announced: Announced,
)
    requires { HasRoom buffer.old 523 }
    ensures text { buffer.new.items ≡ buffer.old.items ++ origin_json style.now one.now announced }
    ensures room { TookRoom buffer.old buffer.new 523 }
{
    push_origin_front(buffer, style, one);
    push_members(buffer, true, announced);
    push_text(buffer, "}\n");
}

/// Appends the first members of such an object.
fn push_origin_front(buffer: &mut Vec<u8>, style: &Style, one: &Origination)
    requires { HasRoom buffer.old 486 }
    ensures text { buffer.new.items ≡ buffer.old.items ++ origin_front style.now one.now }
    ensures room { TookRoom buffer.old buffer.new 486 }
{
    push_text(buffer, "{");
    push_addressed(buffer, style.spelling, one.key.dst(), one.key.src());
    push_text(buffer, r#","router_id":"#);
    push_kept_id(buffer, style, true, one.router_id);
    push_text(buffer, ",");
}

/// Appends its last members.
fn push_members(buffer: &mut Vec<u8>, has_metric: bool, announced: Announced)
    requires { HasRoom buffer.old 35 }
    ensures text { buffer.new.items ≡ buffer.old.items ++ origin_members has_metric announced }
    ensures room { TookRoom buffer.old buffer.new 35 }
{
    push_text(buffer, r#""metric":"#);
    push_number(buffer, has_metric, "null", announced.metric);
    push_text(buffer, r#","senders":"#);
    push_decimal(buffer, announced.senders);
}

/// Appends what one of two captures has, and the other, each on a line.
pub(crate) fn push_change(
    buffer: &mut Vec<u8>,
    style: &Style,
    coloured: bool,
    has_metric: bool,
    one: &Origination,
    sides: OnSides,
)
    requires { HasRoom buffer.old 960 }
    ensures text { buffer.new.items
        ≡ buffer.old.items ++ change_line style.now coloured has_metric one.now sides }
    ensures room { TookRoom buffer.old buffer.new 960 }
{
    push_marked_origin(
        buffer,
        style,
        coloured,
        has_metric,
        Side::First,
        one,
        sides.left,
    );
    push_marked_origin(
        buffer,
        style,
        coloured,
        has_metric,
        Side::Other,
        one,
        sides.right,
    );
}

/// Appends what the capture on this side has, if it has it: a line.
fn push_marked_origin(
    buffer: &mut Vec<u8>,
    style: &Style,
    coloured: bool,
    has_metric: bool,
    side: Side,
    one: &Origination,
    announced: Option<Announced>,
)
    requires { HasRoom buffer.old 480 }
    ensures text { buffer.new.items
        ≡ buffer.old.items ++ marked_origin style.now coloured has_metric side one.now announced }
    ensures room { TookRoom buffer.old buffer.new 480 }
{
    if let Some(announced) = announced {
        push_text(buffer, row_mark(coloured, side));
        push_origin(buffer, style, has_metric, one, announced);
        push_text(buffer, row_end(coloured));
    }
}

/// Appends what both captures have: an object.
pub(crate) fn push_change_json(
    buffer: &mut Vec<u8>,
    style: &Style,
    has_metric: bool,
    one: &Origination,
    sides: OnSides,
)
    requires { HasRoom buffer.old 579 }
    ensures text { buffer.new.items
        ≡ buffer.old.items ++ change_json style.now has_metric one.now sides }
    ensures room { TookRoom buffer.old buffer.new 579 }
{
    push_origin_front(buffer, style, one);
    push_text(buffer, r#""left":"#);
    push_side(buffer, has_metric, sides.left);
    push_text(buffer, r#","right":"#);
    push_side(buffer, has_metric, sides.right);
    push_text(buffer, "}\n");
}

/// Appends how it is announced in one of the captures: an object, or `null`.
fn push_side(buffer: &mut Vec<u8>, has_metric: bool, announced: Option<Announced>)
    requires { HasRoom buffer.old 37 }
    ensures text { buffer.new.items ≡ buffer.old.items ++ side_json has_metric announced }
    ensures room { TookRoom buffer.old buffer.new 37 }
{
    match announced {
        Some(announced) => {
            push_text(buffer, "{");
            push_members(buffer, has_metric, announced);
            push_text(buffer, "}");
        }
        None => push_text(buffer, "null"),
    }
}
