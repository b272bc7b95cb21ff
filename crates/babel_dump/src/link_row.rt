//! What `links` tells of a router and a neighbour that it hears, part by part of its line.
ghost use Rattle.std.specs.Prelude.{◌≡◌, ◌+◌, ◌++◌};
ghost use Rattle.babel_dump.specs.CaptureText.{interval_json, interval_text, number_json};
ghost use Rattle.babel_dump.specs.LinkText.{cost_text, counts_json, link_in, link_json, link_text};
ghost use Rattle.babel_dump.specs.Slices.{HasRoom, TookRoom};

use crate::format::Format;
use crate::push::{push_decimal, push_interval, push_octet, push_text};
use crate::push_addr::push_addr;
use crate::push_json::push_interval_json;
use crate::push_time::{push_time_json, push_time_or};
use crate::spelling::Spelling;
use babel_capture::Time;
use babel_prefix::Addr;
use babel_selection::INFINITY;

/// What is said of the link on which a router hears a neighbour.
#[derive(Clone, Copy)]
pub(crate) struct LinkRow {
    pub neighbour: Addr,
    /// What the router's last IHU for the neighbour says, unless it has lapsed.
    pub rxcost: Option<u16>,
    /// What the neighbour's last IHU for the router says, unless there is none, or it has lapsed.
    pub back: Option<u16>,
    /// When the router's last IHU for the neighbour came.
    pub last: u128,
    /// How many multicast Hellos of the neighbour came, and how many of their seqnos were left out.
    pub hellos: u64,
    pub missed: u64,
    /// Their last Interval, in hundredths of a second; `None` where none has one.
    pub interval: Option<u16>,
}

impl LinkRow {
    /// Appends the line, but for what leads it.
    pub(crate) fn push(&self, buffer: &mut Vec<u8>, format: &Format)
        requires { HasRoom buffer.old 220 }
        ensures text { buffer.new.items ≡ buffer.old.items ++ link_in format.now self.now }
        ensures room { TookRoom buffer.old buffer.new 220 }
    {
        match format {
            Format::Text(style) => self.push_text(buffer, style.spelling),
            Format::Json(style) => self.push_json(buffer, style.spelling),
        }
    }

    /// Appends the line of text.
    fn push_text(&self, buffer: &mut Vec<u8>, spelling: Spelling)
        requires { HasRoom buffer.old 220 }
        ensures text { buffer.new.items ≡ buffer.old.items ++ link_text spelling self.now }
        ensures room { TookRoom buffer.old buffer.new 220 }
    {
        push_text(buffer, "hears ");
        push_addr(buffer, spelling, self.neighbour);
        push_text(buffer, " rxcost ");
        push_cost(buffer, self.rxcost);
        push_text(buffer, " back ");
        push_cost(buffer, self.back);
        push_text(buffer, " last ");
        push_time_or(buffer, Time::new(self.last));
        push_text(buffer, " hellos ");
        push_decimal(buffer, self.hellos);
        push_text(buffer, " missed ");
        push_decimal(buffer, self.missed);
        push_text(buffer, " interval ");
        push_interval(buffer, self.interval);
        push_octet(buffer, b'\n');
    }

    /// Appends the rest of the object.
    fn push_json(&self, buffer: &mut Vec<u8>, spelling: Spelling)
        requires { HasRoom buffer.old 220 }
        ensures text { buffer.new.items ≡ buffer.old.items ++ link_json spelling self.now }
        ensures room { TookRoom buffer.old buffer.new 220 }
    {
        push_text(buffer, r#""neighbour":""#);
        push_addr(buffer, spelling, self.neighbour);
        push_text(buffer, r#"","rxcost":"#);
        push_cost_json(buffer, self.rxcost);
        push_text(buffer, r#","back":"#);
        push_cost_json(buffer, self.back);
        push_text(buffer, r#","last":"#);
        push_time_json(buffer, Time::new(self.last));
        self.push_counts_json(buffer);
    }

    /// Appends what the object has of Hellos, and its end.
    fn push_counts_json(&self, buffer: &mut Vec<u8>)
        requires { HasRoom buffer.old 97 }
        ensures text { buffer.new.items ≡ buffer.old.items ++ counts_json self.now }
        ensures room { TookRoom buffer.old buffer.new 97 }
    {
        push_text(buffer, r#","hellos":"#);
        push_decimal(buffer, self.hellos);
        push_text(buffer, r#","missed":"#);
        push_decimal(buffer, self.missed);
        push_text(buffer, r#","interval":"#);
        push_interval_json(buffer, self.interval);
        push_text(buffer, "}");
        push_octet(buffer, b'\n');
    }
}

/// Appends a cost, or `-` where none is said.
fn push_cost(buffer: &mut Vec<u8>, cost: Option<u16>)
    requires { HasRoom buffer.old 8 }
    ensures text { buffer.new.items ≡ buffer.old.items ++ cost_text cost }
    ensures room { TookRoom buffer.old buffer.new 8 }
{
    match cost {
        None => push_text(buffer, "-"),
        Some(cost) if cost == INFINITY => push_text(buffer, "infinite"),
        Some(cost) => push_decimal(buffer, cost),
    }
}

/// Appends a cost, which is 65535 where it is infinite, or `null`.
fn push_cost_json(buffer: &mut Vec<u8>, cost: Option<u16>)
    requires { HasRoom buffer.old 5 }
    ensures text { buffer.new.items ≡ buffer.old.items ++ number_json cost }
    ensures room { TookRoom buffer.old buffer.new 5 }
{
    match cost {
        Some(cost) => push_decimal(buffer, cost),
        None => push_text(buffer, "null"),
    }
}
