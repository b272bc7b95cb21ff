//! Lines, appended octet by octet to a buffer that has room for them, with no formatter between.
ghost use Rattle.std.specs.Prelude.{◌≡◌, ◌+◌, ◌∷◌, [], ◌++◌, ◌*◌, ◌≤◌, if◌then◌else◌, length};
ghost use Rattle.std.specs.Fmt.{decimal};
ghost use Rattle.babel_dump.specs.CaptureText.{interval_text, link_text, marked};
ghost use Rattle.babel_dump.specs.NameText.{octet_text};
ghost use Rattle.babel_dump.specs.CaptureText.{seconds_text, sender_end, sender_front};
ghost use Rattle.babel_dump.specs.RunText.{announcement_text, answer_line, answer_text};
ghost use Rattle.babel_dump.specs.RunText.{counts_text, count_text, differ_lines};
ghost use Rattle.babel_dump.specs.RunText.{held_text, kept_text, newline, pair_line, pair_text};
ghost use Rattle.babel_dump.specs.RunText.{row_text};
ghost use Rattle.babel_dump.specs.Names.{named_address, named_router};
ghost use Rattle.babel_dump.specs.Slices.{HasRoom, TookRoom};
ghost use Rattle.babel_dump.specs.TextParts.{hex_digits, nonzero};

use crate::output::Answered;
use crate::push_addr::{Shown, push_addr, push_from, push_prefix};
use crate::push_named::{push_named_addr, push_named_id};
use crate::push_time::{push_time_or, push_two_digits};
use crate::spelling::Spelling;
use crate::style::Style;
use babel_capture::{Origin, Place, Tally};
use babel_prefix::Addr;
use babel_tlv::{Ann, Held, Key, View};
use itoa::{Buffer, Integer};

/// Appends a row of a table, as the runs show it under a view: a line.
pub(crate) fn push_pair_line(buffer: &mut Vec<u8>, style: &Style, view: View, key: Key, held: Held)
    requires { HasRoom buffer.old 832 }
    ensures text { buffer.new.items ≡ buffer.old.items ++ pair_line style.now view (key, held) }
    ensures room { TookRoom buffer.old buffer.new 832 }
{
    push_pair(buffer, style, view, key, held);
    push_octet(buffer, b'\n');
}

/// Appends a row of a table, without the line's end.
pub(crate) fn push_pair(buffer: &mut Vec<u8>, style: &Style, view: View, key: Key, held: Held)
    requires { HasRoom buffer.old 831 }
    ensures text { buffer.new.items ≡ buffer.old.items ++ pair_text style.now view (key, held) }
    ensures room { TookRoom buffer.old buffer.new 831 }
{
    push_prefix(buffer, style.spelling, key.dst());
    push_from(buffer, style.spelling, key.src());
    push_octet(buffer, b' ');
    push_held(buffer, style, view, held);
}

/// Appends what is answered for a destination and a source.
pub(crate) fn push_answer_line(buffer: &mut Vec<u8>, style: &Style, answered: &Answered)
    requires { HasRoom buffer.old 917 }
    ensures text { buffer.new.items ≡ buffer.old.items ++ answer_line style.now
        answered.now.with_prefix answered.now.pair.dst answered.now.pair.src answered.now.row }
    ensures room { TookRoom buffer.old buffer.new 917 }
{
    push_addr(buffer, style.spelling, answered.pair.dst);
    push_text(buffer, " from ");
    push_addr(buffer, style.spelling, answered.pair.src);
    push_octet(buffer, b' ');
    push_lookup(buffer, style, answered);
}

/// Appends the line of a lookup's answer.
pub(crate) fn push_lookup(buffer: &mut Vec<u8>, style: &Style, answered: &Answered)
    requires { HasRoom buffer.old 832 }
    ensures text { buffer.new.items ≡ buffer.old.items
        ++ (row_text style.now answered.now.with_prefix answered.now.row ++ newline) }
    ensures room { TookRoom buffer.old buffer.new 832 }
{
    push_row(buffer, style, answered);
    push_octet(buffer, b'\n');
}

/// Appends the row that answers, or only what it holds.
fn push_row(buffer: &mut Vec<u8>, style: &Style, answered: &Answered)
    requires { HasRoom buffer.old 831 }
    ensures text { buffer.new.items
        ≡ buffer.old.items ++ row_text style.now answered.now.with_prefix answered.now.row }
    ensures room { TookRoom buffer.old buffer.new 831 }
{
    if !answered.with_prefix {
        return push_answer(buffer, style, View::all(), answered.held());
    }
    match answered.row {
        Some((key, held)) => push_pair(buffer, style, View::all(), key, held),
        None => push_text(buffer, "none"),
    }
}

/// Appends what two tables answer for a destination and a source, under a view: three lines.
pub(crate) fn push_differ<A: Shown>(
    buffer: &mut Vec<u8>,
    style: &Style,
    view: View,
    dst: A,
    src: A,
    left: Option<Held>,
    right: Option<Held>,
)
    requires { HasRoom buffer.old 1585 }
    ensures text { buffer.new.items ≡ buffer.old.items
        ++ differ_lines style.now view (A.text style.now.spelling dst)
        (A.from style.now.spelling src) left right }
    ensures room { TookRoom buffer.old buffer.new 1585 }
{
    push_text(buffer, "differ ");
    dst.push(buffer, style.spelling);
    src.push_from(buffer, style.spelling);
    push_octet(buffer, b'\n');
    push_text(buffer, "left ");
    push_answer(buffer, style, view, left);
    push_octet(buffer, b'\n');
    push_text(buffer, "right ");
    push_answer(buffer, style, view, right);
    push_octet(buffer, b'\n');
}

/// Appends how many rows and pairs there are.
pub(crate) fn push_counts(buffer: &mut Vec<u8>, rows: usize, pairs: usize)
    requires { HasRoom buffer.old 53 }
    ensures text { buffer.new.items ≡ buffer.old.items ++ counts_text rows pairs }
    ensures room { TookRoom buffer.old buffer.new 53 }
{
    push_text(buffer, "rows ");
    push_decimal(buffer, rows);
    push_octet(buffer, b'\n');
    push_text(buffer, "pairs ");
    push_decimal(buffer, pairs);
    push_octet(buffer, b'\n');
}

/// Appends how many there are of what has this name.
pub(crate) fn push_count(buffer: &mut Vec<u8>, name: &str, count: usize)
    requires { HasRoom buffer.old (length name.now + 22) }
    ensures text { buffer.new.items ≡ buffer.old.items ++ count_text name.now count }
    ensures room { TookRoom buffer.old buffer.new (length name.now + 22) }
{
    push_text(buffer, name);
    push_octet(buffer, b' ');
    push_decimal(buffer, count);
    push_octet(buffer, b'\n');
}

/// Appends a sender and the number of its interface: the front of a line.
pub(crate) fn push_sender_front(buffer: &mut Vec<u8>, spelling: Spelling, origin: Origin)
    requires { HasRoom buffer.old 70 }
    ensures text { buffer.new.items ≡ buffer.old.items ++ sender_front spelling origin }
    ensures room { TookRoom buffer.old buffer.new 70 }
{
    push_addr(buffer, spelling, origin.sender);
    push_text(buffer, " interface ");
    push_decimal(buffer, origin.place.interface);
}

/// Appends the link and the VLANs of a sender, and what it sent: the end of a line.
pub(crate) fn push_sender_end(buffer: &mut Vec<u8>, place: Place, tally: Tally)
    requires { HasRoom buffer.old 284 }
    ensures text { buffer.new.items ≡ buffer.old.items ++ sender_end place tally }
    ensures room { TookRoom buffer.old buffer.new 284 }
{
    push_link(buffer, place.link);
    push_marked(buffer, " vlan ", ".", &place.vlans.numbers());
    push_text(buffer, " packets ");
    push_decimal(buffer, tally.packets);
    push_text(buffer, " octets ");
    push_decimal(buffer, tally.octets);
    push_text(buffer, " updates ");
    push_decimal(buffer, tally.updates);
    push_text(buffer, " interval ");
    push_interval(buffer, tally.interval);
    push_text(buffer, " first ");
    push_time_or(buffer, tally.first);
    push_text(buffer, " last ");
    push_time_or(buffer, tally.last);
    push_text(buffer, " trailers ");
    push_decimal(buffer, tally.trailers);
    push_octet(buffer, b'\n');
}

/// Appends an Interval in seconds, or `-` where there is none.
pub(crate) fn push_interval(buffer: &mut Vec<u8>, interval: Option<u16>)
    requires { HasRoom buffer.old 23 }
    ensures text { buffer.new.items ≡ buffer.old.items ++ interval_text interval }
    ensures room { TookRoom buffer.old buffer.new 23 }
{
    match interval {
        Some(interval) => push_seconds(buffer, u64::from(interval)),
        None => push_text(buffer, "-"),
    }
}

/// Appends hundredths of a second in seconds.
pub(crate) fn push_seconds(buffer: &mut Vec<u8>, hundredths: u64)
    requires { HasRoom buffer.old 23 }
    ensures text { buffer.new.items ≡ buffer.old.items ++ seconds_text hundredths }
    ensures room { TookRoom buffer.old buffer.new 23 }
{
    push_decimal(buffer, hundredths / 100);
    push_text(buffer, ".");
    push_two_digits(buffer, (hundredths % 100) as u32);
}

/// Appends the number of a link, or nothing where there is none.
pub(crate) fn push_link(buffer: &mut Vec<u8>, link: Option<u32>)
    requires { HasRoom buffer.old 16 }
    ensures text { buffer.new.items ≡ buffer.old.items ++ link_text link }
    ensures room { TookRoom buffer.old buffer.new 16 }
{
    if let Some(number) = link {
        push_text(buffer, " link ");
        push_decimal(buffer, number);
    }
}

/// Appends those of the numbers that are not 0, in decimal: the first after one mark, each later
/// one after the other.
pub(crate) fn push_marked(buffer: &mut Vec<u8>, first: &str, later: &str, numbers: &[u16])
    requires room { HasRoom buffer.old (11 * length numbers.now) }
    requires short { (length first.now ≤ 6) × (length later.now ≤ 6) }
    ensures text { buffer.new.items
        ≡ buffer.old.items ++ marked first.now later.now (nonzero numbers.now) }
    ensures room { TookRoom buffer.old buffer.new (11 * length numbers.now) }
{
    let mut mark = first;
    for number in numbers {
        if *number != 0 {
            push_text(buffer, mark);
            push_decimal(buffer, *number);
            mark = later;
        }
    }
}

/// Appends an octet of a name: as it is where it is a letter, a digit, `.`, `-` or `_`, and else
/// the escape and two hexadecimal digits.
pub(crate) fn push_name_octet(buffer: &mut Vec<u8>, escape: &str, octet: u8)
    requires room { HasRoom buffer.old 5 }
    requires short { length escape.now ≤ 3 }
    ensures text { buffer.new.items ≡ buffer.old.items ++ octet_text escape.now octet }
    ensures room { TookRoom buffer.old buffer.new 5 }
{
    if octet.is_ascii_alphanumeric() || octet == b'.' || octet == b'-' || octet == b'_' {
        push_octet(buffer, octet);
    } else {
        push_text(buffer, escape);
        push_hex(buffer, octet);
    }
}

/// Appends what is answered, under a view: what stands for a key, or `none`.
pub(crate) fn push_answer(buffer: &mut Vec<u8>, style: &Style, view: View, answer: Option<Held>)
    requires { HasRoom buffer.old 734 }
    ensures text { buffer.new.items ≡ buffer.old.items ++ answer_text style.now view answer }
    ensures room { TookRoom buffer.old buffer.new 734 }
{
    match answer {
        Some(held) => push_held(buffer, style, view, held),
        None => push_text(buffer, "none"),
    }
}

/// Appends what stands for a key, under a view.
fn push_held(buffer: &mut Vec<u8>, style: &Style, view: View, held: Held)
    requires { HasRoom buffer.old 734 }
    ensures text { buffer.new.items ≡ buffer.old.items ++ held_text style.now view held }
    ensures room { TookRoom buffer.old buffer.new 734 }
{
    match held {
        Held::Route(ann) => push_announcement(buffer, style, view, ann),
        Held::Unreachable => push_text(buffer, "unreachable"),
    }
}

/// Appends the route that is announced, under a view.
pub(crate) fn push_announcement(buffer: &mut Vec<u8>, style: &Style, view: View, ann: Ann)
    requires { HasRoom buffer.old 734 }
    ensures text { buffer.new.items ≡ buffer.old.items ++ announcement_text style.now view ann }
    ensures room { TookRoom buffer.old buffer.new 734 }
{
    push_text(buffer, "via ");
    push_next_hop(buffer, style, view.next_hop, ann.next_hop());
    push_text(buffer, " id ");
    push_kept_id(buffer, style, view.router_id, ann.router_id());
    push_text(buffer, " seqno ");
    push_number(buffer, view.seqno, "-", ann.seqno());
    push_text(buffer, " metric ");
    push_number(buffer, view.metric, "-", ann.metric());
}

/// Appends the next hop and its name where it is kept, or `-`.
fn push_next_hop(buffer: &mut Vec<u8>, style: &Style, kept: bool, next_hop: Addr)
    requires { HasRoom buffer.old 362 }
    ensures text { buffer.new.items
        ≡ buffer.old.items ++ kept_text kept (named_address style.now next_hop) }
    ensures room { TookRoom buffer.old buffer.new 362 }
{
    if kept {
        push_named_addr(buffer, style, next_hop);
    } else {
        push_octet(buffer, b'-');
    }
}

/// Appends the router-id and its name where it is kept, or `-`.
fn push_kept_id(buffer: &mut Vec<u8>, style: &Style, kept: bool, router_id: [u8; 8])
    requires { HasRoom buffer.old 339 }
    ensures text { buffer.new.items
        ≡ buffer.old.items ++ kept_text kept (named_router style.now router_id) }
    ensures room { TookRoom buffer.old buffer.new 339 }
{
    if kept {
        push_named_id(buffer, style, router_id);
    } else {
        push_octet(buffer, b'-');
    }
}

/// Appends a number where it is kept, or what stands for one that is ignored.
pub(crate) fn push_number(buffer: &mut Vec<u8>, kept: bool, ignored: &str, number: u16)
    requires room { HasRoom buffer.old 5 }
    requires short { length ignored.now ≤ 5 }
    ensures text { buffer.new.items
        ≡ buffer.old.items ++ (if kept then decimal number else ignored.now) }
    ensures room { TookRoom buffer.old buffer.new 5 }
{
    if kept {
        push_decimal(buffer, number);
    } else {
        push_text(buffer, ignored);
    }
}

/// Appends a number in decimal.
pub(crate) fn push_decimal<I: Integer>(buffer: &mut Vec<u8>, number: I)
    requires { HasRoom buffer.old I.MAX_STR_LEN }
    ensures text { buffer.new.items ≡ buffer.old.items ++ I.text number }
    ensures room { TookRoom buffer.old buffer.new I.MAX_STR_LEN }
{
    let mut digits = Buffer::new();
    push_text(buffer, digits.format(number));
}

/// Appends a router-id as 16 lower-case hexadecimal digits.
pub(crate) fn push_router_id(buffer: &mut Vec<u8>, router_id: [u8; 8])
    requires { HasRoom buffer.old 16 }
    ensures text { buffer.new.items ≡ buffer.old.items ++ hex_digits router_id }
    ensures room { TookRoom buffer.old buffer.new 16 }
{
    let mut digits = [0; 16];
    hex::encode_to_slice(router_id, &mut digits).unwrap();
    buffer.extend_from_slice(&digits).unwrap();
}

/// Appends an octet as two lower-case hexadecimal digits.
pub(crate) fn push_hex(buffer: &mut Vec<u8>, octet: u8)
    requires { HasRoom buffer.old 2 }
    ensures text { buffer.new.items ≡ buffer.old.items ++ hex_digits (octet ∷ []) }
    ensures room { TookRoom buffer.old buffer.new 2 }
{
    let mut digits = [0; 2];
    hex::encode_to_slice([octet], &mut digits).unwrap();
    push_octets(buffer, &digits);
}

/// Appends an octet.
pub(crate) fn push_octet(buffer: &mut Vec<u8>, octet: u8)
    requires { HasRoom buffer.old 1 }
    ensures text { buffer.new.items ≡ buffer.old.items ++ octet ∷ [] }
    ensures room { TookRoom buffer.old buffer.new 1 }
{
    buffer.push_reserved(octet);
}

/// Appends a text, which is short.
pub(crate) fn push_text(buffer: &mut Vec<u8>, text: &str)
    requires { HasRoom buffer.old (length text.now) }
    ensures text { buffer.new.items ≡ buffer.old.items ++ text.now }
    ensures room { TookRoom buffer.old buffer.new (length text.now) }
{
    for octet in text.as_bytes() {
        push_octet(buffer, *octet);
    }
}

/// Appends octets.
pub(crate) fn push_octets(buffer: &mut Vec<u8>, octets: &[u8])
    requires { HasRoom buffer.old (length octets.now) }
    ensures text { buffer.new.items ≡ buffer.old.items ++ octets.now }
    ensures room { TookRoom buffer.old buffer.new (length octets.now) }
{
    buffer.extend_from_slice(octets).unwrap();
}
