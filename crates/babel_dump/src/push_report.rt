//! The lines of a report, appended to a buffer that has room for them.
ghost use Rattle.std.specs.Prelude.{◌≡◌, ℕ, Option, ◌++◌, ◌*◌, ◌≤◌, Some, length};
ghost use Rattle.babel_dump.specs.JsonText.{comma_separated, counted_object, counted_objects};
ghost use Rattle.babel_dump.specs.JsonText.{report_json, report_members};
ghost use Rattle.babel_dump.specs.RunText.{ignored_line, report_text};
ghost use Rattle.babel_dump.specs.Slices.{HasRoom, TookRoom};
ghost use Rattle.babel_dump.specs.TextParts.{ignored_lines};

use crate::by_reason::CountedReason;
use crate::push::{push_decimal, push_octet, push_text};
use crate::reason_text::REASONS;
use babel_table::Report;
use babel_tlv::Reason;

/// Appends the lines of a report.
pub(crate) fn push_report(buffer: &mut Vec<u8>, report: &Report)
    requires { HasRoom buffer.old 1483 }
    ensures { buffer.new.items ≡ buffer.old.items ++ report_text report.now }
{
    push_text(buffer, "tlvs ");
    push_decimal(buffer, report.tlvs());
    push_octet(buffer, b'\n');
    push_ignored(buffer, report, &REASONS);
}

/// Appends a line for each of these reasons that occurred.
fn push_ignored(buffer: &mut Vec<u8>, report: &Report, reasons: &[Reason])
    requires { HasRoom buffer.old (75 * length reasons.now) }
    ensures { buffer.new.items ≡ buffer.old.items ++ ignored_lines report.now reasons.now }
{
    for reason in reasons {
        push_ignored_line(buffer, *reason, report.ignored(*reason));
    }
}

/// Appends how many TLVs were ignored for a reason, and where the first is: a line, or nothing if
/// none was.
fn push_ignored_line(buffer: &mut Vec<u8>, reason: Reason, counted: Option<(u64, u64)>)
    requires { HasRoom buffer.old 75 }
    ensures text { buffer.new.items ≡ buffer.old.items ++ ignored_line reason counted }
    ensures room { TookRoom buffer.old buffer.new 75 }
{
    if let Some((count, first)) = counted {
        push_text(buffer, "ignored ");
        push_text(buffer, reason.name());
        push_text(buffer, " ");
        push_decimal(buffer, count);
        push_text(buffer, " first ");
        push_decimal(buffer, first);
        push_octet(buffer, b'\n');
    }
}

/// Appends a report: an object.
pub(crate) fn push_report_json(buffer: &mut Vec<u8>, report: &Report)
    requires { HasRoom buffer.old 1483 }
    ensures { buffer.new.items ≡ buffer.old.items ++ report_json report.now }
{
    push_text(buffer, "{");
    push_report_members(buffer, report);
    push_text(buffer, "}");
    push_octet(buffer, b'\n');
}

/// Appends the members of a report's object.
pub(crate) fn push_report_members(buffer: &mut Vec<u8>, report: &Report)
    requires { HasRoom buffer.old 1480 }
    ensures text { buffer.new.items ≡ buffer.old.items ++ report_members report.now }
    ensures room { TookRoom buffer.old buffer.new 1480 }
{
    push_text(buffer, r#""tlvs":"#);
    push_decimal(buffer, report.tlvs());
    push_text(buffer, r#","ignored":["#);
    push_counted_json(buffer, report, &REASONS);
    push_text(buffer, "]");
}

/// Appends an object for each of these reasons for which something is counted, with a comma between
/// each two.
pub(crate) fn push_counted_json<R: CountedReason>(
    buffer: &mut Vec<u8>,
    report: &R::Report,
    reasons: &[R],
)
    requires { HasRoom buffer.old (90 * length reasons.now) }
    ensures text { buffer.new.items ≡ buffer.old.items
        ++ comma_separated (counted_objects R.name_of (R.counted report.now) reasons.now) }
    ensures room { TookRoom buffer.old buffer.new (90 * length reasons.now) }
{
    let mut comma = "";
    for reason in reasons {
        if let Some((count, first)) = reason.counted(report) {
            push_text(buffer, comma);
            push_counted_object(buffer, reason.name(), count, first);
            comma = ",";
        }
    }
}

/// Appends how many there are for the reason of this name, and where the first is: an object.
fn push_counted_object(buffer: &mut Vec<u8>, name: &str, count: u64, first: u64)
    requires room { HasRoom buffer.old 89 }
    requires short { length name.now ≤ 18 }
    ensures text { buffer.new.items ≡ buffer.old.items ++ counted_object name.now (count, first) }
    ensures room { TookRoom buffer.old buffer.new 89 }
{
    push_text(buffer, r#"{"reason":""#);
    push_text(buffer, name);
    push_text(buffer, r#"","count":"#);
    push_decimal(buffer, count);
    push_text(buffer, r#","first":"#);
    push_decimal(buffer, first);
    push_text(buffer, "}");
}
