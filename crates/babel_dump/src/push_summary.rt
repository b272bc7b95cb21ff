//! The lines of `show --summary`, appended to a buffer that has room for them.
ghost use Rattle.std.specs.Prelude.{◌≡◌, ◌+◌, ◌++◌, IfOk, codes, length};
ghost use Rattle.babel_dump.specs.JsonText.{report_members};
ghost use Rattle.babel_dump.specs.RunText.{report_text};
ghost use Rattle.babel_dump.specs.Slices.{HasRoom, TookRoom};
ghost use Rattle.babel_dump.specs.Summary.{family_json, family_line, summary_in, summary_json};
ghost use Rattle.babel_dump.specs.Summary.{summary_members, summary_text, unless};

use crate::format::Format;
use crate::push::{push_decimal, push_octet, push_text};
use crate::push_report::{push_report, push_report_members};
use crate::summary::{FamilySummary, Summary};
use babel_table::Report;
use std::alloc::{AllocError, Global};

/// No summary with a report is longer, in octets.
const LONGEST_SUMMARY: usize = 1_776;

/// A summary, and a report unless it is left out.
pub(crate) fn summary_output(
    alloc: Global,
    format: &Format,
    quiet: bool,
    summary: Summary,
    report: &Report,
) -> Result<Vec<u8>, AllocError>
    ensures { IfOk result (λ text. text.items ≡ summary_in format.now quiet summary report.now) }
{
    let mut text = Vec::with_capacity(alloc, LONGEST_SUMMARY)?;
    match format {
        Format::Text(_) => push_lines(&mut text, quiet, summary, report),
        Format::Json(_) => push_summary_json(&mut text, quiet, summary, report),
    }
    Ok(text)
}

/// Appends the lines of a summary, and those of a report unless they are left out.
fn push_lines(buffer: &mut Vec<u8>, quiet: bool, summary: Summary, report: &Report)
    requires { HasRoom buffer.old 1776 }
    ensures { buffer.new.items
        ≡ buffer.old.items ++ (summary_text summary ++ unless quiet (report_text report.now)) }
{
    push_summary(buffer, summary);
    if quiet {
        return;
    }
    push_report(buffer, report);
}

/// Appends a summary: three lines.
fn push_summary(buffer: &mut Vec<u8>, summary: Summary)
    requires { HasRoom buffer.old 269 }
    ensures text { buffer.new.items ≡ buffer.old.items ++ summary_text summary }
    ensures room { TookRoom buffer.old buffer.new 269 }
{
    push_family(buffer, "ipv4", summary.ipv4);
    push_family(buffer, "ipv6", summary.ipv6);
    push_text(buffer, "router-ids ");
    push_decimal(buffer, summary.router_ids);
    push_text(buffer, " next-hops ");
    push_decimal(buffer, summary.next_hops);
    push_octet(buffer, b'\n');
}

/// Appends how many rows of a family there are: a line.
fn push_family(buffer: &mut Vec<u8>, name: &str, family: FamilySummary)
    requires room { HasRoom buffer.old (length name.now + 99) }
    ensures text { buffer.new.items ≡ buffer.old.items ++ family_line name.now family }
    ensures room { TookRoom buffer.old buffer.new (length name.now + 99) }
{
    push_text(buffer, name);
    push_text(buffer, " routes ");
    push_decimal(buffer, family.routes);
    push_text(buffer, " source-specific ");
    push_decimal(buffer, family.source_specific);
    push_text(buffer, " unreachable ");
    push_decimal(buffer, family.unreachable);
    push_octet(buffer, b'\n');
}

/// Appends a summary, and a report unless it is left out: an object.
fn push_summary_json(buffer: &mut Vec<u8>, quiet: bool, summary: Summary, report: &Report)
    requires { HasRoom buffer.old 1776 }
    ensures { buffer.new.items ≡ buffer.old.items ++ summary_json quiet summary report.now }
{
    push_text(buffer, "{");
    push_summary_members(buffer, summary);
    push_more_members(buffer, quiet, report);
    push_text(buffer, "}");
    push_octet(buffer, b'\n');
}

/// Appends the members of a report after others, unless they are left out.
fn push_more_members(buffer: &mut Vec<u8>, quiet: bool, report: &Report)
    requires { HasRoom buffer.old 1481 }
    ensures text { buffer.new.items
        ≡ buffer.old.items ++ unless quiet (codes "," ++ report_members report.now) }
    ensures room { TookRoom buffer.old buffer.new 1481 }
{
    if quiet {
        return;
    }
    push_text(buffer, ",");
    push_report_members(buffer, report);
}

/// Appends the members of a summary's object.
fn push_summary_members(buffer: &mut Vec<u8>, summary: Summary)
    requires { HasRoom buffer.old 292 }
    ensures text { buffer.new.items ≡ buffer.old.items ++ summary_members summary }
    ensures room { TookRoom buffer.old buffer.new 292 }
{
    push_text(buffer, r#""ipv4":"#);
    push_family_json(buffer, summary.ipv4);
    push_text(buffer, r#","ipv6":"#);
    push_family_json(buffer, summary.ipv6);
    push_text(buffer, r#","router_ids":"#);
    push_decimal(buffer, summary.router_ids);
    push_text(buffer, r#","next_hops":"#);
    push_decimal(buffer, summary.next_hops);
}

/// Appends how many rows of a family there are: an object.
fn push_family_json(buffer: &mut Vec<u8>, family: FamilySummary)
    requires { HasRoom buffer.old 105 }
    ensures text { buffer.new.items ≡ buffer.old.items ++ family_json family }
    ensures room { TookRoom buffer.old buffer.new 105 }
{
    push_text(buffer, r#"{"routes":"#);
    push_decimal(buffer, family.routes);
    push_text(buffer, r#","source_specific":"#);
    push_decimal(buffer, family.source_specific);
    push_text(buffer, r#","unreachable":"#);
    push_decimal(buffer, family.unreachable);
    push_text(buffer, "}");
}
