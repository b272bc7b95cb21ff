ghost use Rattle.std.specs.Prelude.{◌≡◌, IfErr, IfOk};
ghost use Rattle.babel_table.specs.Seen.{seen_rows};
ghost use Rattle.babel_dump.specs.Command.{WritesOctets};
ghost use Rattle.babel_dump.specs.KeyText.{file_in, key_in};
ghost use Rattle.babel_dump.specs.Octets.{AreOctets, HasTooMany};
ghost use Rattle.babel_dump.specs.Parts.{FoundTooMany, Says};
ghost use Rattle.babel_dump.specs.EachSender.{IsKeyOf};

use crate::format::Format;
use crate::job::Form;
use crate::key_name::file_output;
use crate::key_text::key_output;
use crate::normalise::octets_of;
use crate::note::Note;
use crate::outcome::Outcome;
use crate::reading::Reading;
use crate::slices::Found;
use crate::statuses::one_status;
use babel_canon::Body;
use babel_table::{Report, Table};
use babel_tlv::{Fault, View};
use std::alloc::Global;

/// The key of a dump.
#[derive(Drop)]
pub struct TableText {
    /// Its line.
    pub line: Vec<u8>,
    /// The report of the dump's table.
    pub report: Report,
    /// The status of each thing that was asked of it.
    pub statuses: Vec<u8>,
    /// How many rows that table has.
    pub rows: usize,
    /// How many of them were not announced again in time, if none was left out for that.
    pub expired_rows: usize,
    /// That it has routes for other sources than that of what it answers.
    pub source: Option<Note>,
}

impl TableText {
    /// The same of a table of which so many rows were not announced again in time.
    pub(crate) fn with_expired_rows(self, expired_rows: usize) -> TableText
        ensures { result ≡ record self { expired_rows = expired_rows } }
    {
        let mut key = self;
        key.expired_rows = expired_rows;
        key
    }
}

/// The line of the key of a table, which names this file: the SHA-256 of what `normalise` writes of
/// it under a view, with `--routes` or without it.
pub(crate) fn found_key(
    alloc: Global,
    reading: Reading,
    form: Form,
    view: View,
    format: &Format,
    file: &str,
    table: Table,
) -> Result<Found, Fault>
    ensures ok { IfOk result (Says format.now (WritesOctets (AreOctets form reading view 1024 table)
        (λ octets. key_in format.now octets (file_in format.now file.now)) table.report)) }
    ensures err { IfErr result
        (FoundTooMany (HasTooMany form reading.limits (seen_rows view table.rows))) }
{
    let named = file_output(alloc, format, file)?;
    let key = make_key(alloc, reading, form, view, format, &named, table)?;
    let outcome = Outcome::of_dump(0, key.report);
    Ok(Found::text(key.line, outcome))
}

/// The key of a table, which is named so in this format.
pub(crate) fn make_key(
    alloc: Global,
    reading: Reading,
    form: Form,
    view: View,
    format: &Format,
    named: &[u8],
    table: Table,
) -> Result<TableText, Fault>
    ensures ok { IfOk result (λ key. IsKeyOf form reading view format.now named.now key table) }
    ensures err { IfErr result
        (FoundTooMany (HasTooMany form reading.limits (seen_rows view table.rows))) }
{
    let (report, rows) = (*table.report(), table.rows().len());
    let octets = octets_of(alloc, reading, form, view, Body::usual(), table)?;
    let line = key_output(alloc, format, &octets, named)?;
    Ok(TableText {
        line,
        report,
        statuses: one_status(alloc, 0)?,
        rows,
        expired_rows: 0,
        source: None,
    })
}
