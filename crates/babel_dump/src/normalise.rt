ghost use Rattle.std.specs.Prelude.{◌≡◌, IfErr, IfOk};
ghost use Rattle.babel_table.specs.Seen.{seen_rows};
ghost use Rattle.babel_canon.specs.Canonical.{CanonicalFault};
ghost use Rattle.babel_dump.specs.Command.{WritesOctets};
ghost use Rattle.babel_dump.specs.Octets.{AreNormal, AreOctets, AreRoutes, HasTooMany};
ghost use Rattle.babel_dump.specs.Parts.{FoundTooMany, Says};
ghost use Rattle.babel_dump.specs.RunText.{form_text};

use crate::format::Format;
use crate::job::Form;
use crate::outcome::Outcome;
use crate::output::hex_output;
use crate::reading::Reading;
use crate::slices::Found;
use babel_canon::laws::{
    answers_are_told, canonical_octets_tell_answers, canonical_octets_tell_answers_under,
    route_octets_tell_routes,
};
use babel_canon::{Body, canonical_octets, route_octets};
use babel_table::Table;
use babel_tlv::{Fault, View};
use std::alloc::Global;

/// The octets of what a view sees of a table, as they are, or, with `hex`, as their line.
pub(crate) fn found_octets(
    alloc: Global,
    reading: Reading,
    form: Form,
    view: View,
    body: Body,
    hex: bool,
    format: &Format,
    table: Table,
) -> Result<Found, Fault>
    ensures ok { IfOk result (Says format.now (WritesOctets
        (AreOctets form reading view body table) (form_text hex) table.report)) }
    ensures err { IfErr result
        (FoundTooMany (HasTooMany form reading.limits (seen_rows view table.rows))) }
{
    let outcome = Outcome::of_dump(0, *table.report());
    let octets = octets_of(alloc, reading, form, view, body, table)?;
    let text = if hex {
        hex_output(alloc, &octets)?
    } else {
        octets
    };
    Ok(Found::text(text, outcome))
}

/// The canonical octets, under the view, of a dump that is read so and has this table, or its route
/// octets.
pub(crate) fn octets_of(
    alloc: Global,
    reading: Reading,
    form: Form,
    view: View,
    body: Body,
    table: Table,
) -> Result<Vec<u8>, Fault>
    ensures ok { IfOk result
        (λ octets. AreOctets form reading view body table octets.items) }
    ensures err { IfErr result
        (FoundTooMany (HasTooMany form reading.limits (seen_rows view table.rows))) }
{
    match form {
        Form::Answers => normal_octets(alloc, reading, view, body, table),
        Form::Routes => octets_of_routes(alloc, reading, view, body, table),
    }
}

/// The canonical octets, under the view, of a dump that is read so and has this table.
fn normal_octets(
    alloc: Global,
    reading: Reading,
    view: View,
    body: Body,
    table: Table,
) -> Result<Vec<u8>, Fault>
    ensures ok { IfOk result (λ octets. AreNormal reading view body table octets.items) }
    ensures err { IfErr result (CanonicalFault reading.limits (seen_rows view table.rows)) }
{
    // For the proof: what limits and sizes of bodies may be, and the laws of canonical octets.
    let _valid = (reading.limits.entries(), body.octets());
    canonical_octets_tell_answers();
    canonical_octets_tell_answers_under();
    answers_are_told();
    let octets = canonical_octets(alloc, reading.limits, body, &table.seen(view))?;
    Ok(octets)
}

/// The route octets, under the view, of a dump that is read so and has this table.
fn octets_of_routes(
    alloc: Global,
    reading: Reading,
    view: View,
    body: Body,
    table: Table,
) -> Result<Vec<u8>, Fault>
    ensures ok { IfOk result (λ octets. AreRoutes reading view body table octets.items) }
    ensures err { IfErr result (λ fault. fault ≡ Fault.Memory) }
{
    // For the proof: what rows, limits and sizes of bodies may be, and the law of route octets.
    let _valid = (table.rows().len(), reading.limits.entries(), body.octets());
    route_octets_tell_routes();
    let octets = route_octets(alloc, body, &table.seen(view))?;
    Ok(octets)
}
