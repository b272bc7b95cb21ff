//! The octets that say the routes of a dump: the rows of its table.
ghost use Rattle.std.specs.Prelude.{IfOk, IfErr};
ghost use Rattle.babel_tlv.specs.Group.{IsCanonicalText};
ghost use Rattle.babel_canon.specs.Routes.{AreRouteOctets, RoutesFault};
ghost use Rattle.babel_canon.specs.Sent.{sent};

use crate::body::Body;
use crate::text::Text;
use babel_prefix::Addr;
use babel_table::{Limits, Table, read_dump};
use babel_tlv::{Fault, Mode, View};
use std::alloc::{AllocError, Global};

/// The octets of the rows of a table, in packets with bodies of at most this many octets.
pub fn route_octets(alloc: Global, body: Body, table: &Table) -> Result<Vec<u8>, AllocError>
    ensures { IfOk result (λ octets. IsCanonicalText body table.now.rows octets.items) }
{
    let rows = table.rows();
    let mut text = Text::new(alloc, body, rows.len())?;
    for (key, held) in rows {
        text.push(&key, &held)?;
    }
    Ok(text.into_octets())
}

/// The route octets of a dump under a view: those of its rows as the view sees them.
///
/// The route octets of two dumps under a view, with the same limits, mode and body size, are equal
/// exactly where the dumps have the same routes under the view: the same keys, and for each of them
/// routes whose kept fields are equal, or unreachable. Read with any sender, they give these routes
/// again, and their route octets, with the view or without, are themselves, unless memory runs out.
///
/// The faults are those of the dump, and `Memory`.
pub fn normalise_routes(
    alloc: Global,
    limits: Limits,
    mode: Mode,
    body: Body,
    view: View,
    sender: Addr,
    dump: &[u8],
) -> Result<Vec<u8>, Fault>
    ensures ok { IfOk result (λ text.
        AreRouteOctets view limits mode body (sent sender dump.now) text.items) }
    ensures err { IfErr result (RoutesFault limits mode (sent sender dump.now)) }
{
    let table = read_dump(alloc, limits, mode, sender, dump)?;
    let _valid = (table.rows().len(), limits.entries(), body.octets());
    let seen = table.seen(view);
    let octets = route_octets(alloc, body, &seen)?;
    Ok(octets)
}
