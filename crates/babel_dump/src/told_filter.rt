//! Which of what is told a filter keeps.
ghost use Rattle.std.specs.Prelude.{◌≡◌, ◌||◌};
ghost use Rattle.std.specs.Str.{bytes_eq};
ghost use Rattle.babel_timeline.specs.Changes.{held_after, held_before};
ghost use Rattle.babel_dump.specs.Filter.{if_asked};
ghost use Rattle.babel_dump.specs.EventsRun.{is_with, keeps_request, keeps_told};

use crate::filter::Filter;
use crate::push_event::{held_after, held_before};
use crate::speaker::Speaker;
use babel_timeline::{ChangeKind, Telling};
use babel_tlv::{Ann, Request};

/// Whether the filter keeps what is told: a change for a key that it keeps, from or to the
/// router-id that it asks for; a request for such a key, and of this router-id, one for all keys
/// unless a router-id is asked for. It keeps each answer.
pub(crate) fn keeps_told(filter: &Filter, told: &Telling<Speaker>) -> bool
    ensures { result ≡ keeps_told filter.now told.now }
{
    match told {
        Telling::Change(change) => {
            filter.keeps_key(&change.subject.key) && keeps_kind(filter, &change.kind)
        }
        Telling::Answer { .. } | Telling::Silent { .. } | Telling::Returns { .. } => true,
        Telling::Request { request, .. } => keeps_request(filter, request),
    }
}

/// Whether what is requested is kept.
fn keeps_request(filter: &Filter, request: &Request) -> bool
    ensures { result ≡ keeps_request filter.now request.now }
{
    match request {
        Request::All => filter.router_id.is_none(),
        Request::Route(key) => filter.keeps_key(key) && filter.router_id.is_none(),
        Request::Seqno { key, router_id, .. } => {
            filter.keeps_key(key) && is_asked(filter, router_id)
        }
    }
}

/// Whether the router-id is the one that is asked for, if one is.
fn is_asked(filter: &Filter, router_id: &[u8; 8]) -> bool
    ensures { result ≡ if_asked filter.now.router_id (bytes_eq router_id.now) }
{
    match &filter.router_id {
        Some(id) => *router_id == *id,
        None => true,
    }
}

/// Whether the change is from or to the router-id that is asked for, if one is.
fn keeps_kind(filter: &Filter, kind: &ChangeKind) -> bool
    ensures { result ≡ if_asked filter.now.router_id
        (λ id. is_with id (held_before kind.now) || is_with id (held_after kind.now)) }
{
    match &filter.router_id {
        Some(id) => is_with(id, held_before(*kind)) || is_with(id, held_after(*kind)),
        None => true,
    }
}

/// Whether there is a route, and it has this router-id.
fn is_with(id: &[u8; 8], ann: Option<Ann>) -> bool
    ensures { result ≡ is_with id.now ann }
{
    match ann {
        Some(ann) => ann.router_id() == *id,
        None => false,
    }
}
