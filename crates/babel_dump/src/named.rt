ghost use Rattle.std.specs.Prelude.{◌≡◌};
ghost use Rattle.std.specs.Option.{MatchOption};
ghost use Rattle.babel_dump.specs.NamesRead.{IsNamed};
ghost use Rattle.babel_dump.specs.declared.named.Named.{Named};

use crate::router_word::parse_router_id;
use babel_prefix::{Addr, parse_addr};
use std::str;

/// What has a name.
#[derive(Clone, Copy)]
pub(crate) enum Named {
    /// A sender, or a next hop.
    Address(Addr),
    /// A router-id.
    Router([u8; 8]),
}

impl Named {
    /// What a word says. One that is a router-id, and an address too, is the router-id. `None` for
    /// any other word.
    pub(crate) fn of(word: &[u8]) -> Option<Named>
        ensures { MatchOption result ((named : Named) → IsNamed word.now named → ⊥)
            (IsNamed word.now) }
    {
        match parse_router_id(word) {
            Some(router_id) => Some(Named::Router(router_id)),
            None => Some(Named::Address(parse_addr(str::from_utf8(word).ok()?)?)),
        }
    }
}
