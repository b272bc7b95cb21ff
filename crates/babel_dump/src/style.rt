ghost use Rattle.std.specs.Prelude.{◌≡◌, ◌≤◌, length};
ghost use Rattle.babel_dump.specs.Names.{address_name, router_name};

use crate::names::Names;
use crate::spelling::Spelling;
use babel_prefix::Addr;

/// How a run writes addresses and router-ids.
#[derive(Drop)]
pub struct Style {
    /// How addresses are spelled: `--short`.
    pub spelling: Spelling,
    /// The names that stand after senders, next hops and router-ids: `--names`.
    pub names: Option<Names>,
}

impl Style {
    /// The name of an address; empty where it has none.
    pub(crate) fn of_address(&self, addr: Addr) -> &[u8]
        ensures name { result.now ≡ address_name self.now addr }
        ensures short { length result.now ≤ 64 }
    {
        match &self.names {
            Some(names) => names.of_address(addr),
            None => &[],
        }
    }

    /// The name of a router-id; empty where it has none.
    pub(crate) fn of_router(&self, router_id: [u8; 8]) -> &[u8]
        ensures name { result.now ≡ router_name self.now router_id }
        ensures short { length result.now ≤ 64 }
    {
        match &self.names {
            Some(names) => names.of_router(router_id),
            None => &[],
        }
    }
}
