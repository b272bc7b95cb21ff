//! What `show --summary` says of the rows.
ghost use Rattle.std.specs.Prelude.{◌≡◌, ◌-◌, ◌^◌, ◌<◌, ◌∷◌, ◌++◌, List, [], IfOk, OnOk};
ghost use Rattle.babel_table.specs.TableRows.{family_rows};
ghost use Rattle.babel_tlv.specs.Pair.{Pair};
ghost use Rattle.babel_tlv.specs.Route.{RouteKey};
ghost use Rattle.babel_dump.specs.Filter.{kept_rows};
ghost use Rattle.babel_dump.specs.Origins.{AreOrigins, one_more};
ghost use Rattle.babel_dump.specs.Summary.{counts_of, summary_of};

use crate::filter::Filter;
use babel_prefix::{Addr, Family};
use babel_table::Table;
use babel_tlv::{Held, Key};
use std::alloc::{AllocError, Global};
use std::collections::BTreeSet;

/// How many rows of one family there are.
#[derive(Clone, Copy)]
pub(crate) struct FamilySummary {
    pub routes: usize,
    /// Those with a source prefix longer than 0.
    pub source_specific: usize,
    pub unreachable: usize,
}

/// How many rows there are, and how many router-ids and next hops their routes have.
#[derive(Clone, Copy)]
pub(crate) struct Summary {
    pub ipv4: FamilySummary,
    pub ipv6: FamilySummary,
    pub router_ids: usize,
    pub next_hops: usize,
}

impl Summary {
    /// That of the rows of a table that a filter keeps.
    pub fn of(alloc: Global, filter: &Filter, table: &Table) -> Result<Summary, AllocError>
        ensures { IfOk result (λ summary.
            summary ≡ summary_of (kept_rows filter.now table.now.rows)) }
    {
        let origins = Origins::of(alloc, filter, table)?;
        Ok(Summary {
            ipv4: FamilySummary::of(filter, table, Family::V4),
            ipv6: FamilySummary::of(filter, table, Family::V6),
            router_ids: origins.router_ids.len(),
            next_hops: origins.next_hops.len(),
        })
    }
}

impl FamilySummary {
    /// That of the rows of a table and a family that a filter keeps.
    fn of(filter: &Filter, table: &Table, family: Family) -> FamilySummary
        ensures { result ≡ counts_of (family_rows family (kept_rows filter.now table.now.rows)) }
    {
        let rows = table.rows_of(family);
        // For the proof: there are as many rows as fit.
        let _most = rows.len();
        let mut summary = FamilySummary {
            routes: 0,
            source_specific: 0,
            unreachable: 0,
        };
        for (key, held) in rows {
            if filter.keeps(&key, &held) {
                summary = summary.with(key, held);
            }
        }
        summary
    }

    /// That of one row more.
    fn with(self, key: Key, held: Held) -> FamilySummary
        requires routes { self.routes < 2 ^ 64 - 1 }
        requires source_specific { self.source_specific < 2 ^ 64 - 1 }
        requires unreachable { self.unreachable < 2 ^ 64 - 1 }
        ensures { result ≡ one_more self (key, held) }
    {
        let source_specific = if key.src().len() > 0 { 1 } else { 0 };
        let unreachable = match held {
            Held::Route(_) => 0,
            Held::Unreachable => 1,
        };
        FamilySummary {
            routes: self.routes + 1,
            source_specific: self.source_specific + source_specific,
            unreachable: self.unreachable + unreachable,
        }
    }
}

/// The router-ids and the next hops of routes.
#[derive(Drop)]
struct Origins {
    router_ids: BTreeSet<[u8; 8]>,
    next_hops: BTreeSet<Addr>,
}

impl Origins {
    /// Those of the rows of a table that a filter keeps.
    fn of(alloc: Global, filter: &Filter, table: &Table) -> Result<Origins, AllocError>
        ensures { IfOk result (λ origins.
            AreOrigins origins (kept_rows filter.now table.now.rows)) }
    {
        let mut origins = Origins {
            router_ids: BTreeSet::new(alloc),
            next_hops: BTreeSet::new(alloc),
        };
        for (key, held) in table.rows() {
            if filter.keeps(&key, &held) {
                origins.add(held)?;
            }
        }
        Ok(origins)
    }

    /// Adds those of a row.
    fn add(&mut self, held: Held) -> Result<(), AllocError>
        ensures { OnOk result ((rows : List Pair) (key : RouteKey)
            → AreOrigins self.old rows → AreOrigins self.new (rows ++ (key, held) ∷ [])) }
    {
        if let Held::Route(ann) = held {
            self.router_ids.insert(ann.router_id())?;
            self.next_hops.insert(ann.next_hop())?;
        }
        Ok(())
    }
}
