//! Who originates what: for each key and router-id the least metric that senders announce, and how
//! many of them announce one; of the senders in one capture, or in each of two.
ghost use Rattle.std.specs.Prelude.{◌≡◌, ◌∷◌, [], IfOk, OnOk};
ghost use Rattle.babel_dump.specs.Filter.{kept_rows};
ghost use Rattle.babel_dump.specs.Originated.{AreOriginated, IsAnnouncedToo, TakesMore};
ghost use Rattle.babel_dump.specs.Originated.{announced_too, sides_too};

use crate::filter::Filter;
use crate::run_fault::Side;
use babel_table::Table;
use babel_tlv::{Ann, Held, Key};
use std::alloc::{AllocError, Global};
use std::collections::BTreeMap;

/// A key, and the router-id of routes for it.
#[derive(Clone, Copy, PartialEq, Eq, PartialOrd, Ord)]
pub(crate) struct Origination {
    pub key: Key,
    pub router_id: [u8; 8],
}

/// How routes for a key with a router-id are announced.
#[derive(Clone, Copy)]
pub(crate) struct Announced {
    /// The least of their metrics.
    pub metric: u16,
    /// How many senders announce one, each counted at each place.
    pub senders: u32,
}

/// How they are in the first capture, and in the other; `None` where none is.
#[derive(Clone, Copy)]
pub(crate) struct OnSides {
    pub left: Option<Announced>,
    pub right: Option<Announced>,
}

/// What senders originate, by key and router-id.
#[derive(Drop)]
pub(crate) struct Originated {
    pub all: BTreeMap<Origination, OnSides>,
}

impl OnSides {
    /// With one sender more on this side, which announces this metric.
    fn with(self, side: Side, metric: u16) -> Result<OnSides, AllocError>
        ensures { IfOk result (λ sides. sides ≡ sides_too side metric self) }
    {
        let OnSides { left, right } = self;
        match side {
            Side::First => Ok(OnSides {
                left: Some(announced_too(left, metric)?),
                right,
            }),
            Side::Other => Ok(OnSides {
                left,
                right: Some(announced_too(right, metric)?),
            }),
        }
    }
}

/// With one sender more, which announces this metric.
fn announced_too(before: Option<Announced>, metric: u16) -> Result<Announced, AllocError>
    ensures { IfOk result (λ announced. announced ≡ announced_too before metric) }
{
    let Some(before) = before else {
        return Ok(Announced { metric, senders: 1 });
    };
    let senders = before.senders.checked_add(1).ok_or(AllocError)?;
    Ok(Announced {
        metric: before.metric.min(metric),
        senders,
    })
}

impl Originated {
    /// No table was taken.
    pub fn new(alloc: Global) -> Originated
        ensures { AreOriginated result.all.entries [] [] }
    {
        Originated {
            all: BTreeMap::new(alloc),
        }
    }

    /// Takes the rows of the table of a sender on this side that a filter keeps.
    pub fn take(&mut self, side: Side, filter: &Filter, table: &Table) -> Result<(), AllocError>
        ensures { OnOk result (TakesMore side (kept_rows filter.now table.now.rows)
            self.old.all.entries self.new.all.entries) }
    {
        for (key, held) in table.rows() {
            self.take_kept(side, filter, key, held)?;
        }
        Ok(())
    }

    /// Takes a row, if a filter keeps it.
    fn take_kept(
        &mut self,
        side: Side,
        filter: &Filter,
        key: Key,
        held: Held,
    ) -> Result<(), AllocError>
        ensures { OnOk result (TakesMore side (kept_rows filter.now ((key, held) ∷ []))
            self.old.all.entries self.new.all.entries) }
    {
        if filter.keeps(&key, &held) {
            return self.add(side, key, held);
        }
        Ok(())
    }

    /// Takes a row.
    fn add(&mut self, side: Side, key: Key, held: Held) -> Result<(), AllocError>
        ensures { OnOk result (TakesMore side ((key, held) ∷ [])
            self.old.all.entries self.new.all.entries) }
    {
        match held {
            Held::Route(ann) => self.add_route(side, key, &ann),
            Held::Unreachable => Ok(()),
        }
    }

    /// Takes a route.
    fn add_route(&mut self, side: Side, key: Key, ann: &Ann) -> Result<(), AllocError>
        ensures { OnOk result (IsAnnouncedToo side
            (record { key = key; router_id = ann.now.router_id }) ann.now.metric
            self.old.all.entries self.new.all.entries) }
    {
        let router_id = ann.router_id();
        let one = Origination { key, router_id };
        let metric = ann.metric();
        if let Some(sides) = self.all.get_mut(&one) {
            *sides = sides.with(side, metric)?;
            return Ok(());
        }
        let none = OnSides {
            left: None,
            right: None,
        };
        self.all.insert(one, none.with(side, metric)?)?;
        Ok(())
    }
}
