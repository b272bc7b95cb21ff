//! The IHUs of many routers.
ghost use Rattle.std.specs.Prelude.{◌≡◌, OnOk};
ghost use Rattle.std.specs.BTreeMap.{is_at};
ghost use Rattle.babel_selection.specs.Hearing.{TakesAll, TakesIhu, TakesNamed, later, last_kept};
ghost use Rattle.babel_selection.specs.Hearing.{no_ihus};

use crate::ihu_from::{IhuFrom, IhuSaid};
use babel_timeline::Sender;
use std::alloc::{AllocError, Global};
use std::collections::BTreeMap;
use std::marker::Model;

/// A router, and a neighbour that it names. Ordered by router, then by neighbour.
#[derive(Clone, Copy, PartialEq, Eq, PartialOrd, Ord)]
pub struct Pair<S> {
    pub router: S,
    pub neighbour: S,
}

/// An IHU, and that it was the so-manyth that was heard.
#[derive(Clone, Copy)]
pub struct Numbered {
    said: IhuSaid,
    number: u64,
}

/// The last IHUs of each router: for each neighbour that it names, and for all others.
#[derive(Drop)]
pub struct Ihus<S: Sender> {
    named: BTreeMap<Pair<S>, Numbered>,
    to_all: BTreeMap<S, Numbered>,
    /// How many were heard.
    heard: u64,
}

impl<S: Sender> Model for Ihus<S> {
    ghost use Rattle.babel_selection.specs.Hearing.{AreNumbered, LastIhus};

    ghost Value = { LastIhus S };

    ghost view = { λ i. record {
      named = i.named.entries;
      to_all = i.to_all.entries;
      heard = i.heard;
    } };

    ghost invariant = { λ i. AreNumbered S.cmp (record {
      named = i.named.entries;
      to_all = i.to_all.entries;
      heard = i.heard;
    }) };
}

/// Whether two are one.
fn are_one<S: Sender>(one: S, other: S) -> bool
    ensures { result ≡ is_at (S.cmp one) other }
{
    one == other
}

/// The later of two IHUs.
fn later(one: &Option<Numbered>, other: &Option<Numbered>) -> Option<IhuSaid>
    ensures { result ≡ later one.now other.now }
{
    match (one, other) {
        (None, None) => None,
        (Some(one), None) => Some(one.said),
        (None, Some(other)) => Some(other.said),
        (Some(one), Some(other)) => {
            if one.number < other.number {
                Some(other.said)
            } else {
                Some(one.said)
            }
        }
    }
}

impl<S: Sender> Ihus<S> {
    /// None.
    pub fn new(alloc: Global) -> Ihus<S>
        ensures { result ≡ no_ihus }
    {
        Ihus {
            named: BTreeMap::new(alloc),
            to_all: BTreeMap::new(alloc),
            heard: 0,
        }
    }

    /// Takes an IHU.
    pub fn hear(&mut self, ihu: &IhuFrom<S>) -> Result<(), AllocError>
        ensures { OnOk result (TakesIhu S.cmp ihu.now self.old self.new) }
    {
        match ihu.neighbour {
            Some(neighbour) => {
                let router = ihu.router;
                self.hear_named(&Pair { router, neighbour }, &ihu.said)
            }
            None => self.hear_all(ihu.router, &ihu.said),
        }
    }

    /// Takes one that names a neighbour.
    fn hear_named(&mut self, pair: &Pair<S>, said: &IhuSaid) -> Result<(), AllocError>
        ensures { OnOk result (TakesNamed S.cmp pair.now said.now self.old self.new) }
    {
        let Some(number) = self.heard.checked_add(1) else {
            return Err(AllocError);
        };
        let numbered = Numbered {
            said: *said,
            number,
        };
        self.named.insert(*pair, numbered)?;
        self.heard = number;
        Ok(())
    }

    /// Takes one that is for all that send there.
    fn hear_all(&mut self, router: S, said: &IhuSaid) -> Result<(), AllocError>
        ensures { OnOk result (TakesAll S.cmp router said.now self.old self.new) }
    {
        let Some(number) = self.heard.checked_add(1) else {
            return Err(AllocError);
        };
        let numbered = Numbered {
            said: *said,
            number,
        };
        self.to_all.insert(router, numbered)?;
        self.heard = number;
        Ok(())
    }

    /// The last one of the pair's router that names its neighbour, which sends there or not.
    pub fn last(&self, pair: &Pair<S>, sends: bool) -> Option<IhuSaid>
        ensures { result ≡ last_kept S.cmp self.now pair.now.router pair.now.neighbour sends }
    {
        let named = self.named.get(pair).copied();
        let to_all = if sends && !are_one(pair.router, pair.neighbour) {
            self.to_all.get(&pair.router).copied()
        } else {
            None
        };
        later(&named, &to_all)
    }

    /// Those that name a neighbour by its address.
    pub fn named(&self) -> &BTreeMap<Pair<S>, Numbered>
        ensures { result.now.entries ≡ self.now.named }
    {
        &self.named
    }

    /// Those for all that send there, by router.
    pub fn to_all(&self) -> &BTreeMap<S, Numbered>
        ensures { result.now.entries ≡ self.now.to_all }
    {
        &self.to_all
    }
}
