//! The source table of a router, by its own Updates.
ghost use Rattle.std.specs.Prelude.{◌≡◌, [], length, IfOk, OnOk};
ghost use Rattle.babel_selection.specs.Distances.{source_cmp, source_of, standing};
ghost use Rattle.babel_selection.specs.Announcing.{TakesUpdate, standing_keys};
ghost use Rattle.babel_selection.specs.Hearing.{entry_at};

use crate::distance::Distance;
use crate::source::Source;
use babel_tlv::{Ann, Key};
use std::alloc::{AllocError, Global};
use std::collections::BTreeMap;
use std::marker::Model;

/// The entries of a router's source table: RFC 8966, 3.2.5.
#[derive(Drop)]
pub struct Sources {
    distances: BTreeMap<Source, Distance>,
}

impl Model for Sources {
    ghost use Rattle.std.specs.Prelude.{List};
    ghost use Rattle.babel_selection.specs.declared.distance.Distance.{Distance as Entry};
    ghost use Rattle.babel_selection.specs.declared.source.Source.{Source as Of};

    ghost Value = { List (Of × Entry) };

    ghost view = { λ s. s.distances.entries };
}

/// What an announcement's entry is of.
fn source_of(key: &Key, ann: &Ann) -> Source
    ensures { result ≡ source_of key.now ann.now }
{
    Source {
        key: *key,
        router_id: ann.router_id(),
    }
}

impl Sources {
    /// None.
    pub fn new(alloc: Global) -> Sources
        ensures { result ≡ [] }
    {
        Sources {
            distances: BTreeMap::new(alloc),
        }
    }

    /// How many there are, with those that are gone.
    pub fn len(&self) -> usize
        ensures { result ≡ length self.now }
    {
        self.distances.len()
    }

    /// Takes an Update of the router's own with a finite metric, which came at this time.
    pub fn hear(&mut self, key: &Key, ann: &Ann, time: u128) -> Result<(), AllocError>
        ensures { OnOk result (TakesUpdate time (source_of key.now ann.now) ann.now
            self.old self.new) }
    {
        self.take(&source_of(key, ann), ann, time)
    }

    /// Takes one of this source.
    fn take(&mut self, source: &Source, ann: &Ann, time: u128) -> Result<(), AllocError>
        ensures { OnOk result (TakesUpdate time source.now ann.now self.old self.new) }
    {
        let old = self.entry(source);
        self.distances
            .insert(*source, Distance::after(&old, ann, time))?;
        Ok(())
    }

    /// The entry of a source, gone or not.
    fn entry(&self, source: &Source) -> Option<Distance>
        ensures { result ≡ entry_at source_cmp self.now source.now }
    {
        self.distances.get(source).copied()
    }

    /// The keys of the entries that stand at the moment, in order.
    pub fn keys(&self, alloc: Global, moment: u128) -> Result<Vec<Key>, AllocError>
        ensures { IfOk result (λ keys. keys.items ≡ standing_keys moment self.now) }
    {
        let mut keys = Vec::new(alloc);
        for (source, distance) in &self.distances {
            if !distance.is_gone(moment) {
                keys.push(source.key)?;
            }
        }
        Ok(keys)
    }

    /// The entry of a source, if it stands at the moment.
    pub fn distance(&self, source: &Source, moment: u128) -> Option<Distance>
        ensures { result ≡ standing moment (entry_at source_cmp self.now source.now) }
    {
        let distance = self.entry(source)?;
        if distance.is_gone(moment) {
            return None;
        }
        Some(distance)
    }
}
