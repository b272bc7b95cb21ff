//! Values in eight octets: where routes come from has a number, and is once in a list.
ghost use Rattle.std.specs.Prelude.{◌≡◌, ◌+◌, ◌*◌, ◌^◌, ◌<◌, IfOk, OnOk, Some, slice_get, true};
ghost use Rattle.std.specs.BTreeMap.{get, Updates};
ghost use Rattle.std.specs.Option.{unwrap_or};
ghost use Rattle.babel_tlv.specs.Group.{held_metric, held_seqno};
ghost use Rattle.babel_canon.specs.Values.{AreNumbered, HasFiniteMetric, IsPacked};
ghost use Rattle.babel_canon.specs.Values.{KeepsValues, origin_of, value_of};

use babel_tlv::{Ann, Held};
use babel_trie::LawfulOrd;
use std::alloc::{AllocError, Global};
use std::collections::BTreeMap;

/// A value: the number of its origin, and its seqno and metric, which are 0 and infinite where it
/// is unreachable.
#[derive(Clone, Copy, PartialEq, Eq, PartialOrd, Ord)]
pub(crate) struct PackedValue {
    origin: u32,
    seqno: u16,
    metric: u16,
}

impl LawfulOrd for PackedValue {
    ghost use Rattle.babel_canon.specs.NumberOrder.{packed_exact};

    ghost exact = { packed_exact };

    ghost mark = { λ v. v.origin * 2 ^ 32 + v.seqno * 2 ^ 16 + v.metric };

    fn mark(&self) -> u64 {
        (u64::from(self.origin) << 32) + (u64::from(self.seqno) << 16) + u64::from(self.metric)
    }
}

/// In how many places a number that was asked for is kept.
const PLACES: usize = 64;

/// Each origin once, the number of each, and numbers that were asked for, each in the place of its
/// origin.
#[derive(Drop)]
pub(crate) struct Values {
    list: Vec<Held>,
    numbers: BTreeMap<Held, u32>,
    recent: [u32; PLACES],
}

/// The place of an origin, which others may share.
fn place_of(origin: &Held) -> usize
    ensures { result < 64 }
{
    match origin {
        Held::Route(ann) => {
            let router = u64::from_be_bytes(ann.router_id());
            let hop = (ann.next_hop().bits() % (1 << 64)) as u64;
            let mixed = router.wrapping_add(hop).wrapping_mul(0x9e37_79b9_7f4a_7c15);
            (mixed >> 58) as usize
        }
        Held::Unreachable => 0,
    }
}

/// The origin of a value: the route of its router and next hop that has seqno and metric 0.
fn origin_of(held: &Held) -> Held
    ensures { result ≡ origin_of held.now }
{
    match held {
        Held::Route(ann) => {
            let origin = Ann::new(ann.router_id(), 0, 0, ann.next_hop());
            Held::Route(origin.unwrap())
        }
        Held::Unreachable => Held::Unreachable,
    }
}

/// Whether two values are equal. Router-ids are compared as numbers, and not octet by octet.
fn are_one(known: &Held, held: &Held) -> bool
    ensures { result ≡ true → known.now ≡ held.now }
{
    match (known, held) {
        (Held::Route(ann), Held::Route(other)) => {
            let fields = (ann.seqno(), ann.metric(), ann.next_hop());
            u64::from_be_bytes(ann.router_id()) == u64::from_be_bytes(other.router_id())
                && fields == (other.seqno(), other.metric(), other.next_hop())
        }
        (Held::Unreachable, Held::Unreachable) => true,
        _ => false,
    }
}

/// The seqno and the metric of a value: RFC 8966, 4.6.9.
fn seqno_and_metric(held: &Held) -> (u16, u16)
    ensures seqno { result.0 ≡ held_seqno held.now }
    ensures metric { result.1 ≡ held_metric held.now }
    ensures finite { HasFiniteMetric held.now }
{
    match held {
        Held::Route(ann) => (ann.seqno(), ann.metric()),
        Held::Unreachable => (0, u16::MAX),
    }
}

/// The number of an origin in a map, which is this one from now on if there is none. The map is
/// searched once.
fn number_or(numbers: &mut BTreeMap<Held, u32>, origin: &Held, next: u32) -> Result<u32, AllocError>
    ensures number { IfOk result (λ number.
        number ≡ unwrap_or (get ⟦<Held as Ord>⟧.cmp numbers.old origin.now) next) }
    ensures updates { IfOk result (λ number.
        Updates ⟦<Held as Ord>⟧.cmp numbers.old numbers.new origin.now (Some number)) }
{
    let number = *numbers.entry(*origin)?.or_insert(next);
    Ok(number)
}

impl Values {
    /// No values.
    pub(crate) fn new(alloc: Global) -> Values
        ensures { AreNumbered result.list.items result.numbers }
    {
        Values {
            list: Vec::new(alloc),
            numbers: BTreeMap::new(alloc),
            recent: [0; PLACES],
        }
    }

    /// Whether this is the number of the origin.
    fn is_number(&self, number: u32, origin: &Held) -> bool
        ensures { result ≡ true → slice_get self.now.list.items number ≡ Some origin.now }
    {
        let Some(known) = self.list.get(number as usize) else {
            return false;
        };
        are_one(known, origin)
    }

    /// The number of an origin, which is added if it is not there.
    fn number_in_map(&mut self, origin: Held) -> Result<u32, AllocError>
        requires { AreNumbered self.old.list.items self.old.numbers }
        ensures numbered { OnOk result (AreNumbered self.new.list.items self.new.numbers) }
        ensures found { IfOk result (λ number. slice_get self.new.list.items number ≡ Some origin) }
        ensures keeps { OnOk result (KeepsValues self.old.list.items self.new.list.items) }
    {
        let Ok(next) = u32::try_from(self.list.len()) else {
            return Err(AllocError);
        };
        let number = number_or(&mut self.numbers, &origin, next)?;
        if number != next {
            return Ok(number);
        }
        self.list.push(origin)?;
        Ok(number)
    }

    /// The number of a value's origin; the map is asked only where another number is kept in the
    /// origin's place.
    fn number_of(&mut self, held: &Held) -> Result<u32, AllocError>
        requires { AreNumbered self.old.list.items self.old.numbers }
        ensures numbered { OnOk result (AreNumbered self.new.list.items self.new.numbers) }
        ensures found { IfOk result (λ number.
            slice_get self.new.list.items number ≡ Some (origin_of held.now)) }
        ensures keeps { OnOk result (KeepsValues self.old.list.items self.new.list.items) }
    {
        let origin = origin_of(held);
        let place = place_of(&origin);
        let recent = self.recent[place];
        if self.is_number(recent, &origin) {
            return Ok(recent);
        }
        let number = self.number_in_map(origin)?;
        self.recent[place] = number;
        Ok(number)
    }

    /// A value in eight octets.
    pub(crate) fn packed(&mut self, held: &Held) -> Result<PackedValue, AllocError>
        requires { AreNumbered self.old.list.items self.old.numbers }
        ensures numbered { OnOk result (AreNumbered self.new.list.items self.new.numbers) }
        ensures found { IfOk result (λ value. IsPacked self.new.list.items held.now value) }
        ensures keeps { OnOk result (KeepsValues self.old.list.items self.new.list.items) }
    {
        let origin = self.number_of(held)?;
        let (seqno, metric) = seqno_and_metric(held);
        Ok(PackedValue {
            origin,
            seqno,
            metric,
        })
    }

    /// The value that is packed so; `Unreachable` where none is.
    pub(crate) fn value(&self, value: PackedValue) -> Held
        ensures { result ≡ value_of self.now.list.items value }
    {
        let Some(Held::Route(origin)) = self.list.get(value.origin as usize) else {
            return Held::Unreachable;
        };
        let id = origin.router_id();
        match Ann::new(id, value.seqno, value.metric, origin.next_hop()) {
            Some(ann) => Held::Route(ann),
            None => Held::Unreachable,
        }
    }
}
