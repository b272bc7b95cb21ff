//! Which senders of two captures are compared with each other.
ghost use Rattle.std.specs.Prelude.{◌≡◌, if◌then◌else◌, IfOk, List, None, Some};
ghost use Rattle.std.specs.BTreeMap.{is_at};
ghost use Rattle.std.specs.Map.{keys_of, lookup};
ghost use Rattle.babel_prefix.specs.Order.{address_cmp};
ghost use Rattle.babel_dump.specs.Fellows.{AreFellows, Occurs, at_place, fellow_by, fellow_of};
ghost use Rattle.babel_dump.specs.Fellows.{lead_of, left_with};
ghost use Rattle.std.specs.Option.{option_flatten};
ghost use Rattle.babel_capture.specs.declared.tallies.Origin.{Origin};

use babel_capture::Origin;
use babel_prefix::Addr;
use std::alloc::{AllocError, Global};
use std::collections::BTreeMap;

/// A sender at its place in the first of two captures, and the one in the other that it is compared
/// with; or one that only one of the captures has.
#[derive(Clone, Copy)]
pub(crate) enum Fellows {
    Both { left: Origin, right: Origin },
    Left(Origin),
    Right(Origin),
}

impl Fellows {
    /// The sender that is told: that in the first capture, where it has one.
    pub fn lead(&self) -> Origin
        ensures { result ≡ lead_of self.now }
    {
        match self {
            Fellows::Both { left, .. } => *left,
            Fellows::Left(origin) | Fellows::Right(origin) => *origin,
        }
    }
}

/// The senders of two captures, each with its fellow, if it has one.
pub(crate) fn fellows_of<T>(
    alloc: Global,
    left: &BTreeMap<Origin, T>,
    right: &BTreeMap<Origin, T>,
) -> Result<Vec<Fellows>, AllocError>
    ensures { IfOk result (λ fellows. AreFellows (keys_of left.now.entries)
        (keys_of right.now.entries) fellows.items) }
{
    let (lefts, rights) = (Occurring::new(alloc, left)?, Occurring::new(alloc, right)?);
    let mut fellows = Vec::new(alloc);
    for (origin, _) in left {
        fellows.push(left_with(*origin, lefts.fellow(&rights, *origin)))?;
    }
    for (origin, _) in right {
        if rights.fellow(&lefts, *origin).is_none() {
            fellows.push(Fellows::Right(*origin))?;
        }
    }
    fellows.sort_unstable_by_key(|fellows| fellows.lead());
    Ok(fellows)
}

/// The senders of a capture, and of each address the only one that has it, none where several do.
#[derive(Drop)]
struct Occurring<'a, T> {
    senders: &'a BTreeMap<Origin, T>,
    lone: BTreeMap<Addr, Option<Origin>>,
}

impl<'a, T> Occurring<'a, T> {
    /// Finds which have one place.
    fn new(alloc: Global, senders: &'a BTreeMap<Origin, T>) -> Result<Occurring<'a, T>, AllocError>
        ensures { IfOk result (λ occurring. Occurs (keys_of senders.now.entries)
            occurring.senders.now.entries occurring.lone.entries) }
    {
        let mut lone = BTreeMap::new(alloc);
        for (origin, _) in senders {
            let place = only_with(lone.contains_key(&origin.sender), *origin);
            match lone.insert(origin.sender, place) {
                Ok(_) => {}
                Err(_) => return Err(AllocError),
            }
        }
        Ok(Occurring { senders, lone })
    }

    /// The only one of this address, if there is one.
    fn only(&self, sender: Addr) -> Option<Origin>
        ensures { result
            ≡ option_flatten (lookup (is_at (address_cmp sender)) self.now.lone.entries) }
    {
        match self.lone.get(&sender) {
            Some(place) => *place,
            None => None,
        }
    }

    /// The fellow of one of these, among the others.
    fn fellow(&self, others: &Occurring<'_, T>, origin: Origin) -> Option<Origin>
        ensures { (senders other_senders : List Origin)
            → Occurs senders self.now.senders.now.entries self.now.lone.entries
            → Occurs other_senders others.now.senders.now.entries others.now.lone.entries
            → result ≡ fellow_of senders other_senders origin }
    {
        let sender = origin.sender;
        let same = others.at_place(origin);
        fellow_by(self.only(sender), others.only(sender), same)
    }

    /// The sender at the same place, if there is one.
    fn at_place(&self, origin: Origin) -> Option<Origin>
        ensures { result ≡ at_place (keys_of self.now.senders.now.entries) origin }
    {
        if self.senders.contains_key(&origin) {
            Some(origin)
        } else {
            None
        }
    }
}

/// The only one on either side, or else the one at the same place.
fn fellow_by(own: Option<Origin>, other: Option<Origin>, same: Option<Origin>) -> Option<Origin>
    ensures { result ≡ fellow_by own other same }
{
    match (own, other) {
        (Some(_), Some(other)) => Some(other),
        _ => same,
    }
}

/// A sender of the first capture, with its fellow or alone.
fn left_with(left: Origin, fellow: Option<Origin>) -> Fellows
    ensures { result ≡ left_with left fellow }
{
    match fellow {
        Some(right) => Fellows::Both { left, right },
        None => Fellows::Left(left),
    }
}

/// The place of one more sender, where some of its address may be before it.
fn only_with(has_others: bool, origin: Origin) -> Option<Origin>
    ensures { result ≡ if has_others then None else Some origin }
{
    if has_others { None } else { Some(origin) }
}
