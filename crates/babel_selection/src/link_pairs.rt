//! Which links IHUs tell of.
ghost use Rattle.std.specs.Prelude.{◌≡◌, ◌++◌, if◌then◌else◌, IfOk, List, OnOk};
ghost use Rattle.std.specs.BTreeMap.{is_at};
ghost use Rattle.std.specs.List.Sorted.{IsStrictlySortedBy};
ghost use Rattle.std.specs.Map.{keys_of};
ghost use Rattle.std.specs.Option.{option_or};
ghost use Rattle.babel_selection.specs.Hearing.{AreLast, entry_at, last_kept, pair_cmp};
ghost use Rattle.babel_selection.specs.HeardLinks.{AreLinks};
ghost use Rattle.babel_selection.specs.LinkPairs.{pairs_beside, pairs_kept, sends_beside};
ghost use Rattle.babel_selection.specs.declared.ihu_from.IhuFrom.{IhuFrom as Said};
ghost use Rattle.babel_selection.specs.declared.ihus.Pair.{Pair as PairSaid};

use crate::ihu_from::IhuSaid;
use crate::ihus::{Ihus, Pair};
use crate::link_node::LinkNode;
use std::alloc::{AllocError, Global};
use std::collections::{BTreeMap, BTreeSet};

/// Each pair of a router and a neighbour that an IHU of the router names, with the last such IHU,
/// where these nodes send.
pub fn links<S: LinkNode>(
    alloc: Global,
    ihus: &Ihus<S>,
    senders: &BTreeSet<S>,
) -> Result<BTreeMap<Pair<S>, IhuSaid>, AllocError>
    ensures { IfOk result (λ links. (said : List (Said S)) → AreLast S.cmp said ihus.now
        → AreLinks S.cmp (sends_beside S.cmp S.are_beside senders.now) said links.entries) }
{
    let pairs = pairs_named(alloc, ihus, senders)?;
    let mut links = BTreeMap::new(alloc);
    for pair in &pairs {
        add_link(&mut links, ihus, senders, pair)?;
    }
    Ok(links)
}

/// Adds the last IHU of a router for a neighbour, if one names it.
fn add_link<S: LinkNode>(
    links: &mut BTreeMap<Pair<S>, IhuSaid>,
    ihus: &Ihus<S>,
    senders: &BTreeSet<S>,
    pair: &Pair<S>,
) -> Result<(), AllocError>
    ensures in_order { IsStrictlySortedBy (pair_cmp S.cmp) (keys_of links.old.entries)
        → IsStrictlySortedBy (pair_cmp S.cmp) (keys_of links.new.entries) }
    ensures last { OnOk result ((other : PairSaid S)
        → entry_at (pair_cmp S.cmp) links.new.entries other
        ≡ (if is_at (pair_cmp S.cmp pair.now) other
        then option_or (last_kept S.cmp ihus.now pair.now.router pair.now.neighbour
        (sends_beside S.cmp S.are_beside senders.now pair.now.router pair.now.neighbour))
        (entry_at (pair_cmp S.cmp) links.old.entries other)
        else entry_at (pair_cmp S.cmp) links.old.entries other)) }
{
    let Some(said) = ihus.last(pair, sends_beside(senders, pair)) else {
        return Ok(());
    };
    links.insert(*pair, said)?;
    Ok(())
}

/// Whether the neighbour is beside the router, and sends.
fn sends_beside<S: LinkNode>(senders: &BTreeSet<S>, pair: &Pair<S>) -> bool
    ensures { result ≡ sends_beside S.cmp S.are_beside senders.now
        pair.now.router pair.now.neighbour }
{
    pair.router.is_beside(&pair.neighbour) && senders.contains(&pair.neighbour)
}

/// The pairs that IHUs name, and others that none names.
fn pairs_named<S: LinkNode>(
    alloc: Global,
    ihus: &Ihus<S>,
    senders: &BTreeSet<S>,
) -> Result<Vec<Pair<S>>, AllocError>
    ensures { IfOk result (λ pairs. pairs.items
        ≡ pairs_kept S.are_beside ihus.now senders.now.keys) }
{
    let mut pairs = Vec::new(alloc);
    for (pair, _) in ihus.named() {
        pairs.push(*pair)?;
    }
    for (router, _) in ihus.to_all() {
        add_beside(&mut pairs, *router, senders)?;
    }
    Ok(pairs)
}

/// Adds a router with each of these that is beside it.
fn add_beside<S: LinkNode>(
    pairs: &mut Vec<Pair<S>>,
    router: S,
    senders: &BTreeSet<S>,
) -> Result<(), AllocError>
    ensures { OnOk result (pairs.new.items
        ≡ pairs.old.items ++ pairs_beside S.are_beside router senders.now.keys) }
{
    for sender in senders {
        let neighbour = *sender;
        if router.is_beside(&neighbour) {
            pairs.push(Pair { router, neighbour })?;
        }
    }
    Ok(())
}
