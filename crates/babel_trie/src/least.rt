//! Where two lists of rows first answer differently.
ghost use Rattle.std.specs.Prelude.{◌≡◌, ◌↔◌, ℕ, ◌^◌, ◌<◌, ◌≤◌, List};
ghost use Rattle.std.specs.Prelude.{All, map, IfOk, IfSome, OnOk, MatchOption};
ghost use Rattle.babel_prefix.specs.Best.{answer};
ghost use Rattle.babel_prefix.specs.Width.{width_of};
ghost use Rattle.babel_prefix.specs.Entries.{Entry, answers_in, row_of};
ghost use Rattle.babel_prefix.specs.BestRow.{IsTable, AreOfFamily, HasDistinctPrefixes};
ghost use Rattle.babel_trie.specs.Boxes.{SameAnswers, IsLeastDifference};
ghost use Rattle.babel_trie.specs.Differs.{IsFirstPair};
ghost use Rattle.babel_trie.specs.Held.{RowOrder};
ghost use Rattle.babel_trie.specs.Pass.{IsPassOver, IsQuietUpTo, StartRowsFrom, rows_left};
ghost use Rattle.babel_trie.specs.Rows.{InOrder};
ghost use Rattle.babel_trie.specs.Sound.{IsSound};

use crate::difference::Tables;
use crate::front::{Reaching, first_unshared};
use crate::lawful::LawfulOrd;
use crate::ordered::{in_order, sorted_copy};
use crate::pass::{Pass, nearer_start};
use crate::rows::{Row, Rows};
use crate::table::{Sources, Table};
use babel_prefix::{Addr, Family};
use std::alloc::{AllocError, Global};

/// Both passes come to each change up to an address, and the next one of either is answered. Nodes
/// that were made for blocks which end before the address can be given up first.
pub fn reach_both<V: LawfulOrd, L: Rows<V>, R: Rows<V>>(
    table: &mut Table<Option<V>>,
    pass: &mut Pass<V, L>,
    other: &mut Pass<V, R>,
    width: u8,
    at: u128,
) -> Result<Option<u128>, AllocError>
    requires sound { IsSound ⟦<Sources<Option<V>> as Ord>⟧.cmp
        ⟦<Sources<Option<V>> as LawfulOrd>⟧.mark table.old.nodes.items table.old.numbers }
    requires pass { (rows : List (Entry V))
        × IsPassOver width L.rows rows table.old.nodes.items pass.old }
    requires other { (rows : List (Entry V))
        × IsPassOver width R.rows rows table.old.nodes.items other.old }
    requires reached { pass.old.now.start ≤ at }
    requires other_reached { other.old.now.start ≤ at }
    requires rows { StartRowsFrom at (rows_left L.rows pass.old) }
    requires other_rows { StartRowsFrom at (rows_left R.rows other.old) }
    requires width { width ≤ 128 }
    ensures sound { OnOk result (IsSound ⟦<Sources<Option<V>> as Ord>⟧.cmp
        ⟦<Sources<Option<V>> as LawfulOrd>⟧.mark table.new.nodes.items table.new.numbers) }
    ensures pass { OnOk result ((rows : List (Entry V))
        → IsPassOver width L.rows rows table.old.nodes.items pass.old
        → IsPassOver width L.rows rows table.new.nodes.items pass.new) }
    ensures other { OnOk result ((rows : List (Entry V))
        → IsPassOver width R.rows rows table.old.nodes.items other.old
        → IsPassOver width R.rows rows table.new.nodes.items other.new) }
    ensures reached { OnOk result (pass.new.now.start ≤ at) }
    ensures other_reached { OnOk result (other.new.now.start ≤ at) }
    ensures next { IfOk result (λ next. (to : ℕ) → IfSome next (λ start. to < start)
        ↔ (IsQuietUpTo to L.rows pass.new × IsQuietUpTo to R.rows other.new)) }
    ensures behind { IfOk result (λ next. IfSome next (λ start. at < start)) }
    ensures within { IfOk result (λ next. IfSome next (λ start. start < 2 ^ width)) }
{
    pass.leave(at);
    other.leave(at);
    table.give_up_from(pass.made().max(other.made()));
    let next = pass.reach(table, width, at)?;
    let other_next = other.reach(table, width, at)?;
    Ok(nearer_start(next, other_next))
}

/// The first destination that two lists of rows in order answer differently, and for it the first
/// source. Both are walked side by side, up to there.
fn first_pair_passed<V: LawfulOrd, L: Rows<V>, R: Rows<V>>(
    alloc: Global,
    width: u8,
    left: L,
    right: R,
) -> Result<Option<(u128, u128)>, AllocError>
    requires left_order { InOrder RowOrder (L.rows left) }
    requires left_table { IsTable width (map row_of (L.rows left)) }
    requires right_order { InOrder RowOrder (R.rows right) }
    requires right_table { IsTable width (map row_of (R.rows right)) }
    requires width { width ≤ 128 }
    ensures { IfOk result (IsFirstPair (2 ^ width) (2 ^ width)
        (answer width (map row_of (L.rows left))) (answer width (map row_of (R.rows right)))) }
{
    let mut table = Table::new(alloc);
    let mut pass = Pass::new(alloc, left);
    let mut other = Pass::new(alloc, right);
    let mut at = 0u128;
    loop {
        let next = reach_both(&mut table, &mut pass, &mut other, width, at)?;
        let (here, there) = (pass.sources(), other.sources());
        if let Some(src) = table.first_difference(here, &table, there, Tables::One, width) {
            return Ok(Some((at, src)));
        }
        let Some(start) = next else {
            return Ok(None);
        };
        at = start;
    }
}

/// The same, where what both lists begin with is skipped but for the rows that reach past it.
fn first_pair<V: LawfulOrd, L: Rows<V>, R: Rows<V>>(
    alloc: Global,
    width: u8,
    left: L,
    right: R,
) -> Result<Option<(u128, u128)>, AllocError>
    requires left_order { InOrder RowOrder (L.rows left) }
    requires left_table { IsTable width (map row_of (L.rows left)) }
    requires right_order { InOrder RowOrder (R.rows right) }
    requires right_table { IsTable width (map row_of (R.rows right)) }
    requires width { width ≤ 128 }
    ensures { IfOk result (IsFirstPair (2 ^ width) (2 ^ width)
        (answer width (map row_of (L.rows left))) (answer width (map row_of (R.rows right)))) }
{
    let Some(at) = first_unshared(left, right) else {
        return Ok(None);
    };
    let reaching = Reaching {
        rows: left,
        width,
        at,
    };
    let other_reaching = Reaching {
        rows: right,
        width,
        at,
    };
    first_pair_passed(alloc, width, reaching, other_reaching)
}

/// The least pair of a destination and a source, by destination, then source, that two lists of
/// rows answer differently; `None` if there is none. All prefixes are of the family, and no two
/// rows of a list have the same two. `Err` where memory runs out.
///
/// The tries of sources of both lists stand in one table of nodes, in which equal tries have one
/// number: the lists are gone through side by side up to the first destination for which they have
/// two.
pub fn least_difference<V: LawfulOrd>(
    alloc: Global,
    family: Family,
    left: &[Row<V>],
    right: &[Row<V>],
) -> Result<Option<(Addr, Addr)>, AllocError>
    requires left_family { All (AreOfFamily family) left.now }
    requires left_prefixes { HasDistinctPrefixes left.now }
    requires right_family { All (AreOfFamily family) right.now }
    requires right_prefixes { HasDistinctPrefixes right.now }
    ensures family { IfOk result (λ found. IfSome found (λ p. (p.0.family ≡ family)
        × (p.1.family ≡ family))) }
    ensures least { let width = width_of family in
        let f = answers_in family left.now in
        let g = answers_in family right.now in
        IfOk result (λ found. MatchOption found (SameAnswers width f g)
        (λ p. IsLeastDifference width f g p.0.bits p.1.bits)) }
{
    least_difference_of(alloc, family, left, right)
}

/// The same of rows that are no slices: they are gone through one by one, and not copied if they
/// stand in order.
pub fn least_difference_of<V: LawfulOrd, L: Rows<V>, R: Rows<V>>(
    alloc: Global,
    family: Family,
    left: L,
    right: R,
) -> Result<Option<(Addr, Addr)>, AllocError>
    requires left_family { All (AreOfFamily family) (L.rows left) }
    requires left_prefixes { HasDistinctPrefixes (L.rows left) }
    requires right_family { All (AreOfFamily family) (R.rows right) }
    requires right_prefixes { HasDistinctPrefixes (R.rows right) }
    ensures family { IfOk result (λ found. IfSome found (λ p. (p.0.family ≡ family)
        × (p.1.family ≡ family))) }
    ensures least { let width = width_of family in
        let f = answers_in family (L.rows left) in
        let g = answers_in family (R.rows right) in
        IfOk result (λ found. MatchOption found (SameAnswers width f g)
        (λ p. IsLeastDifference width f g p.0.bits p.1.bits)) }
{
    let copy = sorted_copy(alloc, left)?;
    let other_copy = sorted_copy(alloc, right)?;
    let rows = in_order(left, &copy);
    let other_rows = in_order(right, &other_copy);
    let Some((dst, src)) = first_pair(alloc, family.width(), rows, other_rows)? else {
        return Ok(None);
    };
    let dst = Addr::new(family, dst).unwrap();
    let src = Addr::new(family, src).unwrap();
    Ok(Some((dst, src)))
}
