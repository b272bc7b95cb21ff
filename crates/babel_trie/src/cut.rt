//! How many largest blocks a range of addresses has, and where the range of a change ends.
ghost use Rattle.std.specs.Prelude.{◌≡◌, ℕ, ◌+◌, ◌^◌, ◌<◌, ◌≤◌, List, length};
ghost use Rattle.babel_prefix.specs.Block.{Block};
ghost use Rattle.babel_trie.specs.Cut.{AreLargestIn, IsSplit};
ghost use Rattle.babel_trie.specs.Spans.{start_or};

use crate::runs::Change;

/// The last address of a change before these: the one before the first of them, or the last of all.
pub fn run_last<F>(top: u128, later: &[Change<F>]) -> u128
    requires { 0 < start_or (top + 1) later.now }
    ensures { result + 1 ≡ start_or (top + 1) later.now }
{
    match later {
        [] => top,
        [next, ..] => next.start - 1,
    }
}

/// The highest bit in which the numbers differ.
pub fn split(from: u128, last: u128) -> u32
    requires { from < last }
    ensures split { IsSplit from last result }
    ensures few { result ≤ 127 }
{
    127 - (from ^ last).leading_zeros()
}

/// How many largest blocks there are among the addresses from this one to the last (whatever the
/// width): the ones of the parts below and above the middle, the highest bit's multiple between
/// them.
pub fn block_count(from: u128, last: u128) -> u32
    requires { from ≤ last }
    ensures { (width : ℕ) → last < 2 ^ width
        → (blocks : List Block) × AreLargestIn width from last blocks × (result ≡ length blocks) }
{
    if from == last {
        return 1;
    }
    let bit = split(from, last);
    let middle = last >> bit << bit;
    let below = middle - from;
    let above = last - middle + 1;
    let half = 1 << bit;
    if below == half && above == half {
        return 1;
    }
    below.count_ones() + above.count_ones()
}
