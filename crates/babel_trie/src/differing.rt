//! What two tables answer where they differ.
ghost use Rattle.babel_trie.specs.Differences.{TellsApart};

use crate::lawful::{LawfulOrd, are_same, stirred};
use std::alloc::AllocError;

/// The two answers for a destination and a source that two tables answer differently. `None` where
/// a table has no row with both addresses.
#[derive(Copy, PartialEq, Eq, PartialOrd, Ord)]
pub struct Differing<V> {
    pub left: Option<V>,
    pub right: Option<V>,
}

impl<V: Copy> Clone for Differing<V> {
    fn clone(&self) -> Result<Differing<V>, AllocError> {
        Ok(*self)
    }
}

impl<V: LawfulOrd> LawfulOrd for Differing<V> {
    ghost use Rattle.babel_trie.specs.NodeOrder.{options_exact, differing_exact};
    ghost use Rattle.babel_trie.specs.Marks.{option_mark, differing_mark};
    ghost use Rattle.std.specs.Option.{option_cmp};

    ghost exact = { differing_exact (option_cmp V.cmp) (options_exact V.cmp V.exact) };

    ghost mark = { differing_mark (option_mark V.mark) };

    fn mark(&self) -> u64 {
        stirred(self.left.mark(), self.right.mark())
    }
}

/// Two answers where they differ, and nothing where they are one.
pub fn told_apart<V: LawfulOrd>(left: Option<V>, right: Option<V>) -> Option<Differing<V>>
    ensures { TellsApart left right result }
{
    if are_same(left, right) {
        return None;
    }
    Some(Differing { left, right })
}
