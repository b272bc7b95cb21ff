//! Values that a grid can hold.
ghost use Rattle.std.specs.Prelude.{◌≡◌, ◌↔◌, ℕ, IsTrue};
ghost use Rattle.babel_trie.specs.Marks.{stirred};
ghost use Rattle.std.specs.declared.cmp.Ordering.TheVariants.{Equal};

/// Values that a grid can hold: ordered, and equal by that order only where they are one.
pub trait LawfulOrd: Ord + Copy {
    // The number that goes with a value.
    ghost mark: { Self → ℕ };

    /// A number that goes with the value, and mostly differs where values do: what a grid makes of
    /// values is found again by it.
    fn mark(&self) -> u64
        ensures { result ≡ mark self.now };

    ghost exact: { (a b : Self) → Self.Ord.cmp a b ≡ Equal → a ≡ b };
}

/// One mark of two.
pub(crate) fn stirred(mark: u64, other: u64) -> u64
    ensures { result ≡ stirred mark other }
{
    mark.wrapping_add(other)
        .wrapping_mul(11_400_714_819_323_198_485)
}

impl LawfulOrd for u32 {
    ghost use Rattle.std.proofs.lemmas.Map.Lookups.{exact_unsigned};

    ghost exact = { exact_unsigned };

    ghost mark = { λ n. n };

    fn mark(&self) -> u64 {
        u64::from(*self)
    }
}

impl<V: LawfulOrd> LawfulOrd for Option<V> {
    ghost use Rattle.babel_trie.specs.Marks.{option_mark};
    ghost use Rattle.babel_trie.specs.NodeOrder.{options_exact};

    ghost exact = { options_exact V.cmp V.exact };

    ghost mark = { option_mark V.mark };

    fn mark(&self) -> u64 {
        match self {
            None => 0,
            Some(value) => value.mark(),
        }
    }
}

/// Whether two values are one.
pub fn are_same<V: LawfulOrd>(left: V, right: V) -> bool
    ensures { IsTrue result ↔ (left ≡ right) }
{
    left == right
}
