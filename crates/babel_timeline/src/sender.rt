ghost use Rattle.std.specs.Prelude.{◌≡◌};
ghost use Rattle.std.specs.declared.cmp.Ordering.TheVariants.{Equal};

/// Who speaks, with all that tells senders apart: ordered, and equal by that order only where they
/// are one.
pub trait Sender: Ord + Copy {
    ghost exact: { (a b : Self) → Self.Ord.cmp a b ≡ Equal → a ≡ b };
}

impl Sender for u64 {
    ghost use Rattle.std.proofs.lemmas.Map.Lookups.{exact_unsigned};

    ghost exact = { exact_unsigned };
}
