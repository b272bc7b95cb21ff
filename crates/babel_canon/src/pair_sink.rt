//! What takes canonical pairs one after another: a list, a text, or what a caller makes of each.
ghost use Rattle.std.specs.Prelude.{◌≡◌, ◌∷◌, ◌++◌, ⊤, List, [], OnOk, OnErr};
ghost use Rattle.babel_tlv.specs.Pair.{Pair};
ghost use Rattle.babel_canon.specs.Writing.{IsTextOf};

use crate::text::Text;
use babel_tlv::{Held, Key};
use std::alloc::AllocError;

/// What takes canonical pairs one after another.
pub trait PairSink {
    /// Why a pair is not taken.
    type Error;

    // It takes pairs, as long as this holds.
    ghost can_put: { Self → Type 0 } = { λ _. ⊤ };

    // These pairs made the second of the first.
    ghost has: { Self → Self → List Pair → Type 0 };

    // The same, but that the last of these pairs was not taken.
    ghost stopped: { Self → Self → List Pair → Type 0 };

    /// Takes one pair more.
    fn put(&mut self, key: Key, held: Held) -> Result<(), Self::Error>
        requires { can_put self.old }
        ensures can { OnOk result (can_put self.new) }
        ensures ok { OnOk result ((start : Self) (pairs : List Pair)
            → has start self.old pairs → has start self.new (pairs ++ (key, held) ∷ [])) }
        ensures err { OnErr result ((start : Self) (pairs : List Pair)
            → has start self.old pairs → stopped start self.new (pairs ++ (key, held) ∷ [])) };
}

impl PairSink for Vec<(Key, Held)> {
    type Error = AllocError;

    ghost has = { λ _ list pairs. list.items ≡ pairs };

    ghost stopped = { λ _ _ _. ⊤ };

    fn put(&mut self, key: Key, held: Held) -> Result<(), AllocError> {
        self.push((key, held))?;
        Ok(())
    }
}

impl PairSink for Text {
    type Error = AllocError;

    ghost has = { λ start text pairs. IsTextOf start.body text pairs };

    ghost stopped = { λ _ _ _. ⊤ };

    fn put(&mut self, key: Key, held: Held) -> Result<(), AllocError> {
        self.push(&key, &held)
    }
}
