//! What takes rows one after another.
ghost use Rattle.std.specs.Prelude.{◌≡◌, ◌∷◌, ◌++◌, ⊤, List, [], OnOk, OnErr};
ghost use Rattle.babel_prefix.specs.Entries.{Entry};

use crate::rows::Row;
use babel_prefix::Prefix;
use std::alloc::AllocError;

/// What takes rows one after another: a list of them, or what is made of each row at once.
pub trait Sink<V> {
    /// Why a row is not taken.
    type Error;

    // It takes rows, as long as this holds.
    ghost can_put: { Self → Type 0 } = { λ _. ⊤ };

    // These rows made the second of the first.
    ghost has: { Self → Self → List (Entry V) → Type 0 };

    // The same, but that the last of these rows was not taken.
    ghost stopped: { Self → Self → List (Entry V) → Type 0 };

    /// Takes one row more, whose prefixes are of one family.
    fn put(&mut self, row: Row<V>) -> Result<(), Self::Error>
        requires family { row.0.address.family ≡ row.1.address.family }
        requires can { can_put self.old }
        ensures can { OnOk result (can_put self.new) }
        ensures ok { OnOk result ((start : Self) (rows : List (Entry V))
            → has start self.old rows → has start self.new (rows ++ row ∷ [])) }
        ensures err { OnErr result ((start : Self) (rows : List (Entry V))
            → has start self.old rows → stopped start self.new (rows ++ row ∷ [])) };
}

impl<V: Copy> Sink<V> for Vec<Row<V>> {
    type Error = AllocError;

    ghost has = { λ _ list rows. list.items ≡ rows };

    ghost stopped = { λ _ _ _. ⊤ };

    fn put(&mut self, row: Row<V>) -> Result<(), AllocError>
        ensures ok { OnOk result ((rows : List (Entry V))
            → self.old.items ≡ rows → self.new.items ≡ rows ++ row ∷ []) }
        ensures err { ⊤ }
    {
        self.push(row)?;
        Ok(())
    }
}
