//! To whom it is said what there is to know.
ghost use Rattle.std.specs.Prelude.{⊤};

use std::fmt::Display;
use std::io;

/// Whoever is told lines: the program's standard error. Where one can't be said, it is left out.
pub trait Says {
    // Relates whoever is told before a line, the value that is said, and whoever is told after it.
    // The default says nothing.
    ghost hears: { Self → (T : Type 0) → T → Self → Type 0 } = { λ _ _ _ _. ⊤ };

    /// Says a line, whose end is not in it.
    fn say<T: Display>(&mut self, line: &T)
        ensures { hears self.old T line.now self.new };
}

/// What is remembered of a reader, by which its fault is explained.
pub trait Watched {
    /// Why it failed last, if it did.
    fn error(&self) -> Option<&io::Error>;

    /// The first octets that it gave.
    fn begins(&self) -> &[u8];

    /// The four octets from this offset on, if they came last.
    fn four_at(&self, offset: u64) -> Option<[u8; 4]>;
}
