ghost use Rattle.std.specs.Prelude.{◌≡◌};

use babel_prefix::Addr;

/// A destination and a source of one family.
#[derive(Clone, Copy)]
pub struct AddrPair {
    /// The destination to look up: `--to`.
    pub dst: Addr,
    /// The source to look up: `--src`.
    pub src: Addr,
    ghost one_family: { dst.family ≡ src.family },
}
