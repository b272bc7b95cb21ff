use thiserror::Error;

/// Why the pairs of `--each` are refused. `Display` gives the line for standard error.
#[derive(Clone, Copy, Debug, PartialEq, Eq, Error)]
pub enum PairsFault {
    /// The line with this number, from 1, is no destination and source of one family.
    #[error("not a pair of addresses at line {line}")]
    NotAPair { line: usize },
    /// There are more octets than the limit.
    #[error("pairs too long")]
    TooLong,
    /// A read failed.
    #[error("read failed")]
    Read,
}
