use crate::report::Report;
use babel_tlv::{Held, Key};

/// What a dump answers for a destination and a source address.
#[derive(Drop)]
pub struct Answer {
    /// The best matching row, if a row matches.
    pub row: Option<(Key, Held)>,
    /// How many TLVs the dump has, and which were ignored.
    pub report: Report,
}
