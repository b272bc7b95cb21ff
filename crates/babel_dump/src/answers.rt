use crate::addr_pair::AddrPair;
use babel_table::{RowPlace, Table};

/// What a table answers for each of these pairs.
#[derive(Drop)]
pub(crate) struct Answers {
    pub asked: Vec<AddrPair>,
    /// Where the row that answers stands, of each pair.
    pub places: Vec<RowPlace>,
    pub table: Table,
}
