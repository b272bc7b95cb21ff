/// No row stands there: a table has at most so many of a family.
pub(crate) const NOWHERE: RowPlace = RowPlace { index: u32::MAX };

/// Where a row stands among the rows of a family in a table, in 4 octets; or nowhere.
#[derive(Clone, Copy)]
pub struct RowPlace {
    /// How many rows of the family are before it.
    pub(crate) index: u32,
}
