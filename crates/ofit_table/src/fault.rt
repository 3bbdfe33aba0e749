use crate::column::Column;
use thiserror::Error;

/// The first fault of a data table. A number is a record's, where the header has the number 1.
#[derive(Clone, Copy, Debug, PartialEq, Eq, Error)]
pub enum DataFault {
    /// There is no record.
    #[error("no header")]
    NoHeader,
    /// No field of the header has the column's name.
    #[error("no column {0}")]
    NoColumn(Column),
    /// Two fields or more of the header have the column's name.
    #[error("column twice {0}")]
    ColumnTwice(Column),
    /// The record is too short for a column that is used.
    #[error("record {0}: field missing")]
    FieldMissing(u32),
    /// The group isn't a name.
    #[error("record {0}: not a name")]
    NotName(u32),
    /// The value isn't a decimal.
    #[error("record {0}: not a number")]
    NotNumber(u32),
    /// The value isn't a whole number of units.
    #[error("record {0}: too many decimals")]
    TooFine(u32),
    /// The value passes 10^9 units in absolute value.
    #[error("record {0}: number too large")]
    TooLarge(u32),
    /// The weight isn't a whole number from 1 to 10^10.
    #[error("record {0}: bad weight")]
    BadWeight(u32),
    /// 100,000 rows stand before the record.
    #[error("record {0}: too many rows")]
    TooManyRows(u32),
    /// The total weight passes 10^10 with the record.
    #[error("record {0}: total weight too large")]
    TooHeavy(u32),
    /// The record's group is new, and 2,000 groups stand before it.
    #[error("record {0}: too many groups")]
    TooManyGroups(u32),
    /// Memory was wanting.
    #[error("out of memory")]
    Memory,
}

/// The first fault of an order. A number is a record's, where the header has the number 1.
#[derive(Clone, Copy, Debug, PartialEq, Eq, Error)]
pub enum OrderFault {
    /// There is no record.
    #[error("no header")]
    NoHeader,
    /// No field of the header has the column's name.
    #[error("no column {0}")]
    NoColumn(Column),
    /// Two fields or more of the header have the column's name.
    #[error("column twice {0}")]
    ColumnTwice(Column),
    /// The record is too short for a column.
    #[error("record {0}: field missing")]
    FieldMissing(u32),
    /// The low or the high name isn't a group of the study.
    #[error("record {0}: unknown group")]
    UnknownGroup(u32),
    /// The record's pair is new, and 20,000 pairs stand before it.
    #[error("record {0}: too many pairs")]
    TooManyPairs(u32),
    /// The pattern's group isn't a group of the study.
    #[error("no such group")]
    NoGroup,
    /// Memory was wanting.
    #[error("out of memory")]
    Memory,
}
