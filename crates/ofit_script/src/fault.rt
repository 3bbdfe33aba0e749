use thiserror::Error;

/// The first fault of a script. A number is a record's, counted from 1.
#[derive(Clone, Copy, Debug, PartialEq, Eq, Error)]
pub enum ScriptFault {
    /// 10,000 lines stand before the record.
    #[error("record {0}: too many lines")]
    TooManyLines(u32),
    /// The record is a report or a sheet, and 100 of these stand before it.
    #[error("record {0}: too many reports")]
    TooManyPrints(u32),
    /// The record's first field is none of those that begin a line.
    #[error("record {0}: unknown line")]
    UnknownLine(u32),
    /// The record hasn't as many fields as its line.
    #[error("record {0}: wrong number of fields")]
    FieldCount(u32),
    /// A group isn't a name.
    #[error("record {0}: not a name")]
    NotName(u32),
    /// A row isn't a canonical whole number from 1 to 4,294,967,295.
    #[error("record {0}: bad row number")]
    BadRow(u32),
    /// The value isn't a decimal.
    #[error("record {0}: not a number")]
    NotNumber(u32),
    /// The value isn't a whole number of units.
    #[error("record {0}: too many decimals")]
    TooFine(u32),
    /// The value passes 10^9 units in absolute value.
    #[error("record {0}: number too large")]
    TooLarge(u32),
    /// The weight isn't a whole number from 1 to 10^10.
    #[error("record {0}: bad weight")]
    BadWeight(u32),
    /// Memory was wanting.
    #[error("out of memory")]
    Memory,
}
