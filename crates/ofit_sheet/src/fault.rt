use thiserror::Error;

/// Why bytes give no sheet. A number is that of the record, counted from 1.
#[derive(Clone, Copy, Debug, PartialEq, Eq, Error)]
pub enum SheetFault {
    /// Record 1 isn't there or isn't a header.
    #[error("bad header")]
    BadHeader,
    /// The record breaks a rule of the format.
    #[error("record {0}: bad record")]
    BadRecord(u32),
    /// A number in the record passes its limit.
    #[error("record {0}: number too large")]
    NumberTooLarge(u32),
    /// No end record stands.
    #[error("no end")]
    NoEnd,
    /// An end record stands before the record.
    #[error("record {0}: record after the end")]
    AfterEnd(u32),
    /// Memory was wanting.
    #[error("out of memory")]
    Memory,
}

/// What is wrong with a record.
#[derive(Clone, Copy)]
pub(crate) enum RecordFault {
    /// It breaks a rule of the format.
    Bad,
    /// A number in it passes its limit, and no rule is broken.
    TooLarge,
}
