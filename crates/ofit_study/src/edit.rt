use crate::name::Name;

/// A change of a study.
#[derive(Drop)]
pub enum Edit {
    /// A row more, its value in units, in the group with the name, under the least number from 1 on that no
    /// row has.
    Add {
        group: Name,
        value: i64,
        weight: u64,
    },
    /// The row of the number taken away.
    Remove {
        number: u32,
    },
    /// Another value of the row of the number, in units.
    Value {
        number: u32,
        value: i64,
    },
    /// Another weight of the row of the number.
    Weight {
        number: u32,
        weight: u64,
    },
    /// A pair more, of these groups.
    Relate {
        low: Name,
        high: Name,
    },
    /// The pair of these groups taken away.
    Unrelate {
        low: Name,
        high: Name,
    },
}

/// An end of a pair.
#[derive(Clone, Copy, Debug, PartialEq, Eq)]
pub enum End {
    /// The group whose value is at most the other's.
    Low,
    /// The group whose value is at least the other's.
    High,
}
