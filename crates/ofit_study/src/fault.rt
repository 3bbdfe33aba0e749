use crate::edit::End;
use std::alloc::AllocError;
use thiserror::Error;

/// Why a study doesn't take a row.
#[derive(Clone, Copy, Debug, PartialEq, Eq, Error)]
pub enum AddFault {
    /// 100,000 rows stand.
    #[error("too many rows")]
    TooManyRows,
    /// The total weight with this row passes 10^10.
    #[error("total weight too large")]
    TooHeavy,
    /// The name is new and 2,000 groups stand.
    #[error("too many groups")]
    TooManyGroups,
    /// Memory was wanting.
    #[error("out of memory")]
    Memory,
}

/// Why a study doesn't take an edit.
#[derive(Clone, Copy, Debug, PartialEq, Eq, Error)]
pub enum EditFault {
    /// 100,000 rows stand.
    #[error("too many rows")]
    TooManyRows,
    /// The total weight with the edit passes 10^10.
    #[error("total weight too large")]
    TooHeavy,
    /// The name is new and 2,000 groups stand.
    #[error("too many groups")]
    TooManyGroups,
    /// No row has the number.
    #[error("no row has the number")]
    NoRow,
    /// The row is its group's only one, and a pair names the group.
    #[error("a pair names the group of the row, which is its only one")]
    GroupInUse,
    /// No group has the name at this end of the pair.
    #[error("a name of the pair is no group")]
    NoGroup(End),
    /// The pair stands already.
    #[error("the pair stands already")]
    PairPresent,
    /// The pair doesn't stand.
    #[error("the pair doesn't stand")]
    PairAbsent,
    /// 20,000 pairs stand.
    #[error("too many pairs")]
    TooManyPairs,
    /// Memory was wanting.
    #[error("out of memory")]
    Memory,
}

impl From<AllocError> for EditFault {
    ghost use Rattle.std.specs.Prelude.{◌≡◌};
    ghost use Rattle.ofit_study.specs.declared.fault.EditFault.TheVariants.{Memory};

    ghost from_gives = { λ _ e. e ≡ Memory };

    fn from(_error: AllocError) -> EditFault {
        EditFault::Memory
    }
}
