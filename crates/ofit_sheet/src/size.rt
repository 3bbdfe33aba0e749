ghost use Rattle.std.specs.Prelude.{◌↔◌, IsTrue, IfSome};
ghost use Rattle.ofit_sheet.specs.Kept.{IsSizeInLimits};
ghost use Rattle.ofit_sheet.specs.Reading.{IsReading};
ghost use Rattle.ofit_sheet.specs.Spelling.{SpellsSize};

use crate::fault::RecordFault;
use crate::numeral::{both, is, read_count};
use ofit_num::{MOST_ROWS, MOST_WEIGHT};

/// How much data a sheet was made from.
#[derive(Clone, Copy, Debug, PartialEq, Eq)]
pub struct Size {
    /// The count of rows.
    pub rows: u32,
    /// The weight of all rows together.
    pub weight: u64,
}

/// Whether the size, where there is one, is within its limits.
pub(crate) fn is_size_in_limits(size: Option<Size>) -> bool
    ensures { IsTrue result ↔ IfSome size (λ z. IsSizeInLimits z.rows z.weight) }
{
    match size {
        None => true,
        Some(size) => size.rows <= MOST_ROWS && size.weight <= MOST_WEIGHT,
    }
}

/// The size of the three fields behind `size`.
pub(crate) fn read_size(first: &[u8], second: &[u8], third: &[u8]) -> Result<Size, RecordFault>
    ensures { IsReading (λ z. SpellsSize first.now second.now third.now z.rows z.weight) (λ z. IsSizeInLimits z.rows z.weight) result }
{
    if !is(third, b"-") {
        return Err(RecordFault::Bad);
    }
    let rows = read_count(first, u128::from(MOST_ROWS));
    let weight = read_count(second, u128::from(MOST_WEIGHT));
    match both(rows, weight) {
        Ok((rows, weight)) => Ok(Size {
            rows: rows as u32,
            weight: weight as u64,
        }),
        Err(fault) => Err(fault),
    }
}
