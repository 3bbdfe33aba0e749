ghost use Rattle.std.specs.Prelude.{◌↔◌, ℤ, Option as Maybe, IsTrue};
ghost use Rattle.ofit_study.specs.Settings.{IsBoundInLimits, InOrder};
ghost use Rattle.ofit_sheet.specs.Reading.{IsReading};
ghost use Rattle.ofit_sheet.specs.Spelling.{IsBoundText, SpellsBounds};

use crate::fault::RecordFault;
use crate::numeral::{both, is, is_at_most, read_number};
use ofit_num::MOST_UNITS;

/// The bound of a text.
fn read_bound(text: &[u8]) -> Result<Option<i64>, RecordFault>
    ensures { IsReading (λ bound. IsBoundText text.now bound) (λ bound. IsBoundInLimits bound) result }
{
    if is(text, b"none") {
        return Ok(None);
    }
    match read_number(text, MOST_UNITS as u128) {
        Ok(units) => Ok(Some(units as i64)),
        Err(fault) => Err(fault),
    }
}

/// Whether the first bound is at most the second, where both stand.
fn are_in_order(first: &[u8], second: &[u8]) -> bool
    ensures { (lo hi : Maybe ℤ) → IsBoundText first.now lo → IsBoundText second.now hi → IsTrue result ↔ InOrder lo hi }
{
    is(first, b"none") || is(second, b"none") || is_at_most(first, second)
}

/// The bounds of the three fields behind `bounds`.
pub(crate) fn read_bounds(
    first: &[u8],
    second: &[u8],
    third: &[u8],
) -> Result<(Option<i64>, Option<i64>), RecordFault>
    ensures { IsReading (λ b. SpellsBounds first.now second.now third.now b.0 b.1 × InOrder b.0 b.1) (λ b. IsBoundInLimits b.0 × IsBoundInLimits b.1) result }
{
    if !is(third, b"-") || !are_in_order(first, second) {
        return Err(RecordFault::Bad);
    }
    both(read_bound(first), read_bound(second))
}
