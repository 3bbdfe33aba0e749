ghost use Rattle.std.specs.Prelude.{◌≡◌, ◌≤◌, IfSome, MatchOption};
ghost use Rattle.std.specs.Int.RustNames.{unsigned_abs};
ghost use Rattle.ofit_num.specs.Fraction.{IsLowest};
ghost use Rattle.ofit_num.specs.Reduced.{InLimits};
ghost use Rattle.ofit_num.specs.declared.limits.TheConstants.{MOST_DEN as most_den, MOST_NUM as most_num};
ghost use Rattle.ofit_study.specs.Study.{names_of};
ghost use Rattle.ofit_sheet.specs.Reading.{IsReading};
ghost use Rattle.ofit_sheet.specs.Spelling.{SpellsFraction, SpellsValue};

use crate::fault::RecordFault;
use crate::numeral::{both, read_number, read_positive};
use crate::place::place_from;
use ofit_num::{Frac, MOST_DEN, MOST_NUM};
use ofit_study::Study;

/// The fraction of these numbers, where they are in lowest terms.
fn fraction_of(num: i128, den: u128) -> Option<Frac>
    requires numerator { unsigned_abs num ≤ most_num }
    requires positive { 1 ≤ den }
    requires denominator { den ≤ most_den }
    ensures exactly { MatchOption result (IsLowest (record { num = num; den = den }) → ⊥) (λ c. c ≡ record { num = num; den = den }) }
    ensures lowest { IfSome result IsLowest }
{
    let below = den as i128;
    match Frac::make(num, below) {
        Some(value) => {
            if value.num() == num && value.den() == below {
                Some(value)
            } else {
                None
            }
        }
        None => None,
    }
}

/// The fraction of a numerator and a denominator.
fn read_fraction(second: &[u8], third: &[u8]) -> Result<Frac, RecordFault>
    ensures { IsReading (λ c. SpellsFraction second.now third.now c × (InLimits c → IsLowest c)) (λ c. InLimits c) result }
{
    match both(
        read_number(second, MOST_NUM),
        read_positive(third, MOST_DEN),
    ) {
        Ok((num, den)) => match fraction_of(num, den) {
            Some(value) => Ok(value),
            None => Err(RecordFault::Bad),
        },
        Err(fault) => Err(fault),
    }
}

/// The value of the three fields behind `value`, of a group whose place is at least the given one.
pub(crate) fn read_value(
    study: &Study,
    least: u64,
    first: &[u8],
    second: &[u8],
    third: &[u8],
) -> Result<(u32, Frac), RecordFault>
    ensures { IsReading (λ v. SpellsValue (names_of study.now) first.now second.now third.now v.0 v.1 × (least ≤ v.0) × (InLimits v.1 → IsLowest v.1)) (λ v. InLimits v.1) result }
{
    match place_from(study, least, first) {
        Some(place) => match read_fraction(second, third) {
            Ok(value) => Ok((place, value)),
            Err(fault) => Err(fault),
        },
        None => Err(RecordFault::Bad),
    }
}
