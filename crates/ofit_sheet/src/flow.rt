ghost use Rattle.std.specs.Prelude.{◌≤◌, unsigned_abs};
ghost use Rattle.ofit_study.specs.Study.{names_of};
ghost use Rattle.ofit_sheet.specs.Kept.{most_amount};
ghost use Rattle.ofit_sheet.specs.Reading.{IsReading};
ghost use Rattle.ofit_sheet.specs.Spelling.{SpellsFlow};

use crate::fault::RecordFault;
use crate::numeral::read_positive;
use crate::place::place_from;
use ofit_num::MOST_AMOUNT;
use ofit_study::Study;

/// The flow of the three fields behind `flow`.
pub(crate) fn read_flow(
    study: &Study,
    first: &[u8],
    second: &[u8],
    third: &[u8],
) -> Result<(u32, u32, i128), RecordFault>
    ensures { IsReading (λ f. SpellsFlow (names_of study.now) first.now second.now third.now f.0 f.1 f.2) (λ f. unsigned_abs f.2 ≤ most_amount) result }
{
    let Some(low) = place_from(study, 0, first) else {
        return Err(RecordFault::Bad);
    };
    let Some(high) = place_from(study, 0, second) else {
        return Err(RecordFault::Bad);
    };
    match read_positive(third, MOST_AMOUNT) {
        Ok(size) => Ok((low, high, size as i128)),
        Err(fault) => Err(fault),
    }
}
