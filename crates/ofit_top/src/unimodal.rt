ghost use Rattle.std.specs.Prelude.{◌≡◌, ◌≤◌, IfOk, None, length};
ghost use Rattle.ofit_sheet.specs.declared.peaked.limits.TheConstants.{MOST_PEAK_GROUPS};
ghost use Rattle.ofit_study.specs.Study.{names_of};
ghost use Rattle.ofit_top.specs.Unimodal.{UnimodalGives};

use crate::printed::Printed;
use ofit_answer::Answer;
use ofit_sheet::{Peaked, peaked_sheets_are_read_back, write_peaked};
use ofit_study::Study;
use ofit_unimodal::{UnimodalFault, fit_unimodal};
use std::alloc::{AllocError, Global};

/// The peaked sheet of the fit of a study whose peak isn't known.
#[inline(never)]
pub(crate) fn print_unimodal(alloc: Global, study: &Study) -> Result<Printed, AllocError>
    requires few { length (names_of study.now) ≤ MOST_PEAK_GROUPS }
    requires no_lo { study.now.settings.lo ≡ None }
    requires no_hi { study.now.settings.hi ≡ None }
    ensures { IfOk result (λ printed. UnimodalGives study.now printed.answer printed.text.items) }
{
    peaked_sheets_are_read_back();
    let peaked = match fit_unimodal(alloc, study) {
        Ok(peaked) => peaked,
        Err(UnimodalFault::TooManyGroups) => unreachable!(),
        Err(UnimodalFault::Memory) => return Err(AllocError),
    };
    let text = write_peaked(alloc, study, &peaked)?;
    Ok(Printed {
        answer: Answer::Done,
        text,
    })
}
