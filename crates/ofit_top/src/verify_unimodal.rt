ghost use Rattle.std.specs.Prelude.{◌≡◌, ◌≤◌, IfOk, length};
ghost use Rattle.ofit_sheet.specs.declared.peaked.limits.TheConstants.{MOST_PEAK_GROUPS};
ghost use Rattle.ofit_sheet.specs.Peaked.{IsShaped};
ghost use Rattle.ofit_study.specs.Study.{names_of};
ghost use Rattle.ofit_top.specs.VerifyUnimodal.{peak_answer_to, VerifyUnimodalGives};

use crate::printed::Printed;
use ofit_answer::{Answer, peak_verdict_line};
use ofit_check::{PeakVerdict, verdict_unimodal};
use ofit_sheet::Peaked;
use ofit_study::Study;
use std::alloc::{AllocError, Global};

/// The answer of a verdict.
fn answer_of(verdict: PeakVerdict) -> Answer
    ensures { result ≡ peak_answer_to verdict }
{
    match verdict {
        PeakVerdict::Passes => Answer::Done,
        verdict => Answer::FailsPeak(verdict),
    }
}

/// The verdict on a peaked sheet of a study, as an answer and a line.
#[inline(never)]
pub(crate) fn print_peak_verdict(
    alloc: Global,
    study: &Study,
    peaked: &Peaked,
) -> Result<Printed, AllocError>
    requires few { length (names_of study.now) ≤ MOST_PEAK_GROUPS }
    requires shaped { IsShaped (length (names_of study.now)) peaked.now }
    ensures { IfOk result (λ printed. VerifyUnimodalGives study.now peaked.now printed.answer printed.text.items) }
{
    let verdict = verdict_unimodal(study, peaked);
    let text = peak_verdict_line(alloc, study, verdict)?;
    Ok(Printed {
        answer: answer_of(verdict),
        text,
    })
}
