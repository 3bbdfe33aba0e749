ghost use Rattle.std.specs.Prelude.{◌≡◌, IfOk, length};
ghost use Rattle.ofit_num.specs.Sheet.{FitsCount};
ghost use Rattle.ofit_study.specs.Study.{names_of};
ghost use Rattle.ofit_top.specs.Verify.{answer_to, VerifyGives};

use crate::printed::Printed;
use ofit_answer::{Answer, verdict_line};
use ofit_check::{Verdict, verdict_sheet};
use ofit_sheet::Sheet;
use ofit_study::Study;
use std::alloc::{AllocError, Global};

/// The answer of a verdict.
fn answer_of(verdict: Verdict) -> Answer
    ensures { result ≡ answer_to verdict }
{
    match verdict {
        Verdict::Passes => Answer::Done,
        verdict => Answer::Fails(verdict),
    }
}

/// The verdict on a sheet of a study, as an answer and a line.
#[inline(never)]
pub(crate) fn print_verdict(
    alloc: Global,
    study: &Study,
    sheet: &Sheet,
) -> Result<Printed, AllocError>
    requires { FitsCount (length (names_of study.now)) sheet.now }
    ensures { IfOk result (λ printed. VerifyGives study.now sheet.now printed.answer printed.text.items) }
{
    let verdict = verdict_sheet(study, sheet);
    let text = verdict_line(alloc, study, verdict)?;
    Ok(Printed {
        answer: answer_of(verdict),
        text,
    })
}
