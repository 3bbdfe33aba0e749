ghost use Rattle.std.specs.Prelude.{◌≤◌, ◌^◌, IfOk, OnOk, OnErr};
ghost use Rattle.ofit_input.specs.declared.ready.Ready.TheVariants as ready;
ghost use Rattle.ofit_top.specs.Fit.{FitGives};
ghost use Rattle.ofit_top.specs.Counting.{CountsWithin};
ghost use Rattle.ofit_top.specs.Steps.{CountsJob};

use crate::printed::Printed;
use ofit_answer::Answer;
use ofit_cert::certify;
use ofit_fit::fit_study;
use ofit_num::Tally;
use ofit_sheet::{sheets_are_read_back, write_sheet};
use ofit_study::Study;
use std::alloc::{AllocError, Global};

/// The sheet of a study's fit, with flows that certify it.
#[inline(never)]
pub(crate) fn print_fit(
    alloc: Global,
    study: &Study,
    tally: &mut Tally,
) -> Result<Printed, AllocError>
    requires room { tally.old.fits ≤ 2 ^ 63 }
    requires room_for_cuts { tally.old.cuts ≤ 2 ^ 63 }
    ensures gives { IfOk result (λ printed. FitGives study.now printed.answer printed.text.items) }
    ensures counts { OnOk result (CountsJob (ready.Fit study.now) tally.old tally.new) }
    ensures within { OnErr result (CountsWithin (ready.Fit study.now) tally.old tally.new) }
{
    sheets_are_read_back();
    let values = fit_study(alloc, study, tally)?;
    let sheet = certify(alloc, study, values.as_slice())?;
    let _settings = sheet.settings();
    let text = write_sheet(alloc, study, &sheet)?;
    Ok(Printed {
        answer: Answer::Done,
        text,
    })
}
