ghost use Rattle.std.specs.Prelude.{◌≤◌, ◌^◌, IfOk, OnOk, OnErr};
ghost use Rattle.ofit_input.specs.declared.ready.Ready.TheVariants as ready;
ghost use Rattle.ofit_top.specs.Report.{ReportGives};
ghost use Rattle.ofit_top.specs.Counting.{CountsWithin};
ghost use Rattle.ofit_top.specs.Steps.{CountsJob};

use crate::printed::Printed;
use ofit_answer::Answer;
use ofit_fit::fit_study;
use ofit_num::{Tally, tell_lowest};
use ofit_report::write_report;
use ofit_study::Study;
use std::alloc::{AllocError, Global};

/// The report of a study's fit.
#[inline(never)]
pub(crate) fn print_report(
    alloc: Global,
    study: &Study,
    tally: &mut Tally,
) -> Result<Printed, AllocError>
    requires room { tally.old.fits ≤ 2 ^ 63 }
    requires room_for_cuts { tally.old.cuts ≤ 2 ^ 63 }
    ensures gives { IfOk result (λ printed. ReportGives study.now printed.answer printed.text.items) }
    ensures counts { OnOk result (CountsJob (ready.Report study.now) tally.old tally.new) }
    ensures within { OnErr result (CountsWithin (ready.Report study.now) tally.old tally.new) }
{
    let values = fit_study(alloc, study, tally)?;
    tell_lowest(&values);
    let text = write_report(alloc, study, &values)?;
    Ok(Printed {
        answer: Answer::Done,
        text,
    })
}
