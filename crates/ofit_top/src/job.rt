ghost use Rattle.std.specs.Prelude.{◌≤◌, ◌^◌, IfOk, OnOk, OnErr};
ghost use Rattle.ofit_input.specs.Fitting.{IsFitting};
ghost use Rattle.ofit_top.specs.Job.{JobGives};
ghost use Rattle.ofit_top.specs.Counting.{CountsWithin};
ghost use Rattle.ofit_top.specs.Steps.{CountsJob};

use crate::fit::print_fit;
use crate::levels::print_levels;
use crate::printed::Printed;
use crate::report::print_report;
use crate::sample::print_sample;
use crate::session::print_session;
use crate::unimodal::print_unimodal;
use crate::verify::print_verdict;
use crate::verify_unimodal::print_peak_verdict;
use ofit_input::Ready;
use ofit_num::Tally;
use std::alloc::{AllocError, Global};

/// Does a job whose files are read, up to its text. Each kind of job has a frame of its own, so that a run's stack is
/// that of its own job.
pub(crate) fn do_job(alloc: Global, ready: Ready, tally: &mut Tally) -> Result<Printed, AllocError>
    requires fits { IsFitting ready }
    requires room { tally.old.fits ≤ 2 ^ 63 }
    requires room_for_cuts { tally.old.cuts ≤ 2 ^ 63 }
    ensures gives { IfOk result (λ printed. JobGives ready printed.answer printed.text.items) }
    ensures counts { OnOk result (CountsJob ready tally.old tally.new) }
    ensures within { OnErr result (CountsWithin ready tally.old tally.new) }
{
    match ready {
        Ready::Fit(study) => print_fit(alloc, &study, tally),
        Ready::Report(study) => print_report(alloc, &study, tally),
        Ready::Verify(study, sheet) => print_verdict(alloc, &study, &sheet),
        Ready::Session(study, script) => print_session(alloc, study, &script, tally),
        Ready::Unimodal(study) => print_unimodal(alloc, &study),
        Ready::VerifyUnimodal(study, peaked) => print_peak_verdict(alloc, &study, &peaked),
        Ready::Levels(k) => print_levels(alloc, k),
        Ready::Sample(made) => print_sample(alloc, &made, tally),
    }
}
