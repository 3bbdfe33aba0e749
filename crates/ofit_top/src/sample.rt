ghost use Rattle.std.specs.Prelude.{◌≤◌, ◌^◌, IfOk, OnOk, OnErr};
ghost use Rattle.ofit_words.specs.declared.job.Job.TheVariants as job;
ghost use Rattle.ofit_words.specs.JobLimits.{IsJobInLimits};
ghost use Rattle.ofit_input.specs.declared.ready.Ready.TheVariants as ready;
ghost use Rattle.ofit_top.specs.Sample.{SampleGives};
ghost use Rattle.ofit_top.specs.Counting.{CountsWithin};
ghost use Rattle.ofit_top.specs.Steps.{CountsJob};

use crate::printed::Printed;
use ofit_answer::Answer;
use ofit_num::Tally;
use ofit_sample::sample_text;
use ofit_words::SampleJob;
use std::alloc::{AllocError, Global};

/// The summary of a made study.
#[inline(never)]
pub(crate) fn print_sample(
    alloc: Global,
    made: &SampleJob,
    tally: &mut Tally,
) -> Result<Printed, AllocError>
    requires limits { IsJobInLimits (job.Sample made.now) }
    requires room { tally.old.fits ≤ 2 ^ 63 }
    requires room_for_cuts { tally.old.cuts ≤ 2 ^ 63 }
    ensures gives { IfOk result (λ printed. SampleGives made.now printed.answer printed.text.items) }
    ensures counts { OnOk result (CountsJob (ready.Sample made.now) tally.old tally.new) }
    ensures within { OnErr result (CountsWithin (ready.Sample made.now) tally.old tally.new) }
{
    let text = sample_text(alloc, made, tally)?;
    Ok(Printed {
        answer: Answer::Done,
        text,
    })
}
