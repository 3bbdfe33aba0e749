ghost use Rattle.std.specs.Prelude.{◌≤◌, ◌^◌, IfOk, OnOk, OnErr};
ghost use Rattle.ofit_input.specs.declared.ready.Ready.TheVariants as ready;
ghost use Rattle.ofit_top.specs.Session.{SessionGives};
ghost use Rattle.ofit_top.specs.Counting.{CountsWithin};
ghost use Rattle.ofit_top.specs.Steps.{CountsJob};

use crate::printed::Printed;
use ofit_answer::Answer;
use ofit_num::Tally;
use ofit_script::{Script, run_script};
use ofit_session::Session;
use ofit_study::Study;
use std::alloc::{AllocError, Global};

/// The text of a script whose edits start from a study.
#[inline(never)]
pub(crate) fn print_session(
    alloc: Global,
    study: Study,
    script: &Script,
    tally: &mut Tally,
) -> Result<Printed, AllocError>
    requires room { tally.old.fits ≤ 2 ^ 63 }
    requires room_for_cuts { tally.old.cuts ≤ 2 ^ 63 }
    ensures gives { IfOk result (λ printed. SessionGives study script.now printed.answer printed.text.items) }
    ensures counts { OnOk result (CountsJob (ready.Session study script.now) tally.old tally.new) }
    ensures within { OnErr result (CountsWithin (ready.Session study script.now) tally.old tally.new) }
{
    study.keeps_limits();
    let mut session = Session::start(alloc, study, tally)?;
    let text = run_script(&mut session, script, tally)?;
    Ok(Printed {
        answer: Answer::Done,
        text,
    })
}
