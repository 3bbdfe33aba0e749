ghost use Rattle.std.specs.Prelude.{◌≤◌, IfOk};
ghost use Rattle.ofit_top.specs.Levels.{LevelsGive};

use crate::printed::Printed;
use ofit_answer::Answer;
use ofit_levels::level_text;
use std::alloc::{AllocError, Global};

/// The level table for so many groups of equal weight.
#[inline(never)]
pub(crate) fn print_levels(alloc: Global, k: u32) -> Result<Printed, AllocError>
    requires least { 1 ≤ k }
    requires most { k ≤ 34 }
    ensures { IfOk result (λ printed. LevelsGive k printed.answer printed.text.items) }
{
    let text = level_text(alloc, k)?;
    Ok(Printed {
        answer: Answer::Done,
        text,
    })
}
