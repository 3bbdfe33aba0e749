ghost use Rattle.std.specs.Prelude.{◌≡◌, IfOk, IfErr, OnOk, Ok, Err};
ghost use Rattle.ofit_study.specs.Settings.{InLimits};
ghost use Rattle.ofit_input.specs.Given.{StudyGives};
ghost use Rattle.ofit_input.specs.Stops.{Stops};

use crate::order::ordered_study;
use crate::stop::Stop;
use crate::table::table_study;
use ofit_outside::Folder;
use ofit_study::Study;
use ofit_words::Inputs;
use std::alloc::Global;

/// The study that the inputs name: its table is fetched and read first, then its order.
pub(crate) fn study_from<F: Folder>(
    alloc: Global,
    folder: &mut F,
    inputs: &Inputs,
) -> Result<Study, Stop>
    requires { InLimits inputs.now.settings }
    ensures study { IfOk result (λ study. StudyGives (F.held folder.old) inputs.now (Ok study)) }
    ensures stops { IfErr result (λ stop. Stops (F.faults folder.old) (F.faults folder.new) (λ refusal. StudyGives (F.held folder.old) inputs.now (Err refusal)) stop) }
    ensures stays { OnOk result (F.faults folder.new ≡ F.faults folder.old) }
    ensures held { F.held folder.new ≡ F.held folder.old }
{
    let table = inputs.table.as_str();
    let before = table_study(alloc, folder, table, &inputs.settings)?;
    let study = ordered_study(alloc, folder, &inputs.order, &before)?;
    study.keeps_limits();
    Ok(study)
}
