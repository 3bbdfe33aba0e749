ghost use Rattle.std.specs.Prelude.{◌≡◌, IfOk, IfErr, OnOk, Ok, Err};
ghost use Rattle.ofit_study.specs.Settings.{InLimits};
ghost use Rattle.ofit_input.specs.Given.{TableGives};
ghost use Rattle.ofit_input.specs.Stops.{Stops};

use crate::fetch::fetch;
use crate::refusal::Which;
use crate::stop::Stop;
use ofit_outside::Folder;
use ofit_study::{Settings, Study};
use ofit_table::read_data;
use std::alloc::Global;

/// The study of the table of this name, without pairs.
pub(crate) fn table_study<F: Folder>(
    alloc: Global,
    folder: &mut F,
    name: &str,
    settings: &Settings,
) -> Result<Study, Stop>
    requires { InLimits settings.now }
    ensures study { IfOk result (λ study. TableGives (F.held folder.old) name.now settings.now (Ok study)) }
    ensures stops { IfErr result (λ stop. Stops (F.faults folder.old) (F.faults folder.new) (λ refusal. TableGives (F.held folder.old) name.now settings.now (Err refusal)) stop) }
    ensures stays { OnOk result (F.faults folder.new ≡ F.faults folder.old) }
    ensures held { F.held folder.new ≡ F.held folder.old }
{
    let bytes = fetch(alloc, folder, name, Which::Table)?;
    let study = read_data(alloc, bytes.as_slice(), settings)?;
    Ok(study)
}
