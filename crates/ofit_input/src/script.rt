ghost use Rattle.std.specs.Prelude.{◌≡◌, IfOk, IfErr, OnOk, Ok, Err};
ghost use Rattle.ofit_study.specs.Settings.{InLimits};
ghost use Rattle.ofit_input.specs.Given.{LinesGive};
ghost use Rattle.ofit_input.specs.Stops.{Stops};

use crate::fetch::fetch;
use crate::refusal::Which;
use crate::stop::Stop;
use ofit_outside::Folder;
use ofit_script::{Script, read_script};
use ofit_study::Settings;
use std::alloc::Global;

/// The script of this name, whose values are read at the places of the settings.
pub(crate) fn script_from<F: Folder>(
    alloc: Global,
    folder: &mut F,
    name: &str,
    settings: &Settings,
) -> Result<Script, Stop>
    requires { InLimits settings.now }
    ensures script { IfOk result (λ script. LinesGive (F.held folder.old) name.now settings.now (Ok script)) }
    ensures stops { IfErr result (λ stop. Stops (F.faults folder.old) (F.faults folder.new) (λ refusal. LinesGive (F.held folder.old) name.now settings.now (Err refusal)) stop) }
    ensures stays { OnOk result (F.faults folder.new ≡ F.faults folder.old) }
    ensures held { F.held folder.new ≡ F.held folder.old }
{
    let bytes = fetch(alloc, folder, name, Which::Script)?;
    let script = read_script(alloc, bytes.as_slice(), settings)?;
    Ok(script)
}
