ghost use Rattle.std.specs.Prelude.{◌≡◌, ◌≤◌, IfOk, IfErr, OnOk, Ok, Err, length};
ghost use Rattle.ofit_sheet.specs.declared.peaked.limits.TheConstants.{MOST_PEAK_GROUPS};
ghost use Rattle.ofit_sheet.specs.Peaked.{IsShaped};
ghost use Rattle.ofit_study.specs.Study.{names_of};
ghost use Rattle.ofit_input.specs.PeakGiven.{PeakedGives};
ghost use Rattle.ofit_input.specs.Stops.{Stops};

use crate::fetch::fetch;
use crate::refusal::Which;
use crate::stop::Stop;
use ofit_outside::Folder;
use ofit_sheet::{Peaked, read_peaked};
use ofit_study::Study;
use std::alloc::Global;

/// The peaked sheet of this name, for the study that names its groups.
pub(crate) fn peaked_from<F: Folder>(
    alloc: Global,
    folder: &mut F,
    name: &str,
    study: &Study,
) -> Result<Peaked, Stop>
    requires { length (names_of study.now) ≤ MOST_PEAK_GROUPS }
    ensures sheet { IfOk result (λ x. PeakedGives (F.held folder.old) name.now study.now (Ok x)) }
    ensures shaped { IfOk result (λ x. IsShaped (length (names_of study.now)) x) }
    ensures stops { IfErr result (λ stop. Stops (F.faults folder.old) (F.faults folder.new) (λ refusal. PeakedGives (F.held folder.old) name.now study.now (Err refusal)) stop) }
    ensures stays { OnOk result (F.faults folder.new ≡ F.faults folder.old) }
    ensures held { F.held folder.new ≡ F.held folder.old }
{
    let bytes = fetch(alloc, folder, name, Which::Sheet)?;
    let peaked = read_peaked(alloc, bytes.as_slice(), study)?;
    Ok(peaked)
}
