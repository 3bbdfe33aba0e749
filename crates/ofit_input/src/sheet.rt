ghost use Rattle.std.specs.Prelude.{◌≡◌, IfOk, IfErr, OnOk, Ok, Err, length};
ghost use Rattle.ofit_num.specs.Sheet.{FitsCount};
ghost use Rattle.ofit_study.specs.Study.{names_of};
ghost use Rattle.ofit_input.specs.Given.{SheetGives};
ghost use Rattle.ofit_input.specs.Stops.{Stops};

use crate::fetch::fetch;
use crate::refusal::Which;
use crate::stop::Stop;
use ofit_outside::Folder;
use ofit_sheet::{Sheet, read_sheet};
use ofit_study::Study;
use std::alloc::Global;

/// The sheet of this name, for the study that names its groups.
pub(crate) fn sheet_from<F: Folder>(
    alloc: Global,
    folder: &mut F,
    name: &str,
    study: &Study,
) -> Result<Sheet, Stop>
    ensures sheet { IfOk result (λ x. SheetGives (F.held folder.old) name.now study.now (Ok x)) }
    ensures fits { IfOk result (λ x. FitsCount (length (names_of study.now)) x) }
    ensures stops { IfErr result (λ stop. Stops (F.faults folder.old) (F.faults folder.new) (λ refusal. SheetGives (F.held folder.old) name.now study.now (Err refusal)) stop) }
    ensures stays { OnOk result (F.faults folder.new ≡ F.faults folder.old) }
    ensures held { F.held folder.new ≡ F.held folder.old }
{
    let bytes = fetch(alloc, folder, name, Which::Sheet)?;
    let sheet = read_sheet(alloc, bytes.as_slice(), study)?;
    Ok(sheet)
}
