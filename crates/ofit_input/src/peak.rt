ghost use Rattle.std.specs.Prelude.{◌≡◌, ◌≤◌, IfOk, IfErr, OnOk, Ok, Err};
ghost use Rattle.ofit_input.specs.PeakGiven.{peak_settings, PeakStudyGives};
ghost use Rattle.ofit_input.specs.Stops.{Stops};

use crate::refusal::Refusal;
use crate::stop::Stop;
use crate::table::table_study;
use ofit_outside::Folder;
use ofit_sheet::MOST_PEAK_GROUPS;
use ofit_study::{LossKind, Settings, Study};
use std::alloc::Global;

/// The settings of a study whose peak isn't known: the median, and no bounds.
fn settings_at(places: u32) -> Settings
    ensures { result ≡ peak_settings places }
{
    Settings {
        loss: LossKind::Median,
        places,
        lo: None,
        hi: None,
    }
}

/// The study of the table of this name at these decimal places, for a fit of an unknown peak: without
/// pairs and bounds, and of at most 200 groups.
pub(crate) fn peak_study<F: Folder>(
    alloc: Global,
    folder: &mut F,
    name: &str,
    places: u32,
) -> Result<Study, Stop>
    requires { places ≤ 6 }
    ensures study { IfOk result (λ study. PeakStudyGives (F.held folder.old) name.now places (Ok study)) }
    ensures settings { IfOk result (λ study. study.settings ≡ peak_settings places) }
    ensures stops { IfErr result (λ stop. Stops (F.faults folder.old) (F.faults folder.new) (λ refusal. PeakStudyGives (F.held folder.old) name.now places (Err refusal)) stop) }
    ensures stays { OnOk result (F.faults folder.new ≡ F.faults folder.old) }
    ensures held { F.held folder.new ≡ F.held folder.old }
{
    let study = table_study(alloc, folder, name, &settings_at(places))?;
    if study.group_count() > MOST_PEAK_GROUPS {
        return Err(Stop::Refused(Refusal::TooManyForPeak));
    }
    study.keeps_limits();
    Ok(study)
}
