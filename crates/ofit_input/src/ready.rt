ghost use Rattle.std.specs.Prelude.{◌≡◌, IfOk, IfErr, OnOk, Ok, Err};
ghost use Rattle.ofit_words.specs.JobLimits.{IsJobInLimits};
ghost use Rattle.ofit_words.specs.declared.job.Job.TheVariants.{Session, Verify, VerifyUnimodal};
ghost use Rattle.ofit_input.specs.Ready.{ReadyGives, NamesFile};
ghost use Rattle.ofit_input.specs.Fitting.{IsFitting};
ghost use Rattle.ofit_input.specs.Stops.{Stops};

use crate::peak::peak_study;
use crate::peaked::peaked_from;
use crate::script::script_from;
use crate::sheet::sheet_from;
use crate::stop::Stop;
use crate::study::study_from;
use ofit_outside::Folder;
use ofit_script::Script;
use ofit_sheet::{Peaked, Sheet};
use ofit_study::Study;
use ofit_words::{Inputs, Job, SampleJob};
use std::alloc::Global;

/// What a job works on, once each file that it names is read.
#[derive(Drop)]
pub enum Ready {
    /// Print the sheet of the fit of this study.
    Fit(Study),
    /// Print the report of the fit of this study.
    Report(Study),
    /// Verify this sheet of this study.
    Verify(Study, Sheet),
    /// Edit this study by this script.
    Session(Study, Script),
    /// Print the peaked sheet of the fit of this study, whose peak isn't known.
    Unimodal(Study),
    /// Verify this peaked sheet of this study.
    VerifyUnimodal(Study, Peaked),
    /// Print the level table of so many groups of equal weight.
    Levels(u32),
    /// Print the summary of the study that this makes.
    Sample(SampleJob),
}

/// The study of these inputs, with the sheet of this name.
fn verify_from<F: Folder>(
    alloc: Global,
    folder: &mut F,
    inputs: &Inputs,
    name: &str,
) -> Result<Ready, Stop>
    requires { IsJobInLimits (Verify inputs.now name.now) }
    ensures ready { IfOk result (λ ready. ReadyGives (F.held folder.old) (Verify inputs.now name.now) (Ok ready)) }
    ensures fits { IfOk result IsFitting }
    ensures stops { IfErr result (λ stop. Stops (F.faults folder.old) (F.faults folder.new) (λ refusal. ReadyGives (F.held folder.old) (Verify inputs.now name.now) (Err refusal)) stop) }
    ensures stays { OnOk result (F.faults folder.new ≡ F.faults folder.old) }
    ensures held { F.held folder.new ≡ F.held folder.old }
{
    let study = study_from(alloc, folder, inputs)?;
    let sheet = sheet_from(alloc, folder, name, &study)?;
    Ok(Ready::Verify(study, sheet))
}

/// The study of these inputs, with the script of this name.
fn session_from<F: Folder>(
    alloc: Global,
    folder: &mut F,
    inputs: &Inputs,
    name: &str,
) -> Result<Ready, Stop>
    requires { IsJobInLimits (Session inputs.now name.now) }
    ensures ready { IfOk result (λ ready. ReadyGives (F.held folder.old) (Session inputs.now name.now) (Ok ready)) }
    ensures fits { IfOk result IsFitting }
    ensures stops { IfErr result (λ stop. Stops (F.faults folder.old) (F.faults folder.new) (λ refusal. ReadyGives (F.held folder.old) (Session inputs.now name.now) (Err refusal)) stop) }
    ensures stays { OnOk result (F.faults folder.new ≡ F.faults folder.old) }
    ensures held { F.held folder.new ≡ F.held folder.old }
{
    let study = study_from(alloc, folder, inputs)?;
    let script = script_from(alloc, folder, name, &inputs.settings)?;
    Ok(Ready::Session(study, script))
}

/// The study of the table of this name, whose peak isn't known, with the peaked sheet of the other name.
fn verify_unimodal_from<F: Folder>(
    alloc: Global,
    folder: &mut F,
    table: &str,
    name: &str,
    places: u32,
) -> Result<Ready, Stop>
    requires { IsJobInLimits (VerifyUnimodal table.now name.now places) }
    ensures ready { IfOk result (λ ready. ReadyGives (F.held folder.old) (VerifyUnimodal table.now name.now places) (Ok ready)) }
    ensures fits { IfOk result IsFitting }
    ensures stops { IfErr result (λ stop. Stops (F.faults folder.old) (F.faults folder.new) (λ refusal. ReadyGives (F.held folder.old) (VerifyUnimodal table.now name.now places) (Err refusal)) stop) }
    ensures stays { OnOk result (F.faults folder.new ≡ F.faults folder.old) }
    ensures held { F.held folder.new ≡ F.held folder.old }
{
    let study = peak_study(alloc, folder, table, places)?;
    let peaked = peaked_from(alloc, folder, name, &study)?;
    Ok(Ready::VerifyUnimodal(study, peaked))
}

/// What the job works on. The files that it names are fetched and read in this order: the table, the
/// order, the sheet or the script.
///
/// # Errors
///
/// The first step that refuses, fails or wants memory.
pub fn ready_from<F: Folder>(alloc: Global, folder: &mut F, job: &Job) -> Result<Ready, Stop>
    requires { IsJobInLimits job.now }
    ensures ready { IfOk result (λ ready. ReadyGives (F.held folder.old) job.now (Ok ready)) }
    ensures fits { IfOk result IsFitting }
    ensures stops { IfErr result (λ stop. Stops (F.faults folder.old) (F.faults folder.new) (λ refusal. ReadyGives (F.held folder.old) job.now (Err refusal)) stop) }
    ensures named { IfErr result (λ stop. stop ≡ Stop.ReadFault → NamesFile job.now) }
    ensures stays { OnOk result (F.faults folder.new ≡ F.faults folder.old) }
    ensures held { F.held folder.new ≡ F.held folder.old }
{
    match job {
        Job::Fit(inputs) => {
            let study = study_from(alloc, folder, inputs)?;
            Ok(Ready::Fit(study))
        }
        Job::Report(inputs) => {
            let study = study_from(alloc, folder, inputs)?;
            Ok(Ready::Report(study))
        }
        Job::Verify(inputs, sheet) => verify_from(alloc, folder, inputs, sheet.as_str()),
        Job::Session(inputs, script) => session_from(alloc, folder, inputs, script.as_str()),
        Job::Unimodal(table, places) => {
            let study = peak_study(alloc, folder, table.as_str(), *places)?;
            Ok(Ready::Unimodal(study))
        }
        Job::VerifyUnimodal(table, sheet, places) => {
            verify_unimodal_from(alloc, folder, table.as_str(), sheet.as_str(), *places)
        }
        Job::Levels(k) => Ok(Ready::Levels(*k)),
        Job::Sample(made) => Ok(Ready::Sample(*made)),
    }
}
