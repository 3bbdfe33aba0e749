ghost use Rattle.std.specs.Prelude.{◌≡◌, IfOk};
ghost use Rattle.ofit_words.specs.JobLimits.{IsJobInLimits};
ghost use Rattle.ofit_words.specs.declared.job.Job.TheVariants.{Sample};
ghost use Rattle.ofit_sample.specs.Made.{made_settings, IsMade};

use crate::generator::Generator;
use crate::pairs::with_kind;
use crate::rows::{add_first_rows, add_later_rows};
use ofit_study::{Settings, Study};
use ofit_words::SampleJob;
use std::alloc::{AllocError, Global};

/// The settings of a made study: three decimal places and no bounds.
fn settings_of(job: &SampleJob) -> Settings
    ensures { result ≡ made_settings job.now }
{
    Settings {
        loss: job.loss,
        places: 3,
        lo: None,
        hi: None,
    }
}

/// The study that the job's seed makes: rows of the groups g1, g2 and so on with drawn values and weights,
/// and pairs of the job's kind. Linear time and memory, and the sorting of the pairs.
pub fn make_study(alloc: Global, job: &SampleJob) -> Result<Study, AllocError>
    requires { IsJobInLimits (Sample job.now) }
    ensures { IfOk result (IsMade job.now) }
{
    let mut generator = Generator::new(job.seed);
    let mut study = Study::empty(alloc, settings_of(job));
    let mut name = Vec::new(alloc);
    add_first_rows(&mut study, &mut generator, &mut name, job)?;
    add_later_rows(&mut study, &mut generator, &mut name, job)?;
    with_kind(alloc, &study, &mut generator, job)
}
