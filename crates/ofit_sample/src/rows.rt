ghost use Rattle.std.specs.Prelude.{◌-◌, [], OnOk};
ghost use Rattle.ofit_words.specs.JobLimits.{IsJobInLimits};
ghost use Rattle.ofit_words.specs.declared.job.Job.TheVariants.{Sample};
ghost use Rattle.ofit_sample.specs.Made.{first_rows, later_draws, made_rows};
ghost use Rattle.ofit_sample.specs.Making.{IsUnderway};

use crate::generator::Generator;
use crate::row::add_drawn;
use ofit_study::Study;
use ofit_words::SampleJob;
use std::alloc::AllocError;

/// Adds a row to each group in turn.
pub(crate) fn add_first_rows(
    study: &mut Study,
    generator: &mut Generator,
    name: &mut Vec<u8>,
    job: &SampleJob,
) -> Result<(), AllocError>
    requires job { IsJobInLimits (Sample job.now) }
    requires underway { IsUnderway job.now [] 0 0 study.old generator.old.number }
    ensures { OnOk result (IsUnderway job.now (first_rows job.now.seed job.now.groups) job.now.groups (later_draws job.now.groups 0) study.new generator.new.number) }
{
    for place in 0..job.groups {
        add_drawn(study, generator, name, place)?;
    }
    Ok(())
}

/// Adds the other rows, whose groups are drawn.
pub(crate) fn add_later_rows(
    study: &mut Study,
    generator: &mut Generator,
    name: &mut Vec<u8>,
    job: &SampleJob,
) -> Result<(), AllocError>
    requires job { IsJobInLimits (Sample job.now) }
    requires underway { IsUnderway job.now (first_rows job.now.seed job.now.groups) job.now.groups (later_draws job.now.groups 0) study.old generator.old.number }
    ensures { OnOk result (IsUnderway job.now (made_rows job.now) job.now.groups (later_draws job.now.groups (job.now.rows - job.now.groups)) study.new generator.new.number) }
{
    for _row in job.groups..job.rows {
        let place = generator.draw(job.groups);
        add_drawn(study, generator, name, place)?;
    }
    Ok(())
}
