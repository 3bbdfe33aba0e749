ghost use Rattle.std.specs.Prelude.{◌≡◌, ◌≤◌, ◌-◌, ℕ, IfOk, Ok};
ghost use Rattle.ofit_study.specs.Study.{names_of};
ghost use Rattle.ofit_table.specs.PatternRead.{PatternRead};
ghost use Rattle.ofit_words.specs.JobLimits.{IsJobInLimits};
ghost use Rattle.ofit_words.specs.declared.job.Job.TheVariants.{Sample};
ghost use Rattle.ofit_sample.specs.Generator.{number_after};
ghost use Rattle.ofit_sample.specs.Made.{all_drawn, later_draws, made_rows, IsMade};
ghost use Rattle.ofit_sample.specs.Making.{HasPatternGroup, IsUnderway, pattern_of};

use crate::generator::Generator;
use crate::name::name_of;
use ofit_study::{Pattern, Study};
use ofit_table::{OrderFault, shape_pairs};
use ofit_words::{Kind, SampleJob};
use std::alloc::{AllocError, Global};

/// The pattern of the job's kind, where the pairs aren't drawn.
fn pattern_of(alloc: Global, job: &SampleJob) -> Result<Option<Pattern>, AllocError>
    requires { IsJobInLimits (Sample job.now) }
    ensures { IfOk result (λ pattern. pattern ≡ pattern_of job.now.kind job.now.groups) }
{
    match job.kind {
        Kind::Chain => Ok(Some(Pattern::Chain)),
        Kind::Umbrella => {
            let peak = name_of(alloc, (job.groups + 1) / 2 - 1)?;
            Ok(Some(Pattern::Umbrella(peak)))
        }
        Kind::Tree => {
            let root = name_of(alloc, 0)?;
            Ok(Some(Pattern::Tree(root)))
        }
        Kind::General => Ok(None),
    }
}

/// The study with the pairs of a pattern of its groups.
fn with_pattern(alloc: Global, study: &Study, pattern: &Pattern) -> Result<Study, AllocError>
    requires { HasPatternGroup pattern.now (names_of study.now) }
    ensures { IfOk result (λ after. PatternRead pattern.now study.now (Ok after)) }
{
    match shape_pairs(alloc, pattern, study) {
        Ok(after) => Ok(after),
        Err(OrderFault::NoGroup) => unreachable!(),
        Err(_) => Err(AllocError),
    }
}

/// Two drawn pairs for each group but the first: of groups before it, and itself. Equal ones may stand
/// twice.
fn drawn_pairs(
    alloc: Global,
    generator: &mut Generator,
    groups: u32,
) -> Result<Vec<(u32, u32)>, AllocError>
    requires { 1 ≤ groups }
    ensures { IfOk result (λ pairs. (seed draws : ℕ) → generator.old.number ≡ number_after seed draws
        → pairs.items ≡ all_drawn seed draws groups) }
{
    let mut pairs = Vec::new(alloc);
    for place in 1..groups {
        let first = generator.draw(place);
        let second = generator.draw(place);
        pairs.push((first, place))?;
        pairs.push((second, place))?;
    }
    Ok(pairs)
}

/// The study of all rows with the pairs of the job's kind.
pub(crate) fn with_kind(
    alloc: Global,
    study: &Study,
    generator: &mut Generator,
    job: &SampleJob,
) -> Result<Study, AllocError>
    requires job { IsJobInLimits (Sample job.now) }
    requires underway { IsUnderway job.now (made_rows job.now) job.now.groups (later_draws job.now.groups (job.now.rows - job.now.groups)) study.now generator.old.number }
    ensures { IfOk result (IsMade job.now) }
{
    match pattern_of(alloc, job)? {
        Some(pattern) => with_pattern(alloc, study, &pattern),
        None => {
            let pairs = drawn_pairs(alloc, generator, job.groups)?;
            study.with_pairs(pairs.as_slice())
        }
    }
}
