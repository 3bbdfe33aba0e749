ghost use Rattle.std.specs.Prelude.{◌≡◌, ◌≤◌, ◌+◌, ◌^◌, ℕ, All, codes, length, IfOk, OnOk, OnErr};
ghost use Rattle.ofit_num.specs.Fit.{BestValues};
ghost use Rattle.ofit_num.specs.Fraction.{IsLowest};
ghost use Rattle.ofit_num.specs.Sheet.{FitsCount};
ghost use Rattle.ofit_num.specs.Verdict.{Passes as PassesChecker};
ghost use Rattle.ofit_study.specs.Counted.{HasComponentCount};
ghost use Rattle.ofit_study.specs.Study.{Study as Stated, names_of, problem_stated, meaning_of};
ghost use Rattle.ofit_words.specs.JobLimits.{IsJobInLimits};
ghost use Rattle.ofit_words.specs.declared.job.Job.TheVariants.{Sample};
ghost use Rattle.ofit_sample.specs.Made.{IsMade};
ghost use Rattle.ofit_sample.specs.SampleText.{SampleText, TellsSample};

use crate::extremes::{greatest_of, least_of};
use crate::made::make_study;
use crate::summary::{write_header, write_parts, write_size, write_value};
use ofit_cert::certify;
use ofit_check::{Verdict, verdict_sheet};
use ofit_fit::fit_study;
use ofit_num::{Frac, Tally, tell_lowest};
use ofit_records::RecordWriter;
use ofit_report::{count_blocks, count_components};
use ofit_sheet::Sheet;
use ofit_study::Study;
use ofit_words::SampleJob;
use std::alloc::{AllocError, Global};

/// What the checker says of a certificate that passes.
fn verdict_word(study: &Study, sheet: &Sheet) -> &'static [u8]
    requires fits { FitsCount (length (names_of study.now)) sheet.now }
    requires passes { PassesChecker (meaning_of study.now.settings.loss) (problem_stated study.now) study.now.settings sheet.now }
    ensures { result.now ≡ codes "passes" }
{
    match verdict_sheet(study, sheet) {
        Verdict::Passes => b"passes",
        _ => unreachable!(),
    }
}

/// The text of a study of at least one group with its fit, whose certificate is verified.
fn summary_text(
    alloc: Global,
    job: &SampleJob,
    study: &Study,
    values: &[Frac],
) -> Result<Vec<u8>, AllocError>
    requires groups { 1 ≤ length (names_of study.now) }
    requires best { BestValues (meaning_of study.now.settings.loss) (problem_stated study.now) values.now }
    requires lowest { All IsLowest values.now }
    ensures { IfOk result (λ text. TellsSample job.now study.now values.now text.items) }
{
    let sheet = certify(alloc, study, values)?;
    let word = verdict_word(study, &sheet);
    let components = count_components(alloc, study)?;
    let blocks = count_blocks(alloc, study, values)?;
    let least = least_of(values);
    let greatest = greatest_of(values);
    let mut writer = RecordWriter::new(alloc)?;
    write_header(&mut writer, job)?;
    write_size(&mut writer, study)?;
    write_parts(&mut writer, components, blocks)?;
    write_value(&mut writer, b"least", &least)?;
    write_value(&mut writer, b"greatest", &greatest)?;
    let verdict: [&[u8]; 4] = [b"verdict", word, b"-", b"-"];
    writer.add_record(&verdict)?;
    let end: [&[u8]; 4] = [b"end", b"-", b"-", b"-"];
    writer.add_record(&end)?;
    writer.into_text()
}

/// The summary of the study that a job makes: its size, its components and blocks, the least and the
/// greatest value of its fit, and what the checker says of the fit's certificate. The tally counts each
/// component that is fitted.
pub fn sample_text(alloc: Global, job: &SampleJob, tally: &mut Tally) -> Result<Vec<u8>, AllocError>
    requires job { IsJobInLimits (Sample job.now) }
    requires room { tally.old.fits ≤ 2 ^ 63 }
    requires room_for_cuts { tally.old.cuts ≤ 2 ^ 63 }
    ensures text { IfOk result (λ text. SampleText job.now text.items) }
    ensures counted { OnOk result ((study : Stated) × IsMade job.now study × (n : ℕ) × HasComponentCount (problem_stated study) n × (tally.new.fits ≡ tally.old.fits + n)) }
    ensures limited { OnErr result ((study : Stated) (n : ℕ) → IsMade job.now study → HasComponentCount (problem_stated study) n → tally.new.fits ≤ tally.old.fits + n) }
    ensures grown { tally.old.fits ≤ tally.new.fits }
    ensures grown_cuts { tally.old.cuts ≤ tally.new.cuts }
    ensures fewer_cuts { tally.new.cuts + tally.old.fits ≤ tally.old.cuts + tally.new.fits }
{
    let study = make_study(alloc, job)?;
    let values = fit_study(alloc, &study, tally)?;
    let fit = values.as_slice();
    tell_lowest(fit);
    summary_text(alloc, job, &study, fit)
}
