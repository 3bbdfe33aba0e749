ghost use Rattle.std.specs.Prelude.{◌≡◌, ℕ, List};
ghost use Rattle.ofit_study.specs.Counted.{HasComponentCount};
ghost use Rattle.ofit_study.specs.Study.{Study, problem_stated};
ghost use Rattle.ofit_words.specs.declared.job.SampleJob.{SampleJob};
ghost use Rattle.ofit_sample.specs.Made.{IsMade};
ghost use Rattle.ofit_sample.specs.SampleText.{SampleText};

/// A job makes one study, its summary is told in one way, and what the study is fitted for is counted in
/// one way: what is printed, and what the tally counts, are functions of the job.
pub fn samples_are_told_in_one_way()
    ensures study { (job : SampleJob) (s t : Study) → IsMade job s → IsMade job t → s ≡ t }
    ensures text { (job : SampleJob) (a b : List ℕ) → SampleText job a → SampleText job b → a ≡ b }
    ensures components { (job : SampleJob) (s t : Study) (m n : ℕ) → IsMade job s → IsMade job t
        → HasComponentCount (problem_stated s) m → HasComponentCount (problem_stated t) n → m ≡ n }
{}
