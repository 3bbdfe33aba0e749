ghost use Rattle.std.specs.Prelude.{◌≡◌, List, ℕ, Result};
ghost use Rattle.ofit_words.specs.declared.job.Job.{Job};
ghost use Rattle.ofit_words.specs.declared.fault.WordFault.{WordFault};
ghost use Rattle.ofit_words.specs.Words.{WordsRead};

/// The words of a call have one reading at most: one job, or one first fault. So what
/// [`read_words`](crate::read_words) answers with ample memory is a function of the words.
pub fn words_have_one_reading()
    ensures { (words : List (List ℕ)) (r t : Result Job WordFault) → WordsRead words r → WordsRead words t → r ≡ t }
{}
