ghost use Rattle.std.specs.Prelude.{◌≡◌, ◌≤◌, ◌<◌, length, All};
ghost use Rattle.ofit_num.specs.Fit.{sum_below};
ghost use Rattle.ofit_num.specs.RowTotals.{all_rows};
ghost use Rattle.ofit_num.specs.RowLimits.{AreWithinLimits};
ghost use Rattle.ofit_num.specs.Loss.{row_sum};
ghost use Rattle.ofit_num.specs.ProblemPairs.{HasPlaces, HasDistinctPairs};
ghost use Rattle.ofit_study.specs.Name.{IsName};
ghost use Rattle.ofit_study.specs.Study.{Study, IsValid, names_of, groups_of, problem_stated, total_weight, most_rows};

/// The rows of a study are those of its groups, each once: as many, and of one total weight.
pub fn groups_hold_the_rows()
    ensures rows { (s : Study) → length s.rows ≡ sum_below (λ g. length ((problem_stated s).rows g)) (problem_stated s).count }
    ensures weight { (s : Study) → total_weight s.rows ≡ sum_below (λ g. row_sum (λ r. r.weight) ((problem_stated s).rows g)) (problem_stated s).count }
    ensures filled { (s : Study) → All (λ rows. 0 < length rows) (groups_of s) }
{}

/// The groups of a valid study have names, and their rows are within the limits, also together.
pub fn groups_are_within_limits()
    ensures names { (s : Study) → IsValid s → All IsName (names_of s) }
    ensures rows { (s : Study) → IsValid s → AreWithinLimits (all_rows (groups_of s)) }
    ensures numbers { (s : Study) → IsValid s → All (λ r. r.number ≤ most_rows) (all_rows (groups_of s)) }
{}

/// The pairs of a valid study join its groups, and none stands twice.
pub fn pairs_join_groups()
    ensures places { (s : Study) → IsValid s → HasPlaces (problem_stated s) }
    ensures distinct { (s : Study) → IsValid s → HasDistinctPairs (problem_stated s) }
{}
