ghost use Rattle.std.specs.Prelude.{List, ℕ};
ghost use Rattle.ofit_num.specs.Fit.{Best, BestValues};
ghost use Rattle.ofit_num.specs.Flow.{Flow};
ghost use Rattle.ofit_num.specs.Certificate.{Certifies};
ghost use Rattle.ofit_num.specs.Problem.{Problem};
ghost use Rattle.ofit_num.specs.ProblemPairs.{HasPlaces};
ghost use Rattle.ofit_num.specs.Sheet.{Sheet, FitsCount, sheet_values};
ghost use Rattle.ofit_num.specs.Trial.{Trial};
ghost use Rattle.ofit_num.specs.Verdict.{Passes};
ghost use Rattle.ofit_loss.specs.Laws.{HasFittableGroups};
ghost use Rattle.ofit_sheet.specs.Peaked.{IsShaped, Peaked};
ghost use Rattle.ofit_sheet.specs.PeakVerdict.{PeakPasses};
ghost use Rattle.ofit_check.specs.Peak.{IsBestOfPeaks};
ghost use Rattle.ofit_study.specs.declared.settings.Settings.{Settings};

use ofit_loss::Loss;

/// What passes is optimal under every loss: the values of a sheet that passes cost least of all that
/// obey, and so does each trial that flows certify, tight ones whose balances are in the open spans
/// (Robertson, Wright and Dykstra, 1988, chapter 1). The groups' rows are such as a loss takes.
pub fn passing_is_best<L: Loss>()
    ensures sheets { (s : Problem) (own : Settings) (x : Sheet Settings) → HasPlaces s → HasFittableGroups s → FitsCount s.count x
        → Passes L.meaning s own x → BestValues L.meaning s (sheet_values x) }
    ensures flows { (s : Problem) (t : Trial) (flows : List Flow) → HasFittableGroups s → Certifies L.meaning s t flows → Best L.meaning s t }
{}

/// A peaked sheet that passes is optimal, however many groups the study has: its values rise up to its
/// peak and fall from it, and no values that do so with any peak cost less under the median.
pub fn passing_peaked_is_best()
    ensures { (s : Problem) (places : ℕ) (x : Peaked) → IsShaped s.count x → PeakPasses s places x → IsBestOfPeaks s x }
{}
