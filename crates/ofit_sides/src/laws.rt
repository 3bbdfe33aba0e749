ghost use Rattle.std.specs.Prelude.{◌<◌, ℕ};
ghost use Rattle.ofit_num.specs.Loss.{median};
ghost use Rattle.ofit_num.specs.Problem.{Problem};
ghost use Rattle.ofit_num.specs.Settled.{IsLeastSettled};
ghost use Rattle.ofit_num.specs.Trial.{Trial};
ghost use Rattle.ofit_sheet.specs.Unbounded.{HasNoBounds};
ghost use Rattle.ofit_sides.specs.Values.{IsRowValue};

/// Where no group has a bound, each value of a least settled trial under the median is the value of a
/// row of a group that has it: or else all groups that have it could be lowered together at no cost.
pub fn least_medians_are_row_values()
    ensures { (s : Problem) (t : Trial) → HasNoBounds s → IsLeastSettled median s t → (g : ℕ) → g < s.count → IsRowValue s t g }
{}
