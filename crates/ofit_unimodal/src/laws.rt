ghost use Rattle.std.specs.Prelude.{◌<◌, ◌≤◌, ℕ, suc, ◌≤ℤ◌};
ghost use Rattle.ofit_num.specs.Problem.{Problem};
ghost use Rattle.ofit_num.specs.Trial.{Trial};
ghost use Rattle.ofit_sheet.specs.Unimodal.{IsUnimodal};
ghost use Rattle.ofit_unimodal.specs.Splits.{BoundsRises, BoundsFalls, CostsSplit, HasPeakAt};

/// A trial that is unimodal with a peak costs no less than the rise of the groups before the peak with
/// the fall of those from it on, and no less than the rise of those up to the peak with the fall of
/// those behind it, where no rising and no falling trial costs less than these do.
pub fn splits_bound_unimodal_trials()
    ensures { (s : Problem) (rises falls : ℕ → ℕ) → BoundsRises s rises → BoundsFalls s falls → (t : Trial) (peak : ℕ) → peak < s.count → IsUnimodal s.count peak t
        → CostsSplit s rises falls t peak × CostsSplit s rises falls t (suc peak) }
{}

/// A trial that rises along the first groups and falls along the others has a peak, at the last of the
/// first groups or at the first of the others.
pub fn joined_sides_have_a_peak()
    ensures { (n i : ℕ) (t : Trial) → 0 < n → i ≤ n → 0 < t.scale → ((g : ℕ) → suc g < i → t.value g ≤ℤ t.value (suc g))
        → ((g : ℕ) → i ≤ g → suc g < n → t.value (suc g) ≤ℤ t.value g) → HasPeakAt n i t }
{}
