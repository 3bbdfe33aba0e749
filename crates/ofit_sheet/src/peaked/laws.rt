ghost use Rattle.std.specs.Prelude.{◌≡◌, ◌↔◌, ◌<◌, ℕ, List, Result, Ok, Err, length};
ghost use Rattle.ofit_num.specs.Fit.{Obeys};
ghost use Rattle.ofit_num.specs.Problem.{Problem};
ghost use Rattle.ofit_num.specs.Trial.{Trial};
ghost use Rattle.ofit_records.specs.Records.{records_of};
ghost use Rattle.ofit_study.specs.Study.{Study as Stated, names_of};
ghost use Rattle.ofit_sheet.specs.declared.fault.SheetFault.{SheetFault};
ghost use Rattle.ofit_sheet.specs.declared.fault.SheetFault.TheVariants as fault;
ghost use Rattle.ofit_sheet.specs.Peaked.{Peaked, IsShaped, IsInLimits};
ghost use Rattle.ofit_sheet.specs.PeakedRead.{PeakedRead};
ghost use Rattle.ofit_sheet.specs.PeakedText.{peaked_text};
ghost use Rattle.ofit_sheet.specs.Unimodal.{IsUnimodal, umbrella};
ghost use Rattle.ofit_sheet.specs.Unbounded.{HasNoBounds};

/// A peaked sheet's text is read as that sheet, whatever the groups are called: each one that has the
/// shape of those of so many groups and keeps the limits of what is printed.
pub fn peaked_sheets_are_read_back()
    ensures { (names : List (List ℕ)) (x : Peaked) → IsShaped (length names) x → IsInLimits x
        → PeakedRead names (records_of (peaked_text names x)) (Ok x) }
{}

/// The records of a peaked sheet are read in one way: as one sheet, or with one fault at one record.
/// Want of memory alone may come in its place.
pub fn peaked_sheets_are_read_in_one_way()
    ensures { (s : Stated) (rows : List (List (List ℕ))) (a b : Result Peaked SheetFault)
        → PeakedRead (names_of s) rows a → PeakedRead (names_of s) rows b
        → (a ≡ Err fault.Memory → ⊥) → (b ≡ Err fault.Memory → ⊥) → a ≡ b }
{}

/// Where no group has a bound, the trials that are unimodal with a peak are those that obey its
/// umbrella: each group before the peak at most the next one, and each one behind it at most the one
/// before.
pub fn unimodal_trials_obey_the_umbrella()
    ensures { (s : Problem) (peak : ℕ) → peak < s.count → HasNoBounds s → (t : Trial) → (IsUnimodal s.count peak t ↔ Obeys (umbrella s peak) t) }
{}
