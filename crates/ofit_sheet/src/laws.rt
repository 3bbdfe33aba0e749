ghost use Rattle.std.specs.Prelude.{◌≡◌, ℕ, List, Result, Ok, Err, length};
ghost use Rattle.ofit_num.specs.Sheet.{FitsCount, Sheet as Printed};
ghost use Rattle.ofit_records.specs.Records.{records_of};
ghost use Rattle.ofit_study.specs.declared.settings.Settings.{Settings};
ghost use Rattle.ofit_study.specs.Study.{Study as Stated, names_of};
ghost use Rattle.ofit_sheet.specs.declared.fault.SheetFault.{SheetFault};
ghost use Rattle.ofit_sheet.specs.declared.fault.SheetFault.TheVariants as fault;
ghost use Rattle.ofit_sheet.specs.Kept.{IsKept};
ghost use Rattle.ofit_sheet.specs.SheetRead.{SheetRead};
ghost use Rattle.ofit_sheet.specs.SheetText.{sheet_text};

/// A sheet's text is read as that sheet, whatever the groups are called: each sheet that fits their
/// count and keeps what sheets keep.
pub fn sheets_are_read_back()
    ensures { (names : List (List ℕ)) (x : Printed Settings) → FitsCount (length names) x → IsKept x
        → SheetRead names (records_of (sheet_text names x)) (Ok x) }
{}

/// The records of a sheet are read in one way: as one sheet, or with one fault at one record. Want of
/// memory alone may come in its place.
pub fn sheets_are_read_in_one_way()
    ensures { (s : Stated) (rows : List (List (List ℕ))) (a b : Result (Printed Settings) SheetFault)
        → SheetRead (names_of s) rows a → SheetRead (names_of s) rows b
        → (a ≡ Err fault.Memory → ⊥) → (b ≡ Err fault.Memory → ⊥) → a ≡ b }
{}
