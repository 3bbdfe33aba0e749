ghost use Rattle.std.specs.Prelude.{◌≡◌, ℕ, List, Contains, Result};
ghost use Rattle.ofit_study.specs.declared.settings.Settings.{Settings};
ghost use Rattle.ofit_study.specs.Study.{IsValid, Study};
ghost use Rattle.ofit_script.specs.declared.fault.ScriptFault.{ScriptFault};
ghost use Rattle.ofit_script.specs.declared.line.Line.{Line};
ghost use Rattle.ofit_script.specs.declared.line.Line.TheVariants.{Sheet};
ghost use Rattle.ofit_script.specs.ScriptRead.{ScriptRead};
ghost use Rattle.ofit_script.specs.ScriptGives.{ScriptGives};

/// The bytes of a script are read in one way: as one list of lines, or with one first fault.
pub fn scripts_are_read_in_one_way()
    ensures { (bytes : List ℕ) (settings : Settings) (a b : Result (List Line) ScriptFault)
        → ScriptRead bytes settings a → ScriptRead bytes settings b → a ≡ b }
{}

/// The lines of a script lead a study to one study and fit so many components. What they print is one
/// text, where none of them prints a sheet, whose flows are free within what the checker passes.
pub fn scripts_run_in_one_way()
    ensures studies { (s : Study) → IsValid s → (r : ℕ) (lines : List Line) (a b : Study) (t u : List ℕ) (n m : ℕ)
        → ScriptGives r s lines a t n → ScriptGives r s lines b u m → a ≡ b }
    ensures fits { (s : Study) → IsValid s → (r : ℕ) (lines : List Line) (a b : Study) (t u : List ℕ) (n m : ℕ)
        → ScriptGives r s lines a t n → ScriptGives r s lines b u m → n ≡ m }
    ensures texts { (s : Study) → IsValid s → (r : ℕ) (lines : List Line) (a b : Study) (t u : List ℕ) (n m : ℕ)
        → (Contains lines Sheet → ⊥) → ScriptGives r s lines a t n → ScriptGives r s lines b u m → t ≡ u }
{}
