ghost use Rattle.std.specs.Prelude.{◌≡◌, List, ℕ, Some, Result};
ghost use Rattle.ofit_outside.specs.Folder.{Held};
ghost use Rattle.ofit_num.specs.Sheet as num;
ghost use Rattle.ofit_study.specs.declared.settings.Settings.{Settings};
ghost use Rattle.ofit_study.specs.Study.{Study};
ghost use Rattle.ofit_words.specs.declared.job.Inputs.{Inputs};
ghost use Rattle.ofit_words.specs.declared.job.Job.{Job};
ghost use Rattle.ofit_input.specs.declared.ready.Ready.{Ready};
ghost use Rattle.ofit_input.specs.declared.refusal.Refusal.{Refusal};
ghost use Rattle.ofit_input.specs.Given.{StudyGives, SheetGives};
ghost use Rattle.ofit_input.specs.Ready.{ReadyGives};

use ofit_script::scripts_are_read_in_one_way;
use ofit_sheet::{peaked_sheets_are_read_in_one_way, sheets_are_read_in_one_way};
use ofit_table::{
    orders_are_read_in_one_way, patterns_are_read_in_one_way, tables_are_read_in_one_way,
};

/// What a told folder's files give is given in one way: one study, one sheet and one thing to work on,
/// or one first refusal.
pub fn inputs_are_given_in_one_way()
    ensures study { (h : Held) (inputs : Inputs) (a b : Result Study Refusal) → StudyGives (Some h) inputs a → StudyGives (Some h) inputs b → a ≡ b }
    ensures sheet { (h : Held) (name : List ℕ) (study : Study) (a b : Result (num.Sheet Settings) Refusal) → SheetGives (Some h) name study a → SheetGives (Some h) name study b → a ≡ b }
    ensures ready { (h : Held) (job : Job) (a b : Result Ready Refusal) → ReadyGives (Some h) job a → ReadyGives (Some h) job b → a ≡ b }
{
    tables_are_read_in_one_way();
    orders_are_read_in_one_way();
    patterns_are_read_in_one_way();
    sheets_are_read_in_one_way();
    peaked_sheets_are_read_in_one_way();
    scripts_are_read_in_one_way();
}
