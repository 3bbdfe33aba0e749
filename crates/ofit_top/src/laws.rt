ghost use Rattle.std.specs.Prelude.{◌≡◌, ◌⊎◌, List, ℕ, Some, Ok, Err, codes};
ghost use Rattle.ofit_outside.specs.Faults.{Rose};
ghost use Rattle.ofit_outside.specs.Folder.{Held};
ghost use Rattle.ofit_words.specs.declared.job.Inputs.{Inputs};
ghost use Rattle.ofit_words.specs.declared.job.Job.{Job};
ghost use Rattle.ofit_words.specs.declared.job.Job.TheVariants as job;
ghost use Rattle.ofit_words.specs.Words.{WordsRead};
ghost use Rattle.ofit_input.specs.declared.ready.Ready.{Ready};
ghost use Rattle.ofit_input.specs.declared.refusal.Refusal.{Refusal};
ghost use Rattle.ofit_input.specs.Ready.{ReadyGives};
ghost use Rattle.ofit_answer.specs.declared.answer.Answer.{Answer as Answered};
ghost use Rattle.ofit_answer.specs.declared.answer.Answer.TheVariants.{Done, Memory};
ghost use Rattle.ofit_top.specs.Beside.{HoldsBesides, IsInput};
ghost use Rattle.ofit_top.specs.Done.{IsDone};
ghost use Rattle.ofit_top.specs.Flows.{HasFlows};
ghost use Rattle.ofit_top.specs.State.{State};
ghost use Rattle.ofit_top.specs.Run.{RunGives, AskFor, Writes, CountsRead, CountsWrite};

use ofit_input::inputs_are_given_in_one_way;
use ofit_report::reports_are_told_in_one_way;
use ofit_sample::samples_are_told_in_one_way;
use ofit_script::scripts_run_in_one_way;
use ofit_words::words_have_one_reading;

/// No order, size or bound within the limits is too hard: where the words are a job of which no file is
/// refused, and neither folder nor output fails, the run gives what the job gives, unless memory is
/// wanting.
pub fn accepted_inputs_are_answered()
    ensures { (words : List (List ℕ)) (job : Job) (before after : State) (answer : Answered)
        → WordsRead words (Ok job) → ((refusal : Refusal) → ReadyGives before.held job (Err refusal) → ⊥)
        → (Rose before.read_faults after.read_faults → ⊥) → (Rose before.write_faults after.write_faults → ⊥)
        → Writes words before after answer → CountsRead before after answer → CountsWrite before after answer
        → (answer ≡ Memory) ⊎ IsDone job before after answer }
{
    words_have_one_reading();
}

/// What is printed is verified: where a fit is done over a told folder, verifying with the same data,
/// order and settings, over that folder with the printed text under a further name, is done, and ends in
/// no other way.
pub fn fits_are_verified()
    ensures passes { (words other : List (List ℕ)) (inputs : Inputs) (name text : List ℕ) (fits : ℕ) (h after : Held)
        → WordsRead words (Ok (job.Fit inputs)) → RunGives words (Some h) Done text fits
        → (IsInput inputs name → ⊥) → HoldsBesides h name text after → WordsRead other (Ok (job.Verify inputs name))
        → RunGives other (Some after) Done (codes "passes\n") 0 }
    ensures nothing_else { (words other : List (List ℕ)) (inputs : Inputs) (name text : List ℕ) (fits : ℕ) (h after : Held)
        → WordsRead words (Ok (job.Fit inputs)) → RunGives words (Some h) Done text fits
        → (IsInput inputs name → ⊥) → HoldsBesides h name text after → WordsRead other (Ok (job.Verify inputs name))
        → (answer : Answered) (line : List ℕ) (n : ℕ) → RunGives other (Some after) answer line n → answer ≡ Done }
{
    words_have_one_reading();
    runs_end_in_one_way();
}

/// Over a told folder, and without faults, a run ends in one way: words and files determine its answer
/// and its count of fits, and its text too, where the job prints no flows.
pub fn runs_end_in_one_way()
    ensures answer { (words : List (List ℕ)) (h : Held) (a b : Answered) (t u : List ℕ) (n m : ℕ)
        → RunGives words (Some h) a t n → RunGives words (Some h) b u m → a ≡ b }
    ensures fits { (words : List (List ℕ)) (h : Held) (a b : Answered) (t u : List ℕ) (n m : ℕ)
        → RunGives words (Some h) a t n → RunGives words (Some h) b u m → n ≡ m }
    ensures text { (words : List (List ℕ)) (h : Held) (a b : Answered) (t u : List ℕ) (n m : ℕ)
        → RunGives words (Some h) a t n → RunGives words (Some h) b u m
        → ((ready : Ready) → AskFor words (Some h) ready → HasFlows ready → ⊥) → t ≡ u }
{
    words_have_one_reading();
    inputs_are_given_in_one_way();
    reports_are_told_in_one_way();
    scripts_run_in_one_way();
    samples_are_told_in_one_way();
}
