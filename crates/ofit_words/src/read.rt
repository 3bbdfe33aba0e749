ghost use Rattle.std.specs.Prelude.{◌≡◌, ◌≤◌, ◌∷◌, ℕ, List, drop, map, string_bytes, length, IfOk, IsErrOf, MatchBool, ◌⊎◌};
ghost use Rattle.ofit_num.specs.declared.limits.TheConstants.{MOST_GROUPS};
ghost use Rattle.ofit_study.specs.Loss.{IsListed};
ghost use Rattle.ofit_study.specs.Settings.{InOrder, IsBoundInLimits};
ghost use Rattle.ofit_words.specs.declared.command.Command.TheVariants.{Levels};
ghost use Rattle.ofit_words.specs.Commands.{name_count, command_name};
ghost use Rattle.ofit_words.specs.Given.{AreInForce};
ghost use Rattle.ofit_words.specs.Read.{AreRead};
ghost use Rattle.ofit_words.specs.Words.{SettingsOf, SampleOf, Cross, IsLevel, WordsRead};
ghost use Rattle.ofit_words.specs.JobLimits.{IsJobInLimits};
ghost use Rattle.ofit_words.specs.Made.{IsNoLevel, InputsMade, JobMade};

use crate::command::{Command, command_of, names_of};
use crate::fault::WordFault;
use crate::given::{Force, in_force};
use crate::job::{Inputs, Job, Kind, OrderChoice, SampleJob};
use crate::key::Key;
use crate::setting::{Setting, bound_at, loss_in, number_at, order_in, shape_in};
use crate::settings::read_settings;
use crate::text::Text;
use crate::value::number_of;
use ofit_study::{LossKind, Pattern, Settings};
use std::alloc::Global;

/// The settings of a fit that words give.
fn settings_of(force: Force, given: &[Setting]) -> Settings
    ghost words: { List (List ℕ) }
    requires read { AreRead force.places force.groups words given.now }
    requires forced { AreInForce words force.places force.groups }
    requires places { force.places ≤ 6 }
    ensures settings { SettingsOf words result }
    ensures loss { IsListed result.loss }
    ensures places { result.places ≤ 6 }
    ensures lo { IsBoundInLimits result.lo }
    ensures hi { IsBoundInLimits result.hi }
{
    Settings {
        loss: loss_in(given).unwrap_or(LossKind::Squares),
        places: force.places,
        lo: bound_at(given, Key::Lo),
        hi: bound_at(given, Key::Hi),
    }
}

/// Whether the least value is above the greatest.
fn cross(lo: Option<i64>, hi: Option<i64>) -> bool
    ensures { MatchBool result (Cross lo hi) (InOrder lo hi) }
{
    match lo {
        Some(least) => match hi {
            Some(greatest) => greatest < least,
            None => false,
        },
        None => false,
    }
}

/// What a fit of the table of this name is made from.
fn inputs_of(
    alloc: Global,
    table: &String,
    force: Force,
    given: Vec<Setting>,
) -> Result<Inputs, WordFault>
    ghost words: { List (List ℕ) }
    requires read { AreRead force.places force.groups words given.items }
    requires forced { AreInForce words force.places force.groups }
    requires places { force.places ≤ 6 }
    ensures { InputsMade (string_bytes table.now) words result }
{
    let settings = settings_of(force, given.as_slice());
    if cross(settings.lo, settings.hi) {
        return Err(WordFault::BoundsCross);
    }
    Ok(Inputs {
        table: Text::copy_of(alloc, table.as_str())?,
        order: order_in(given).unwrap_or(OrderChoice::Shaped(Pattern::Chain)),
        settings,
    })
}

/// What a sample is made from.
fn sample_of(force: Force, given: &[Setting]) -> SampleJob
    ghost words: { List (List ℕ) }
    requires read { AreRead force.places force.groups words given.now }
    requires forced { AreInForce words force.places force.groups }
    requires least { 1 ≤ force.groups }
    requires most { force.groups ≤ MOST_GROUPS }
    ensures value { SampleOf words result }
    ensures limits { IsJobInLimits (Job.Sample result) }
{
    SampleJob {
        seed: number_at(given, Key::Seed).unwrap_or(1),
        groups: force.groups,
        rows: number_at(given, Key::Rows).unwrap_or(force.groups),
        kind: shape_in(given).unwrap_or(Kind::General),
        loss: loss_in(given).unwrap_or(LossKind::Squares),
    }
}

/// Whether the command's level, where it has one, is a good one.
fn level_is_good(command: Command, names: &[String]) -> bool
    requires { length names.now ≡ name_count command }
    ensures { MatchBool result (command ≡ Levels → (k : ℕ) × IsLevel (map string_bytes names.now) k) (IsNoLevel command (map string_bytes names.now)) }
{
    match command {
        Command::Levels => number_of(names[0].as_str(), 1, 34).is_some(),
        _ => true,
    }
}

/// The job of a command whose words have no fault before its bounds.
fn job_of(
    alloc: Global,
    command: Command,
    names: &[String],
    force: Force,
    given: Vec<Setting>,
) -> Result<Job, WordFault>
    ghost words: { List (List ℕ) }
    requires names { length names.now ≡ name_count command }
    requires read { AreRead force.places force.groups words given.items }
    requires forced { AreInForce words force.places force.groups }
    requires places { force.places ≤ 6 }
    requires least { 1 ≤ force.groups }
    requires most { force.groups ≤ MOST_GROUPS }
    ensures { JobMade command (map string_bytes names.now) words result }
{
    match command {
        Command::Fit => Ok(Job::Fit(inputs_of(alloc, &names[0], force, given)?)),
        Command::Report => Ok(Job::Report(inputs_of(alloc, &names[0], force, given)?)),
        Command::Verify => {
            let sheet = Text::copy_of(alloc, names[1].as_str())?;
            Ok(Job::Verify(inputs_of(alloc, &names[0], force, given)?, sheet))
        }
        Command::Session => {
            let script = Text::copy_of(alloc, names[1].as_str())?;
            Ok(Job::Session(inputs_of(alloc, &names[0], force, given)?, script))
        }
        Command::Unimodal => {
            Ok(Job::Unimodal(Text::copy_of(alloc, names[0].as_str())?, force.places))
        }
        Command::VerifyUnimodal => {
            let table = Text::copy_of(alloc, names[0].as_str())?;
            Ok(Job::VerifyUnimodal(
                table,
                Text::copy_of(alloc, names[1].as_str())?,
                force.places,
            ))
        }
        Command::Levels => match number_of(names[0].as_str(), 1, 34) {
            Some(level) => Ok(Job::Levels(level)),
            None => Err(WordFault::LevelOutOfRange),
        },
        Command::Sample => Ok(Job::Sample(sample_of(force, given.as_slice()))),
    }
}

/// What the words of a call ask for, without the program's name: word 0 is the command, then come its
/// names, and then its settings `key=value`. The first fault of the words, in the order of
/// [`WordFault`]'s variants; those of the settings by rising place. [`WordFault::Memory`] may come in
/// place of each. Time linear in the words, of which at most six settings are judged: no command takes
/// more than five keys, each stands once, and the first fault ends it.
pub fn read_words(alloc: Global, words: &[String]) -> Result<Job, WordFault>
    ensures read { IsErrOf result WordFault.Memory ⊎ WordsRead (map string_bytes words.now) result }
    ensures limits { IfOk result IsJobInLimits }
{
    match words.split_first() {
        None => Err(WordFault::NoCommand),
        Some((first, rest)) => match command_of(first.as_str()) {
            None => Err(WordFault::UnknownCommand),
            Some(command) => read_call(alloc, command, rest),
        },
    }
}

/// What the words behind a command ask for.
fn read_call(alloc: Global, command: Command, words: &[String]) -> Result<Job, WordFault>
    ghost settings: { List (List ℕ) }
    requires { settings ≡ drop (name_count command) (map string_bytes words.now) }
    ensures read { IsErrOf result WordFault.Memory ⊎ WordsRead (command_name command ∷ map string_bytes words.now) result }
    ensures limits { IfOk result IsJobInLimits }
{
    let count = names_of(command);
    if words.len() < count {
        return Err(WordFault::MissingName);
    }
    let (names, given) = words.split_at(count);
    if !level_is_good(command, names) {
        return Err(WordFault::LevelOutOfRange);
    }
    let force = in_force(given);
    let settings = read_settings(alloc, command, force, given)?;
    job_of(alloc, command, names, force, settings)
}
