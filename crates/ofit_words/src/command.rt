ghost use Rattle.std.specs.Prelude.{◌≡◌, IfSome, IfNone};
ghost use Rattle.ofit_words.specs.Commands.{command_name, name_count, has_key};

use crate::compare::is;
use crate::key::Key;

/// What a call is to do.
#[derive(Clone, Copy, Debug, PartialEq, Eq)]
pub enum Command {
    /// Print the sheet of a fit.
    Fit,
    /// Print the report of a fit.
    Report,
    /// Verify a sheet.
    Verify,
    /// Run a script on a study.
    Session,
    /// Print the peaked sheet of the best peak.
    Unimodal,
    /// Verify a peaked sheet.
    VerifyUnimodal,
    /// Print the counts of the level table.
    Levels,
    /// Make a study and print its summary.
    Sample,
}

/// The command of this name.
pub(crate) fn command_of(word: &str) -> Option<Command>
    ensures yes { IfSome result (λ command. word.now ≡ command_name command) }
    ensures no { IfNone result ((command : Command) → word.now ≡ command_name command → ⊥) }
{
    if is(word, "fit") {
        return Some(Command::Fit);
    }
    if is(word, "report") {
        return Some(Command::Report);
    }
    if is(word, "verify") {
        return Some(Command::Verify);
    }
    if is(word, "session") {
        return Some(Command::Session);
    }
    if is(word, "unimodal") {
        return Some(Command::Unimodal);
    }
    if is(word, "verify-unimodal") {
        return Some(Command::VerifyUnimodal);
    }
    if is(word, "levels") {
        return Some(Command::Levels);
    }
    if is(word, "sample") {
        return Some(Command::Sample);
    }
    None
}

/// How many names follow the command.
pub(crate) fn names_of(command: Command) -> usize
    ensures { result ≡ name_count command }
{
    match command {
        Command::Fit | Command::Report | Command::Unimodal | Command::Levels => 1,
        Command::Verify | Command::Session | Command::VerifyUnimodal => 2,
        Command::Sample => 0,
    }
}

/// Whether the command has the key.
pub(crate) fn takes(command: Command, key: Key) -> bool
    ensures { result ≡ has_key command key }
{
    match command {
        Command::Fit | Command::Report | Command::Verify | Command::Session => match key {
            Key::Order | Key::Loss | Key::Places | Key::Lo | Key::Hi => true,
            _ => false,
        },
        Command::Unimodal | Command::VerifyUnimodal => match key {
            Key::Places => true,
            _ => false,
        },
        Command::Levels => false,
        Command::Sample => match key {
            Key::Seed | Key::Groups | Key::Rows | Key::Shape | Key::Loss => true,
            _ => false,
        },
    }
}
