ghost use Rattle.std.specs.Prelude.{◌≤◌, List, ℕ, map, string_bytes, option_copied, MatchOption};
ghost use Rattle.ofit_words.specs.Commands.{Sets};
ghost use Rattle.ofit_words.specs.Values.{IsNumberIn};
ghost use Rattle.ofit_words.specs.Given.{Given, InForce, AreInForce};

use crate::key::{Key, is_key, setting_of};
use crate::value::number_of;
use ofit_num::MOST_GROUPS;

/// The value to which a word sets the key.
fn value_in(word: &str, key: Key) -> Option<&str>
    ensures { MatchOption result ((value : List ℕ) → Sets word.now key value → ⊥) (λ value. Sets word.now key value.now) }
{
    match setting_of(word) {
        Some((set, value)) => { if is_key(set, key) { Some(value) } else { None } }
        None => None,
    }
}

/// The value to which the first word that sets the key sets it.
fn given(settings: &[String], key: Key) -> Option<&str>
    ensures { Given (map string_bytes settings.now) key (option_copied result) }
{
    for word in settings {
        if let Some(value) = value_in(word.as_str(), key) {
            return Some(value);
        }
    }
    None
}

/// The number in force for the key.
fn number_in_force(settings: &[String], key: Key, low: u32, high: u32, default: u32) -> u32
    requires low { low ≤ default }
    requires high { default ≤ high }
    ensures value { InForce (map string_bytes settings.now) key (λ value n. IsNumberIn low high value n) default result }
    ensures low { low ≤ result }
    ensures high { result ≤ high }
{
    match given(settings, key) {
        Some(value) => match number_of(value, low, high) {
            Some(number) => number,
            None => default,
        },
        None => default,
    }
}

/// The places and the count of groups in force.
#[derive(Clone, Copy)]
pub(crate) struct Force {
    pub(crate) places: u32,
    pub(crate) groups: u32,
}

/// The places and the count of groups that the words set, which other values are read with.
pub(crate) fn in_force(settings: &[String]) -> Force
    ensures force { AreInForce (map string_bytes settings.now) result.places result.groups }
    ensures places { result.places ≤ 6 }
    ensures least { 1 ≤ result.groups }
    ensures most { result.groups ≤ MOST_GROUPS }
{
    Force {
        places: number_in_force(settings, Key::Places, 0, 6, 3),
        groups: number_in_force(settings, Key::Groups, 1, MOST_GROUPS, 100),
    }
}
