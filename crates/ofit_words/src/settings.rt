ghost use Rattle.std.specs.Prelude.{◌≤◌, ◌+◌, List, ℕ, map, string_bytes, IfOk};
ghost use Rattle.ofit_words.specs.Judged.{Judged, Checked};
ghost use Rattle.ofit_words.specs.Read.{AreRead, IsRead};

use crate::command::{Command, names_of, takes};
use crate::fault::WordFault;
use crate::given::Force;
use crate::key::setting_of;
use crate::setting::{Setting, keep, place_of, read_value};
use std::alloc::Global;

/// What a setting is read as behind those before it. The place is the number of its word.
fn read_setting(
    alloc: Global,
    command: Command,
    force: Force,
    before: &[Setting],
    word: &str,
    place: u32,
) -> Result<Setting, WordFault>
    requires { force.places ≤ 6 }
    ensures judged { (words : List (List ℕ)) → AreRead force.places force.groups words before.now → Judged command force.places force.groups words word.now place result }
    ensures read { IfOk result (λ setting. IsRead force.places force.groups word.now setting) }
{
    let Some((key, text)) = setting_of(word) else {
        return Err(WordFault::UnknownSetting(place));
    };
    if !takes(command, key) {
        return Err(WordFault::UnknownSetting(place));
    }
    if place_of(before, key).is_some() {
        return Err(WordFault::RepeatedSetting(place));
    }
    match read_value(alloc, force, key, text)? {
        Some(value) => Ok(Setting { key, value }),
        None => Err(WordFault::BadSetting(place)),
    }
}

/// The settings that words give, each read once, or their first fault. Each is compared with those before
/// it, of which there are at most five, since no command takes more keys and none stands twice without a fault.
pub(crate) fn read_settings(
    alloc: Global,
    command: Command,
    force: Force,
    words: &[String],
) -> Result<Vec<Setting>, WordFault>
    requires { force.places ≤ 6 }
    ensures checked { Checked command force.places force.groups (map string_bytes words.now) result }
    ensures read { IfOk result (λ settings. AreRead force.places force.groups (map string_bytes words.now) settings.items) }
{
    let first = 1 + names_of(command);
    let mut settings = Vec::new(alloc);
    for at in 0..words.len() {
        let word = words[at].as_str();
        let place = (first + at) as u32;
        let setting = read_setting(alloc, command, force, settings.as_slice(), word, place)?;
        keep(&mut settings, setting)?;
    }
    Ok(settings)
}
