ghost use Rattle.std.specs.Prelude.{◌≡◌, List, ℕ, true, false, IfSome, IfNone};
ghost use Rattle.ofit_words.specs.Commands.{key_name, Sets};

use crate::compare::is;

/// What a setting sets.
#[derive(Clone, Copy, Debug, PartialEq, Eq)]
pub enum Key {
    /// The order of the groups.
    Order,
    /// The loss that the fit makes least.
    Loss,
    /// The decimal places of values.
    Places,
    /// The least value that the fit may take.
    Lo,
    /// The greatest value that the fit may take.
    Hi,
    /// The seed of a sample.
    Seed,
    /// The count of a sample's groups.
    Groups,
    /// The count of a sample's rows.
    Rows,
    /// The shape of a sample's order.
    Shape,
}

/// Whether both keys are the same.
pub(crate) fn is_key(key: Key, other: Key) -> bool
    ensures yes { result ≡ true → key ≡ other }
    ensures no { result ≡ false → key ≡ other → ⊥ }
{
    key == other
}

/// The key of this name.
fn key_of(name: &str) -> Option<Key>
    ensures yes { IfSome result (λ key. name.now ≡ key_name key) }
    ensures no { IfNone result ((key : Key) → name.now ≡ key_name key → ⊥) }
{
    if is(name, "order") {
        return Some(Key::Order);
    }
    if is(name, "loss") {
        return Some(Key::Loss);
    }
    if is(name, "places") {
        return Some(Key::Places);
    }
    if is(name, "lo") {
        return Some(Key::Lo);
    }
    if is(name, "hi") {
        return Some(Key::Hi);
    }
    if is(name, "seed") {
        return Some(Key::Seed);
    }
    if is(name, "groups") {
        return Some(Key::Groups);
    }
    if is(name, "rows") {
        return Some(Key::Rows);
    }
    if is(name, "shape") {
        return Some(Key::Shape);
    }
    None
}

/// The key of a setting, and its value: the word is cut at its first `=`.
pub(crate) fn setting_of(word: &str) -> Option<(Key, &str)>
    ensures yes { IfSome result (λ setting. Sets word.now setting.0 setting.1.now) }
    ensures no { IfNone result ((key : Key) (value : List ℕ) → Sets word.now key value → ⊥) }
{
    match word.split_once('=') {
        Some((name, value)) => match key_of(name) {
            Some(key) => Some((key, value)),
            None => None,
        },
        None => None,
    }
}
