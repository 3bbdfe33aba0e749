ghost use Rattle.std.specs.Prelude.{◌≡◌, ◌≤◌, ◌⊎◌, ◌++◌, ◌∷◌, [], ℕ, ℤ, List, OnOk, IfNone, IfOk, IfSome, MatchOption};
ghost use Rattle.ofit_study.specs.declared.loss.LossKind.{LossKind as TheLoss};
ghost use Rattle.ofit_words.specs.declared.job.Kind.{Kind as TheKind};
ghost use Rattle.ofit_words.specs.declared.job.OrderChoice.{OrderChoice as TheOrder};
ghost use Rattle.ofit_words.specs.declared.setting.Value.TheVariants as value;
ghost use Rattle.ofit_words.specs.Values.{IsGood, IsNumberIn};
ghost use Rattle.ofit_words.specs.Given.{NoneSets};
ghost use Rattle.ofit_words.specs.Read.{AreRead, HasAt, IsFirstOf, IsFoundAs, Reads};

use crate::given::Force;
use crate::job::{Kind, OrderChoice};
use crate::key::{Key, is_key};
use crate::value::{bound_of, kind_of, loss_of, number_of, order_of};
use ofit_num::MOST_GROUPS;
use ofit_study::LossKind;
use std::alloc::{AllocError, Global};

/// What a setting's value is read as.
#[derive(Drop)]
pub(crate) enum Value {
    /// An order.
    Order(OrderChoice),
    /// A loss.
    Loss(LossKind),
    /// A whole number.
    Number(u32),
    /// A bound, in units of 10^(-places).
    Bound(i64),
    /// The shape of a sample's order.
    Shape(Kind),
}

/// A setting that was read.
#[derive(Drop)]
pub(crate) struct Setting {
    pub(crate) key: Key,
    pub(crate) value: Value,
}

impl Value {
    /// The loss, where it is one.
    fn loss(&self) -> Option<LossKind>
        ensures { MatchOption result ((x : TheLoss) → self.now ≡ value.Loss x → ⊥) (λ x. self.now ≡ value.Loss x) }
    {
        match self {
            Value::Loss(loss) => Some(*loss),
            _ => None,
        }
    }

    /// The whole number, where it is one.
    fn number(&self) -> Option<u32>
        ensures { MatchOption result ((n : ℕ) → self.now ≡ value.Number n → ⊥) (λ n. self.now ≡ value.Number n) }
    {
        match self {
            Value::Number(number) => Some(*number),
            _ => None,
        }
    }

    /// The bound, where it is one.
    fn bound(&self) -> Option<i64>
        ensures { MatchOption result ((z : ℤ) → self.now ≡ value.Bound z → ⊥) (λ z. self.now ≡ value.Bound z) }
    {
        match self {
            Value::Bound(units) => Some(*units),
            _ => None,
        }
    }

    /// The shape, where it is one.
    fn shape(&self) -> Option<Kind>
        ensures { MatchOption result ((x : TheKind) → self.now ≡ value.Shape x → ⊥) (λ x. self.now ≡ value.Shape x) }
    {
        match self {
            Value::Shape(kind) => Some(*kind),
            _ => None,
        }
    }
}

/// The whole number from `low` to `high` that a text spells.
fn number_read(text: &str, low: u32, high: u32) -> Option<Value>
    ensures { MatchOption result ((n : ℕ) → IsNumberIn low high text.now n → ⊥) (λ v. (n : ℕ) × (v ≡ value.Number n) × IsNumberIn low high text.now n) }
{
    match number_of(text, low, high) {
        Some(number) => Some(Value::Number(number)),
        None => None,
    }
}

/// What the text is read as for the key, with these places and this count of groups in force. None where
/// the key may not have it.
pub(crate) fn read_value(
    alloc: Global,
    force: Force,
    key: Key,
    text: &str,
) -> Result<Option<Value>, AllocError>
    requires { force.places ≤ 6 }
    ensures { IfOk result (λ made. MatchOption made (IsGood force.places force.groups key text.now → ⊥) (λ v. Reads force.places force.groups key text.now v)) }
{
    match key {
        Key::Order => match order_of(alloc, text)? {
            Some(order) => Ok(Some(Value::Order(order))),
            None => Ok(None),
        },
        Key::Loss => match loss_of(text) {
            Some(loss) => Ok(Some(Value::Loss(loss))),
            None => Ok(None),
        },
        Key::Lo | Key::Hi => match bound_of(text, force.places) {
            Some(units) => Ok(Some(Value::Bound(units))),
            None => Ok(None),
        },
        Key::Shape => match kind_of(text) {
            Some(kind) => Ok(Some(Value::Shape(kind))),
            None => Ok(None),
        },
        Key::Places => Ok(number_read(text, 0, 6)),
        Key::Seed => Ok(number_read(text, 0, u32::MAX)),
        Key::Groups => Ok(number_read(text, 1, MOST_GROUPS)),
        Key::Rows => Ok(number_read(text, force.groups, 10_000)),
    }
}

/// Where the setting of the key stands.
pub(crate) fn place_of(settings: &[Setting], key: Key) -> Option<usize>
    ensures { IsFirstOf settings.now key result }
{
    for place in 0..settings.len() {
        if is_key(settings[place].key, key) {
            return Some(place);
        }
    }
    None
}

/// What the setting of the key was read as.
fn value_of(settings: &[Setting], key: Key) -> Option<&Value>
    ensures none { IfNone result ((places groups : ℕ) (words : List (List ℕ)) → AreRead places groups words settings.now → NoneSets words key) }
    ensures some { IfSome result (λ v. (places groups : ℕ) (words : List (List ℕ)) → AreRead places groups words settings.now → HasAt places groups words key v.now) }
{
    match place_of(settings, key) {
        Some(place) => Some(&settings[place].value),
        None => None,
    }
}

/// The loss, where the settings have one.
pub(crate) fn loss_in(settings: &[Setting]) -> Option<LossKind>
    ensures { (places groups : ℕ) (words : List (List ℕ)) → AreRead places groups words settings.now → IsFoundAs (λ x. value.Loss x) places groups words Key.Loss result }
{
    match value_of(settings, Key::Loss) {
        Some(value) => value.loss(),
        None => None,
    }
}

/// The shape, where the settings have one.
pub(crate) fn shape_in(settings: &[Setting]) -> Option<Kind>
    ensures { (places groups : ℕ) (words : List (List ℕ)) → AreRead places groups words settings.now → IsFoundAs (λ x. value.Shape x) places groups words Key.Shape result }
{
    match value_of(settings, Key::Shape) {
        Some(value) => value.shape(),
        None => None,
    }
}

/// The whole number, where the settings have one for the key.
pub(crate) fn number_at(settings: &[Setting], key: Key) -> Option<u32>
    requires { (key ≡ Key.Seed) ⊎ (key ≡ Key.Rows) }
    ensures { (places groups : ℕ) (words : List (List ℕ)) → AreRead places groups words settings.now → IsFoundAs (λ n. value.Number n) places groups words key result }
{
    match value_of(settings, key) {
        Some(value) => value.number(),
        None => None,
    }
}

/// The bound, where the settings have one for the key.
pub(crate) fn bound_at(settings: &[Setting], key: Key) -> Option<i64>
    requires { (key ≡ Key.Lo) ⊎ (key ≡ Key.Hi) }
    ensures { (places groups : ℕ) (words : List (List ℕ)) → AreRead places groups words settings.now → IsFoundAs (λ z. value.Bound z) places groups words key result }
{
    match value_of(settings, key) {
        Some(value) => value.bound(),
        None => None,
    }
}

/// Puts a setting behind the others.
pub(crate) fn keep(settings: &mut Vec<Setting>, setting: Setting) -> Result<(), AllocError>
    ensures { OnOk result (settings.new.items ≡ settings.old.items ++ setting ∷ []) }
{
    settings.push(setting)?;
    Ok(())
}

/// The order of a value, where it is one.
fn order_from(from: Value) -> Option<OrderChoice>
    ensures { MatchOption result ((x : TheOrder) → from ≡ value.Order x → ⊥) (λ x. from ≡ value.Order x) }
{
    match from {
        Value::Order(order) => Some(order),
        _ => None,
    }
}

/// The order, where the settings have one.
pub(crate) fn order_in(mut settings: Vec<Setting>) -> Option<OrderChoice>
    ensures { (places groups : ℕ) (words : List (List ℕ)) → AreRead places groups words settings.items → IsFoundAs (λ x. value.Order x) places groups words Key.Order result }
{
    match place_of(settings.as_slice(), Key::Order) {
        Some(place) => order_from(settings.swap_remove(place).value),
        None => None,
    }
}
