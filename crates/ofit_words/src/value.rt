ghost use Rattle.std.specs.Prelude.{◌≤◌, ℕ, ℤ, Some, IfOk, MatchOption};
ghost use Rattle.ofit_study.specs.declared.loss.LossKind.{LossKind as TheLoss};
ghost use Rattle.ofit_words.specs.declared.job.Kind.{Kind as TheKind};
ghost use Rattle.ofit_words.specs.declared.job.OrderChoice.{OrderChoice as TheOrder};
ghost use Rattle.ofit_words.specs.Values.{IsNumberIn, IsListedLoss, IsKind, IsBound, IsOrder};

use crate::compare::{after, is};
use crate::job::{Kind, OrderChoice};
use crate::text::Text;
use ofit_study::{LossKind, Name, Pattern, number_in, read_value};
use std::alloc::{AllocError, Global};

/// The whole number from `low` to `high` that a value spells.
pub(crate) fn number_of(value: &str, low: u32, high: u32) -> Option<u32>
    ensures { MatchOption result ((n : ℕ) → IsNumberIn low high value.now n → ⊥) (λ n. IsNumberIn low high value.now n) }
{
    number_in(value.as_bytes(), low, high)
}

/// The loss of this name.
pub(crate) fn loss_of(value: &str) -> Option<LossKind>
    ensures { MatchOption result ((x : TheLoss) → IsListedLoss value.now x → ⊥) (λ x. IsListedLoss value.now x) }
{
    LossKind::named(value.as_bytes())
}

/// The shape of this name.
pub(crate) fn kind_of(value: &str) -> Option<Kind>
    ensures { MatchOption result ((x : TheKind) → IsKind value.now x → ⊥) (λ x. IsKind value.now x) }
{
    if is(value, "chain") {
        return Some(Kind::Chain);
    }
    if is(value, "umbrella") {
        return Some(Kind::Umbrella);
    }
    if is(value, "tree") {
        return Some(Kind::Tree);
    }
    if is(value, "general") {
        return Some(Kind::General);
    }
    None
}

/// The bound that a value spells, in units of 10^(-places).
pub(crate) fn bound_of(value: &str, places: u32) -> Option<i64>
    requires { places ≤ 6 }
    ensures { MatchOption result ((x : ℤ) → IsBound places value.now (Some x) → ⊥) (λ x. IsBound places value.now (Some x)) }
{
    match read_value(value.as_bytes(), places) {
        Ok(units) => Some(units),
        Err(_) => None,
    }
}

/// The order of this name.
pub(crate) fn order_of(alloc: Global, value: &str) -> Result<Option<OrderChoice>, AllocError>
    ensures { IfOk result (λ made. MatchOption made ((x : TheOrder) → IsOrder value.now x → ⊥) (λ x. IsOrder value.now x)) }
{
    if is(value, "none") {
        return Ok(Some(OrderChoice::Shaped(Pattern::NoPairs)));
    }
    if is(value, "chain") {
        return Ok(Some(OrderChoice::Shaped(Pattern::Chain)));
    }
    if let Some(name) = after(value, "umbrella:") {
        return match Name::make(alloc, name.as_bytes())? {
            Some(peak) => Ok(Some(OrderChoice::Shaped(Pattern::Umbrella(peak)))),
            None => Ok(None),
        };
    }
    if let Some(name) = after(value, "tree:") {
        return match Name::make(alloc, name.as_bytes())? {
            Some(root) => Ok(Some(OrderChoice::Shaped(Pattern::Tree(root)))),
            None => Ok(None),
        };
    }
    match after(value, "file:") {
        Some(file) => {
            if file.is_empty() {
                return Ok(None);
            }
            Ok(Some(OrderChoice::File(Text::copy_of(alloc, file)?)))
        }
        None => Ok(None),
    }
}
