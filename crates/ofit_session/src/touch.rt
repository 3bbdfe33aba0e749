ghost use Rattle.std.specs.Prelude.{◌≡◌, ◌≤◌, ◌↔◌, ◌⊎◌, [], ◌∷◌, ℕ, Some, IfOk, vec_len};
ghost use Rattle.std.specs.List.{Contains};
ghost use Rattle.std.specs.List.Sorted.{IsStrictlyIncreasing};
ghost use Rattle.ofit_fit.specs.OrderOf.{IsOrderOf};
ghost use Rattle.ofit_study.specs.Edited.{groups_numbered, touched};
ghost use Rattle.ofit_study.specs.Study.{problem_stated};
ghost use Rattle.ofit_session.specs.Refit.{AreHolding, HasNamed, HasOneNamed};

use ofit_order::Order;
use ofit_study::{Edit, Study};
use std::alloc::{AllocError, Global};

/// The component of the group with a name.
fn component_named(order: &Order, study: &Study, name: &[u8]) -> Option<u32>
    requires { IsOrderOf order.now (problem_stated study.now) }
    ensures { (k : ℕ) → HasNamed order.now study.now name.now k ↔ (result ≡ Some k) }
{
    match study.place_of(name) {
        Some(place) => Some(order.component_of(place)),
        None => None,
    }
}

/// The component of the group of the row of a number, where there was such a row.
fn row_touched(
    order: &Order,
    before: &Study,
    number: u32,
    after: &Study,
) -> (Option<u32>, Option<u32>)
    requires { IsOrderOf order.now (problem_stated after.now) }
    ensures { (k : ℕ) → HasOneNamed order.now after.now (groups_numbered before.now number) k ↔ ((result.0 ≡ Some k) ⊎ (result.1 ≡ Some k)) }
{
    match before.group_of(number) {
        Some(name) => (component_named(order, after, name), None),
        None => (None, None),
    }
}

/// The components of two groups.
fn ends_touched(order: &Order, low: &[u8], high: &[u8], after: &Study) -> (Option<u32>, Option<u32>)
    requires { IsOrderOf order.now (problem_stated after.now) }
    ensures { (k : ℕ) → HasOneNamed order.now after.now (low.now ∷ high.now ∷ []) k ↔ ((result.0 ≡ Some k) ⊎ (result.1 ≡ Some k)) }
{
    (
        component_named(order, after, low),
        component_named(order, after, high),
    )
}

/// The components of the groups that an edit touches, of which there are at most two.
fn both_touched(
    order: &Order,
    before: &Study,
    edit: &Edit,
    after: &Study,
) -> (Option<u32>, Option<u32>)
    requires { IsOrderOf order.now (problem_stated after.now) }
    ensures { (k : ℕ) → HasOneNamed order.now after.now (touched before.now edit.now) k ↔ ((result.0 ≡ Some k) ⊎ (result.1 ≡ Some k)) }
{
    match edit {
        Edit::Add { group, .. } => (component_named(order, after, group.bytes()), None),
        Edit::Remove { number } => row_touched(order, before, *number, after),
        Edit::Value { number, .. } => row_touched(order, before, *number, after),
        Edit::Weight { number, .. } => row_touched(order, before, *number, after),
        Edit::Relate { low, high } => ends_touched(order, low.bytes(), high.bytes(), after),
        Edit::Unrelate { low, high } => ends_touched(order, low.bytes(), high.bytes(), after),
    }
}

/// One or two numbers, or none, in rising order.
fn rising(alloc: Global, first: Option<u32>, second: Option<u32>) -> Result<Vec<u32>, AllocError>
    ensures rising { IfOk result (λ list. IsStrictlyIncreasing list.items) }
    ensures few { IfOk result (λ list. vec_len list ≤ 2) }
    ensures exact { IfOk result (λ list. (k : ℕ) → Contains list.items k ↔ ((first ≡ Some k) ⊎ (second ≡ Some k))) }
{
    match (first, second) {
        (Some(a), Some(b)) if a < b => Vec::from_slice(alloc, &[a, b]),
        (Some(a), Some(b)) if b < a => Vec::from_slice(alloc, &[b, a]),
        (Some(a), _) => Vec::from_slice(alloc, &[a]),
        (None, Some(b)) => Vec::from_slice(alloc, &[b]),
        (None, None) => Ok(Vec::new(alloc)),
    }
}

/// The components of the edited study that hold a group that the edit touches, by rising number.
pub(crate) fn touched_components(
    alloc: Global,
    order: &Order,
    before: &Study,
    edit: &Edit,
    after: &Study,
) -> Result<Vec<u32>, AllocError>
    requires { IsOrderOf order.now (problem_stated after.now) }
    ensures few { IfOk result (λ components. vec_len components ≤ 2) }
    ensures holding { IfOk result (λ components. AreHolding order.now after.now (touched before.now edit.now) components.items) }
{
    let (first, second) = both_touched(order, before, edit, after);
    rising(alloc, first, second)
}
