ghost use Rattle.std.specs.Prelude.{◌≡◌, ℕ, List, Some, IfOk, length, slice_get};
ghost use Rattle.ofit_study.specs.Study.{names_of};

use ofit_num::Frac;
use ofit_study::Study;
use std::alloc::{AllocError, Global};

/// The value of the group with a name, and another value where there is no such group.
fn value_named(study: &Study, values: &[Frac], name: &[u8], otherwise: Frac) -> Frac
    requires { length values.now ≡ length (names_of study.now) }
    ensures { (p : ℕ) → slice_get (names_of study.now) p ≡ Some name.now → slice_get values.now p ≡ Some result }
{
    match study.place_of(name) {
        Some(place) => values[place as usize],
        None => otherwise,
    }
}

/// A value for each group of a study: that of the group of the same name in an earlier one, and 0 where
/// there is none.
pub(crate) fn carried(
    alloc: Global,
    before: &Study,
    values: &[Frac],
    after: &Study,
) -> Result<Vec<Frac>, AllocError>
    requires { length values.now ≡ length (names_of before.now) }
    ensures count { IfOk result (λ own. length own.items ≡ length (names_of after.now)) }
    ensures same { IfOk result (λ own. (g p : ℕ) (name : List ℕ) → slice_get (names_of after.now) g ≡ Some name
        → slice_get (names_of before.now) p ≡ Some name → slice_get own.items g ≡ slice_get values.now p) }
{
    let Some(zero) = Frac::make(0, 1) else {
        unreachable!();
    };
    let mut own = Vec::new(alloc);
    for place in 0..after.group_count() {
        own.push(value_named(before, values, after.group_name(place), zero))?;
    }
    Ok(own)
}
