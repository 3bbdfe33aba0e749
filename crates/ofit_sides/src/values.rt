ghost use Rattle.std.specs.Prelude.{◌≡◌, ◌≤◌, All, IfOk, map, unsigned_abs};
ghost use Rattle.ofit_num.specs.declared.limits.TheConstants.{MOST_UNITS};
ghost use Rattle.ofit_sides.specs.Values.{whole_fraction, IsOfRow, IsLeastFit};

use ofit_num::Frac;
use std::alloc::{AllocError, Global};

/// The whole number that a fraction is.
fn whole_value(value: &Frac) -> i64
    requires { IsOfRow value.now }
    ensures same { value.now ≡ whole_fraction result }
    ensures small { unsigned_abs result ≤ MOST_UNITS }
{
    let _den = value.den();
    value.num() as i64
}

/// The values of a least fit under the median as whole numbers, which they are: each is the value of a
/// row.
pub fn whole_values(alloc: Global, values: &[Frac]) -> Result<Vec<i64>, AllocError>
    requires { IsLeastFit values.now }
    ensures whole { IfOk result (λ whole. values.now ≡ map whole_fraction whole.items) }
    ensures small { IfOk result (λ whole. All (λ z. unsigned_abs z ≤ MOST_UNITS) whole.items) }
{
    let mut whole = Vec::new(alloc);
    for value in values {
        whole.push(whole_value(value))?;
    }
    Ok(whole)
}
