//! The number of orderings.

ghost use Rattle.std.specs.Prelude.{◌≡◌, ◌≤◌};
ghost use Rattle.ofit_levels.specs.Factorial.{factorial};

/// k!, which is below 2^128 up to 34.
pub(crate) fn ordering_count(k: u32) -> u128
    requires { k ≤ 34 }
    ensures { result ≡ factorial k }
{
    let mut product = 1;
    for item in 0..k {
        product *= u128::from(item + 1);
    }
    product
}
