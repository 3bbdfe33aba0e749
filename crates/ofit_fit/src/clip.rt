ghost use Rattle.std.specs.Prelude.{◌≡◌, ◌≤◌, ◌*ℤ◌, pos, unsigned_abs, length, IfOk};
ghost use Rattle.ofit_num.specs.declared.limits.TheConstants.{MOST_UNITS};
ghost use Rattle.ofit_num.specs.Clipped.{whole, clip_low, clip_high, AreClipped};
ghost use Rattle.ofit_study.specs.Settings.{IsBoundInLimits};
ghost use Rattle.ofit_study.specs.Study.{problem_stated};
ghost use Rattle.ofit_fit.specs.Part.{part_of};

use ofit_num::Frac;
use ofit_study::Study;
use std::alloc::{AllocError, Global};

/// A bound as a value.
fn value_of(bound: i64) -> Frac
    requires { unsigned_abs bound ≤ MOST_UNITS }
    ensures { result ≡ whole bound }
{
    Frac::make(i128::from(bound), 1).unwrap()
}

/// A bound times the denominator of a value.
fn bound_over(bound: i64, value: &Frac) -> i128
    requires { unsigned_abs bound ≤ MOST_UNITS }
    ensures { result ≡ bound *ℤ pos value.now.den }
{
    i128::from(bound) * value.den()
}

/// The value, or the lower bound where the value is below it.
fn raised(value: Frac, lo: Option<i64>) -> Frac
    requires { IsBoundInLimits lo }
    ensures { result ≡ clip_low lo value }
{
    match lo {
        Some(lo) if value.num() < bound_over(lo, &value) => value_of(lo),
        _ => value,
    }
}

/// The value, or the upper bound where the value is above it.
fn lowered(value: Frac, hi: Option<i64>) -> Frac
    requires { IsBoundInLimits hi }
    ensures { result ≡ clip_high hi value }
{
    match hi {
        Some(hi) if bound_over(hi, &value) < value.num() => value_of(hi),
        _ => value,
    }
}

/// The values of the members, each cut off at its group's bounds.
pub(crate) fn values_within(
    alloc: Global,
    study: &Study,
    members: &[u32],
    values: &[Frac],
) -> Result<Vec<Frac>, AllocError>
    requires { length values.now ≡ length members.now }
    ensures { IfOk result (λ within. AreClipped (part_of (problem_stated study.now) members.now) values.now within.items) }
{
    let mut within = Vec::new(alloc);
    for (position, member) in members.iter().enumerate() {
        let (lo, hi) = study.bounds_of(*member);
        within.push(lowered(raised(values[position], lo), hi))?;
    }
    Ok(within)
}
