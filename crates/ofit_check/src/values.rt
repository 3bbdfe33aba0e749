ghost use Rattle.std.specs.Prelude.{◌≡◌, ◌↔◌, ◌<◌, ◌≤◌, pos, ◌*ℤ◌, ◌≤ℤ◌, unsigned_abs, IsTrue, IfSome, length};
ghost use Rattle.ofit_num.specs.declared.limits.TheConstants.{MOST_UNITS};
ghost use Rattle.ofit_num.specs.Sheet.{FitsCount, sheet_value};
ghost use Rattle.ofit_num.specs.Verdict.{HasValue, RisesAlong, IsInBounds};
ghost use Rattle.ofit_sheet.specs.Kept.{IsFractionInLimits};
ghost use Rattle.ofit_study.specs.Settings.{IsBoundInLimits};
ghost use Rattle.ofit_study.specs.Study.{names_of, problem_stated};
ghost use Rattle.ofit_check.specs.Check.{IsFirstFailure, IsAtPlace, HasValues};

use ofit_num::Frac;
use ofit_sheet::Sheet;
use ofit_study::Study;

/// Whether the value at index `place` is that of this place.
fn is_at_place(sheet: &Sheet, place: u32) -> bool
    ensures { IsTrue result ↔ IsAtPlace sheet.now place }
{
    place < sheet.value_count() && sheet.value_at(place).0 == place
}

/// The first place without a value.
pub(crate) fn first_missing(sheet: &Sheet, groups: u32) -> Option<u32>
    requires { FitsCount groups sheet.now }
    ensures { IsFirstFailure (HasValue sheet.now) groups result }
{
    for place in 0..groups {
        if !is_at_place(sheet, place) {
            return Some(place);
        }
    }
    None
}

/// The value of the group at a place.
pub(crate) fn value_of(study: &Study, sheet: &Sheet, place: u32) -> Frac
    requires values { HasValues study.now sheet.now }
    requires place { place < length (names_of study.now) }
    ensures value { result ≡ sheet_value sheet.now place }
    ensures fraction { IsFractionInLimits result }
{
    let (_, value) = sheet.value_at(place);
    value
}

/// Whether the value of the pair's low group is at most that of its high one.
fn rises(study: &Study, sheet: &Sheet, index: u32) -> bool
    requires values { HasValues study.now sheet.now }
    requires index { index < length study.now.pairs }
    ensures { IsTrue result ↔ RisesAlong (problem_stated study.now) sheet.now index }
{
    let (low, high) = study.pair_at(index);
    value_of(study, sheet, low)
        .compare(&value_of(study, sheet, high))
        .is_le()
}

/// The first pair that the values break.
pub(crate) fn first_disobedient(study: &Study, sheet: &Sheet) -> Option<u32>
    requires { HasValues study.now sheet.now }
    ensures { IsFirstFailure (RisesAlong (problem_stated study.now) sheet.now) (length study.now.pairs) result }
{
    for index in 0..study.pair_count() {
        if !rises(study, sheet, index) {
            return Some(index);
        }
    }
    None
}

/// A bound times the denominator of a value.
fn bound_over(bound: i64, value: &Frac) -> i128
    requires bound { unsigned_abs bound ≤ MOST_UNITS }
    ensures { result ≡ bound *ℤ pos value.now.den }
{
    i128::from(bound) * value.den()
}

fn is_at_least(value: &Frac, bound: Option<i64>) -> bool
    requires { IsBoundInLimits bound }
    ensures { IsTrue result ↔ IfSome bound (λ lo. (lo *ℤ pos value.now.den) ≤ℤ value.now.num) }
{
    match bound {
        None => true,
        Some(lo) => bound_over(lo, value) <= value.num(),
    }
}

fn is_at_most(value: &Frac, bound: Option<i64>) -> bool
    requires { IsBoundInLimits bound }
    ensures { IsTrue result ↔ IfSome bound (λ hi. value.now.num ≤ℤ (hi *ℤ pos value.now.den)) }
{
    match bound {
        None => true,
        Some(hi) => value.num() <= bound_over(hi, value),
    }
}

/// Whether the value of the group at a place is within its bounds.
fn is_in_bounds(study: &Study, sheet: &Sheet, place: u32) -> bool
    requires values { HasValues study.now sheet.now }
    requires place { place < length (names_of study.now) }
    ensures { IsTrue result ↔ IsInBounds (problem_stated study.now) sheet.now place }
{
    let value = value_of(study, sheet, place);
    let (lo, hi) = study.bounds_of(place);
    is_at_least(&value, lo) && is_at_most(&value, hi)
}

/// The first place whose value is outside a bound.
pub(crate) fn first_out_of_bounds(study: &Study, sheet: &Sheet) -> Option<u32>
    requires { HasValues study.now sheet.now }
    ensures { IsFirstFailure (IsInBounds (problem_stated study.now) sheet.now) (length (names_of study.now)) result }
{
    for place in 0..study.group_count() {
        if !is_in_bounds(study, sheet, place) {
            return Some(place);
        }
    }
    None
}
