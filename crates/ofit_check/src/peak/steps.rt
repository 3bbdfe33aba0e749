ghost use Rattle.std.specs.Prelude.{◌≡◌, ◌↔◌, ◌+◌, ◌<◌, ◌≤◌, All, IsTrue, length, pos, ◌≤ℤ◌, ◌-ℤ◌};
ghost use Rattle.ofit_sheet.specs.declared.peaked.limits.TheConstants.{MOST_PEAK_GROUPS};
ghost use Rattle.ofit_sheet.specs.PeakVerdict.{value_at, amount_at, amount_before, IsInSpan, JoinsEqual};
ghost use Rattle.ofit_loss.specs.Rows.{AreFittable};
ghost use Rattle.ofit_study.specs.Study.{names_of, problem_stated};
ghost use Rattle.ofit_check.specs.Check.{IsFirstFailure};
ghost use Rattle.ofit_check.specs.PeakSteps.{KeepsOrder, IsStep, step_balance};

use crate::peak::slope::Slope;
use ofit_loss::{Loss, Median};
use ofit_num::{Frac, Row};
use ofit_sheet::Side;
use ofit_study::Study;

/// Whether the step is in order with the next one.
fn keeps_order(slope: Slope, side: &Side, steps: u32, index: u32) -> bool
    requires steps { length side.now ≡ steps }
    requires index { index < steps }
    ensures { IsTrue result ↔ KeepsOrder slope side.now index }
{
    if index + 1 == steps {
        return true;
    }
    slope.is_in_order(side.step(index).0, side.step(index + 1).0)
}

/// Whether an amount above 0 joins equal values.
fn joins_equal(side: &Side, steps: u32, index: u32) -> bool
    requires steps { length side.now ≡ steps }
    requires index { index < steps }
    ensures { IsTrue result ↔ JoinsEqual side.now index }
{
    if index + 1 == steps {
        return true;
    }
    let (value, amount) = side.step(index);
    amount <= 0 || value == side.step(index + 1).0
}

/// The amount of a step.
fn amount_of(side: &Side, index: u32) -> i128
    requires index { index < length side.now }
    requires amounts { All (λ step. pos 0 ≤ℤ step.1) side.now }
    ensures exact { result ≡ amount_at side.now index }
    ensures least { pos 0 ≤ℤ result }
{
    side.step(index).1
}

/// The amount of the step before, 0 before the first.
fn amount_behind(side: &Side, index: u32) -> i128
    requires index { index < length side.now }
    requires amounts { All (λ step. pos 0 ≤ℤ step.1) side.now }
    ensures exact { result ≡ amount_before side.now index }
    ensures least { pos 0 ≤ℤ result }
{
    if index == 0 {
        return 0;
    }
    amount_of(side, index - 1)
}

/// One amount less another.
fn less(amount: i128, other: i128) -> i128
    requires amount { pos 0 ≤ℤ amount }
    requires other { pos 0 ≤ℤ other }
    ensures { result ≡ amount -ℤ other }
{
    amount - other
}

/// What flows out of the step's group less what flows into it.
fn balance_of(slope: Slope, side: &Side, index: u32) -> i128
    requires index { index < length side.now }
    requires amounts { All (λ step. pos 0 ≤ℤ step.1) side.now }
    ensures { result ≡ step_balance slope side.now index }
{
    let amount = amount_of(side, index);
    let before = amount_behind(side, index);
    match slope {
        Slope::Rise => less(amount, before),
        Slope::Fall => less(before, amount),
    }
}

/// The whole number as a fraction.
fn whole(value: i64) -> Frac
    ensures { result ≡ record { num = value; den = 1 } }
{
    match Frac::make(i128::from(value), 1) {
        Some(fraction) => fraction,
        None => unreachable!(),
    }
}

/// Whether a balance is in the median's span of the rows at a value.
fn is_in_span(rows: &[Row], value: i64, balance: i128) -> bool
    requires { AreFittable rows.now }
    ensures { IsTrue result ↔ IsInSpan rows.now value balance }
{
    let (least, greatest) = Median::span(rows, &whole(value));
    least <= balance && balance <= greatest
}

/// Whether the balance of the step of the group at a place is in the group's span.
fn is_balanced(study: &Study, slope: Slope, place: u32, side: &Side, index: u32) -> bool
    requires place { place < length (names_of study.now) }
    requires index { index < length side.now }
    requires amounts { All (λ step. pos 0 ≤ℤ step.1) side.now }
    ensures { IsTrue result ↔ IsInSpan ((problem_stated study.now).rows place) (value_at side.now index) (step_balance slope side.now index) }
{
    study.keeps_limits();
    let (value, _) = side.step(index);
    is_in_span(study.rows_of(place), value, balance_of(slope, side, index))
}

/// Whether the step of the group at a place keeps the rules of a side.
fn keeps_rules(study: &Study, slope: Slope, place: u32, side: &Side, steps: u32, index: u32) -> bool
    requires place { place < length (names_of study.now) }
    requires steps { length side.now ≡ steps }
    requires index { index < steps }
    requires amounts { All (λ step. pos 0 ≤ℤ step.1) side.now }
    ensures { IsTrue result ↔ IsStep slope ((problem_stated study.now).rows place) side.now index }
{
    if !keeps_order(slope, side, steps, index) {
        return false;
    }
    if !joins_equal(side, steps, index) {
        return false;
    }
    is_balanced(study, slope, place, side, index)
}

/// The first step that breaks a rule, of a side that begins at a place and has so many steps.
pub(crate) fn first_broken(
    study: &Study,
    slope: Slope,
    start: u32,
    side: &Side,
    steps: u32,
) -> Option<u32>
    requires few { length (names_of study.now) ≤ MOST_PEAK_GROUPS }
    requires steps { length side.now ≡ steps }
    requires amounts { All (λ step. pos 0 ≤ℤ step.1) side.now }
    requires within { start + steps ≤ length (names_of study.now) }
    ensures { IsFirstFailure (λ j. IsStep slope ((problem_stated study.now).rows (start + j)) side.now j) steps result }
{
    for index in 0..steps {
        if !keeps_rules(study, slope, start + index, side, steps, index) {
            return Some(index);
        }
    }
    None
}
