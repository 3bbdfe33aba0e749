ghost use Rattle.std.specs.Prelude.{◌≡◌, ◌+◌, ◌*◌, ◌-◌, ◌^◌, ◌<◌, ◌≤◌, ◌↔◌, IsTrue, length, unsigned_abs};
ghost use Rattle.ofit_num.specs.declared.limits.TheConstants.{MOST_UNITS, MOST_WEIGHT};
ghost use Rattle.ofit_num.specs.Fit.{trial_cost};
ghost use Rattle.ofit_num.specs.RowLimits.{AreWithinLimits};
ghost use Rattle.ofit_num.specs.Loss.{median};
ghost use Rattle.ofit_sheet.specs.declared.peaked.limits.TheConstants.{MOST_PEAK_GROUPS};
ghost use Rattle.ofit_sheet.specs.Peaked.{IsShaped};
ghost use Rattle.ofit_sheet.specs.PeakVerdict.{rise_cost, fall_cost, IsReached};
ghost use Rattle.ofit_sheet.specs.Unimodal.{whole_trial};
ghost use Rattle.ofit_study.specs.Study.{IsValid, names_of, problem_stated};
ghost use Rattle.ofit_check.specs.PeakSteps.{distance, side_cost};

use ofit_num::Row;
use ofit_sheet::{Peaked, Side};
use ofit_study::Study;

/// A row's weight times its distance from a value.
fn distance_of(row: &Row, value: i64) -> u128
    requires row { unsigned_abs row.now.value ≤ MOST_UNITS }
    requires weight { row.now.weight ≤ MOST_WEIGHT }
    ensures exact { result ≡ distance value row.now }
    ensures most { result ≤ 2 ^ 64 * row.now.weight }
{
    let apart = (i128::from(row.value) - i128::from(value)).unsigned_abs();
    u128::from(row.weight) * apart
}

/// What rows cost at a value: the sum of their weights times their distances from it.
fn cost_of(rows: &[Row], value: i64) -> u128
    requires { AreWithinLimits rows.now }
    ensures exact { result ≡ median.cost rows.now value 1 }
    ensures most { result ≤ 2 ^ 64 * MOST_WEIGHT }
{
    let mut cost = 0;
    for row in rows {
        cost += distance_of(row, value);
    }
    cost
}

/// What the values cost.
pub(crate) fn cost_of_values(study: &Study, peaked: &Peaked) -> u128
    requires few { length (names_of study.now) ≤ MOST_PEAK_GROUPS }
    requires shaped { IsShaped (length (names_of study.now)) peaked.now }
    ensures { result ≡ trial_cost median (problem_stated study.now) (whole_trial peaked.now.values) }
{
    let mut cost = 0;
    for place in 0..study.group_count() {
        cost += cost_of(study.rows_of(place), peaked.value(place));
    }
    cost
}

/// What a side costs under the median that begins at a place and has so many steps, in units times weights.
pub fn cost_of_side(study: &Study, start: u32, side: &Side, steps: u32) -> u128
    requires valid { IsValid study.now }
    requires few { length (names_of study.now) ≤ MOST_PEAK_GROUPS }
    requires steps { length side.now ≡ steps }
    requires within { start + steps ≤ length (names_of study.now) }
    ensures exact { result ≡ side_cost (problem_stated study.now) start side.now steps }
    ensures most { result ≤ 2 ^ 64 * MOST_WEIGHT * MOST_PEAK_GROUPS }
{
    let mut cost = 0;
    for index in 0..steps {
        let (value, _) = side.step(index);
        cost += cost_of(study.rows_of(start + index), value);
    }
    cost
}

/// What the rise of so many groups costs.
fn cost_of_rise(study: &Study, peaked: &Peaked, length: u32) -> u128
    requires valid { IsValid study.now }
    requires few { Rattle.std.specs.Prelude.length (names_of study.now) ≤ MOST_PEAK_GROUPS }
    requires shaped { IsShaped (Rattle.std.specs.Prelude.length (names_of study.now)) peaked.now }
    requires most { length ≤ Rattle.std.specs.Prelude.length (names_of study.now) }
    ensures exact { result ≡ rise_cost (problem_stated study.now) peaked.now length }
    ensures most { result ≤ 2 ^ 64 * MOST_WEIGHT * MOST_PEAK_GROUPS }
{
    if length == 0 {
        return 0;
    }
    cost_of_side(study, 0, peaked.rise(length), length)
}

/// What the fall from a place on costs.
fn cost_of_fall(study: &Study, peaked: &Peaked, start: u32) -> u128
    requires valid { IsValid study.now }
    requires few { length (names_of study.now) ≤ MOST_PEAK_GROUPS }
    requires shaped { IsShaped (length (names_of study.now)) peaked.now }
    requires most { start ≤ length (names_of study.now) }
    ensures exact { result ≡ fall_cost (problem_stated study.now) peaked.now start }
    ensures most { result ≤ 2 ^ 64 * MOST_WEIGHT * MOST_PEAK_GROUPS }
{
    let groups = study.group_count();
    if start == groups {
        return 0;
    }
    cost_of_side(study, start, peaked.fall(start), groups - start)
}

/// Whether the rise of so many groups and the fall of the others cost together no less than is
/// printed.
pub(crate) fn is_reached(study: &Study, peaked: &Peaked, length: u32) -> bool
    requires valid { IsValid study.now }
    requires few { Rattle.std.specs.Prelude.length (names_of study.now) ≤ MOST_PEAK_GROUPS }
    requires shaped { IsShaped (Rattle.std.specs.Prelude.length (names_of study.now)) peaked.now }
    requires most { length ≤ Rattle.std.specs.Prelude.length (names_of study.now) }
    ensures { IsTrue result ↔ IsReached (problem_stated study.now) peaked.now length }
{
    let least = cost_of_rise(study, peaked, length) + cost_of_fall(study, peaked, length);
    peaked.cost() <= least
}
