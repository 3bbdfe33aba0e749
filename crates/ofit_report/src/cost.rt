ghost use Rattle.std.specs.Prelude.{◌≡◌, ◌≤◌, ◌<◌, ◌+◌, ◌*◌, ◌^◌, ℤ, MatchBool, length, pos, ◌≤ℤ◌, ◌+ℤ◌, ◌-ℤ◌, ◌*ℤ◌, unsigned_abs};
ghost use Rattle.ofit_num.specs.declared.limits.TheConstants.{MOST_UNITS, MOST_WEIGHT};
ghost use Rattle.ofit_num.specs.RowLimits.{AreWithinLimits};
ghost use Rattle.ofit_num.specs.Loss.{residual, squares, median};
ghost use Rattle.ofit_num.specs.Reduced.{Reduces};
ghost use Rattle.ofit_study.specs.declared.loss.LossKind.TheVariants.{Squares};
ghost use Rattle.ofit_study.specs.Study.{meaning_of};
ghost use Rattle.ofit_report.specs.BlockMeans.{IsMeanOrWhole};
ghost use Rattle.ofit_report.specs.Cost.{IsCost};
ghost use Rattle.ofit_report.specs.RowSums.{distance};

use crate::rows::{Sums, plus, square, sums_of};
use ofit_num::{Frac, Row, lowest};
use ofit_study::LossKind;

/// A product of at most 10^38 in absolute value.
fn product(left: i128, right: i128) -> i128
    requires { unsigned_abs left * unsigned_abs right ≤ 10 ^ 38 }
    ensures exact { result ≡ left *ℤ right }
    ensures size { unsigned_abs result ≡ unsigned_abs left * unsigned_abs right }
    ensures most { unsigned_abs result ≤ 10 ^ 38 }
{
    left * right
}

/// A product of at most 10^37 in absolute value.
fn term(left: i128, right: i128) -> i128
    requires left { unsigned_abs left ≤ 10 ^ 18 }
    requires right { unsigned_abs right ≤ 10 ^ 19 }
    ensures exact { result ≡ left *ℤ right }
    ensures size { unsigned_abs result ≤ 10 ^ 37 }
{
    left * right
}

/// The difference of two numbers.
fn minus(left: i128, right: i128) -> i128
    requires left { unsigned_abs left ≤ 4 * 10 ^ 37 }
    requires right { unsigned_abs right ≤ 4 * 10 ^ 37 }
    ensures exact { result ≡ left -ℤ right }
    ensures size { unsigned_abs result ≤ unsigned_abs left + unsigned_abs right }
    ensures most { unsigned_abs result ≤ 8 * 10 ^ 37 }
{
    left - right
}

/// The cost over the total weight W at the weighted mean: (QW - SS)/W with S the sum of the values and Q
/// that of their squares.
fn cost_at_mean(all: Sums) -> (i128, i128)
    requires least_weight { 1 ≤ all.weight }
    requires most_weight { all.weight ≤ MOST_WEIGHT }
    requires most_sum { unsigned_abs all.sum ≤ 10 ^ 19 }
    requires most_squares { unsigned_abs all.squares ≤ 10 ^ 28 }
    requires spread { (all.sum *ℤ all.sum) ≤ℤ (all.squares *ℤ pos all.weight) }
    ensures reduced { Reduces (all.squares *ℤ pos all.weight -ℤ all.sum *ℤ all.sum) (pos all.weight) (record { num = result.0; den = unsigned_abs result.1 }) }
    ensures den { pos 1 ≤ℤ result.1 }
{
    let weight = i128::from(all.weight);
    let whole = product(all.squares, weight);
    let part = product(all.sum, all.sum);
    lowest(whole - part, weight)
}

/// The cost at a whole value v: Q - 2vS + vvW.
fn cost_at_whole(all: Sums, value: i128) -> (i128, i128)
    requires value { unsigned_abs value ≤ MOST_UNITS }
    requires most_weight { all.weight ≤ MOST_WEIGHT }
    requires most_sum { unsigned_abs all.sum ≤ 10 ^ 19 }
    requires most_squares { unsigned_abs all.squares ≤ 10 ^ 28 }
    requires cost { pos 0 ≤ℤ ((all.squares -ℤ pos 2 *ℤ (value *ℤ all.sum)) +ℤ (value *ℤ value) *ℤ pos all.weight) }
    ensures reduced { Reduces ((all.squares -ℤ pos 2 *ℤ (value *ℤ all.sum)) +ℤ (value *ℤ value) *ℤ pos all.weight) (pos 1) (record { num = result.0; den = unsigned_abs result.1 }) }
    ensures den { pos 1 ≤ℤ result.1 }
{
    let cross = term(value, all.sum);
    let last = term(square(value), i128::from(all.weight));
    lowest(plus(minus(minus(all.squares, cross), cross), last), 1)
}

/// Whether a value is the weighted mean of rows with these sums.
fn is_mean(all: Sums, value: &Frac) -> bool
    requires most_weight { all.weight ≤ MOST_WEIGHT }
    requires most_sum { unsigned_abs all.sum ≤ 10 ^ 19 }
    ensures mean { MatchBool result (value.now.num *ℤ pos all.weight ≡ all.sum *ℤ pos value.now.den) (value.now.num *ℤ pos all.weight ≡ all.sum *ℤ pos value.now.den → ⊥) }
    ensures den { 0 < value.now.den }
{
    product(value.num(), i128::from(all.weight)) == product(all.sum, value.den())
}

/// What rows cost under squares at their weighted mean, or at a whole value.
fn squared_cost(rows: &[Row], value: &Frac) -> (i128, i128)
    requires limits { AreWithinLimits rows.now }
    requires some { 0 < length rows.now }
    requires value { IsMeanOrWhole rows.now value.now }
    ensures cost { IsCost squares rows.now value.now (record { num = result.0; den = unsigned_abs result.1 }) }
    ensures den { pos 1 ≤ℤ result.1 }
{
    let all = sums_of(rows);
    if is_mean(all, value) {
        cost_at_mean(all)
    } else {
        cost_at_whole(all, value.num())
    }
}

/// What a row's value is above n/d, times d.
fn residual_of(row: &Row, value: &Frac) -> i128
    requires { unsigned_abs row.now.value ≤ MOST_UNITS }
    ensures exact { result ≡ residual row.now value.now.num value.now.den }
    ensures size { unsigned_abs result ≤ 2 * 10 ^ 21 }
{
    product(value.den(), i128::from(row.value)) - value.num()
}

/// A row's weight times its distance from the value, over the value's denominator.
fn distance_of(row: &Row, value: &Frac) -> i128
    requires row { unsigned_abs row.now.value ≤ MOST_UNITS }
    requires weight { row.now.weight ≤ MOST_WEIGHT }
    ensures exact { result ≡ pos (distance row.now value.now) }
    ensures size { distance row.now value.now ≤ 2 * 10 ^ 21 * row.now.weight }
{
    product(residual_of(row, value).abs(), i128::from(row.weight))
}

/// What rows cost under absolute differences at n/d, over d.
fn absolute_cost(rows: &[Row], value: &Frac) -> (i128, i128)
    requires limits { AreWithinLimits rows.now }
    ensures cost { IsCost median rows.now value.now (record { num = result.0; den = unsigned_abs result.1 }) }
    ensures den { pos 1 ≤ℤ result.1 }
{
    let mut cost = 0;
    for row in rows {
        cost = plus(cost, distance_of(row, value));
    }
    lowest(cost, value.den())
}

/// What rows cost at a value, in lowest terms. Under squares the value is the mean of the rows or a whole
/// number, so that no product passes 10^38.
pub(crate) fn cost_of(loss: LossKind, rows: &[Row], value: &Frac) -> (i128, i128)
    requires limits { AreWithinLimits rows.now }
    requires some { 0 < length rows.now }
    requires value { loss ≡ Squares → IsMeanOrWhole rows.now value.now }
    ensures cost { IsCost (meaning_of loss) rows.now value.now (record { num = result.0; den = unsigned_abs result.1 }) }
    ensures den { pos 1 ≤ℤ result.1 }
{
    match loss {
        LossKind::Squares => squared_cost(rows, value),
        LossKind::Median => absolute_cost(rows, value),
    }
}
