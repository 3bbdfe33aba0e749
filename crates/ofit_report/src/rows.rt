ghost use Rattle.std.specs.Prelude.{◌≡◌, ◌≤◌, ◌<◌, ◌+◌, ◌*◌, ◌^◌, IfOk, length, pos, All, ◌+ℤ◌, ◌*ℤ◌, unsigned_abs};
ghost use Rattle.ofit_num.specs.declared.limits.TheConstants.{MOST_UNITS, MOST_WEIGHT};
ghost use Rattle.ofit_num.specs.RowTotals.{total_weight};
ghost use Rattle.ofit_num.specs.RowLimits.{AreWithinLimits};
ghost use Rattle.ofit_study.specs.Study.{names_of};
ghost use Rattle.ofit_loss.specs.Squares.{weighted_sum};
ghost use Rattle.ofit_report.specs.Cost.{rows_among};
ghost use Rattle.ofit_report.specs.RowSums.{weighted_squares};

use ofit_num::Row;
use ofit_study::Study;
use std::alloc::{AllocError, Global};

/// What squares keep of rows: their total weight, and the sums of their values and of their squared values,
/// each times its weight.
#[derive(Clone, Copy)]
pub(crate) struct Sums {
    pub(crate) weight: u64,
    pub(crate) sum: i128,
    pub(crate) squares: i128,
}

/// A number times a weight.
fn weighted(number: i128, weight: u64) -> i128
    requires number { unsigned_abs number ≤ 10 ^ 18 }
    requires weight { weight ≤ MOST_WEIGHT }
    ensures exact { result ≡ number *ℤ pos weight }
    ensures size { unsigned_abs result ≡ unsigned_abs number * weight }
{
    number * i128::from(weight)
}

/// A row's value times its weight.
fn weighted_value(row: &Row) -> i128
    requires value { unsigned_abs row.now.value ≤ MOST_UNITS }
    requires weight { row.now.weight ≤ MOST_WEIGHT }
    ensures exact { result ≡ row.now.value *ℤ pos row.now.weight }
    ensures size { unsigned_abs result ≤ MOST_UNITS * row.now.weight }
{
    weighted(i128::from(row.value), row.weight)
}

/// A row's squared value times its weight.
fn weighted_square(row: &Row) -> i128
    requires value { unsigned_abs row.now.value ≤ MOST_UNITS }
    requires weight { row.now.weight ≤ MOST_WEIGHT }
    ensures exact { result ≡ (row.now.value *ℤ row.now.value) *ℤ pos row.now.weight }
    ensures size { unsigned_abs result ≤ 10 ^ 18 * row.now.weight }
{
    weighted(square(i128::from(row.value)), row.weight)
}

/// The sum of two numbers.
pub(crate) fn plus(left: i128, right: i128) -> i128
    requires left { unsigned_abs left ≤ 4 * 10 ^ 37 }
    requires right { unsigned_abs right ≤ 4 * 10 ^ 37 }
    ensures exact { result ≡ left +ℤ right }
    ensures size { unsigned_abs result ≤ unsigned_abs left + unsigned_abs right }
    ensures most { unsigned_abs result ≤ 8 * 10 ^ 37 }
{
    left + right
}

/// The square of a number.
pub(crate) fn square(number: i128) -> i128
    requires { unsigned_abs number ≤ MOST_UNITS }
    ensures exact { result ≡ number *ℤ number }
    ensures size { unsigned_abs result ≤ 10 ^ 18 }
{
    number * number
}

/// The total weight of rows.
pub(crate) fn weight_of(rows: &[Row]) -> u64
    requires { total_weight rows.now ≤ MOST_WEIGHT }
    ensures { result ≡ total_weight rows.now }
{
    rows.iter().map(|row| row.weight).sum()
}

/// The sums of rows, in one pass.
pub(crate) fn sums_of(rows: &[Row]) -> Sums
    requires { AreWithinLimits rows.now }
    ensures weight { result.weight ≡ total_weight rows.now }
    ensures sum { result.sum ≡ weighted_sum rows.now }
    ensures squares { result.squares ≡ weighted_squares rows.now }
    ensures most_weight { result.weight ≤ MOST_WEIGHT }
    ensures most_sum { unsigned_abs result.sum ≤ 10 ^ 19 }
    ensures most_squares { unsigned_abs result.squares ≤ 10 ^ 28 }
{
    let mut weight = 0;
    let mut sum = 0;
    let mut squares = 0;
    for row in rows {
        weight += row.weight;
        sum = plus(sum, weighted_value(row));
        squares = plus(squares, weighted_square(row));
    }
    Sums {
        weight,
        sum,
        squares,
    }
}

/// The rows of the groups at these places, one group after another.
pub(crate) fn rows_of(alloc: Global, study: &Study, members: &[u32]) -> Result<Vec<Row>, AllocError>
    requires { All (λ g. g < length (names_of study.now)) members.now }
    ensures { IfOk result (λ rows. rows.items ≡ rows_among study.now members.now) }
{
    let mut rows = Vec::new(alloc);
    for place in members {
        rows.extend_from_slice(study.rows_of(*place))?;
    }
    Ok(rows)
}
