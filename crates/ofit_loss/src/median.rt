ghost use Rattle.std.specs.Prelude.{◌≡◌, ◌≤◌, ◌^◌, unsigned_abs, false, refl};
ghost use Rattle.ofit_num.specs.declared.limits.TheConstants.{MOST_UNITS};
ghost use Rattle.ofit_num.specs.Loss.{residual, median, absolute_least, absolute_greatest};
ghost use Rattle.ofit_num.specs.RowLimits.{AreWithinLimits};
ghost use Rattle.ofit_loss.specs.TableLaws.{median-laws};

use crate::loss::Loss;
use crate::number::{plus, scaled};
use crate::quantile::{Factors, QuantilePool};
use ofit_num::{Frac, Row};
use std::alloc::{AllocError, Global};
use std::cmp::Ordering;

/// Rows count the same above and below the median.
const EVEN: Factors = Factors { above: 1, below: 1 };

/// The loss of absolute residuals. Its minimisers are the weighted medians, a closed interval whose
/// ends are row values (Robertson, Wright and Dykstra, 1988, chapter 1); the least one is taken.
///
/// A span takes time linear in the rows. A pool of n rows takes time in n log n, and its least
/// minimiser is read off. However n rows are joined, pool by pool, it takes time in n (log n)^2 where
/// all weigh the same: each row is put into a pool at least twice as large.
pub struct Median;

/// The whole number as a fraction.
fn whole(value: i64) -> Frac
    requires { unsigned_abs value ≤ MOST_UNITS }
    ensures { result ≡ record { num = value; den = 1 } }
{
    Frac::make(i128::from(value), 1).unwrap()
}

/// What the row's value is above the fraction, times its denominator.
fn residual_at(row: &Row, at: &Frac) -> i128
    requires { unsigned_abs row.now.value ≤ MOST_UNITS }
    ensures { result ≡ residual row.now at.now.num at.now.den }
{
    scaled(i128::from(row.value), at.den()) - at.num()
}

/// The span of a row by its residual: its weight where it lies above, less its weight where it lies
/// below, and all between where it lies at the value.
fn ends(weight: u64, residual: i128) -> (i128, i128)
    ensures least { result.0 ≡ absolute_least (record { above = 1; below = 1 }) weight residual }
    ensures greatest { result.1 ≡ absolute_greatest (record { above = 1; below = 1 }) weight residual }
{
    let weight = i128::from(weight);
    match residual.cmp(&0) {
        Ordering::Greater => (weight, weight),
        Ordering::Equal => (-weight, weight),
        Ordering::Less => (-weight, -weight),
    }
}

/// The span of the rows at the fraction.
fn span_at(rows: &[Row], at: &Frac) -> (i128, i128)
    requires { AreWithinLimits rows.now }
    ensures least { result.0 ≡ median.least rows.now at.now.num at.now.den }
    ensures greatest { result.1 ≡ median.greatest rows.now at.now.num at.now.den }
{
    let mut least = 0;
    let mut greatest = 0;
    for row in rows {
        let (row_least, row_greatest) = ends(row.weight, residual_at(row, at));
        least = plus(least, row_least);
        greatest = plus(greatest, row_greatest);
    }
    (least, greatest)
}

impl Loss for Median {
    ghost use Rattle.ofit_loss.specs.Quantile.{IsQuantilePool};

    type Pool = QuantilePool;

    const DEGREE: u32 = 1;

    const STRICT: bool = false;

    ghost DEGREE = { 1 };

    ghost STRICT = { false };

    ghost meaning = { median };

    ghost IsPoolOf = { IsQuantilePool 1 1 };

    fn pool_of(alloc: Global, rows: &[Row]) -> Result<QuantilePool, AllocError> {
        QuantilePool::of(alloc, EVEN, rows)
    }

    fn join(left: QuantilePool, right: QuantilePool) -> Result<QuantilePool, AllocError> {
        left.join(right, EVEN)
    }

    fn least(pool: &QuantilePool) -> Frac {
        whole(pool.least())
    }

    fn span(rows: &[Row], at: &Frac) -> (i128, i128) {
        span_at(rows, at)
    }

    ghost degree_is = { refl };

    ghost laws = { median-laws };
}
