ghost use Rattle.std.specs.Prelude.{◌≡◌, ◌≤◌, ◌<◌, ◌+◌, ◌*◌, ◌^◌, ℤ, pos, ◌*ℤ◌, ◌-ℤ◌, unsigned_abs, true, refl};
ghost use Rattle.ofit_num.specs.declared.limits.TheConstants.{MOST_UNITS, MOST_WEIGHT};
ghost use Rattle.ofit_num.specs.Loss.{squares};
ghost use Rattle.ofit_num.specs.RowTotals.{total_weight};
ghost use Rattle.ofit_num.specs.RowLimits.{AreWithinLimits};
ghost use Rattle.ofit_loss.specs.Squares.{weighted_sum};
ghost use Rattle.ofit_loss.specs.TableLaws.{squares-laws};

use crate::loss::Loss;
use crate::number::{plus, scaled};
use ofit_num::{Frac, Row};
use std::alloc::{AllocError, Global};

/// The loss of squared residuals. Its least minimiser is the weighted mean (Robertson, Wright and
/// Dykstra, 1988, chapter 1), and its span is one balance.
///
/// A pool and a span take time linear in the rows; pools are joined in constant time.
pub struct Squares;

/// What squares keep of rows: their weighted sum, in units times weights, and their total weight.
#[derive(Clone, Copy)]
pub struct SquaresPool {
    sum: i128,
    weight: u64,
}

/// A row's value times its weight.
fn weighted(row: &Row) -> i128
    requires value { unsigned_abs row.now.value ≤ MOST_UNITS }
    requires weight { row.now.weight ≤ MOST_WEIGHT }
    ensures exact { result ≡ row.now.value *ℤ pos row.now.weight }
    ensures size { unsigned_abs result ≤ MOST_UNITS * row.now.weight }
{
    scaled(i128::from(row.value), i128::from(row.weight))
}

/// The weighted sum and the total weight of the rows.
fn totals(rows: &[Row]) -> SquaresPool
    requires { AreWithinLimits rows.now }
    ensures sum { result.sum ≡ weighted_sum rows.now }
    ensures weight { result.weight ≡ total_weight rows.now }
    ensures size { unsigned_abs result.sum ≤ MOST_UNITS * result.weight }
    ensures within { result.weight ≤ MOST_WEIGHT }
{
    let mut sum = 0;
    let mut weight = 0;
    for row in rows {
        sum = plus(sum, weighted(row));
        weight += row.weight;
    }
    SquaresPool { sum, weight }
}

/// The balance of the rows at the value: the weighted sum times its denominator, less the weight
/// times its numerator.
fn balance_at(all: SquaresPool, at: &Frac) -> i128
    requires sum { unsigned_abs all.sum ≤ 10 ^ 19 }
    requires weight { all.weight ≤ MOST_WEIGHT }
    ensures { result ≡ all.sum *ℤ pos at.now.den -ℤ at.now.num *ℤ pos all.weight }
{
    scaled(all.sum, at.den()) - scaled(at.num(), i128::from(all.weight))
}

impl Loss for Squares {
    type Pool = SquaresPool;

    const DEGREE: u32 = 2;

    const STRICT: bool = true;

    ghost DEGREE = { 2 };

    ghost STRICT = { true };

    ghost meaning = { squares };

    ghost IsPoolOf = { λ pool rows. (pool.sum ≡ weighted_sum rows) × (pool.weight ≡ total_weight rows) };

    fn pool_of(_alloc: Global, rows: &[Row]) -> Result<SquaresPool, AllocError> {
        Ok(totals(rows))
    }

    fn join(left: SquaresPool, right: SquaresPool) -> Result<SquaresPool, AllocError> {
        Ok(SquaresPool {
            sum: plus(left.sum, right.sum),
            weight: left.weight + right.weight,
        })
    }

    fn least(pool: &SquaresPool) -> Frac {
        Frac::make(pool.sum, i128::from(pool.weight)).unwrap()
    }

    fn span(rows: &[Row], at: &Frac) -> (i128, i128) {
        let balance = balance_at(totals(rows), at);
        (balance, balance)
    }

    ghost degree_is = { refl };

    ghost laws = { squares-laws };
}
