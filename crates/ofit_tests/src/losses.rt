ghost use Rattle.std.specs.Prelude.{◌≡◌, ◌<◌, length, ◌++◌};
ghost use Rattle.ofit_loss.specs.Rows.{AreFittable};

use ofit_loss::{Loss, Median, Squares};
use ofit_num::{Frac, Row};
use std::alloc::{AllocError, Global};
use std::test::Fail;

pub(crate) fn row(value: i64, weight: u64) -> Row
    ensures { result ≡ record { number = 1; value = value; weight = weight } }
{
    Row {
        number: 1,
        value,
        weight,
    }
}

/// The least minimiser of rows that come in two pools, through the bound alone.
fn least_of<L: Loss>(alloc: Global, front: &[Row], back: &[Row]) -> Result<(i128, i128), AllocError>
    requires fittable { AreFittable (front.now ++ back.now) }
    requires some { 0 < length front.now }
{
    let left = L::pool_of(alloc, front)?;
    let right = L::pool_of(alloc, back)?;
    let pool = L::join(left, right)?;
    let least = L::least(&pool);
    Ok((least.num(), least.den()))
}

fn span_of<L: Loss>(rows: &[Row], num: i128, den: i128) -> Option<(i128, i128)>
    requires { AreFittable rows.now }
{
    let at = Frac::make(num, den)?;
    Some(L::span(rows, &at))
}

#[test]
fn pools_are_least_at_their_minimisers(rt: HostRuntime) -> Result<(), Fail> {
    let alloc = rt.alloc();
    let front = [row(7, 1), row(3, 1)];
    let back = [row(-2, 3), row(3, 2), row(9, 2)];
    assert_eq!(rt; least_of::<Median>(alloc, &front, &back)?, (3, 1));
    assert_eq!(rt; least_of::<Squares>(alloc, &front, &back)?, (28, 9));
    Ok(())
}

#[test]
fn spans_open_at_a_row_or_are_one_balance(rt: HostRuntime) {
    let rows = [row(3, 2), row(7, 5)];
    assert_eq!(rt; span_of::<Median>(&rows, 3, 1), Some((3, 7)));
    assert_eq!(rt; span_of::<Squares>(&rows, 13, 2), Some((-9, -9)));
}
