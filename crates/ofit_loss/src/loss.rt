ghost use Rattle.std.specs.Prelude.{◌≡◌, ℕ, ◌<◌, ◌≤◌, ◌*◌, ◌^◌, Bool, List, length, ◌++◌, IfOk};
ghost use Rattle.ofit_num.specs.declared.row.Row.{Row};
ghost use Rattle.ofit_num.specs.Meaning.{Meaning};
ghost use Rattle.ofit_num.specs.Fraction.{IsLowest};
ghost use Rattle.ofit_loss.specs.Rows.{AreFittable};
ghost use Rattle.ofit_loss.specs.Laws.{HasLossLaws};
ghost use Rattle.ofit_loss.specs.Pool.{IsFilled, CanJoin};
ghost use Rattle.ofit_loss.specs.Least.{IsLeastMinimiser, balance_sizes};

use ofit_num::{Frac, Row};
use std::alloc::{AllocError, Global};

/// A convex loss: what rows cost at a value. Values are in the rows' units, balances in weights for
/// degree 1 and in units times weights for degree 2; at a fraction p/q every number is over q to the
/// power that makes it whole.
///
/// The span of rows at a value is the negated subgradient interval of their cost, halved for degree
/// 2: a balance in it makes the value optimal for rows that are pulled by that balance. The laws that
/// fits rest on (support, spans that fall as the value rises, sums, scaling, strictness) are those of
/// any convex loss (Robertson, Wright and Dykstra, Order Restricted Statistical Inference, 1988).
///
/// A row is plain where its number is at most 4294967293. The two greater numbers are kept for rows
/// that are no observations; a loss takes at most 4,000 of them.
pub trait Loss {
    /// What is kept of rows that share one value.
    type Pool: Drop;

    /// The power of the residuals, 1 or 2.
    const DEGREE: u32;

    /// Whether the cost of rows, of which at least one is plain, has one minimiser.
    const STRICT: bool;

    ghost DEGREE: { ℕ };

    ghost STRICT: { Bool };

    /// The cost and the span of rows.
    ghost meaning: { Meaning };

    /// The pool is the pool of these rows. It may be that of the same rows in another order too.
    ghost IsPoolOf: { Self.Pool → List Row → Type 0 };

    /// The pool of the rows.
    fn pool_of(alloc: Global, rows: &[Row]) -> Result<Self::Pool, AllocError>
        requires { AreFittable rows.now }
        ensures { IfOk result (λ pool. IsPoolOf pool rows.now) };

    /// The pool of the rows of both pools, those of the left one first. After want of memory both
    /// are gone.
    fn join(left: Self::Pool, right: Self::Pool) -> Result<Self::Pool, AllocError>
        requires { CanJoin IsPoolOf left right }
        ensures { (xs ys : List Row) → IsPoolOf left xs → IsPoolOf right ys → IfOk result (λ pool. IsPoolOf pool (xs ++ ys)) };

    /// The least value at which the pool's rows cost least. It takes no memory.
    fn least(pool: &Self::Pool) -> Frac
        requires { IsFilled IsPoolOf pool.now }
        ensures minimiser { (rows : List Row) → IsPoolOf pool.now rows → AreFittable rows → 0 < length rows
            → IsLeastMinimiser meaning STRICT rows result }
        ensures balances { (rows : List Row) → IsPoolOf pool.now rows → AreFittable rows → 0 < length rows
            → balance_sizes meaning rows result ≤ 2 * 10 ^ 33 }
        ensures lowest { IsLowest result };

    /// The span of the rows at a value, its least and its greatest balance. It takes no memory.
    fn span(rows: &[Row], at: &Frac) -> (i128, i128)
        requires { AreFittable rows.now }
        ensures least { result.0 ≡ meaning.least rows.now at.now.num at.now.den }
        ensures greatest { result.1 ≡ meaning.greatest rows.now at.now.num at.now.den };

    /// The meaning is of the loss's degree.
    ghost degree_is: { meaning.degree ≡ DEGREE };

    /// The meaning has the laws of a loss.
    ghost laws: { HasLossLaws meaning STRICT };
}
