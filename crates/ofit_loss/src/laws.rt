ghost use Rattle.std.specs.Prelude.{◌≡◌, ℕ, ◌+◌, ◌<◌, ◌↔◌, true, false, List, length, slice_get, Some, None, ℤ, pos, ◌-ℤ◌, ◌*ℤ◌};
ghost use Rattle.ofit_num.specs.declared.row.Row.{Row};
ghost use Rattle.ofit_num.specs.Problem.{Problem};
ghost use Rattle.ofit_num.specs.Clipped.{HasConstantBounds};
ghost use Rattle.ofit_num.specs.Fraction.{Fraction, SameValue, IsLowest};
ghost use Rattle.ofit_num.specs.Fit.{BestValues};
ghost use Rattle.ofit_num.specs.MaxMin.{MaxMin};
ghost use Rattle.ofit_num.specs.Law.{HasSupport, HasFallingSpans, HasScaling};
ghost use Rattle.ofit_num.specs.Loss.{squares, median};
ghost use Rattle.ofit_num.specs.RowTotals.{total_weight};
ghost use Rattle.ofit_loss.specs.Squares.{weighted_sum};
ghost use Rattle.ofit_loss.specs.Median.{weight_above, weight_at, weight_below};
ghost use Rattle.ofit_loss.specs.Rows.{AreFittable};
ghost use Rattle.ofit_loss.specs.Laws.{HasFittableGroups};
ghost use Rattle.ofit_loss.specs.Entries.{weighted_mean, IsLeastRowValue};
ghost use Rattle.ofit_loss.specs.Least.{IsLeastMinimiser, IsLeastOfCheapest};

use crate::loss::Loss;
use crate::median::Median;
use crate::squares::Squares;

/// Squares and the median mean what the table of losses says.
pub fn losses_mean_the_table()
    ensures squares { ⟦<Squares as Loss>⟧.meaning ≡ squares }
    ensures median { ⟦<Median as Loss>⟧.meaning ≡ median }
{}

/// The span of squares is the weighted sum times q less the weight times p; so the weighted mean is
/// its only 0.
pub fn squares_balance_the_weighted_sum()
    ensures least { (rows : List Row) (p : ℤ) (q : ℕ) → squares.least rows p q ≡ pos q *ℤ weighted_sum rows -ℤ p *ℤ pos (total_weight rows) }
    ensures greatest { (rows : List Row) (p : ℤ) (q : ℕ) → squares.greatest rows p q ≡ squares.least rows p q }
{}

/// The span of the median goes from the weight above less the weights at the value and below it, to
/// the weights above and at the value less the weight below.
pub fn medians_balance_the_weights()
    ensures least { (rows : List Row) (p : ℤ) (q : ℕ) → median.least rows p q ≡ pos (weight_above rows p q) -ℤ pos (weight_below rows p q) -ℤ pos (weight_at rows p q) }
    ensures greatest { (rows : List Row) (p : ℤ) (q : ℕ) → median.greatest rows p q ≡ pos (weight_above rows p q + weight_at rows p q) -ℤ pos (weight_below rows p q) }
{}

/// The laws of a loss hold over each problem whose groups have rows that it takes.
pub fn problems_have_the_laws<L: Loss>()
    ensures support { (s : Problem) → HasFittableGroups s → HasSupport L.meaning s }
    ensures falling { (s : Problem) → HasFittableGroups s → HasFallingSpans L.meaning s }
    ensures scaling { (s : Problem) → HasFittableGroups s → HasScaling L.meaning s }
{}

/// Rows have one least minimiser.
pub fn least_minimiser_is_one<L: Loss>()
    ensures { (rows : List Row) (c b : Fraction) → IsLeastMinimiser L.meaning L.STRICT rows c
        → IsLeastMinimiser L.meaning L.STRICT rows b → SameValue c b }
{}

/// A least minimiser is what its name says: no value costs less, and each smaller one costs more.
pub fn least_minimisers_cost_least<L: Loss>()
    ensures { (rows : List Row) (c : Fraction) → AreFittable rows → IsLeastMinimiser L.meaning L.STRICT rows c
        → IsLeastOfCheapest L.meaning rows c }
{}

/// Under squares the least minimisers are the fractions of the weighted mean's value, of which the one
/// in lowest terms is taken.
pub fn squares_are_least_at_the_weighted_mean()
    ensures { (rows : List Row) (c : Fraction) → AreFittable rows → 0 < length rows → 0 < c.den
        → (IsLeastMinimiser squares true rows c ↔ SameValue c (weighted_mean rows)) }
{}

/// Under the median the least minimiser in lowest terms is the least value of a row such that the rows
/// at most there weigh half of all or more.
pub fn medians_are_least_at_a_row()
    ensures { (rows : List Row) (c : Fraction) → IsLowest c → IsLeastMinimiser median false rows c
        → (c.den ≡ 1) × IsLeastRowValue 1 1 rows c.num }
{}

/// The max-min formula (Robertson, Wright and Dykstra, 1988, chapter 1): without bounds each value of
/// best values under squares is the greatest, over the upper sets that hold its group, of the least,
/// over the lower sets that hold it, of the weighted mean of the groups in both.
pub fn best_squares_are_max_min()
    ensures { (s : Problem) (values : List Fraction) → HasConstantBounds s None None → BestValues squares s values
        → (g : ℕ) (v : Fraction) → slice_get values g ≡ Some v → MaxMin s g v }
{}
