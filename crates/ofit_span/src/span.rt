ghost use Rattle.std.specs.Prelude.{◌≡◌, ◌<◌, length};
ghost use Rattle.ofit_num.specs.Fraction.{IsLowest};
ghost use Rattle.ofit_num.specs.Reduced.{InLimits};
ghost use Rattle.ofit_num.specs.Span.{is_at};
ghost use Rattle.ofit_loss.specs.Rows.{AreFittable};
ghost use Rattle.ofit_study.specs.Settings.{IsBoundInLimits};
ghost use Rattle.ofit_study.specs.Study.{names_of, meaning_of};
ghost use Rattle.ofit_span.specs.OpenSpan.{open_end, group_span};

use ofit_loss::{Loss, Median, Squares};
use ofit_num::{Frac, Row};
use ofit_study::{LossKind, Study};

/// The least and the greatest balance at which a value is optimal. `None` is an open end.
#[derive(Clone, Copy, Debug, PartialEq, Eq)]
pub struct OpenSpan {
    pub least: Option<i128>,
    pub greatest: Option<i128>,
}

impl OpenSpan {
    ghost use Rattle.std.specs.Prelude.{◌↔◌, ◌≤ℤ◌, IsTrue, IfSome};
    ghost use Rattle.ofit_span.specs.OpenSpan.{Holds};

    /// Whether the balance is between the ends that stand.
    pub fn holds(&self, balance: i128) -> bool
        ensures { IsTrue result ↔ Holds self.now balance }
    {
        self.is_above_least(balance) && self.is_below_greatest(balance)
    }

    fn is_above_least(&self, balance: i128) -> bool
        ensures { IsTrue result ↔ IfSome self.now.least (λ end. end ≤ℤ balance) }
    {
        match self.least {
            None => true,
            Some(end) => end <= balance,
        }
    }

    fn is_below_greatest(&self, balance: i128) -> bool
        ensures { IsTrue result ↔ IfSome self.now.greatest (λ end. balance ≤ℤ end) }
    {
        match self.greatest {
            None => true,
            Some(end) => balance <= end,
        }
    }
}

/// The least and the greatest balance of rows at a value.
fn ends_of(loss: LossKind, rows: &[Row], value: &Frac) -> (i128, i128)
    requires { AreFittable rows.now }
    ensures least { result.0 ≡ (meaning_of loss).least rows.now value.now.num value.now.den }
    ensures greatest { result.1 ≡ (meaning_of loss).greatest rows.now value.now.num value.now.den }
{
    match loss {
        LossKind::Squares => Squares::span(rows, value),
        LossKind::Median => Median::span(rows, value),
    }
}

/// Whether the value is the bound.
fn is_at_bound(bound: Option<i64>, value: &Frac) -> bool
    requires { IsBoundInLimits bound }
    ensures at { result ≡ is_at bound value.now.num value.now.den }
    ensures lowest { IsLowest value.now }
    ensures limits { InLimits value.now }
{
    let num = value.num();
    let den = value.den();
    match bound {
        None => false,
        Some(bound) => i128::from(bound) * den == num,
    }
}

/// The end of a span, which is open where the value is at the bound.
fn end_at(bound: Option<i64>, value: &Frac, end: i128) -> Option<i128>
    requires { IsBoundInLimits bound }
    ensures end { result ≡ open_end (is_at bound value.now.num value.now.den) end }
    ensures lowest { IsLowest value.now }
    ensures limits { InLimits value.now }
{
    if is_at_bound(bound, value) {
        None
    } else {
        Some(end)
    }
}

/// The span of the group at a place, at a value: the negated subgradient interval of its rows' cost
/// under the study's loss, open where a bound of the group bars the move. Linear in the group's rows.
pub fn span_of(study: &Study, place: u32, value: &Frac) -> OpenSpan
    requires { place < length (names_of study.now) }
    ensures span { result ≡ group_span study.now place value.now }
    ensures lowest { IsLowest value.now }
    ensures limits { InLimits value.now }
{
    study.keeps_limits();
    let (least, greatest) = ends_of(study.settings().loss, study.rows_of(place), value);
    let (lo, hi) = study.bounds_of(place);
    OpenSpan {
        least: end_at(hi, value, least),
        greatest: end_at(lo, value, greatest),
    }
}
