ghost use Rattle.std.specs.Prelude.{◌≡◌, ◌≤◌, ◌<◌, IfOk, length};
ghost use Rattle.ofit_sheet.specs.declared.peaked.limits.TheConstants.{MOST_PEAK_GROUPS};
ghost use Rattle.ofit_num.specs.RowTotals.{all_rows};
ghost use Rattle.ofit_num.specs.Loss.{median};
ghost use Rattle.ofit_num.specs.Pairs.{chain_pairs};
ghost use Rattle.ofit_num.specs.Tight.{tight_among};
ghost use Rattle.ofit_loss.specs.Rows.{AreFittable};
ghost use Rattle.ofit_cert.specs.OpenSpans.{AreOpenSpans, open_span};
ghost use Rattle.ofit_cert.specs.TightFlows.{Certify, TellsOfGroups};
ghost use Rattle.ofit_num.specs.Unbounded.{no_bounds};
ghost use Rattle.ofit_sides.specs.FirstFit.{rows_at, first_chain, IsFirstFit, AreWhole};

use ofit_cut::{Amounts, Balanced, Span, balance_flow};
use ofit_loss::{Loss, Median};
use ofit_num::{Frac, Groups};
use ofit_study::is_tight;
use std::alloc::{AllocError, Global};

/// The neighbours in the chain that have one value.
pub(crate) fn tight_neighbours(
    alloc: Global,
    values: &[Frac],
) -> Result<Vec<(u32, u32)>, AllocError>
    requires { length values.now ≤ MOST_PEAK_GROUPS }
    ensures { IfOk result (λ pairs. pairs.items ≡ tight_among values.now (chain_pairs (length values.now))) }
{
    let mut pairs = Vec::new(alloc);
    let count = values.len() as u32;
    for place in 1..count {
        let pair = (place - 1, place);
        if is_tight(values, pair) {
            pairs.push(pair)?;
        }
    }
    Ok(pairs)
}

/// The balances at which a value is optimal for the rows of the group at a place.
fn span_at(groups: &Groups, place: u32, value: &Frac) -> Span
    requires inside { place < length groups.now }
    requires fittable { AreFittable (all_rows groups.now) }
    ensures { result ≡ open_span median (rows_at groups.now place) (no_bounds place) value.now }
{
    let (least, greatest) = Median::span(groups.rows(place), value);
    Span {
        least: Some(least),
        greatest: Some(greatest),
    }
}

/// The balances at which the first groups' values are optimal for their rows.
fn spans_of(alloc: Global, groups: &Groups, values: &[Frac]) -> Result<Vec<Span>, AllocError>
    requires few { length values.now ≤ MOST_PEAK_GROUPS }
    requires inside { length values.now ≤ length groups.now }
    requires fittable { AreFittable (all_rows groups.now) }
    ensures { IfOk result (λ spans. AreOpenSpans median (first_chain groups.now (length values.now)) values.now spans.items) }
{
    let mut spans = Vec::new(alloc);
    for (place, value) in values.iter().enumerate() {
        spans.push(span_at(groups, place as u32, value))?;
    }
    Ok(spans)
}

/// Flows along the tight neighbours, or a set of groups that shows that there are none.
fn balance_of(
    alloc: Global,
    groups: &Groups,
    values: &[Frac],
    pairs: &[(u32, u32)],
) -> Result<Balanced, AllocError>
    requires few { length values.now ≤ MOST_PEAK_GROUPS }
    requires inside { length values.now ≤ length groups.now }
    requires fittable { AreFittable (all_rows groups.now) }
    requires whole { AreWhole values.now }
    requires tight { pairs.now ≡ tight_among values.now (chain_pairs (length values.now)) }
    ensures { IfOk result (TellsOfGroups median (first_chain groups.now (length values.now)) values.now pairs.now) }
{
    let spans = spans_of(alloc, groups, values)?;
    balance_flow(alloc, pairs, spans.as_slice())
}

/// Amounts along the tight neighbours that certify the values of the chain of the first groups. Best
/// values have such flows (Hoffman 1960), and a chain takes linear time.
pub(crate) fn certifying_amounts(
    alloc: Global,
    groups: &Groups,
    values: &[Frac],
    pairs: &[(u32, u32)],
) -> Result<Amounts, AllocError>
    requires few { length values.now ≤ MOST_PEAK_GROUPS }
    requires fittable { AreFittable (all_rows groups.now) }
    requires fit { IsFirstFit groups.now values.now }
    requires whole { AreWhole values.now }
    requires tight { pairs.now ≡ tight_among values.now (chain_pairs (length values.now)) }
    ensures { IfOk result (Certify median (first_chain groups.now (length values.now)) values.now pairs.now) }
{
    match balance_of(alloc, groups, values, pairs)? {
        Balanced::Flows(amounts) => Ok(amounts),
        Balanced::Above(_) => unreachable!(),
        Balanced::Below(_) => unreachable!(),
    }
}
