ghost use Rattle.std.specs.Prelude.{◌≡◌, ◌≤◌, Some, IfOk, IsSome, length, vec_len, All};
ghost use Rattle.ofit_num.specs.declared.limits.TheConstants.{MOST_GROUPS, MOST_PAIRS};
ghost use Rattle.ofit_num.specs.Fit.{BestValues};
ghost use Rattle.ofit_num.specs.Sheet.{FitsCount, sheet_values};
ghost use Rattle.ofit_num.specs.Verdict.{Passes};
ghost use Rattle.ofit_sheet.specs.Kept.{IsFractionInLimits};
ghost use Rattle.ofit_sheet.specs.Made.{ArePartsOfSheet};
ghost use Rattle.ofit_sheet.specs.Parts.{sheet_of};
ghost use Rattle.ofit_study.specs.Study.{names_of, places_of, problem_stated, meaning_of, total_weight};
ghost use Rattle.ofit_cert.specs.Tight.{tight_among};
ghost use Rattle.ofit_cert.specs.TightFlows.{Certify, TellsOfGroups};

use crate::entries::entries_of;
use crate::flows::flows_of;
use crate::spans::spans_of;
use ofit_cut::{Amounts, Balanced, balance_flow};
use ofit_num::Frac;
use ofit_sheet::{Sheet, Size};
use ofit_study::{Study, tight_pairs};
use std::alloc::{AllocError, Global};

/// Flows along the tight pairs whose balances are in the groups' open spans, or a set of groups that
/// shows that there are none.
pub(crate) fn balance_of(
    alloc: Global,
    study: &Study,
    values: &[Frac],
    pairs: &[(u32, u32)],
) -> Result<Balanced, AllocError>
    requires as_long { length values.now ≡ length (names_of study.now) }
    requires tight { pairs.now ≡ tight_among values.now (places_of study.now) }
    ensures told { IfOk result (TellsOfGroups (meaning_of study.now.settings.loss) (problem_stated study.now) values.now pairs.now) }
    ensures fractions { IfOk result (λ answer. All IsFractionInLimits values.now) }
{
    study.keeps_limits();
    let spans = spans_of(alloc, study, values)?;
    balance_flow(alloc, pairs, spans.as_slice())
}

/// Amounts along the tight pairs whose balances are in the open spans. Optimal values have such
/// flows (Hoffman 1960), since no set of groups that can move together gains by it.
fn balanced_amounts(
    alloc: Global,
    study: &Study,
    values: &[Frac],
    pairs: &[(u32, u32)],
) -> Result<Amounts, AllocError>
    requires best { BestValues (meaning_of study.now.settings.loss) (problem_stated study.now) values.now }
    requires tight { pairs.now ≡ tight_among values.now (places_of study.now) }
    ensures certify { IfOk result (Certify (meaning_of study.now.settings.loss) (problem_stated study.now) values.now pairs.now) }
    ensures fractions { IfOk result (λ amounts. All IsFractionInLimits values.now) }
{
    study.keeps_limits();
    match balance_of(alloc, study, values, pairs)? {
        Balanced::Flows(amounts) => Ok(amounts),
        Balanced::Above(_) => unreachable!(),
        Balanced::Below(_) => unreachable!(),
    }
}

/// The sheet of these entries and flows, with the size of the study's rows.
fn sheet_of(study: &Study, entries: Vec<(u32, Frac)>, flows: Vec<(u32, u32, i128)>) -> Sheet
    requires parts { ArePartsOfSheet None entries.items flows.items }
    requires few_entries { vec_len entries ≤ MOST_GROUPS }
    requires few_flows { vec_len flows ≤ MOST_PAIRS }
    ensures { result ≡ sheet_of study.now.settings (Some (record { rows = length study.now.rows; weight = total_weight study.now.rows })) entries.items flows.items }
{
    let size = Size {
        rows: study.row_count(),
        weight: study.total_weight(),
    };
    match Sheet::make(*study.settings(), Some(size), entries, flows) {
        Some(sheet) => sheet,
        None => unreachable!(),
    }
}

/// A sheet with these values, all groups in order, whose size is the study's rows and total weight,
/// and that passes the checker. Its flows are along pairs of equal values, in the order of the pairs,
/// each of at least 1. Linear time where those pairs are a forest, and else at most one maximum flow.
pub fn certify(alloc: Global, study: &Study, values: &[Frac]) -> Result<Sheet, AllocError>
    requires best { BestValues (meaning_of study.now.settings.loss) (problem_stated study.now) values.now }
    ensures fits { IfOk result (FitsCount (length (names_of study.now))) }
    ensures passes { IfOk result (λ x. Passes (meaning_of study.now.settings.loss) (problem_stated study.now) study.now.settings x) }
    ensures values { IfOk result (λ x. sheet_values x ≡ values.now) }
    ensures sized { IfOk result (λ x. IsSome x.size) }
{
    study.keeps_limits();
    let pairs = tight_pairs(alloc, study, values)?;
    let amounts = balanced_amounts(alloc, study, values, pairs.as_slice())?;
    let flows = flows_of(alloc, pairs.as_slice(), &amounts)?;
    let entries = entries_of(alloc, values)?;
    Ok(sheet_of(study, entries, flows))
}
