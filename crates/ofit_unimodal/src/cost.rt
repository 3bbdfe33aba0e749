ghost use Rattle.std.specs.Prelude.{◌≡◌, ◌+◌, ◌*◌, ◌-◌, ◌^◌, ◌<◌, ◌≤◌, IfOk, length, nat_lt};
ghost use Rattle.ofit_num.specs.declared.limits.TheConstants.{MOST_WEIGHT};
ghost use Rattle.ofit_sheet.specs.declared.peaked.limits.TheConstants.{MOST_PEAK_GROUPS};
ghost use Rattle.std.specs.List.{IsFirstBest};
ghost use Rattle.ofit_study.specs.Study.{IsValid, names_of, problem_stated};
ghost use Rattle.ofit_unimodal.specs.Costs.{rise_cost, fall_cost, split_costs};
ghost use Rattle.ofit_sides.specs.Sides.{AreRises, AreFalls};

use ofit_check::cost_of_side;
use ofit_sheet::Side;
use ofit_study::Study;
use std::alloc::{AllocError, Global};

/// What the rise of so many groups costs.
fn cost_of_rise(study: &Study, rises: &[Side], steps: u32) -> u128
    requires valid { IsValid study.now }
    requires few { length (names_of study.now) ≤ MOST_PEAK_GROUPS }
    requires rises { AreRises (problem_stated study.now) rises.now }
    requires steps { steps ≤ length (names_of study.now) }
    ensures exact { result ≡ rise_cost (problem_stated study.now) rises.now steps }
    ensures most { result ≤ 2 ^ 64 * MOST_WEIGHT * MOST_PEAK_GROUPS }
{
    if steps == 0 {
        return 0;
    }
    cost_of_side(study, 0, &rises[steps as usize - 1], steps)
}

/// What the fall from a place on costs.
fn cost_of_fall(study: &Study, falls: &[Side], start: u32) -> u128
    requires valid { IsValid study.now }
    requires few { length (names_of study.now) ≤ MOST_PEAK_GROUPS }
    requires falls { AreFalls (problem_stated study.now) falls.now }
    requires start { start ≤ length (names_of study.now) }
    ensures exact { result ≡ fall_cost (problem_stated study.now) falls.now start }
    ensures most { result ≤ 2 ^ 64 * MOST_WEIGHT * MOST_PEAK_GROUPS }
{
    let groups = study.group_count();
    if start == groups {
        return 0;
    }
    cost_of_side(study, start, &falls[start as usize], groups - start)
}

/// What the rise of so many groups and the fall of the others cost together, for each number of groups
/// from 0 on. O(n (n + r)) for n groups and r rows.
pub(crate) fn split_costs(
    alloc: Global,
    study: &Study,
    rises: &[Side],
    falls: &[Side],
) -> Result<Vec<u128>, AllocError>
    requires few { length (names_of study.now) ≤ MOST_PEAK_GROUPS }
    requires rises { AreRises (problem_stated study.now) rises.now }
    requires falls { AreFalls (problem_stated study.now) falls.now }
    ensures { IfOk result (λ costs. costs.items ≡ split_costs (problem_stated study.now) rises.now falls.now) }
{
    let mut costs = Vec::new(alloc);
    for place in 0..study.group_count() + 1 {
        let cost = cost_of_rise(study, rises, place) + cost_of_fall(study, falls, place);
        costs.push(cost)?;
    }
    Ok(costs)
}

/// The first place at which the cost is least.
pub(crate) fn cheapest(costs: &[u128]) -> u32
    requires some { 0 < length costs.now }
    requires few { length costs.now < 2 ^ 32 }
    ensures { IsFirstBest nat_lt costs.now (length costs.now) result }
{
    let mut best = 0;
    for place in 1..costs.len() {
        if costs[place] < costs[best] {
            best = place;
        }
    }
    best as u32
}
