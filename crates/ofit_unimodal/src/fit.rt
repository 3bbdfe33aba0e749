ghost use Rattle.std.specs.Prelude.{◌≡◌, ◌≤◌, ◌<◌, ◌↔◌, IfOk, Err, None, length};
ghost use Rattle.ofit_sheet.specs.declared.peaked.limits.TheConstants.{MOST_PEAK_GROUPS};
ghost use Rattle.ofit_sheet.specs.Peaked.{IsShaped, IsInLimits};
ghost use Rattle.ofit_sheet.specs.PeakVerdict.{IsPeakVerdict, passes};
ghost use Rattle.ofit_sheet.specs.Unimodal.{PeakBest};
ghost use Rattle.ofit_study.specs.Study.{names_of, problem_stated};
ghost use Rattle.ofit_unimodal.specs.declared.fault.UnimodalFault.TheVariants.{TooManyGroups};
ghost use Rattle.ofit_unimodal.specs.Fitted.{IsPeakable, IsFit};
ghost use Rattle.ofit_sides.specs.Sides.{AreRises, AreFalls};

use crate::cost::{cheapest, split_costs};
use crate::fault::UnimodalFault;
use crate::peak::fit_umbrella;
use ofit_sheet::{MOST_PEAK_GROUPS, Peaked, Side};
use ofit_sides::{falls_of, groups_in_order, rises_of};
use ofit_study::Study;
use std::alloc::{AllocError, Global};

/// The first best peak, its cost, and the least best values with it.
#[derive(Drop)]
struct Fit {
    peak: Option<u32>,
    cost: u128,
    values: Vec<i64>,
}

/// The best fit of an unknown peak. The least cost is that of the first of the cheapest splits, whose
/// sides have their peak right behind it.
fn fit_peak(alloc: Global, study: &Study, rises: &[Side], falls: &[Side]) -> Result<Fit, AllocError>
    requires study { IsPeakable study.now }
    requires rises { AreRises (problem_stated study.now) rises.now }
    requires falls { AreFalls (problem_stated study.now) falls.now }
    ensures { IfOk result (λ fit. IsFit (problem_stated study.now) rises.now falls.now fit.peak fit.cost fit.values.items) }
{
    if study.group_count() == 0 {
        return Ok(Fit {
            peak: None,
            cost: 0,
            values: Vec::new(alloc),
        });
    }
    let costs = split_costs(alloc, study, rises, falls)?;
    let peak = cheapest(costs.as_slice());
    let groups = groups_in_order(alloc, study)?;
    let values = fit_umbrella(alloc, &groups, peak)?;
    Ok(Fit {
        peak: Some(peak),
        cost: costs[peak as usize],
        values,
    })
}

/// The fit of an unknown peak with these sides as its certificate.
fn fit_with_sides(
    alloc: Global,
    study: &Study,
    rises: Vec<Side>,
    falls: Vec<Side>,
) -> Result<Peaked, AllocError>
    requires few { length (names_of study.now) ≤ MOST_PEAK_GROUPS }
    requires low { study.now.settings.lo ≡ None }
    requires high { study.now.settings.hi ≡ None }
    requires rises { AreRises (problem_stated study.now) rises.items }
    requires falls { AreFalls (problem_stated study.now) falls.items }
    ensures best { IfOk result (λ x. PeakBest (problem_stated study.now) x.peak x.cost x.values) }
    ensures passes { IfOk result (λ x. IsPeakVerdict (problem_stated study.now) study.now.settings.places x passes) }
    ensures shaped { IfOk result (IsShaped (length (names_of study.now))) }
    ensures limits { IfOk result IsInLimits }
{
    study.keeps_limits();
    let fit = fit_peak(alloc, study, rises.as_slice(), falls.as_slice())?;
    let settings = study.settings();
    Ok(Peaked::make(
        settings.places,
        fit.peak,
        fit.cost,
        fit.values,
        rises,
        falls,
    ))
}

/// The fit of an unknown peak under the median, with what certifies it. The values rise up to a peak and
/// fall from it, and no values that do so with any peak cost less; the peak is the first one with which
/// values cost that little, and the values are pointwise the least of those. The sheet passes
/// `verdict_unimodal`. The study's loss and its pairs aren't read.
///
/// Fails with [`UnimodalFault::TooManyGroups`] above 200 groups, and then alone; want of memory is the
/// only other fault.
///
/// The peak is found by the costs of the sides before it and behind it (Stout, Unimodal regression via
/// prefix isotonic regression, 2008), and its umbrella is fitted as a tree (Robertson, Wright and
/// Dykstra, Order Restricted Statistical Inference, 1988). Besides the sides that takes O(n (n + r)) time
/// for n groups and r rows, and one tree fit.
pub fn fit_unimodal(alloc: Global, study: &Study) -> Result<Peaked, UnimodalFault>
    requires low { study.now.settings.lo ≡ None }
    requires high { study.now.settings.hi ≡ None }
    ensures many { (result ≡ Err TooManyGroups) ↔ (MOST_PEAK_GROUPS < length (names_of study.now)) }
    ensures best { IfOk result (λ x. PeakBest (problem_stated study.now) x.peak x.cost x.values) }
    ensures passes { IfOk result (λ x. IsPeakVerdict (problem_stated study.now) study.now.settings.places x passes) }
    ensures shaped { IfOk result (IsShaped (length (names_of study.now))) }
    ensures limits { IfOk result IsInLimits }
{
    if study.group_count() > MOST_PEAK_GROUPS {
        return Err(UnimodalFault::TooManyGroups);
    }
    let rises = rises_of(alloc, study)?;
    let falls = falls_of(alloc, study)?;
    let peaked = fit_with_sides(alloc, study, rises, falls)?;
    Ok(peaked)
}
