ghost use Rattle.std.specs.Prelude.{◌≡◌, ◌≤◌, length};
ghost use Rattle.ofit_sheet.specs.declared.peaked.limits.TheConstants.{MOST_PEAK_GROUPS};
ghost use Rattle.ofit_sheet.specs.Peaked.{IsShaped};
ghost use Rattle.ofit_sheet.specs.PeakVerdict.{IsPeakVerdict};
ghost use Rattle.ofit_study.specs.Study.{names_of, problem_stated};
ghost use Rattle.ofit_check.specs.Peak.{peak_told, IsBestOfPeaks};
ghost use Rattle.ofit_check.specs.declared.peak.verdict.PeakVerdict.TheVariants.{Passes};

use crate::peak::cost::cost_of_values;
use crate::peak::shape::first_bent;
use crate::peak::sides::{first_bad_fall, first_bad_rise, first_not_least};
use crate::peak::verdict::PeakVerdict;
use ofit_sheet::Peaked;
use ofit_study::Study;

/// The first thing that is wrong with a peaked sheet of this study, or that it passes.
fn first_fault(study: &Study, peaked: &Peaked) -> PeakVerdict
    requires few { length (names_of study.now) ≤ MOST_PEAK_GROUPS }
    requires shaped { IsShaped (length (names_of study.now)) peaked.now }
    ensures { IsPeakVerdict (problem_stated study.now) study.now.settings.places peaked.now (peak_told result) }
{
    if peaked.places() != study.settings().places {
        return PeakVerdict::Settings;
    }
    if let Some(place) = first_bent(study, peaked) {
        return PeakVerdict::Shape(place);
    }
    if cost_of_values(study, peaked) != peaked.cost() {
        return PeakVerdict::Cost;
    }
    if let Some((length, place)) = first_bad_rise(study, peaked) {
        return PeakVerdict::Rise(length, place);
    }
    if let Some((start, place)) = first_bad_fall(study, peaked) {
        return PeakVerdict::Fall(start, place);
    }
    match first_not_least(study, peaked) {
        Some(length) => PeakVerdict::NotLeast(length),
        None => PeakVerdict::Passes,
    }
}

/// The first thing that is wrong with a peaked sheet of this study, or that it passes. The values of a
/// sheet that passes rise up to its peak and fall from it, and no values that do so with any peak cost
/// less under the median. The study's pairs and bounds aren't looked at.
///
/// For n groups and r rows it takes O(n (n + r)) steps and no memory. Amounts along a chain certify a
/// side (Robertson, Wright and Dykstra, Order Restricted Statistical Inference, 1988, chapter 1).
pub fn verdict_unimodal(study: &Study, peaked: &Peaked) -> PeakVerdict
    requires few { length (names_of study.now) ≤ MOST_PEAK_GROUPS }
    requires shaped { IsShaped (length (names_of study.now)) peaked.now }
    ensures verdict { IsPeakVerdict (problem_stated study.now) study.now.settings.places peaked.now (peak_told result) }
    ensures best { result ≡ Passes → IsBestOfPeaks (problem_stated study.now) peaked.now }
{
    first_fault(study, peaked)
}
