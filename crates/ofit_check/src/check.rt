ghost use Rattle.std.specs.Prelude.{◌≡◌, ◌↔◌, IsTrue, length};
ghost use Rattle.ofit_num.specs.Fit.{BestValues};
ghost use Rattle.ofit_num.specs.Sheet.{FitsCount, sheet_values};
ghost use Rattle.ofit_num.specs.Verdict.{IsVerdict, AgreesInSettings, AgreesInSize};
ghost use Rattle.ofit_study.specs.Study.{names_of, problem_stated, meaning_of};
ghost use Rattle.ofit_check.specs.Told.{told};
ghost use Rattle.ofit_check.specs.declared.verdict.Verdict.TheVariants.{Passes};

use crate::balance::first_unbalanced;
use crate::flows::{first_loose, first_off_pairs, first_out_of_order};
use crate::values::{first_disobedient, first_missing, first_out_of_bounds};
use crate::verdict::Verdict;
use ofit_sheet::Sheet;
use ofit_study::Study;

/// Whether the sheet has the study's loss, decimal places and bounds.
fn has_settings(study: &Study, sheet: &Sheet) -> bool
    ensures { IsTrue result ↔ AgreesInSettings study.now.settings sheet.now }
{
    *sheet.settings() == *study.settings()
}

/// Whether the size, where there is one, is the number and the total weight of the study's rows.
fn has_size(study: &Study, sheet: &Sheet) -> bool
    ensures { IsTrue result ↔ AgreesInSize (problem_stated study.now) sheet.now }
{
    match sheet.size() {
        None => true,
        Some(size) => size.rows == study.row_count() && size.weight == study.total_weight(),
    }
}

/// The first thing that is wrong with a sheet of this study, or that it passes. The values of a sheet
/// that passes are optimal: they obey the study's pairs and bounds, and no values that do cost less.
///
/// For n groups, r rows, m pairs and f flows it takes O(n + r + (m + f) log (m + f)) steps and no
/// memory. That flows along pairs certify a fit is the theorem of Robertson, Wright and Dykstra, Order
/// Restricted Statistical Inference (1988), chapter 1.
pub fn verdict_sheet(study: &Study, sheet: &Sheet) -> Verdict
    requires { FitsCount (length (names_of study.now)) sheet.now }
    ensures verdict { IsVerdict (meaning_of study.now.settings.loss) (problem_stated study.now) study.now.settings sheet.now (told result) }
    ensures best { result ≡ Passes → BestValues (meaning_of study.now.settings.loss) (problem_stated study.now) (sheet_values sheet.now) }
{
    if !has_settings(study, sheet) {
        return Verdict::Settings;
    }
    if !has_size(study, sheet) {
        return Verdict::Size;
    }
    if let Some(place) = first_missing(sheet, study.group_count()) {
        return Verdict::GroupMissing(place);
    }
    if let Some(index) = first_disobedient(study, sheet) {
        return Verdict::Disobeys(index);
    }
    if let Some(place) = first_out_of_bounds(study, sheet) {
        return Verdict::OutOfBounds(place);
    }
    if let Some(number) = first_off_pairs(study, sheet) {
        return Verdict::FlowNotPair(number);
    }
    if let Some(number) = first_out_of_order(study, sheet) {
        return Verdict::FlowOrder(number);
    }
    if let Some(number) = first_loose(study, sheet) {
        return Verdict::FlowNotTight(number);
    }
    match first_unbalanced(study, sheet) {
        Some(place) => Verdict::Balance(place),
        None => Verdict::Passes,
    }
}
