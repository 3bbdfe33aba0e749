ghost use Rattle.std.specs.Prelude.{◌↔◌, ◌<◌, IsTrue, length};
ghost use Rattle.ofit_num.specs.Verdict.{AllBelow, IsOnPair, IsInOrder, JoinsEqual};
ghost use Rattle.ofit_study.specs.Study.{problem_stated};
ghost use Rattle.ofit_check.specs.Check.{IsFirstFlow, HasValues};

use crate::values::value_of;
use ofit_sheet::Sheet;
use ofit_study::Study;

/// Whether the flow is on a pair of the study.
fn is_on_pair(study: &Study, sheet: &Sheet, index: u32) -> bool
    requires { index < length sheet.now.flows }
    ensures { IsTrue result ↔ IsOnPair (problem_stated study.now) sheet.now index }
{
    let (low, high, _) = sheet.flow_at(index);
    study.pair_index(low, high).is_some()
}

/// The number of the first flow that isn't on a pair.
pub(crate) fn first_off_pairs(study: &Study, sheet: &Sheet) -> Option<u32>
    ensures { IsFirstFlow (IsOnPair (problem_stated study.now) sheet.now) (length sheet.now.flows) result }
{
    for index in 0..sheet.flow_count() {
        if !is_on_pair(study, sheet, index) {
            return Some(index + 1);
        }
    }
    None
}

/// Whether the flow's pair is after that of the flow before it.
fn is_in_order(study: &Study, sheet: &Sheet, index: u32) -> bool
    requires on_pairs { AllBelow (IsOnPair (problem_stated study.now) sheet.now) (length sheet.now.flows) }
    requires index { index < length sheet.now.flows }
    ensures { IsTrue result ↔ IsInOrder (problem_stated study.now) sheet.now index }
{
    if index == 0 {
        return true;
    }
    let (low_before, high_before, _) = sheet.flow_at(index - 1);
    let (low, high, _) = sheet.flow_at(index);
    study
        .compare_pairs((low_before, high_before), (low, high))
        .is_lt()
}

/// The number of the first flow whose pair isn't after that of the flow before it.
pub(crate) fn first_out_of_order(study: &Study, sheet: &Sheet) -> Option<u32>
    requires { AllBelow (IsOnPair (problem_stated study.now) sheet.now) (length sheet.now.flows) }
    ensures { IsFirstFlow (IsInOrder (problem_stated study.now) sheet.now) (length sheet.now.flows) result }
{
    for index in 0..sheet.flow_count() {
        if !is_in_order(study, sheet, index) {
            return Some(index + 1);
        }
    }
    None
}

/// Whether the flow's ends have one value.
fn is_tight(study: &Study, sheet: &Sheet, index: u32) -> bool
    requires values { HasValues study.now sheet.now }
    requires index { index < length sheet.now.flows }
    ensures { IsTrue result ↔ JoinsEqual sheet.now index }
{
    let (low, high, _) = sheet.flow_at(index);
    value_of(study, sheet, low)
        .compare(&value_of(study, sheet, high))
        .is_eq()
}

/// The number of the first flow whose ends have different values.
pub(crate) fn first_loose(study: &Study, sheet: &Sheet) -> Option<u32>
    requires { HasValues study.now sheet.now }
    ensures { IsFirstFlow (JoinsEqual sheet.now) (length sheet.now.flows) result }
{
    for index in 0..sheet.flow_count() {
        if !is_tight(study, sheet, index) {
            return Some(index + 1);
        }
    }
    None
}
