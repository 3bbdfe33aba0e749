ghost use Rattle.std.specs.Prelude.{◌≤◌, ◌+◌, length};
ghost use Rattle.ofit_sheet.specs.declared.peaked.limits.TheConstants.{MOST_PEAK_GROUPS};
ghost use Rattle.ofit_sheet.specs.Peaked.{IsShaped};
ghost use Rattle.ofit_sheet.specs.PeakVerdict.{IsReached};
ghost use Rattle.ofit_study.specs.Study.{names_of, problem_stated};
ghost use Rattle.ofit_check.specs.Check.{IsFirstFailure};
ghost use Rattle.ofit_check.specs.PeakSteps.{IsFirstRise, IsFirstFall};

use crate::peak::cost::is_reached;
use crate::peak::slope::Slope;
use crate::peak::steps::first_broken;
use ofit_sheet::Peaked;
use ofit_study::Study;

/// The first rise that breaks a rule of sides, and the place of its first group that does.
pub(crate) fn first_bad_rise(study: &Study, peaked: &Peaked) -> Option<(u32, u32)>
    requires few { length (names_of study.now) ≤ MOST_PEAK_GROUPS }
    requires shaped { IsShaped (length (names_of study.now)) peaked.now }
    ensures { IsFirstRise (problem_stated study.now) peaked.now result }
{
    for index in 0..study.group_count() {
        let steps = index + 1;
        match first_broken(study, Slope::Rise, 0, peaked.rise(steps), steps) {
            Some(place) => return Some((steps, place)),
            None => {}
        }
    }
    None
}

/// The first fall that breaks a rule of sides, and the place of its first group that does.
pub(crate) fn first_bad_fall(study: &Study, peaked: &Peaked) -> Option<(u32, u32)>
    requires few { length (names_of study.now) ≤ MOST_PEAK_GROUPS }
    requires shaped { IsShaped (length (names_of study.now)) peaked.now }
    ensures { IsFirstFall (problem_stated study.now) peaked.now result }
{
    let groups = study.group_count();
    for start in 0..groups {
        let steps = groups - start;
        match first_broken(study, Slope::Fall, start, peaked.fall(start), steps) {
            Some(index) => return Some((start, start + index)),
            None => {}
        }
    }
    None
}

/// The first number of groups whose rise costs together with the fall of the others less than is
/// printed.
pub(crate) fn first_not_least(study: &Study, peaked: &Peaked) -> Option<u32>
    requires few { length (names_of study.now) ≤ MOST_PEAK_GROUPS }
    requires shaped { IsShaped (length (names_of study.now)) peaked.now }
    ensures { IsFirstFailure (IsReached (problem_stated study.now) peaked.now) (length (names_of study.now) + 1) result }
{
    for length in 0..study.group_count() + 1 {
        if !is_reached(study, peaked, length) {
            return Some(length);
        }
    }
    None
}
