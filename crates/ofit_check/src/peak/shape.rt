ghost use Rattle.std.specs.Prelude.{◌↔◌, ◌+◌, ◌-◌, ◌<◌, ◌^◌, IsTrue, length};
ghost use Rattle.ofit_sheet.specs.Peaked.{IsShaped};
ghost use Rattle.ofit_sheet.specs.PeakVerdict.{KeepsShape};
ghost use Rattle.ofit_study.specs.Study.{names_of};
ghost use Rattle.ofit_check.specs.Check.{IsFirstFailure};

use ofit_sheet::Peaked;
use ofit_study::Study;

/// Whether the value at a place and the next one rise before the peak, and fall from it on.
fn keeps_shape(peaked: &Peaked, place: u32) -> bool
    requires few { length peaked.now.values < 2 ^ 32 }
    requires place { place + 1 < length peaked.now.values }
    ensures { IsTrue result ↔ KeepsShape peaked.now place }
{
    let value = peaked.value(place);
    let next = peaked.value(place + 1);
    match peaked.peak() {
        None => true,
        Some(peak) => {
            if place < peak {
                value <= next
            } else {
                next <= value
            }
        }
    }
}

/// The first place whose value breaks the shape with the next one.
pub(crate) fn first_bent(study: &Study, peaked: &Peaked) -> Option<u32>
    requires { IsShaped (length (names_of study.now)) peaked.now }
    ensures { IsFirstFailure (KeepsShape peaked.now) (length (names_of study.now) - 1) result }
{
    for place in 0..study.group_count().saturating_sub(1) {
        if !keeps_shape(peaked, place) {
            return Some(place);
        }
    }
    None
}
