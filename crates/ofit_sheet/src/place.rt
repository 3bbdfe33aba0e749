ghost use Rattle.std.specs.Prelude.{◌≡◌, ◌≤◌, ℕ, MatchOption, Some, slice_get};
ghost use Rattle.ofit_study.specs.Study.{names_of};

use ofit_study::Study;

/// The place of the group of this name, where it is at least the given one.
pub(crate) fn place_from(study: &Study, least: u64, name: &[u8]) -> Option<u32>
    ensures { MatchOption result ((p : ℕ) → slice_get (names_of study.now) p ≡ Some name.now → least ≤ p → ⊥)
        (λ p. (slice_get (names_of study.now) p ≡ Some name.now) × (least ≤ p)) }
{
    match study.place_of(name) {
        Some(place) => {
            if u64::from(place) < least {
                None
            } else {
                Some(place)
            }
        }
        None => None,
    }
}
