ghost use Rattle.std.specs.Prelude.{◌≡◌, ◌<◌, ℕ, IfOk, ◌==◌, vec_len, slice_index};
ghost use Rattle.std.specs.List.{All, count_by};
ghost use Rattle.ofit_order.specs.Within.{AreWithin};
ghost use Rattle.ofit_order.specs.Form.{higher_count, lower_count};

use std::alloc::{AllocError, Global};

/// How often each place below `places` stands among `ends`.
fn tally(alloc: Global, ends: &[u32], places: u32) -> Result<Vec<usize>, AllocError>
    requires { All (λ p. p < places) ends.now }
    ensures counts { IfOk result (λ v. vec_len v ≡ places) }
    ensures each { IfOk result (λ v. (a : ℕ) → a < places
        → slice_index v.items a ≡ count_by (λ x. x == a) ends.now) }
{
    let mut counts = vec![in alloc; 0usize; places as usize]?;
    for end in ends {
        counts[*end as usize] += 1;
    }
    Ok(counts)
}

/// How many pairs lead up from each place.
pub(crate) fn higher_counts(
    alloc: Global,
    pairs: &[(u32, u32)],
    places: u32,
) -> Result<Vec<usize>, AllocError>
    requires { AreWithin pairs.now places }
    ensures counts { IfOk result (λ v. vec_len v ≡ places) }
    ensures each { IfOk result (λ v. (a : ℕ) → a < places → slice_index v.items a ≡ higher_count pairs.now a) }
{
    let lows: Vec<u32> = pairs.iter().map(|pair| pair.0).collect(alloc)?;
    tally(alloc, lows.as_slice(), places)
}

/// How many pairs lead down from each place.
pub(crate) fn lower_counts(
    alloc: Global,
    pairs: &[(u32, u32)],
    places: u32,
) -> Result<Vec<usize>, AllocError>
    requires { AreWithin pairs.now places }
    ensures counts { IfOk result (λ v. vec_len v ≡ places) }
    ensures each { IfOk result (λ v. (a : ℕ) → a < places → slice_index v.items a ≡ lower_count pairs.now a) }
{
    let highs: Vec<u32> = pairs.iter().map(|pair| pair.1).collect(alloc)?;
    tally(alloc, highs.as_slice(), places)
}
