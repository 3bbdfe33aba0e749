ghost use Rattle.std.specs.Prelude.{◌≡◌, ◌<◌, ℕ, IfOk, length, slice_index, vec_len};
ghost use Rattle.std.specs.List.{All};
ghost use Rattle.ofit_fit.specs.Put.{ArePut};

use ofit_num::Frac;
use std::alloc::{AllocError, Global};

/// Puts each value at its place.
pub fn put_values(into: &mut Vec<Frac>, places: &[u32], values: &[Frac])
    requires as_long { length values.now ≡ length places.now }
    requires inside { All (λ g. g < vec_len into.old) places.now }
    requires distinct { (i j : ℕ) → i < length places.now → j < length places.now → slice_index places.now i ≡ slice_index places.now j → i ≡ j }
    ensures { ArePut places.now values.now into.old.items into.new.items }
{
    for (index, place) in places.iter().enumerate() {
        into[*place as usize] = values[index];
    }
}

/// The values in the order of these places, of which there are as many.
pub(crate) fn values_put(
    alloc: Global,
    places: &[u32],
    values: &[Frac],
) -> Result<Vec<Frac>, AllocError>
    requires as_long { length values.now ≡ length places.now }
    requires inside { All (λ g. g < length places.now) places.now }
    requires distinct { (i j : ℕ) → i < length places.now → j < length places.now → slice_index places.now i ≡ slice_index places.now j → i ≡ j }
    ensures { IfOk result (λ fitted. ArePut places.now values.now values.now fitted.items) }
{
    let mut fitted = Vec::from_slice(alloc, values)?;
    put_values(&mut fitted, places, values);
    Ok(fitted)
}
