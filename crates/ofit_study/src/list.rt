ghost use Rattle.std.specs.Prelude.{◌≡◌, ◌≤◌, ◌<◌, ◌+◌, ◌^◌, ◌++◌, length, take, drop, IfOk};

use std::alloc::{AllocError, Global};

/// A list with others in place of its elements from the index `start` on, up to `end`. Linear time and
/// memory.
pub(crate) fn spliced<T: Copy>(
    alloc: Global,
    list: &[T],
    start: usize,
    end: usize,
    put: &[T],
) -> Result<Vec<T>, AllocError>
    requires ordered { start ≤ end }
    requires inside { end ≤ length list.now }
    requires few { length list.now + length put.now < 2 ^ 64 }
    ensures { IfOk result (λ made. made.items ≡ take start list.now ++ (put.now ++ drop end list.now)) }
{
    let mut made = Vec::with_capacity(alloc, start + put.len() + (list.len() - end))?;
    made.extend_from_slice(&list[..start])?;
    made.extend_from_slice(put)?;
    made.extend_from_slice(&list[end..])?;
    Ok(made)
}
