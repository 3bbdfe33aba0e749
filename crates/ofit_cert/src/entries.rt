ghost use Rattle.std.specs.Prelude.{◌≡◌, ◌≤◌, IfOk, length};
ghost use Rattle.std.specs.List.{enumerate_from};
ghost use Rattle.ofit_num.specs.declared.limits.TheConstants.{MOST_GROUPS};

use ofit_num::Frac;
use std::alloc::{AllocError, Global};

/// Each value with its place.
pub(crate) fn entries_of(alloc: Global, values: &[Frac]) -> Result<Vec<(u32, Frac)>, AllocError>
    requires { length values.now ≤ MOST_GROUPS }
    ensures { IfOk result (λ entries. entries.items ≡ enumerate_from 0 values.now) }
{
    let mut entries = Vec::new(alloc);
    for (place, value) in values.iter().enumerate() {
        entries.push((place as u32, *value))?;
    }
    Ok(entries)
}
