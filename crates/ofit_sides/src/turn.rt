ghost use Rattle.std.specs.Prelude.{◌≡◌, ◌<◌, IfOk, length};
ghost use Rattle.ofit_sheet.specs.PeakVerdict.{amount_before};
ghost use Rattle.ofit_sides.specs.Turned.{IsTurned};

use ofit_sheet::Side;
use std::alloc::{AllocError, Global};

/// The amount of the step before the one at an index, 0 before the first.
fn amount_before(side: &Side, index: u32) -> i128
    requires { index < length side.now }
    ensures { result ≡ amount_before side.now index }
{
    if index == 0 {
        return 0;
    }
    let (_value, amount) = side.step(index - 1);
    amount
}

/// The side of so many steps read from its other end.
pub(crate) fn turned(alloc: Global, side: &Side, count: u32) -> Result<Side, AllocError>
    requires { length side.now ≡ count }
    ensures { IfOk result (λ other. IsTurned other side.now) }
{
    let mut steps = Vec::new(alloc);
    for index in 0..count {
        let from = count - 1 - index;
        let (value, _amount) = side.step(from);
        steps.push((value, amount_before(side, from)))?;
    }
    Ok(Side::make(steps))
}
