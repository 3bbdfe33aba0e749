ghost use Rattle.ofit_fit.specs.Compose.{FitsCompose};

use ofit_order::Order;

/// Values are least best for a problem exactly where those of each component are least best for its
/// part.
pub fn fits_compose(order: &Order)
    ensures { FitsCompose order.now }
{
    let _count = order.component_count();
}
