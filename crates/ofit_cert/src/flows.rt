ghost use Rattle.std.specs.Prelude.{◌≡◌, ◌≤◌, IfOk, length};
ghost use Rattle.ofit_num.specs.declared.limits.TheConstants.{MOST_PAIRS};
ghost use Rattle.ofit_cert.specs.TightFlows.{flows_along, is_above_zero};

use ofit_cut::Amounts;
use std::alloc::{AllocError, Global};

/// Whether an amount is a flow.
fn is_flow(amount: i128) -> bool
    ensures { result ≡ is_above_zero amount }
{
    amount >= 1
}

/// The pairs that carry something, each with what it carries, in their order.
pub(crate) fn flows_of(
    alloc: Global,
    pairs: &[(u32, u32)],
    amounts: &Amounts,
) -> Result<Vec<(u32, u32, i128)>, AllocError>
    requires counted { length amounts.now ≡ length pairs.now }
    requires few { length pairs.now ≤ MOST_PAIRS }
    ensures { IfOk result (λ flows. flows.items ≡ flows_along pairs.now amounts.now) }
{
    let mut flows = Vec::new(alloc);
    for (index, pair) in pairs.iter().enumerate() {
        let amount = amounts.amount(index as u32);
        if is_flow(amount) {
            flows.push((pair.0, pair.1, amount))?;
        }
    }
    Ok(flows)
}
