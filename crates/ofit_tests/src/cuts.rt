ghost use Rattle.std.specs.Prelude.{◌≡◌, Some};

use ofit_cut::{Balanced, Span, Tie, balance_flow, lower_cut, upper_cut};
use std::test::Fail;

/// Weights of 0 leave all sets equal, and where the high node alone gains, an upper set has it alone.
#[test]
fn cuts_of_one_pair(rt: HostRuntime) -> Result<(), Fail> {
    let smallest = lower_cut(rt.alloc(), &[(0, 1)], &[0, 0], Tie::Smallest)?;
    assert!(rt; !smallest[0] && !smallest[1]);
    let largest = lower_cut(rt.alloc(), &[(0, 1)], &[0, 0], Tie::Largest)?;
    assert!(rt; largest[0] && largest[1]);
    let upper = upper_cut(rt.alloc(), &[(0, 1)], &[-1, 2])?;
    assert!(rt; !upper[0] && upper[1]);
    Ok(())
}

/// A span of one balance.
fn exactly(balance: i128) -> Span
    ensures { result ≡ record { least = Some balance; greatest = Some balance } }
{
    Span {
        least: Some(balance),
        greatest: Some(balance),
    }
}

/// What the low node gives, the high one takes; nothing can flow from the high one to the low one.
#[test]
fn flows_of_one_pair(rt: HostRuntime) -> Result<(), Fail> {
    match balance_flow(rt.alloc(), &[(0, 1)], &[exactly(1), exactly(-1)])? {
        Balanced::Flows(amounts) => assert_eq!(rt; amounts.amount(0), 1),
        _ => assert!(rt; false),
    }
    match balance_flow(rt.alloc(), &[(0, 1)], &[exactly(-1), exactly(1)])? {
        Balanced::Above(members) => assert!(rt; members.nodes() == [1].as_slice()),
        _ => assert!(rt; false),
    }
    Ok(())
}
