ghost use Rattle.std.specs.Prelude.{◌≡◌, ◌<◌, ◌∷◌, [], All, length, IfOk};
ghost use Rattle.ofit_num.specs.RowTotals.{all_rows};
ghost use Rattle.ofit_loss.specs.Rows.{AreFittable};

use crate::losses::row;
use ofit_chain::Stack;
use ofit_loss::{Loss, Median, Squares};
use ofit_num::{Frac, Groups, Row};
use std::alloc::{AllocError, Global};
use std::test::Fail;

/// Three groups with these rows, in order.
fn three(alloc: Global, first: &[Row], second: &[Row], third: &[Row]) -> Result<Groups, AllocError>
    ensures { IfOk result (λ groups. groups ≡ first.now ∷ second.now ∷ third.now ∷ []) }
{
    let mut groups = Groups::new(alloc);
    groups.add(first)?;
    groups.add(second)?;
    groups.add(third)?;
    Ok(groups)
}

/// Whether each value is the whole number given.
fn are_whole(values: &[Frac], whole: &[i128]) -> bool {
    values.len() == whole.len()
        && values.iter().zip(whole).all(|(value, number)| value.num() == *number
            && value.den() == 1)
}

/// The values of the groups up to each one, as a stack has them when it is pushed.
fn values_after_each<L: Loss>(alloc: Global, groups: &Groups) -> Result<Vec<Vec<Frac>>, AllocError>
    requires filled { All (λ rows. 0 < length rows) groups.now }
    requires fittable { AreFittable (all_rows groups.now) }
{
    let mut stack = Stack::<L>::new(alloc);
    let mut values = Vec::new(alloc);
    for place in 0..groups.count() {
        stack.push(groups.rows(place))?;
        values.push(stack.values(alloc)?)?;
    }
    Ok(values)
}

#[test]
fn a_stack_has_the_values_of_its_groups(rt: HostRuntime) -> Result<(), Fail> {
    let alloc = rt.alloc();
    let groups = three(alloc, &[row(5, 1)], &[row(3, 1), row(7, 1)], &[row(6, 1)])?;
    let medians = values_after_each::<Median>(alloc, &groups)?;
    assert_eq!(rt; medians.len(), 3);
    assert!(rt; are_whole(&medians[0], &[5]));
    assert!(rt; are_whole(&medians[1], &[5, 5]));
    assert!(rt; are_whole(&medians[2], &[5, 5, 6]));
    let means = values_after_each::<Squares>(alloc, &groups)?;
    assert_eq!(rt; means.len(), 3);
    assert!(rt; are_whole(&means[2], &[5, 5, 6]));
    Ok(())
}
