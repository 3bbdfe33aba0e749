ghost use Rattle.std.specs.Prelude.{◌≡◌, IfOk};

use ofit_order::{Order, check_order};
use std::alloc::Global;
use std::test::Fail;

/// The order of `n` places, or a failure where a pair is not within them.
fn order_of(alloc: Global, pairs: &[(u32, u32)], n: u32) -> Result<Order, Fail>
    ensures { IfOk result (λ order. order.places ≡ n) }
{
    if pairs.iter().all(|pair| pair.0 < n && pair.1 < n) {
        Ok(check_order(alloc, pairs, n)?)
    } else {
        Err(Fail::from("a pair beyond the places"))
    }
}

/// The form and the members of each component, as text.
fn shown(alloc: Global, pairs: &[(u32, u32)], n: u32) -> Result<String, Fail> {
    let order = order_of(alloc, pairs, n)?;
    let mut text = String::new(alloc);
    for component in 0..order.component_count() {
        let form = order.form(component);
        let members = order.members(component);
        write!(&mut text, "{form:?} {members:?};")?;
    }
    Ok(text)
}

#[test]
fn orders_have_their_forms(rt: HostRuntime) -> Result<(), Fail> {
    let cases: [(&[(u32, u32)], u32, &str); 12] = [
        (&[], 0, ""),
        (&[], 2, "Chain [0];Chain [1];"),
        (&[(3, 0), (1, 3), (2, 1)], 4, "Chain [0, 1, 2, 3];"),
        (&[(2, 0), (2, 0)], 3, "Chain [0, 2];Chain [1];"),
        (&[(0, 1), (2, 1)], 3, "TreeUp [0, 1, 2];"),
        (&[(1, 0), (1, 2)], 3, "TreeDown [0, 1, 2];"),
        (&[(0, 1), (2, 1), (2, 3)], 4, "General [0, 1, 2, 3];"),
        (
            &[(0, 1), (0, 2), (1, 3), (2, 3)],
            4,
            "General [0, 1, 2, 3];",
        ),
        (&[(0, 1), (1, 0)], 2, "General [0, 1];"),
        (&[(1, 2), (2, 3), (3, 1)], 4, "Chain [0];General [1, 2, 3];"),
        (&[(0, 0)], 1, "General [0];"),
        (&[(0, 1), (1, 1), (2, 3)], 4, "General [0, 1];Chain [2, 3];"),
    ];
    for (pairs, places, forms) in cases {
        assert_eq!(rt; shown(rt.alloc(), pairs, places)?.as_str(), forms);
    }
    Ok(())
}

/// The number of each place's component.
fn numbers(alloc: Global, pairs: &[(u32, u32)], n: u32) -> Result<Vec<u32>, Fail> {
    let order = order_of(alloc, pairs, n)?;
    let mut numbers = Vec::new(alloc);
    for place in 0..n {
        numbers.push(order.component_of(place))?;
    }
    Ok(numbers)
}

#[test]
fn components_are_numbered_by_their_least_places(rt: HostRuntime) -> Result<(), Fail> {
    let alloc = rt.alloc();
    let wanted = [0, 1, 1, 2, 1, 1];
    assert_eq!(rt;
        numbers(alloc, &[(5, 1), (4, 2), (2, 5)], 6)?.as_slice(),
        wanted.as_slice()
    );
    Ok(())
}
