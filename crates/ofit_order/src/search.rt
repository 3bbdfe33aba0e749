ghost use Rattle.std.specs.Prelude.{◌≡◌, ◌<◌, ℕ, OnOk, IfOk, length, vec_len, slice_index};
ghost use Rattle.std.specs.List.{All, Contains};
ghost use Rattle.ofit_order.specs.Rows.{rows_of, AreMutual};
ghost use Rattle.ofit_order.specs.Search.{IsSeen, IsClosed, Visits, FindsReached, IsNumbering};

use std::alloc::{AllocError, Global};

/// Marks the neighbours that are not seen yet, and puts them at the end of `found`.
fn visit(neighbours: &[u32], seen: &mut Vec<bool>, found: &mut Vec<u32>) -> Result<(), AllocError>
    requires { All (λ p. p < vec_len seen.old) neighbours.now }
    ensures { OnOk result
        (Visits neighbours.now found.old.items found.new.items seen.old.items seen.new.items) }
{
    for place in neighbours {
        if !seen[*place as usize] {
            found.push(*place)?;
            seen[*place as usize] = true;
        }
    }
    Ok(())
}

/// The places that are connected with `start`, which is not seen yet, breadth first.
fn reach(
    alloc: Global,
    rows: &[Vec<u32>],
    seen: &mut Vec<bool>,
    start: u32,
) -> Result<Vec<u32>, AllocError>
    requires inside { start < length rows.now }
    requires as_long { vec_len seen.old ≡ length rows.now }
    requires both_ways { AreMutual (rows_of rows.now) }
    requires closed { IsClosed (rows_of rows.now) seen.old.items }
    requires unseen { IsSeen seen.old.items start → ⊥ }
    ensures { IfOk result (λ found.
        FindsReached (rows_of rows.now) start found.items seen.old.items seen.new.items) }
{
    let mut found = Vec::new(alloc);
    found.push(start)?;
    seen[start as usize] = true;
    let mut done = 0usize;
    while done < found.len() {
        let place = found[done];
        visit(rows[place as usize].as_slice(), seen, &mut found)?;
        done += 1;
    }
    Ok(found)
}

/// Gives each of these places the component's number.
fn mark(components: &mut [u32], places: &[u32], component: u32)
    requires { All (λ p. p < length components.old) places.now }
    ensures marked { (p : ℕ) → Contains places.now p → slice_index components.new p ≡ component }
    ensures others { (p : ℕ) → (Contains places.now p → ⊥)
        → slice_index components.new p ≡ slice_index components.old p }
{
    for place in places {
        components[*place as usize] = component;
    }
}

/// For each place the number of its component, and how many components there are.
#[derive(Drop)]
pub(crate) struct Numbering {
    pub(crate) components: Vec<u32>,
    pub(crate) count: u32,
}

/// The components that the rows of neighbours join, numbered by their least places.
pub(crate) fn number_components(
    alloc: Global,
    rows: &[Vec<u32>],
    places: u32,
) -> Result<Numbering, AllocError>
    requires as_long { length rows.now ≡ places }
    requires both_ways { AreMutual (rows_of rows.now) }
    ensures { IfOk result (λ n. IsNumbering (rows_of rows.now) n.components.items n.count) }
{
    let mut components = vec![in alloc; 0u32; places as usize]?;
    let mut seen = vec![in alloc; false; places as usize]?;
    let mut count = 0u32;
    for start in 0..places {
        if !seen[start as usize] {
            let found = reach(alloc, rows, &mut seen, start)?;
            mark(components.as_mut_slice(), found.as_slice(), count);
            count += 1;
        }
    }
    Ok(Numbering { components, count })
}
