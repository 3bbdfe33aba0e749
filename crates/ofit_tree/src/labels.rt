ghost use Rattle.std.specs.Prelude.{◌≡◌, ◌<◌, ℕ, length, All, Contains, slice_index};
ghost use Rattle.ofit_tree.specs.Merge.{IsRenumbered};

/// Gives the groups at these places to a block.
fn relabel(labels: &mut Vec<u32>, places: &[u32], number: u32)
    requires { All (λ g. g < length labels.old.items) places.now }
    ensures count { length labels.new.items ≡ length labels.old.items }
    ensures given { (g : ℕ) → Contains places.now g → slice_index labels.new.items g ≡ number }
    ensures kept { (g : ℕ) → (Contains places.now g → ⊥) → slice_index labels.new.items g ≡ slice_index labels.old.items g }
{
    for place in places {
        labels[*place as usize] = number;
    }
}

/// Gives the groups of two blocks one number, that of the block with more groups, and tells it.
pub(crate) fn renumber(
    labels: &mut Vec<u32>,
    upper: &[u32],
    child: &[u32],
    above: u32,
    below: u32,
) -> u32
    requires upper { All (λ g. g < length labels.old.items) upper.now }
    requires child { All (λ g. g < length labels.old.items) child.now }
    ensures { IsRenumbered labels.old.items labels.new.items upper.now child.now above below result }
{
    if upper.len() < child.len() {
        relabel(labels, upper, below);
        below
    } else {
        relabel(labels, child, above);
        above
    }
}
