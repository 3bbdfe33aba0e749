ghost use Rattle.std.specs.Prelude.{◌≡◌, ◌↔◌, ◌<◌, ◌≤◌, ◌^◌, IsTrue, length, slice_index};
ghost use Rattle.std.specs.List.{All, sum_by};
ghost use Rattle.ofit_order.specs.Form.{IsFormBy};

/// The shape of a component: the first that fits, in this order.
#[derive(Clone, Copy, PartialEq, Eq, Debug)]
pub enum Form {
    /// One pair fewer than members, and no member with two lower or two higher neighbours.
    Chain,
    /// One pair fewer than members, and no member with two higher neighbours: paths run together upwards.
    TreeUp,
    /// One pair fewer than members, and no member with two lower neighbours: paths run together downwards.
    TreeDown,
    /// Any other.
    General,
}

/// The sum of the members' counts.
pub(crate) fn total(counts: &[usize], members: &[u32]) -> usize
    requires inside { All (λ m. m < length counts.now) members.now }
    requires fits { sum_by (slice_index counts.now) members.now < 2 ^ 64 }
    ensures { result ≡ sum_by (slice_index counts.now) members.now }
{
    let mut sum = 0usize;
    for member in members {
        sum += counts[*member as usize];
    }
    sum
}

/// Whether each member's count is 0 or 1.
pub(crate) fn is_at_most_one(counts: &[usize], members: &[u32]) -> bool
    requires { All (λ m. m < length counts.now) members.now }
    ensures { IsTrue result ↔ All (λ m. slice_index counts.now m ≤ 1) members.now }
{
    for member in members {
        if counts[*member as usize] > 1 {
            return false;
        }
    }
    true
}

/// The form by its three tests.
pub(crate) fn form_by(has_one_fewer: bool, rises_once: bool, falls_once: bool) -> Form
    ensures { IsFormBy has_one_fewer rises_once falls_once result }
{
    match (has_one_fewer, rises_once, falls_once) {
        (true, true, true) => Form::Chain,
        (true, true, false) => Form::TreeUp,
        (true, false, true) => Form::TreeDown,
        _ => Form::General,
    }
}
