//! The counts of orderings by their left-to-right maxima.

ghost use Rattle.std.specs.Prelude.{◌≡◌, ◌≤◌, ◌<◌, ◌+◌, ℕ, slice_index};
ghost use Rattle.ofit_levels.specs.Level.{level};

/// The counts of one item more than `size`, from those of `size`. A new least item is a left-to-right
/// maximum where it stands first, and none in each of the `size` other places; it changes nothing for
/// the items behind it.
fn next_counts(counts: &[u128; 34], size: u32) -> [u128; 34]
    requires some { 1 ≤ size }
    requires room { size < 34 }
    requires counts { (place : ℕ) → place < 34 → slice_index counts.now place ≡ level size (place + 1) }
    ensures { (place : ℕ) → place < 34 → slice_index result place ≡ level (size + 1) (place + 1) }
{
    let mut next = [0; 34];
    next[0] = u128::from(size) * counts[0];
    for place in 1..34 {
        next[place] = counts[place - 1] + u128::from(size) * counts[place];
    }
    next
}

/// How many orderings of 1 to k have exactly l left-to-right maxima, at place l - 1: the unsigned
/// Stirling numbers of the first kind. Over k! they are the level probabilities of equal weights.
pub fn levels(k: u32) -> [u128; 34]
    requires least { 1 ≤ k }
    requires most { k ≤ 34 }
    ensures counts { (place : ℕ) → place < 34 → slice_index result place ≡ level k (place + 1) }
    ensures none_above { (place : ℕ) → k ≤ place → place < 34 → slice_index result place ≡ 0 }
{
    let mut counts = [0; 34];
    counts[0] = 1;
    for size in 1..k {
        counts = next_counts(&counts, size);
    }
    counts
}
