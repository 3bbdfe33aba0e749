ghost use Rattle.std.specs.Prelude.{◌≡◌, ◌<◌, ◌≤◌, ◌*◌, ◌^◌, ℕ, true, ℤ, All, IfOk, length, map, slice_index};
ghost use Rattle.ofit_num.specs.declared.limits.TheConstants.{MOST_GROUPS, MOST_PAIRS};
ghost use Rattle.ofit_cut.specs.Sets.{total_size};
ghost use Rattle.ofit_num.specs.Problem.{Problem};
ghost use Rattle.ofit_num.specs.Sets.{IsGreatestUpper};
ghost use Rattle.ofit_partition.specs.Piece.{holds, marked, IsPiece, IsTieIn, AreNumbered};

use crate::piece::Piece;
use ofit_cut::{Tie, lower_cut};
use std::alloc::{AllocError, Global};

/// The pairs turned round, each place by its position.
fn turned_pairs(
    alloc: Global,
    positions: &[u32],
    pairs: &[(u32, u32)],
) -> Result<Vec<(u32, u32)>, AllocError>
    requires { All (λ e. (e.0 < length positions.now) × (e.1 < length positions.now)) pairs.now }
    ensures { IfOk result (λ round. round.items ≡ map (λ e. (slice_index positions.now e.1, slice_index positions.now e.0)) pairs.now) }
{
    let mut round = Vec::new(alloc);
    for pair in pairs {
        round.push((positions[pair.1 as usize], positions[pair.0 as usize]))?;
    }
    Ok(round)
}

/// Of the piece's upper sets one with the greatest sum of weights, one weight a place: the smallest or
/// the largest of these, as `tie` says. Answers for each position whether the set holds its place.
///
/// One minimum cut (Picard 1976).
pub(crate) fn greatest_upper(
    alloc: Global,
    piece: &Piece,
    positions: &[u32],
    weights: &[i128],
    tie: Tie,
) -> Result<Vec<bool>, AllocError>
    requires numbered { AreNumbered positions.now piece.now.places.items }
    requires one_each { length weights.now ≡ length piece.now.places.items }
    requires inside { All (λ e. (holds piece.now.places.items e.0 ≡ true) × (holds piece.now.places.items e.1 ≡ true)) piece.now.pairs.items }
    requires few_places { length piece.now.places.items ≤ MOST_GROUPS }
    requires few_pairs { length piece.now.pairs.items ≤ MOST_PAIRS }
    requires small { total_size weights.now ≤ 2 * 10 ^ 33 }
    ensures counted { IfOk result (λ set. length set.items ≡ length piece.now.places.items) }
    ensures greatest { IfOk result (λ set. (s : Problem) (f : ℕ → ℤ) → IsPiece s piece.now → weights.now ≡ map f piece.now.places.items
        → IsGreatestUpper s (holds piece.now.places.items) f (marked piece.now positions.now set.items)) }
    ensures tied { IfOk result (λ set. (s : Problem) (f : ℕ → ℤ) → IsPiece s piece.now → weights.now ≡ map f piece.now.places.items
        → IsTieIn tie s (holds piece.now.places.items) f (marked piece.now positions.now set.items)) }
{
    let round = turned_pairs(alloc, positions, &piece.pairs)?;
    lower_cut(alloc, &round, weights, tie)
}
