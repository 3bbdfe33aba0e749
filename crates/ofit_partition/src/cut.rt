ghost use Rattle.std.specs.Prelude.{◌≡◌, ◌<◌, ◌⊎◌, ◌↔◌, true, false, Any, IsTrue, IfOk, length};
ghost use Rattle.ofit_cut.specs.declared.tie.Tie.TheVariants.{Smallest, Largest};
ghost use Rattle.ofit_partition.specs.Piece.{IsPiece, partition_problem};
ghost use Rattle.ofit_partition.specs.Cut.{IsCutOf};
ghost use Rattle.ofit_partition.specs.Work.{IsFittableOrder};

use crate::piece::{Parts, Piece, number_places, split};
use crate::pool::{ends_at, pooled_value};
use crate::upper::greatest_upper;
use ofit_cut::Tie;
use ofit_loss::Loss;
use ofit_num::{Frac, Groups};
use std::alloc::{AllocError, Global};

/// Groups, and the pairs of their order.
#[derive(Clone, Copy)]
pub(crate) struct Ordered<'a> {
    pub groups: &'a Groups,
    pub pairs: &'a [(u32, u32)],
}

/// What a step makes of a piece.
#[derive(Drop)]
pub(crate) enum Cut {
    /// The chosen part's values are above those of the rest; both are left to be cut.
    Open(Parts),
    /// The chosen part has this value, and the values of the rest are at most that.
    Settled(Frac, Parts),
}

/// Whether the set holds a position.
fn has_any(set: &[bool]) -> bool
    ensures { IsTrue result ↔ Any (λ b. b ≡ true) set.now }
{
    set.iter().any(|inside| *inside)
}

/// The tie that a level of the loss asks for.
fn level_tie<L: Loss>() -> Tie
    ensures { ((L.STRICT ≡ true) × (result ≡ Largest)) ⊎ ((L.STRICT ≡ false) × (result ≡ Smallest)) }
{
    if L::STRICT {
        Tie::Largest
    } else {
        Tie::Smallest
    }
}

/// Cuts a piece at the value that pools it. The first cut is the smallest upper set that gains most by
/// rising from this value. Where none gains, the places that the value suits are cut off: an upper set
/// that would lose least by falling from it.
pub(crate) fn cut_piece<L: Loss>(
    alloc: Global,
    ordered: Ordered<'_>,
    piece: &Piece,
    positions: &mut [u32],
) -> Result<Cut, AllocError>
    requires order { IsFittableOrder ordered.groups.now ordered.pairs.now }
    requires piece { IsPiece (partition_problem ordered.groups.now ordered.pairs.now) piece.now }
    requires some { 0 < length piece.now.places.items }
    requires positions { length positions.old ≡ length ordered.groups.now }
    ensures { IfOk result (IsCutOf L.meaning (partition_problem ordered.entry.groups.now ordered.entry.pairs.now) L.STRICT piece.now) }
{
    number_places(positions, &piece.places);
    let value = pooled_value::<L>(alloc, ordered.groups, &piece.places)?;
    let ends = ends_at::<L>(alloc, ordered.groups, &piece.places, &value)?;
    let first = greatest_upper(alloc, piece, positions, &ends.least, Tie::Smallest)?;
    if has_any(&first) {
        let parts = split(alloc, piece, positions, &first)?;
        return Ok(Cut::Open(parts));
    }
    let tie = level_tie::<L>();
    let second = greatest_upper(alloc, piece, positions, &ends.greatest, tie)?;
    let parts = split(alloc, piece, positions, &second)?;
    Ok(Cut::Settled(value, parts))
}
