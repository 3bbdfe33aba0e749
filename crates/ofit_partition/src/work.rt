ghost use Rattle.std.specs.Prelude.{◌≡◌, ◌<◌, ◌≤◌, ◌+◌, ◌*◌, Bool, All, IfOk, OnOk, length, replicate, None, []};
ghost use Rattle.ofit_num.specs.Meaning.{Meaning};
ghost use Rattle.ofit_partition.specs.Piece.{partition_problem};
ghost use Rattle.ofit_partition.specs.Work.{IsFittableOrder, IsWork, IsTakenOff, AreSettled, steps_left};

use crate::cut::{Cut, Ordered, cut_piece};
use crate::piece::{Piece, whole_piece};
use ofit_loss::Loss;
use ofit_num::Frac;
use std::alloc::{AllocError, Global};

/// The pieces that are left to be cut, the value of each place that has one, and room for the positions
/// of a piece's places.
#[derive(Drop)]
pub(crate) struct Work {
    pub pieces: Vec<Piece>,
    pub values: Vec<Option<Frac>>,
    pub positions: Vec<u32>,
}

/// Gives the places this value.
fn settle(values: &mut Vec<Option<Frac>>, places: &[u32], value: Frac)
    requires { All (λ g. g < length values.old.items) places.now }
    ensures { AreSettled places.now value values.old.items values.new.items }
{
    for place in places {
        values[*place as usize] = Some(value);
    }
}

/// No value for each of `count` places.
fn no_values(alloc: Global, count: u32) -> Result<Vec<Option<Frac>>, AllocError>
    ensures { IfOk result (λ values. values.items ≡ replicate count None) }
{
    let mut values = Vec::new(alloc);
    for _ in 0..count {
        values.push(None)?;
    }
    Ok(values)
}

/// All places in one piece.
fn start(alloc: Global, ordered: Ordered<'_>) -> Result<Work, AllocError>
    requires { IsFittableOrder ordered.groups.now ordered.pairs.now }
    ensures work { IfOk result (λ work. (m : Meaning) (strict : Bool) → IsWork m (partition_problem ordered.entry.groups.now ordered.entry.pairs.now) strict work.pieces.items work.values.items) }
    ensures positions { IfOk result (λ work. length work.positions.items ≡ length ordered.entry.groups.now) }
{
    let count = ordered.groups.count();
    let positions = vec![in alloc; 0u32; count as usize]?;
    let values = no_values(alloc, count)?;
    let mut pieces = Vec::new(alloc);
    if count > 0 {
        pieces.push(whole_piece(alloc, count, ordered.pairs)?)?;
    }
    Ok(Work {
        pieces,
        values,
        positions,
    })
}

/// Takes up a piece: its parts are left to be cut in turn, or one of them gets its value.
fn take_up<L: Loss>(
    alloc: Global,
    ordered: Ordered<'_>,
    work: &mut Work,
    piece: Piece,
) -> Result<(), AllocError>
    requires order { IsFittableOrder ordered.groups.now ordered.pairs.now }
    requires positions { length work.old.positions.items ≡ length ordered.groups.now }
    requires work { IsTakenOff L.meaning (partition_problem ordered.groups.now ordered.pairs.now) L.STRICT piece work.old.pieces.items work.old.values.items }
    ensures positions { OnOk result (length work.new.positions.items ≡ length ordered.entry.groups.now) }
    ensures work { OnOk result (IsWork L.meaning (partition_problem ordered.entry.groups.now ordered.entry.pairs.now) L.STRICT work.new.pieces.items work.new.values.items) }
    ensures fewer { OnOk result (steps_left work.new.pieces.items + 2 ≤ steps_left work.old.pieces.items + 2 * length piece.places.items) }
{
    match cut_piece::<L>(alloc, ordered, &piece, &mut work.positions)? {
        Cut::Open(parts) => {
            work.pieces.push(parts.rest)?;
            work.pieces.push(parts.chosen)?;
        }
        Cut::Settled(value, parts) => {
            settle(&mut work.values, &parts.chosen.places, value);
            if !parts.rest.places.is_empty() {
                work.pieces.push(parts.rest)?;
            }
        }
    }
    Ok(())
}

/// The value of each place.
pub(crate) fn settled_values<L: Loss>(
    alloc: Global,
    ordered: Ordered<'_>,
) -> Result<Vec<Option<Frac>>, AllocError>
    requires { IsFittableOrder ordered.groups.now ordered.pairs.now }
    ensures { IfOk result (λ values. IsWork L.meaning (partition_problem ordered.entry.groups.now ordered.entry.pairs.now) L.STRICT [] values.items) }
{
    let mut work = start(alloc, ordered)?;
    while let Some(piece) = work.pieces.pop() {
        take_up::<L>(alloc, ordered, &mut work, piece)?;
    }
    Ok(work.values)
}
