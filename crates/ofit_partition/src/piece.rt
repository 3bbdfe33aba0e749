ghost use Rattle.std.specs.Prelude.{◌≡◌, ◌<◌, ◌^◌, All, IfOk, length, not, ◌&&◌};
ghost use Rattle.std.specs.List.{AllPairs, filter, range_with_len};
ghost use Rattle.ofit_partition.specs.Piece.{is_marked, IsInside, AreNumbered, AreParts};

use std::alloc::{AllocError, Global};

/// Some of the places, rising, and the pairs between them.
pub(crate) struct Piece {
    pub places: Vec<u32>,
    pub pairs: Vec<(u32, u32)>,
}

/// Written out, so that a proof meets one call where a value is let go.
impl Drop for Piece {
    fn drop(self) {
        let Piece { places, pairs } = self;
        drop(places);
        drop(pairs);
    }
}

/// A piece that is cut in two.
#[derive(Drop)]
pub(crate) struct Parts {
    pub chosen: Piece,
    pub rest: Piece,
}

/// The places below `count`, and all pairs.
pub(crate) fn whole_piece(
    alloc: Global,
    count: u32,
    pairs: &[(u32, u32)],
) -> Result<Piece, AllocError>
    ensures places { IfOk result (λ piece. piece.places.items ≡ range_with_len 0 count) }
    ensures pairs { IfOk result (λ piece. piece.pairs.items ≡ pairs.now) }
{
    let places = (0..count).collect(alloc)?;
    let pairs = Vec::from_slice(alloc, pairs)?;
    Ok(Piece { places, pairs })
}

/// Writes down for each of the places at which position of the list it stands.
pub(crate) fn number_places(positions: &mut [u32], places: &[u32])
    requires inside { All (λ g. g < length positions.old) places.now }
    requires rising { AllPairs (λ x y. x < y) places.now }
    requires few { length places.now < 2 ^ 32 }
    ensures { AreNumbered positions.new places.now }
{
    for (position, place) in places.iter().enumerate() {
        positions[*place as usize] = position as u32;
    }
}

/// Whether the set of positions holds that of the place.
fn is_in(positions: &[u32], set: &[bool], place: u32) -> bool
    requires { IsInside positions.now set.now place }
    ensures { result ≡ is_marked positions.now set.now place }
{
    set[positions[place as usize] as usize]
}

/// The places at the positions of the set, and the others.
fn split_places(
    alloc: Global,
    places: &[u32],
    positions: &[u32],
    set: &[bool],
) -> Result<(Vec<u32>, Vec<u32>), AllocError>
    requires { All (IsInside positions.now set.now) places.now }
    ensures chosen { IfOk result (λ parts. parts.0.items ≡ filter (is_marked positions.now set.now) places.now) }
    ensures rest { IfOk result (λ parts. parts.1.items ≡ filter (λ g. not (is_marked positions.now set.now g)) places.now) }
{
    let mut chosen = Vec::new(alloc);
    let mut rest = Vec::new(alloc);
    for place in places {
        if is_in(positions, set, *place) {
            chosen.push(*place)?;
        } else {
            rest.push(*place)?;
        }
    }
    Ok((chosen, rest))
}

/// The pairs between two places at the positions of the set, and those between two others.
fn split_pairs(
    alloc: Global,
    pairs: &[(u32, u32)],
    positions: &[u32],
    set: &[bool],
) -> Result<(Vec<(u32, u32)>, Vec<(u32, u32)>), AllocError>
    requires { All (λ e. IsInside positions.now set.now e.0 × IsInside positions.now set.now e.1) pairs.now }
    ensures chosen { IfOk result (λ parts. parts.0.items ≡ filter (λ e. is_marked positions.now set.now e.0 && is_marked positions.now set.now e.1) pairs.now) }
    ensures rest { IfOk result (λ parts. parts.1.items ≡ filter (λ e. not (is_marked positions.now set.now e.0) && not (is_marked positions.now set.now e.1)) pairs.now) }
{
    let mut chosen = Vec::new(alloc);
    let mut rest = Vec::new(alloc);
    for pair in pairs {
        let low = is_in(positions, set, pair.0);
        let high = is_in(positions, set, pair.1);
        if low && high {
            chosen.push(*pair)?;
        }
        if !low && !high {
            rest.push(*pair)?;
        }
    }
    Ok((chosen, rest))
}

/// The piece of the places at the positions of the set, and that of the others.
pub(crate) fn split(
    alloc: Global,
    piece: &Piece,
    positions: &[u32],
    set: &[bool],
) -> Result<Parts, AllocError>
    requires places { All (IsInside positions.now set.now) piece.now.places.items }
    requires pairs { All (λ e. IsInside positions.now set.now e.0 × IsInside positions.now set.now e.1) piece.now.pairs.items }
    ensures { IfOk result (AreParts (is_marked positions.now set.now) piece.now) }
{
    let (chosen, rest) = split_places(alloc, &piece.places, positions, set)?;
    let (chosen_pairs, rest_pairs) = split_pairs(alloc, &piece.pairs, positions, set)?;
    Ok(Parts {
        chosen: Piece {
            places: chosen,
            pairs: chosen_pairs,
        },
        rest: Piece {
            places: rest,
            pairs: rest_pairs,
        },
    })
}
