ghost use Rattle.std.specs.Prelude.{◌≡◌, ◌<◌, ◌≤◌, ◌^◌, ℕ, List, IfOk, length, map, slice_index, vec_len, Option, Some, None};
ghost use Rattle.std.specs.List.{All};
ghost use Rattle.ofit_num.specs.RowTotals.{all_rows};
ghost use Rattle.ofit_num.specs.Unbounded.{without_bounds};
ghost use Rattle.ofit_num.specs.Fit.{LeastBestValues};
ghost use Rattle.ofit_loss.specs.Rows.{AreFittable};
ghost use Rattle.ofit_chain.specs.Chain.{chain_problem};
ghost use Rattle.ofit_order.specs.Shape.{IsChainOf};
ghost use Rattle.ofit_study.specs.Study.{groups_of, problem_stated};
ghost use Rattle.ofit_fit.specs.Part.{part_of, position_among};
ghost use Rattle.ofit_fit.specs.Piece.{IsFittable, ArePlaces};
ghost use Rattle.ofit_fit.specs.Links.{AreWholeMembers, IsLinkWithin, IsPathFrom, link_at};

use crate::links::{links_down, links_up};
use crate::members::{groups_at, members_at};
use crate::values::values_put;
use ofit_chain::fit_chain;
use ofit_loss::Loss;
use ofit_num::Frac;
use ofit_order::Order;
use ofit_study::Study;
use std::alloc::{AllocError, Global};

/// The position of the first member without a link.
fn end_of_links(links: &[Option<u32>]) -> u32
    requires few { length links.now < 2 ^ 32 }
    requires some { (i : ℕ) × (i < length links.now) × (link_at links.now i ≡ None) }
    ensures inside { result < length links.now }
    ensures none { link_at links.now result ≡ None }
{
    for (position, link) in links.iter().enumerate() {
        if link.is_none() {
            return position as u32;
        }
    }
    unreachable!()
}

/// The positions that the links lead through, from `start` on, of which there are at most as many as
/// links.
fn follow(alloc: Global, links: &[Option<u32>], start: u32) -> Result<Vec<u32>, AllocError>
    requires start { start < length links.now }
    requires links { All (IsLinkWithin (length links.now)) links.now }
    ensures { IfOk result (λ path. (whole : List ℕ) → length whole ≤ length links.now → IsPathFrom links.now (Some start) whole → path.items ≡ whole) }
{
    let mut path = Vec::new(alloc);
    let mut next = Some(start);
    for _ in 0..links.len() {
        let Some(position) = next else {
            return Ok(path);
        };
        path.push(position)?;
        next = links[position as usize];
    }
    Ok(path)
}

/// The positions of a chain's members, from the lowest to the highest.
fn path_of(alloc: Global, pairs: &[(u32, u32)], members: &[u32]) -> Result<Vec<u32>, AllocError>
    requires whole { AreWholeMembers pairs.now members.now }
    requires some { 0 < length members.now }
    requires chain { (list : List ℕ) × IsChainOf pairs.now members.now list }
    ensures { IfOk result (λ path. (list : List ℕ) → IsChainOf pairs.now members.now list → path.items ≡ map (position_among members.now) list) }
{
    let ups = links_up(alloc, pairs, members)?;
    let downs = links_down(alloc, pairs, members)?;
    let lowest = end_of_links(downs.as_slice());
    follow(alloc, ups.as_slice(), lowest)
}

/// The values of the chain fit on the groups of the members at these positions.
fn fit_along<L: Loss>(
    alloc: Global,
    study: &Study,
    members: &[u32],
    path: &[u32],
) -> Result<Vec<Frac>, AllocError>
    requires filled { All (λ rows. 0 < length rows) (groups_of study.now) }
    requires fittable { AreFittable (all_rows (groups_of study.now)) }
    requires members { All (λ g. g < length (groups_of study.now)) members.now }
    requires path { All (λ p. p < length members.now) path.now }
    requires few { length path.now < 2 ^ 32 }
    requires once { (i j : ℕ) → i < length path.now → j < length path.now → slice_index members.now (slice_index path.now i) ≡ slice_index members.now (slice_index path.now j) → i ≡ j }
    ensures count { IfOk result (λ values. vec_len values ≡ length path.now) }
    ensures least_best { IfOk result (λ values.
        LeastBestValues L.meaning (chain_problem (map (problem_stated study.now).rows (map (slice_index members.now) path.now))) values.items) }
{
    let places = members_at(alloc, members, path)?;
    let groups = groups_at(alloc, study, places.as_slice())?;
    fit_chain::<L>(alloc, &groups)
}

/// The values of a component that is a chain, in the order of its members: those of the chain fit on
/// the groups from the lowest to the highest.
pub(crate) fn fit_as_chain<L: Loss>(
    alloc: Global,
    study: &Study,
    order: &Order,
    members: &[u32],
) -> Result<Vec<Frac>, AllocError>
    requires study { IsFittable study.now order.now }
    requires places { ArePlaces study.now order.now members.now }
    requires chain { (list : List ℕ) × IsChainOf order.now.pairs members.now list }
    ensures { IfOk result (λ values. LeastBestValues L.meaning (part_of (without_bounds (problem_stated study.now)) members.now) values.items) }
{
    let path = path_of(alloc, order.pairs(), members)?;
    let values = fit_along::<L>(alloc, study, members, path.as_slice())?;
    values_put(alloc, path.as_slice(), values.as_slice())
}
