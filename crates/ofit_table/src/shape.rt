ghost use Rattle.std.specs.Prelude.{◌≡◌, ◌≤◌, ◌<◌, ◌++◌, IfOk, Ok, Err, MatchResult, OnOk};
ghost use Rattle.ofit_num.specs.Pairs.{chain_pairs, falling, fanned, rising_to, tree_pairs, umbrella_pairs};
ghost use Rattle.ofit_study.specs.Study.{IsValid, names_of};
ghost use Rattle.ofit_table.specs.PatternRead.{ArePatternPairs, PatternRead};

use crate::fault::OrderFault;
use ofit_study::{Pattern, Study};
use std::alloc::{AllocError, Global};

/// Relates each place before the last to the next one.
fn add_rising(pairs: &mut Vec<(u32, u32)>, last: u32) -> Result<(), AllocError>
    ensures { OnOk result (pairs.new.items ≡ pairs.old.items ++ rising_to last) }
{
    for i in 0..last {
        pairs.push((i, i + 1))?;
    }
    Ok(())
}

/// Relates each place above the first, up to the last, to the one before it.
fn add_falling(pairs: &mut Vec<(u32, u32)>, first: u32, last: u32) -> Result<(), AllocError>
    requires { first ≤ last }
    ensures { OnOk result (pairs.new.items ≡ pairs.old.items ++ falling first last) }
{
    for i in first..last {
        pairs.push((i + 1, i))?;
    }
    Ok(())
}

/// Relates the root to each place from the first on and below the end.
fn add_fanned(
    pairs: &mut Vec<(u32, u32)>,
    root: u32,
    first: u32,
    end: u32,
) -> Result<(), AllocError>
    requires { first ≤ end }
    ensures { OnOk result (pairs.new.items ≡ pairs.old.items ++ fanned root first end) }
{
    for i in first..end {
        pairs.push((root, i))?;
    }
    Ok(())
}

/// The pairs of a chain of so many places.
fn chain_of(alloc: Global, count: u32) -> Result<Vec<(u32, u32)>, AllocError>
    ensures { IfOk result (λ pairs. pairs.items ≡ chain_pairs count) }
{
    let mut pairs = Vec::new(alloc);
    add_rising(&mut pairs, count.saturating_sub(1))?;
    Ok(pairs)
}

/// The pairs of an umbrella of so many places with this peak.
fn umbrella_of(alloc: Global, peak: u32, count: u32) -> Result<Vec<(u32, u32)>, AllocError>
    requires { peak < count }
    ensures { IfOk result (λ pairs. pairs.items ≡ umbrella_pairs peak count) }
{
    let mut pairs = Vec::new(alloc);
    add_rising(&mut pairs, peak)?;
    add_falling(&mut pairs, peak, count - 1)?;
    Ok(pairs)
}

/// The pairs of a tree of so many places with this root.
fn tree_of(alloc: Global, root: u32, count: u32) -> Result<Vec<(u32, u32)>, AllocError>
    requires { root < count }
    ensures { IfOk result (λ pairs. pairs.items ≡ tree_pairs root count) }
{
    let mut pairs = Vec::new(alloc);
    add_fanned(&mut pairs, root, 0, root)?;
    add_fanned(&mut pairs, root, root + 1, count)?;
    Ok(pairs)
}

/// The places of the pairs that the pattern relates.
fn pattern_pairs(
    alloc: Global,
    pattern: &Pattern,
    study: &Study,
) -> Result<Vec<(u32, u32)>, OrderFault>
    ensures pairs { MatchResult result (λ pairs. ArePatternPairs pattern.now (names_of study.now) (Ok pairs.items)) (λ fault. ArePatternPairs pattern.now (names_of study.now) (Err fault)) }
    ensures valid { IsValid study.now }
{
    let count = study.group_count();
    let pairs = match pattern {
        Pattern::NoPairs => Ok(Vec::new(alloc)),
        Pattern::Chain => chain_of(alloc, count),
        Pattern::Umbrella(peak) => match study.place_of(peak.bytes()) {
            Some(place) => umbrella_of(alloc, place, count),
            None => return Err(OrderFault::NoGroup),
        },
        Pattern::Tree(root) => match study.place_of(root.bytes()) {
            Some(place) => tree_of(alloc, place, count),
            None => return Err(OrderFault::NoGroup),
        },
    };
    match pairs {
        Ok(pairs) => Ok(pairs),
        Err(_) => Err(OrderFault::Memory),
    }
}

/// The study with the pairs of a pattern in place of its own. A chain relates each group to the next one.
/// An umbrella relates each group before its peak to the next one, and puts each group behind it below
/// the one before. A tree puts its root below each other group.
///
/// [`OrderFault::NoGroup`] where the peak or the root isn't a group. Time and memory linear in the study,
/// and the sorting of the pairs.
pub fn shape_pairs(alloc: Global, pattern: &Pattern, study: &Study) -> Result<Study, OrderFault>
    ensures { PatternRead pattern.now study.now result }
{
    let pairs = match pattern_pairs(alloc, pattern, study) {
        Ok(pairs) => pairs,
        Err(fault) => return Err(fault),
    };
    match study.with_pairs(&pairs) {
        Ok(after) => Ok(after),
        Err(_) => Err(OrderFault::Memory),
    }
}
