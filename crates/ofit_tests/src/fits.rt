ghost use Rattle.std.specs.Prelude.{◌<◌};

mod plain;

use ofit_fit::fit_study;
use ofit_num::Tally;
use ofit_study::{LossKind, Settings, Study, is_name};
use plain::are_found;
use std::alloc::Global;
use std::test::Fail;

/// A row of the group A, B, C, .. at a place: the place, the value and the weight.
pub(crate) type Weighed = (u32, i64, u64);

/// Numbers drawn one after another, in every run the same ones.
#[derive(Drop)]
struct Draws {
    state: u32,
}

impl Draws {
    /// A number below the limit.
    fn below(&mut self, limit: u32) -> u32
        requires { 0 < limit }
        ensures { result < limit }
    {
        self.state = (self.state % 65537 * 75 + 74) % 65537;
        self.state % limit
    }

    /// One to three rows for each of the groups, with values below the limit and weights up to 3.
    fn rows(&mut self, alloc: Global, count: u32, limit: u32) -> Result<Vec<Weighed>, Fail>
        requires { 0 < limit }
    {
        let mut rows = Vec::new(alloc);
        for place in 0..count {
            for _ in 0..1 + self.below(3) {
                let value = i64::from(self.below(limit));
                let weight = u64::from(1 + self.below(3));
                rows.push((place, value, weight))?;
            }
        }
        Ok(rows)
    }

    /// Up to eight pairs; some go downwards, have equal ends or stand twice.
    fn pairs(&mut self, alloc: Global, count: u32) -> Result<Vec<(u32, u32)>, Fail>
        requires { 0 < count }
    {
        let mut pairs = Vec::new(alloc);
        for _ in 0..self.below(9) {
            let low = self.below(count);
            let high = self.below(count);
            if self.below(4) == 0 {
                pairs.push((low, high))?;
            } else {
                pairs.push((low.min(high), low.max(high)))?;
            }
        }
        Ok(pairs)
    }
}

/// Adds the rows, each in the group of its place.
fn add_rows(study: &mut Study, rows: &[Weighed]) -> Result<(), Fail> {
    for (place, value, weight) in rows {
        let name = [b'A' + (*place % 26) as u8];
        if !is_name(&name) || value.unsigned_abs() > 1000 || *weight < 1 || *weight > 1000 {
            return Err(Fail::from("a row beyond the limits"));
        }
        study.add_row(&name, *value, *weight)?;
    }
    Ok(())
}

/// The study with these pairs of places.
fn linked(study: &Study, pairs: &[(u32, u32)]) -> Result<Study, Fail> {
    let count = study.group_count();
    if pairs.len() > 100 || !pairs.iter().all(|pair| pair.0 < count && pair.1 < count) {
        return Err(Fail::from("a pair beyond the groups"));
    }
    Ok(study.with_pairs(pairs)?)
}

/// The study of these rows and these pairs of places.
fn study_of(
    alloc: Global,
    loss: LossKind,
    rows: &[Weighed],
    pairs: &[(u32, u32)],
) -> Result<Study, Fail> {
    let settings = Settings {
        loss,
        places: 0,
        lo: None,
        hi: None,
    };
    let mut study = Study::empty(alloc, settings);
    add_rows(&mut study, rows)?;
    linked(&study, pairs)
}

/// Whether the study's fit has the values that a search finds.
fn are_searched(
    alloc: Global,
    study: &Study,
    tally: &mut Tally,
    count: u32,
    rows: &[Weighed],
    pairs: &[(u32, u32)],
) -> Result<bool, Fail> {
    if tally.fits() > 1000 || tally.cuts() > 1000 {
        return Err(Fail::from("too many fits"));
    }
    let values = fit_study(alloc, study, tally)?;
    Ok(are_found(study.settings().loss, &values, count, rows, pairs))
}

/// Whether rows that are drawn, with these pairs, are fitted as a search fits them.
fn is_searched(
    alloc: Global,
    draws: &mut Draws,
    tally: &mut Tally,
    count: u32,
    pairs: &[(u32, u32)],
    loss: LossKind,
) -> Result<bool, Fail> {
    let limit = match loss {
        LossKind::Squares => 21,
        LossKind::Median => 5,
    };
    let rows = draws.rows(alloc, count, limit)?;
    let study = study_of(alloc, loss, &rows, pairs)?;
    are_searched(alloc, &study, tally, count, &rows, pairs)
}

#[test]
fn random_orders_have_means_and_medians(rt: HostRuntime) -> Result<(), Fail> {
    let alloc = rt.alloc();
    let mut tally = Tally::new(&rt);
    let mut draws = Draws { state: 1 };
    for _ in 0..60 {
        let count = 1 + draws.below(6);
        let pairs = draws.pairs(alloc, count)?;
        for loss in [LossKind::Squares, LossKind::Median] {
            assert!(rt; is_searched(alloc, &mut draws, &mut tally, count, &pairs, loss)?);
        }
    }
    Ok(())
}
