ghost use Rattle.std.specs.Prelude.{◌≡◌, ◌<◌, IfOk, length};
ghost use Rattle.ofit_study.specs.Study.{names_of, places_of};
ghost use Rattle.ofit_num.specs.Tight.{is_tight, tight_among};

use crate::study::Study;
use ofit_num::Frac;
use std::alloc::{AllocError, Global};

/// Whether both ends of the pair have one value.
pub fn is_tight(values: &[Frac], pair: (u32, u32)) -> bool
    requires low { pair.0 < length values.now }
    requires high { pair.1 < length values.now }
    ensures { result ≡ is_tight values.now pair }
{
    let low = &values[pair.0 as usize];
    let high = &values[pair.1 as usize];
    low.compare(high).is_eq()
}

/// The study's pairs whose groups have one value, in their order. Linear time and memory.
pub fn tight_pairs(
    alloc: Global,
    study: &Study,
    values: &[Frac],
) -> Result<Vec<(u32, u32)>, AllocError>
    requires { length values.now ≡ length (names_of study.now) }
    ensures { IfOk result (λ pairs. pairs.items ≡ tight_among values.now (places_of study.now)) }
{
    study.keeps_limits();
    let mut pairs = Vec::new(alloc);
    for index in 0..study.pair_count() {
        let pair = study.pair_at(index);
        if is_tight(values, pair) {
            pairs.push(pair)?;
        }
    }
    Ok(pairs)
}
