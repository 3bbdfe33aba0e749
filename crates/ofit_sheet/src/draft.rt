ghost use Rattle.std.specs.Prelude.{◌≡◌, ◌<◌, ◌^◌, ◌+◌, [], IfOk};
ghost use Rattle.ofit_sheet.specs.Told.{seen, told_of, told_with};

use crate::item::Item;
use crate::size::Size;
use ofit_num::Frac;
use std::alloc::{AllocError, Global};

/// What the records behind the header have told so far.
#[derive(Drop)]
pub(crate) struct Draft {
    /// The bounds, once their record is read.
    pub(crate) bounds: Option<(Option<i64>, Option<i64>)>,
    /// The size, once its record is read.
    pub(crate) size: Option<Size>,
    /// The places and values.
    pub(crate) values: Vec<(u32, Frac)>,
    /// The flows.
    pub(crate) flows: Vec<(u32, u32, i128)>,
    /// How many records there are behind the header.
    pub(crate) count: u32,
    /// The least place that a further value may have.
    pub(crate) least: u64,
    /// Whether the end is read.
    pub(crate) has_ended: bool,
}

/// The draft of no record.
pub(crate) fn empty_draft(alloc: Global) -> Draft
    ensures { seen result ≡ told_of [] }
{
    Draft {
        bounds: None,
        size: None,
        values: Vec::new(alloc),
        flows: Vec::new(alloc),
        count: 0,
        least: 0,
        has_ended: false,
    }
}

/// The draft with what one record more says.
pub(crate) fn with_item(draft: Draft, item: Item) -> Result<Draft, AllocError>
    requires { draft.count + 1 < 2 ^ 32 }
    ensures { IfOk result (λ after. seen after ≡ told_with (seen draft) item) }
{
    let mut draft = draft;
    draft.count += 1;
    match item {
        Item::Bounds(lo, hi) => {
            draft.bounds = Some((lo, hi));
        }
        Item::Size(size) => {
            draft.size = Some(size);
        }
        Item::Value(place, value) => {
            draft.values.push((place, value))?;
            draft.least = u64::from(place) + 1;
        }
        Item::Flow(low, high, amount) => {
            draft.flows.push((low, high, amount))?;
        }
        Item::End => {
            draft.has_ended = true;
        }
    }
    Ok(draft)
}
