ghost use Rattle.std.specs.Prelude.{◌≡◌, IfOk, OnOk};
ghost use Rattle.ofit_sample.specs.Made.{group_name};

use ofit_num::append_whole;
use ofit_study::Name;
use std::alloc::{AllocError, Global};

/// Spells the name of the group at a place, in place of what the text was.
pub(crate) fn spell_name(text: &mut Vec<u8>, place: u32) -> Result<(), AllocError>
    ensures { OnOk result (text.new.items ≡ group_name place) }
{
    text.clear();
    text.push(b'g')?;
    append_whole(text, u128::from(place) + 1)
}

/// The name of the group at a place.
pub(crate) fn name_of(alloc: Global, place: u32) -> Result<Name, AllocError>
    ensures { IfOk result (λ name. name ≡ group_name place) }
{
    let mut text = Vec::new(alloc);
    spell_name(&mut text, place)?;
    match Name::make(alloc, text.as_slice())? {
        Some(name) => Ok(name),
        None => unreachable!(),
    }
}
