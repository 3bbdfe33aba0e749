ghost use Rattle.std.specs.Prelude.{◌≡◌, ◌+◌, ℕ, length, OnOk};
ghost use Rattle.ofit_study.specs.Added.{with_row};
ghost use Rattle.ofit_sample.specs.Generator.{number_after};
ghost use Rattle.ofit_sample.specs.Made.{row_drawn};
ghost use Rattle.ofit_sample.specs.Making.{HasRoom};

use crate::generator::Generator;
use crate::name::spell_name;
use ofit_study::{AddFault, Study};
use std::alloc::AllocError;

/// Adds a row with a drawn value and a drawn weight to the group at a place; `name` is room for its name.
pub(crate) fn add_drawn(
    study: &mut Study,
    generator: &mut Generator,
    name: &mut Vec<u8>,
    place: u32,
) -> Result<(), AllocError>
    requires { HasRoom study.old place }
    ensures added { OnOk result ((seed draws : ℕ) → generator.old.number ≡ number_after seed draws
        → study.new ≡ with_row study.old (row_drawn seed (length study.old.rows) place draws)) }
    ensures drawn { OnOk result ((seed draws : ℕ) → generator.old.number ≡ number_after seed draws
        → generator.new.number ≡ number_after seed (draws + 2)) }
{
    spell_name(name, place)?;
    let value = generator.draw(2_001);
    let weight = generator.draw(9);
    match study.add_row(name.as_slice(), i64::from(value), 1 + u64::from(weight)) {
        Ok(()) => Ok(()),
        Err(AddFault::Memory) => Err(AllocError),
        Err(_) => unreachable!(),
    }
}
