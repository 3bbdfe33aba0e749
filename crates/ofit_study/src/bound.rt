ghost use Rattle.std.specs.Prelude.{◌≡◌};
ghost use Rattle.ofit_study.specs.FieldText.{bound_text};

use itoa::Buffer;

/// The text of a bound in sheets and reports.
pub fn bound_name(bound: Option<i64>, buffer: &mut Buffer) -> &[u8]
    ensures { result.now ≡ bound_text bound }
{
    match bound {
        None => b"none",
        Some(units) => buffer.format(units).as_bytes(),
    }
}
