ghost use Rattle.std.specs.Prelude.{◌⊎◌, IsErrOf};
ghost use Rattle.ofit_study.specs.Settings.{InLimits};
ghost use Rattle.ofit_script.specs.declared.fault.ScriptFault.TheVariants.{Memory};
ghost use Rattle.ofit_script.specs.ScriptRead.{ScriptRead};

use crate::fault::ScriptFault;
use crate::script::Script;
use csv::ByteRecord;
use ofit_records::Records;
use ofit_study::Settings;
use std::alloc::Global;

/// The script that bytes spell: each record is a line. A value is a decimal of whole units of
/// 10^(-places).
///
/// The first fault otherwise is that of the first record that has one, and of its faults the first of
/// [`ScriptFault::TooManyLines`], [`ScriptFault::UnknownLine`], [`ScriptFault::FieldCount`],
/// [`ScriptFault::TooManyPrints`] and what its fields give from left to right. Time linear in the bytes,
/// memory linear in the lines and the longest record.
pub fn read_script(alloc: Global, bytes: &[u8], settings: &Settings) -> Result<Script, ScriptFault>
    requires { InLimits settings.now }
    ensures { IsErrOf result Memory ⊎ ScriptRead bytes.now settings.now result }
{
    let mut records = match Records::new(alloc, bytes) {
        Ok(records) => records,
        Err(_) => return Err(ScriptFault::Memory),
    };
    let places = settings.places;
    let mut row = ByteRecord::new(alloc);
    let mut script = Script::empty(alloc);
    loop {
        match records.read_next(&mut row) {
            Ok(true) => {}
            Ok(false) => return Ok(script),
            Err(_) => return Err(ScriptFault::Memory),
        }
        let line = match script.next_line(&row, places) {
            Ok(line) => line,
            Err(fault) => return Err(fault),
        };
        if let Err(_) = script.add(line) {
            return Err(ScriptFault::Memory);
        }
    }
}
