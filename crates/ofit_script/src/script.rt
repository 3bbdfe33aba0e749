use crate::fault::ScriptFault;
use crate::kind::{Kind, count_of, kind_of, prints_too_many};
use crate::limits::{MOST_LINES, MOST_PRINTS};
use crate::line::{Line, with_print};
use crate::record::line_of;
use csv::ByteRecord;
use ofit_records::field_of;
use std::alloc::{AllocError, Global};
use std::marker::Model;

/// The lines of a script: at most 10,000, of which at most 100 print a report or a sheet. The value and
/// the weight of each edit are within the limits.
#[derive(Drop)]
pub struct Script {
    lines: Vec<Line>,
    prints: u32,
}

impl Model for Script {
    ghost use Rattle.std.specs.Prelude.{◌≡◌, List};
    ghost use Rattle.ofit_script.specs.declared.line.Line.{Line as Stated};
    ghost use Rattle.ofit_script.specs.Lines.{print_count};
    ghost use Rattle.ofit_script.specs.Script.{IsScript};

    ghost Value = { List Stated };

    ghost view = { λ s. s.lines.items };

    ghost invariant = { λ s. IsScript s.lines.items × (s.prints ≡ print_count s.lines.items) };
}

impl Script {
    ghost use Rattle.std.specs.Prelude.{◌≡◌, ◌≤◌, ◌<◌, ◌+◌, ◌⊎◌, ◌++◌, ◌∷◌, [], ℕ, IfErr, IfOk, OnErr, OnOk, Some, length, slice_get};
    ghost use Rattle.csv.specs.Records.{fields_of};
    ghost use Rattle.ofit_script.specs.declared.fault.ScriptFault.TheVariants.{Memory};
    ghost use Rattle.ofit_script.specs.Lines.{print_count};
    ghost use Rattle.ofit_script.specs.Script.{IsLineInLimits, IsScript};
    ghost use Rattle.ofit_script.specs.Spelling.{IsShaped, RecordFault, Spells};
    ghost use Rattle.ofit_script.specs.Reading.{HasRoom};

    /// The script of no lines. It takes no memory.
    pub(crate) fn empty(alloc: Global) -> Script
        ensures empty { result ≡ [] }
        ensures kept { IsScript result }
    {
        Script {
            lines: Vec::new(alloc),
            prints: 0,
        }
    }

    /// The number of lines, at most 10,000.
    pub fn count(&self) -> u32
        ensures count { result ≡ length self.now }
        ensures kept { IsScript self.now }
    {
        self.lines.len() as u32
    }

    /// The number of lines that print a report or a sheet.
    fn print_count(&self) -> u32
        ensures { result ≡ print_count self.now }
    {
        self.prints
    }

    /// A line of the script.
    pub fn line(&self, index: u32) -> &Line
        requires { index < length self.now }
        ensures line { slice_get self.now index ≡ Some result.now }
        ensures limits { IsLineInLimits result.now }
    {
        &self.lines[index as usize]
    }

    pub(crate) fn allocator(&self) -> Global {
        *self.lines.allocator()
    }

    /// The kind of a record behind these lines, which has as many fields as a line of it, and for which
    /// there is room. Its first fault otherwise, the number being its own.
    fn next_kind(&self, row: &ByteRecord, number: u32) -> Result<Kind, ScriptFault>
        requires { number ≡ length self.now + 1 }
        ensures shaped { IfOk result (IsShaped (fields_of row.now)) }
        ensures room { IfOk result (HasRoom self.now) }
        ensures err { IfErr result (λ fault. (places : ℕ) → RecordFault places self.now (fields_of row.now) number fault) }
    {
        if self.count() >= MOST_LINES {
            return Err(ScriptFault::TooManyLines(number));
        }
        let Some(first) = field_of(row, 0) else {
            return Err(ScriptFault::UnknownLine(number));
        };
        let Some(kind) = kind_of(first) else {
            return Err(ScriptFault::UnknownLine(number));
        };
        if row.len() != count_of(kind) {
            return Err(ScriptFault::FieldCount(number));
        }
        if prints_too_many(kind, self.print_count(), MOST_PRINTS) {
            return Err(ScriptFault::TooManyPrints(number));
        }
        Ok(kind)
    }

    /// The line of a record behind these lines, or its first fault.
    pub(crate) fn next_line(&self, row: &ByteRecord, places: u32) -> Result<Line, ScriptFault>
        requires { places ≤ 6 }
        ensures ok { IfOk result (λ line. Spells places (fields_of row.now) line) }
        ensures kept { IfOk result (λ line. IsScript (self.now ++ line ∷ [])) }
        ensures err { IfErr result (λ fault. (fault ≡ Memory) ⊎ RecordFault places self.now (fields_of row.now) (length self.now + 1) fault) }
    {
        let number = self.count() + 1;
        match self.next_kind(row, number) {
            Ok(kind) => line_of(self.allocator(), row, kind, places, number),
            Err(fault) => Err(fault),
        }
    }

    /// Puts a line behind the others.
    pub(crate) fn add(&mut self, line: Line) -> Result<(), AllocError>
        requires { IsScript (self.old ++ line ∷ []) }
        ensures ok { OnOk result (self.new ≡ self.old ++ line ∷ []) }
        ensures err { OnErr result (self.new ≡ self.old) }
    {
        let prints = with_print(self.prints, &line);
        self.lines.push(line)?;
        self.prints = prints;
        Ok(())
    }
}
