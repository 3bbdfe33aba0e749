ghost use Rattle.std.specs.Prelude.{◌≡◌, ◌≤◌, ◌⊎◌, [], ◌∷◌, ℕ, IfErr, IfOk, drop, length};
ghost use Rattle.csv.specs.Records.{fields_of};
ghost use Rattle.ofit_study.specs.Name.{IsName};
ghost use Rattle.ofit_script.specs.declared.fault.ScriptFault.TheVariants.{Memory};
ghost use Rattle.ofit_script.specs.declared.kind.Kind.TheVariants as the_kind;
ghost use Rattle.ofit_script.specs.Kinds.{group_name as named};
ghost use Rattle.ofit_script.specs.Spelling.{FieldsFault, IsShaped};
ghost use Rattle.ofit_script.specs.Reading.{FieldsRead};

use crate::fault::ScriptFault;
use crate::field::{field_at, group_name, row_number, row_value, row_weight};
use crate::kind::Kind;
use crate::line::Line;
use csv::ByteRecord;
use ofit_study::{Edit, Name};
use std::alloc::Global;

/// The line that puts in a row.
fn added(alloc: Global, row: &ByteRecord, places: u32, number: u32) -> Result<Line, ScriptFault>
    requires shaped { IsShaped (fields_of row.now) the_kind.Add }
    requires places { places ≤ 6 }
    ensures { FieldsRead places the_kind.Add (fields_of row.now) number result }
{
    let group = match group_name(alloc, field_at(row, 1), number) {
        Ok(group) => group,
        Err(fault) => return Err(fault),
    };
    let value = match row_value(field_at(row, 2), places, number) {
        Ok(value) => value,
        Err(fault) => return Err(fault),
    };
    let weight = match row_weight(field_at(row, 3), number) {
        Ok(weight) => weight,
        Err(fault) => return Err(fault),
    };
    Ok(Line::Change(Edit::Add {
        group,
        value,
        weight,
    }))
}

/// The line that takes a row away.
fn removed(row: &ByteRecord, number: u32) -> Result<Line, ScriptFault>
    requires { IsShaped (fields_of row.now) the_kind.Remove }
    ensures { (places : ℕ) → FieldsRead places the_kind.Remove (fields_of row.now) number result }
{
    match row_number(field_at(row, 1), number) {
        Ok(number) => Ok(Line::Change(Edit::Remove { number })),
        Err(fault) => Err(fault),
    }
}

/// The line that gives a row another value.
fn revalued(row: &ByteRecord, places: u32, number: u32) -> Result<Line, ScriptFault>
    requires shaped { IsShaped (fields_of row.now) the_kind.Value }
    requires places { places ≤ 6 }
    ensures { FieldsRead places the_kind.Value (fields_of row.now) number result }
{
    let of = match row_number(field_at(row, 1), number) {
        Ok(of) => of,
        Err(fault) => return Err(fault),
    };
    match row_value(field_at(row, 2), places, number) {
        Ok(value) => Ok(Line::Change(Edit::Value { number: of, value })),
        Err(fault) => Err(fault),
    }
}

/// The line that gives a row another weight.
fn reweighted(row: &ByteRecord, number: u32) -> Result<Line, ScriptFault>
    requires { IsShaped (fields_of row.now) the_kind.Weight }
    ensures { (places : ℕ) → FieldsRead places the_kind.Weight (fields_of row.now) number result }
{
    let of = match row_number(field_at(row, 1), number) {
        Ok(of) => of,
        Err(fault) => return Err(fault),
    };
    match row_weight(field_at(row, 2), number) {
        Ok(weight) => Ok(Line::Change(Edit::Weight { number: of, weight })),
        Err(fault) => Err(fault),
    }
}

/// The names of the low and the high group of a line with a pair.
fn two_names(alloc: Global, row: &ByteRecord, number: u32) -> Result<(Name, Name), ScriptFault>
    requires { length (fields_of row.now) ≡ 3 }
    ensures ok { IfOk result (λ names. (drop 1 (fields_of row.now) ≡ names.0 ∷ names.1 ∷ []) × IsName names.0 × IsName names.1) }
    ensures err { IfErr result (λ fault. (fault ≡ Memory) ⊎ ((places : ℕ) → FieldsFault places (named ∷ named ∷ []) (drop 1 (fields_of row.now)) number fault)) }
{
    let low = match group_name(alloc, field_at(row, 1), number) {
        Ok(low) => low,
        Err(fault) => return Err(fault),
    };
    match group_name(alloc, field_at(row, 2), number) {
        Ok(high) => Ok((low, high)),
        Err(fault) => Err(fault),
    }
}

/// The line that puts in a pair.
fn related(alloc: Global, row: &ByteRecord, number: u32) -> Result<Line, ScriptFault>
    requires { IsShaped (fields_of row.now) the_kind.Relate }
    ensures { (places : ℕ) → FieldsRead places the_kind.Relate (fields_of row.now) number result }
{
    match two_names(alloc, row, number) {
        Ok((low, high)) => Ok(Line::Change(Edit::Relate { low, high })),
        Err(fault) => Err(fault),
    }
}

/// The line that takes a pair away.
fn unrelated(alloc: Global, row: &ByteRecord, number: u32) -> Result<Line, ScriptFault>
    requires { IsShaped (fields_of row.now) the_kind.Unrelate }
    ensures { (places : ℕ) → FieldsRead places the_kind.Unrelate (fields_of row.now) number result }
{
    match two_names(alloc, row, number) {
        Ok((low, high)) => Ok(Line::Change(Edit::Unrelate { low, high })),
        Err(fault) => Err(fault),
    }
}

/// The line of a record of this kind that has as many fields as such a line, or its first fault by those.
pub(crate) fn line_of(
    alloc: Global,
    row: &ByteRecord,
    kind: Kind,
    places: u32,
    number: u32,
) -> Result<Line, ScriptFault>
    requires shaped { IsShaped (fields_of row.now) kind }
    requires places { places ≤ 6 }
    ensures { FieldsRead places kind (fields_of row.now) number result }
{
    match kind {
        Kind::Add => added(alloc, row, places, number),
        Kind::Remove => removed(row, number),
        Kind::Value => revalued(row, places, number),
        Kind::Weight => reweighted(row, number),
        Kind::Relate => related(alloc, row, number),
        Kind::Unrelate => unrelated(alloc, row, number),
        Kind::Report => Ok(Line::Report),
        Kind::Sheet => Ok(Line::Sheet),
    }
}
