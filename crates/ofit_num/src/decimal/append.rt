ghost use Rattle.std.specs.Prelude.{◌≡◌, ◌++◌, ◌≤◌, ◌<◌, ◌^◌, List, ℕ, OnOk, OnErr};
ghost use Rattle.ofit_num.specs.DecimalText.{IsFixed, minus_of, pointed};
ghost use Rattle.ofit_num.specs.Digits.{ArePadded};

use crate::text::append_whole;
use std::alloc::AllocError;

/// Appends the last `count` digits of a number that has no more.
fn append_padded(into: &mut Vec<u8>, number: u128, count: u32) -> Result<(), AllocError>
    requires { number < 10 ^ count }
    ensures ok { OnOk result ((digits : List ℕ) × ArePadded digits count number × (into.new.items ≡ into.old.items ++ digits)) }
    ensures err { OnErr result ((more : List ℕ) × (into.new.items ≡ into.old.items ++ more)) }
{
    if count == 0 {
        return Ok(());
    }
    append_padded(into, number / 10, count - 1)?;
    into.push(b'0' + (number % 10) as u8)?;
    Ok(())
}

/// Appends the minus sign of a number that has one.
fn append_minus(into: &mut Vec<u8>, units: i128) -> Result<(), AllocError>
    ensures ok { OnOk result (into.new.items ≡ into.old.items ++ minus_of units) }
    ensures err { OnErr result (into.new.items ≡ into.old.items) }
{
    if units < 0 {
        into.push(b'-')?;
    }
    Ok(())
}

/// Appends a point and so many digits, where there are any.
fn append_pointed(into: &mut Vec<u8>, number: u128, count: u32) -> Result<(), AllocError>
    requires { number < 10 ^ count }
    ensures ok { OnOk result ((digits : List ℕ) × ArePadded digits count number × (into.new.items ≡ into.old.items ++ pointed digits)) }
    ensures err { OnErr result ((more : List ℕ) × (into.new.items ≡ into.old.items ++ more)) }
{
    if count == 0 {
        return Ok(());
    }
    into.push(b'.')?;
    append_padded(into, number, count)
}

/// Appends the pieces one by one, and leaves those that stand where memory runs out.
fn append_pieces(into: &mut Vec<u8>, units: i128, places: u32) -> Result<(), AllocError>
    requires { places ≤ 9 }
    ensures ok { OnOk result ((text : List ℕ) × IsFixed text units places × (into.new.items ≡ into.old.items ++ text)) }
    ensures err { OnErr result ((more : List ℕ) × (into.new.items ≡ into.old.items ++ more)) }
{
    let size = units.unsigned_abs();
    let one = 10u128.pow(places);
    append_minus(into, units)?;
    append_whole(into, size / one)?;
    append_pointed(into, size % one, places)
}

/// Appends the text of a number of units of 10^(-places): a sign where it is negative, the whole part and,
/// where `places` is above 0, a point and exactly that many digits. After want of memory nothing was
/// appended.
pub fn append_decimal(into: &mut Vec<u8>, units: i128, places: u32) -> Result<(), AllocError>
    requires { places ≤ 9 }
    ensures ok { OnOk result ((text : List ℕ) × IsFixed text units places × (into.new.items ≡ into.old.items ++ text)) }
    ensures err { OnErr result (into.new.items ≡ into.old.items) }
{
    let length = into.len();
    match append_pieces(into, units, places) {
        Ok(()) => Ok(()),
        Err(error) => {
            into.truncate(length);
            Err(error)
        }
    }
}
