ghost use Rattle.std.specs.Prelude.{◌≡◌, ◌++◌, OnOk, OnErr, decimal};
ghost use Rattle.std.specs.Fmt.{signed_decimal};

use itoa::Buffer;
use std::alloc::AllocError;

/// Appends the canonical text of a whole number. At want of memory nothing is appended.
pub fn append_whole(into: &mut Vec<u8>, number: u128) -> Result<(), AllocError>
    ensures ok { OnOk result (into.new.items ≡ into.old.items ++ decimal number) }
    ensures err { OnErr result (into.new.items ≡ into.old.items) }
{
    let mut buffer = Buffer::new();
    into.extend_from_slice(buffer.format(number).as_bytes())
}

/// Appends the canonical text of a number with a sign. At want of memory nothing is appended.
pub fn append_signed(into: &mut Vec<u8>, number: i128) -> Result<(), AllocError>
    ensures ok { OnOk result (into.new.items ≡ into.old.items ++ signed_decimal number) }
    ensures err { OnErr result (into.new.items ≡ into.old.items) }
{
    let mut buffer = Buffer::new();
    into.extend_from_slice(buffer.format(number).as_bytes())
}
