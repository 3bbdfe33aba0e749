ghost use Rattle.std.specs.Prelude.{◌≡◌, ◌++◌, OnOk, OnErr};
ghost use Rattle.std.specs.List.{flat_map};

use std::alloc::AllocError;

/// Appends pieces one after the other. After want of memory the text is as before.
pub(crate) fn append_all(into: &mut Vec<u8>, pieces: &[&[u8]]) -> Result<(), AllocError>
    ensures ok { OnOk result (into.new.items ≡ into.old.items ++ flat_map (λ p. p.now) pieces.now) }
    ensures err { OnErr result (into.new.items ≡ into.old.items) }
{
    let before = into.len();
    for piece in pieces {
        if let Err(full) = into.extend_from_slice(piece) {
            into.truncate(before);
            return Err(full);
        }
    }
    Ok(())
}
