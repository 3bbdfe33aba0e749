ghost use Rattle.std.specs.Prelude.{◌≡◌, ◌<◌, length, OnOk, OnErr};
ghost use Rattle.ofit_outside.specs.Faults.{Rose};
ghost use Rattle.ofit_outside.specs.Sink.{with_more, GainsPrefix};

use ofit_outside::{PutFault, Sink};

/// The length of a piece, but for the last one.
const PIECE: usize = 4096;

/// Puts a text in pieces; no text is no put.
pub(crate) fn put_text<O: Sink>(out: &mut O, text: &[u8]) -> Result<(), PutFault>
    ensures ok { OnOk result (O.written out.new ≡ with_more (O.written out.old) text.now) }
    ensures err { OnErr result (GainsPrefix (O.written out.old) (O.written out.new) text.now) }
    ensures stays { OnOk result (O.faults out.new ≡ O.faults out.old) }
    ensures failed { OnErr result (Rose (O.faults out.old) (O.faults out.new)) }
    ensures some { OnErr result (0 < length text.now) }
{
    let mut rest = text;
    while !rest.is_empty() {
        let (piece, after) = rest.split_at(rest.len().min(PIECE));
        out.put(piece)?;
        rest = after;
    }
    Ok(())
}
