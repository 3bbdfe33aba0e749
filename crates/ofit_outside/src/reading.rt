ghost use Rattle.std.specs.Prelude.{◌≡◌, ◌<◌, ◌≤◌, length, IfOk, OnOk, IfErr, IfSome, IsErrOf};
ghost use Rattle.std.specs.Io.KnownBytes.{IsAtEnd};
ghost use Rattle.ofit_outside.specs.Streams.{IsNoInterruption};
ghost use Rattle.ofit_outside.specs.declared.reading.ReadFault.TheVariants.{Memory};

use std::alloc::{AllocError, Global};
use std::io;
use std::io::{ErrorKind, Read};

/// Why a reading gave nothing.
pub(crate) enum ReadFault {
    /// The reader failed, or was interrupted without end.
    Reader(io::Error),
    /// There are more bytes than were asked for.
    Long,
    /// Memory was wanting.
    Memory,
}

impl From<AllocError> for ReadFault {
    ghost from_gives = { λ _ e. e ≡ Memory };

    fn from(_: AllocError) -> Self {
        ReadFault::Memory
    }
}

/// All the bytes that a reader has left, if there are at most `limit`. An interrupted read is no
/// error and is tried again.
pub(crate) fn read_whole<R: Read>(
    alloc: Global,
    reader: &mut R,
    limit: u64,
) -> Result<Vec<u8>, ReadFault>
    ensures within { IfOk result (λ bytes. length bytes.items ≤ limit) }
    ensures whole { IfSome (R.remaining reader.old) (λ left. IfOk result (λ bytes. bytes.items ≡ left)) }
    ensures at_end { OnOk result (IsAtEnd (R.remaining reader.new)) }
    ensures long { IfSome (R.remaining reader.old) (λ left.
        IsErrOf result ReadFault.Long → limit < length left) }
    ensures retried { IfErr result (λ fault. IsNoInterruption fault) }
{
    let mut bytes = Vec::new(alloc);
    let mut piece = [0u8; 4096];
    for _ in 0..u64::MAX {
        let count = match reader.read(&mut piece) {
            Ok(0) => return Ok(bytes),
            Ok(count) => count,
            Err(error) if error.kind() == ErrorKind::Interrupted => continue,
            Err(error) => return Err(ReadFault::Reader(error)),
        };
        if count as u64 > limit - bytes.len() as u64 {
            return Err(ReadFault::Long);
        }
        bytes.extend_from_slice(&piece[..count])?;
    }
    Err(ReadFault::Reader(io::Error::from(ErrorKind::TimedOut)))
}
