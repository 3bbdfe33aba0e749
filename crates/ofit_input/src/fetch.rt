ghost use Rattle.std.specs.Prelude.{◌≡◌, IfOk, IfErr, OnOk};
ghost use Rattle.ofit_input.specs.Files.{IsFile, FileRefusal};
ghost use Rattle.ofit_input.specs.Stops.{Stops};

use crate::refusal::{Refusal, Which};
use crate::stop::Stop;
use ofit_num::LONGEST_FILE;
use ofit_outside::{FetchFault, Folder};
use std::alloc::Global;

/// The bytes of the file of this name and kind.
pub(crate) fn fetch<F: Folder>(
    alloc: Global,
    folder: &mut F,
    name: &str,
    which: Which,
) -> Result<Vec<u8>, Stop>
    ensures bytes { IfOk result (λ bytes. IsFile (F.held folder.old) name.now bytes.items) }
    ensures stops { IfErr result (λ stop. Stops (F.faults folder.old) (F.faults folder.new) (FileRefusal (F.held folder.old) name.now which) stop) }
    ensures stays { OnOk result (F.faults folder.new ≡ F.faults folder.old) }
    ensures held { F.held folder.new ≡ F.held folder.old }
{
    match folder.fetch(alloc, name, LONGEST_FILE) {
        Ok(bytes) => Ok(bytes),
        Err(FetchFault::Failed) => Err(Stop::ReadFault),
        Err(FetchFault::Missing) => Err(Stop::Refused(Refusal::FileMissing(which))),
        Err(FetchFault::Long) => Err(Stop::Refused(Refusal::FileLong(which))),
        Err(FetchFault::Memory) => Err(Stop::Memory),
    }
}
