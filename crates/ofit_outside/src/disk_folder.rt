ghost use Rattle.std.specs.Prelude.{◌≡◌, ◌≤◌, None};
ghost use Rattle.ofit_outside.specs.Counting.{risen};

use crate::reading::{ReadFault, read_whole};
use crate::{FetchFault, Folder};
use std::alloc::Global;
use std::fs;
use std::io::ErrorKind;
use std::marker::Model;
use std::rt::Files;

/// The file system, with a name as a path. It tells nothing of what it holds, and contracts see it
/// as its count of faults.
#[derive(Drop)]
pub struct DiskFolder<'a, R> {
    rt: &'a R,
    faults: u64,
}

impl<'a, R> Model for DiskFolder<'a, R> {
    ghost use Rattle.std.specs.Prelude.{ℕ, ◌^◌, ◌<◌};

    ghost Value = { ℕ };

    ghost view = { λ d. d.faults };

    ghost invariant = { λ d. d.faults < 2 ^ 64 };
}

impl<'a, R: Files> DiskFolder<'a, R> {
    /// The folder that the program runs in, without a failure so far.
    pub fn new(rt: &'a R) -> Self
        ensures { result ≡ 0 }
    {
        DiskFolder { rt, faults: 0 }
    }

    /// Counts an error.
    fn failed(&mut self) -> FetchFault
        ensures fault { result ≡ FetchFault.Failed }
        ensures counted { self.new ≡ risen self.old }
        ensures never_falls { self.old ≤ self.new }
    {
        self.faults = self.faults.saturating_add(1);
        FetchFault::Failed
    }
}

impl<R: Files> Folder for DiskFolder<'_, R> {
    ghost held = { λ _. None };

    ghost faults = { λ count. count };

    /// Any error but that nothing stands under the name is counted; an interrupted call is no error.
    fn fetch(&mut self, alloc: Global, name: &str, limit: u64) -> Result<Vec<u8>, FetchFault> {
        let mut file = match fs::open(self.rt, name) {
            Ok(file) => file,
            Err(error) if error.kind() == ErrorKind::NotFound => return Err(FetchFault::Missing),
            Err(_) => return Err(self.failed()),
        };
        match read_whole(alloc, &mut file, limit) {
            Ok(bytes) => Ok(bytes),
            Err(ReadFault::Reader(_)) => Err(self.failed()),
            Err(ReadFault::Long) => Err(FetchFault::Long),
            Err(ReadFault::Memory) => Err(FetchFault::Memory),
        }
    }
}
