ghost use Rattle.std.specs.Prelude.{◌≡◌, Some, ◌+◌, ◌^◌, ◌<◌, ◌≤◌, ◌↔◌, length, Contains, IfOk, OnOk, OnErr, IsErrOf, IsSomeAnd};
ghost use Rattle.std.specs.FinMap.{get, insert, empty};
ghost use Rattle.ofit_outside.specs.Counting.{risen};
ghost use Rattle.ofit_outside.specs.Folder.{CountsFetch};

use crate::schedule::Schedule;
use crate::{FetchFault, Folder};
use std::alloc::{AllocError, Global};
use std::collections::BTreeMap;
use std::marker::Model;

/// A folder in memory, which fails at chosen fetches. It tells what it holds.
#[derive(Drop)]
pub struct MemFolder {
    alloc: Global,
    files: BTreeMap<String, Vec<u8>>,
    schedule: Schedule,
    faults: u64,
}

impl Model for MemFolder {
    ghost use Rattle.std.specs.Prelude.{◌^◌, ◌<◌};
    ghost use Rattle.ofit_outside.specs.MemFolder.{FolderView, view_code, held_of};

    ghost Value = { FolderView };

    ghost coded = { view_code };

    ghost view = { λ m. record {
      held = held_of m.files.entries;
      fails = m.schedule.fails.items;
      fetches = m.schedule.calls;
      faults = m.faults;
    } };

    ghost invariant = { λ m. m.faults < 2 ^ 64 };
}

impl MemFolder {
    /// Holds nothing. Fetches are numbered from 1, and those in `fails` fail, whatever the name.
    pub fn new(alloc: Global, fails: &[u64]) -> Result<MemFolder, AllocError>
        ensures { IfOk result (λ folder.
            folder ≡ record { held = empty; fails = fails.now; fetches = 0; faults = 0 }) }
    {
        Ok(MemFolder {
            alloc,
            files: BTreeMap::new(alloc),
            schedule: Schedule::new(alloc, fails)?,
            faults: 0,
        })
    }

    /// Sets the bytes under a name, in place of those that were there.
    pub fn hold(&mut self, name: &str, bytes: &[u8]) -> Result<(), AllocError>
        ensures ok { OnOk result (self.new ≡ record self.old { held = insert self.old.held name.now bytes.now }) }
        ensures err { OnErr result (self.new ≡ self.old) }
    {
        let name = String::from_str(self.alloc, name)?;
        let bytes = bytes.to_vec(self.alloc)?;
        self.files.insert(name, bytes)?;
        Ok(())
    }

    /// How many fetches have failed.
    pub fn count(&self) -> u64
        ensures { result ≡ self.now.faults }
    {
        self.faults
    }
}

impl Folder for MemFolder {
    ghost held = { λ folder. Some folder.held };

    ghost faults = { λ folder. folder.faults };

    fn fetch(&mut self, alloc: Global, name: &str, limit: u64) -> Result<Vec<u8>, FetchFault>
        ensures held { self.new.held ≡ self.old.held }

        ensures within { IfOk result (λ bytes. length bytes.items ≤ limit) }
        ensures ok { IfOk result (λ bytes. get self.old.held name.now ≡ Some bytes.items) }
        ensures missing { IsErrOf result FetchFault.Missing → get self.old.held name.now ≡ None }
        ensures long { IsErrOf result FetchFault.Long →
            IsSomeAnd (get self.old.held name.now) (λ bytes. limit < length bytes) }

        ensures failed { IsErrOf result FetchFault.Failed ↔ Contains self.old.fails (self.old.fetches + 1) }
        ensures fetches { self.new.fetches ≡ risen self.old.fetches }
        ensures fails { self.new.fails ≡ self.old.fails }

        ensures faults { CountsFetch self.old.faults self.new.faults result }
        ensures counted { IsErrOf result FetchFault.Failed → self.new.faults ≡ risen self.old.faults }
        ensures never_falls { self.old.faults ≤ self.new.faults }
        ensures at_most { self.new.faults < 2 ^ 64 }
    {
        if self.schedule.call() {
            self.faults = self.faults.saturating_add(1);
            return Err(FetchFault::Failed);
        }
        let Some(bytes) = self.files.get(name) else {
            return Err(FetchFault::Missing);
        };
        if bytes.len() as u64 > limit {
            return Err(FetchFault::Long);
        }
        Ok(bytes.to_vec(alloc)?)
    }
}
