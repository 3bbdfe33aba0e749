ghost use Rattle.std.specs.Prelude.{◌≡◌, Some, ◌+◌, ◌^◌, ◌/◌, ◌<◌, ◌≤◌, ◌↔◌, ◌⊎◌, [], ◌++◌, length, take, Contains, IfOk, OnOk, OnErr, IsErr};
ghost use Rattle.ofit_outside.specs.Counting.{risen};
ghost use Rattle.ofit_outside.specs.Sink.{GainsPrefix};
ghost use Rattle.ofit_outside.specs.MemSink.{PassesRoom};

use crate::schedule::Schedule;
use crate::{PutFault, Sink};
use std::alloc::{AllocError, Global};
use std::marker::Model;

/// A sink in memory with so much room, which fails at chosen puts. It tells what was written.
#[derive(Drop)]
pub struct MemSink {
    bytes: Vec<u8>,
    room: usize,
    schedule: Schedule,
    faults: u64,
}

impl Model for MemSink {
    ghost use Rattle.std.specs.Prelude.{◌≤◌, vec_len, vec_capacity};
    ghost use Rattle.ofit_outside.specs.MemSink.{SinkView};

    ghost Value = { SinkView };

    ghost view = { λ m. record {
      written = m.bytes.items;
      room = m.room;
      fails = m.schedule.fails.items;
      puts = m.schedule.calls;
      faults = m.faults;
    } };

    ghost invariant = { λ m. (vec_len m.bytes ≤ m.room) × (m.room ≤ vec_capacity m.bytes) };
}

impl MemSink {
    /// Nothing is written yet. All the room is reserved here, so that no put wants memory.
    /// Puts are numbered from 1; those in `fails` fail, and take the first half of their piece.
    pub fn new(alloc: Global, room: u64, fails: &[u64]) -> Result<MemSink, AllocError>
        ensures { IfOk result (λ sink.
            sink ≡ record { written = []; room = room; fails = fails.now; puts = 0; faults = 0 }) }
    {
        let room = room as usize;
        Ok(MemSink {
            bytes: Vec::with_capacity(alloc, room)?,
            room,
            schedule: Schedule::new(alloc, fails)?,
            faults: 0,
        })
    }

    /// What was written.
    pub fn bytes(&self) -> &[u8]
        ensures { result.now ≡ self.now.written }
    {
        &self.bytes
    }
}

impl Sink for MemSink {
    ghost written = { λ sink. Some sink.written };

    ghost faults = { λ sink. sink.faults };

    fn put(&mut self, bytes: &[u8]) -> Result<(), PutFault>
        ensures fails_at { IsErr result ↔
            (PassesRoom self.old bytes.now ⊎ Contains self.old.fails (self.old.puts + 1)) }
        ensures ok { OnOk result (self.new.written ≡ self.old.written ++ bytes.now) }
        ensures no_room { PassesRoom self.old bytes.now → self.new.written ≡ self.old.written }
        ensures half { OnErr result (length self.old.written + length bytes.now ≤ self.old.room
            → self.new.written ≡ self.old.written ++ take (length bytes.now / 2) bytes.now) }
        ensures err { OnErr result (GainsPrefix (Some self.old.written) (Some self.new.written) bytes.now) }

        ensures puts { self.new.puts ≡ risen self.old.puts }
        ensures fails { self.new.fails ≡ self.old.fails }
        ensures room { self.new.room ≡ self.old.room }

        ensures stays { OnOk result (self.new.faults ≡ self.old.faults) }
        ensures failed { OnErr result (self.new.faults ≡ risen self.old.faults) }
        ensures never_falls { self.old.faults ≤ self.new.faults }
        ensures at_most { self.new.faults < 2 ^ 64 }
    {
        let listed = self.schedule.call();
        if bytes.len() > self.room - self.bytes.len() {
            self.faults = self.faults.saturating_add(1);
            return Err(PutFault::Failed);
        }
        if listed {
            self.faults = self.faults.saturating_add(1);
            self.bytes
                .extend_from_slice(&bytes[..bytes.len() / 2])
                .unwrap();
            return Err(PutFault::Failed);
        }
        self.bytes.extend_from_slice(bytes).unwrap();
        Ok(())
    }
}
