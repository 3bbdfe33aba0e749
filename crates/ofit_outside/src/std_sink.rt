ghost use Rattle.std.specs.Prelude.{◌≡◌, ◌^◌, ◌<◌, ◌≤◌, None, OnOk, OnErr};
ghost use Rattle.std.specs.Io.KnownBytes.{Appends};
ghost use Rattle.ofit_outside.specs.Counting.{risen};
ghost use Rattle.ofit_outside.specs.Streams.{AppendsPrefix};

use crate::writing::{flush_whole, write_whole};
use crate::{PutFault, Sink};
use std::io::Write;
use std::marker::Model;

/// A writer, such as standard output or standard error. As a sink it tells nothing of what was
/// written; its own contracts speak of what the writer tells.
#[derive(Drop)]
pub struct StdSink<W: Write + Drop> {
    writer: W,
    faults: u64,
}

impl<W: Write + Drop> Model for StdSink<W> {
    ghost use Rattle.std.specs.Prelude.{◌^◌, ◌<◌};
    ghost use Rattle.ofit_outside.specs.StdSink.{WriterView};

    ghost Value = { WriterView };

    ghost view = { λ s. record { contents = W.contents s.writer; faults = s.faults } };

    ghost invariant = { λ s. s.faults < 2 ^ 64 };
}

impl<W: Write + Drop> StdSink<W> {
    /// The sink of a writer, without a failure so far.
    pub fn new(writer: W) -> StdSink<W>
        ensures { result ≡ record { contents = W.contents writer; faults = 0 } }
    {
        StdSink { writer, faults: 0 }
    }

    /// Counts an error.
    fn failed(&mut self) -> PutFault
        ensures counted { self.new ≡ record self.old { faults = risen self.old.faults } }
        ensures never_falls { self.old.faults ≤ self.new.faults }
    {
        self.faults = self.faults.saturating_add(1);
        PutFault::Failed
    }
}

impl<W: Write + Drop> Sink for StdSink<W> {
    ghost written = { λ _. None };

    ghost faults = { λ sink. sink.faults };

    /// Each piece is flushed. Any error is counted, and so is a write that takes nothing; an
    /// interrupted call is no error.
    fn put(&mut self, bytes: &[u8]) -> Result<(), PutFault>
        ensures ok { OnOk result (Appends self.old.contents self.new.contents bytes.now) }
        ensures err { OnErr result (AppendsPrefix self.old.contents self.new.contents bytes.now) }

        ensures stays { OnOk result (self.new.faults ≡ self.old.faults) }
        ensures failed { OnErr result (self.new.faults ≡ risen self.old.faults) }
        ensures never_falls { self.old.faults ≤ self.new.faults }
        ensures at_most { self.new.faults < 2 ^ 64 }
    {
        if write_whole(&mut self.writer, bytes).is_err() {
            return Err(self.failed());
        }
        match flush_whole(&mut self.writer) {
            Ok(()) => Ok(()),
            Err(_) => Err(self.failed()),
        }
    }
}
