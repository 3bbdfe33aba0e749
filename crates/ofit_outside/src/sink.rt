ghost use Rattle.std.specs.Prelude.{◌≡◌, ℕ, ◌^◌, ◌<◌, ◌≤◌, List, Option, OnOk, OnErr};
ghost use Rattle.ofit_outside.specs.Faults.{Rose};
ghost use Rattle.ofit_outside.specs.Sink.{with_more, GainsPrefix};

use thiserror::Error;

/// Why a piece wasn't put whole.
#[derive(Clone, Copy, Debug, PartialEq, Eq, Error)]
pub enum PutFault {
    /// The sink failed, and counted it.
    #[error("the sink failed")]
    Failed,
}

/// A place that bytes are put into, piece after piece.
///
/// A sink in memory tells what was written; a real one doesn't, since nobody can look behind it.
pub trait Sink {
    /// All the bytes so far, where the sink tells them.
    ghost written: { Self → Option (List ℕ) };

    /// How often the sink has failed; at 2^64 - 1 it stays there.
    ghost faults: { Self → ℕ };

    /// Puts all the bytes behind those before. [`PutFault::Failed`] leaves a first part of them written, or none.
    /// Takes no memory.
    fn put(&mut self, bytes: &[u8]) -> Result<(), PutFault>
        ensures ok { OnOk result (written self.new ≡ with_more (written self.old) bytes.now) }
        ensures err { OnErr result (GainsPrefix (written self.old) (written self.new) bytes.now) }

        ensures stays { OnOk result (faults self.new ≡ faults self.old) }
        ensures failed { OnErr result (Rose (faults self.old) (faults self.new)) }
        ensures never_falls { faults self.old ≤ faults self.new }
        ensures at_most { faults self.new < 2 ^ 64 };
}
