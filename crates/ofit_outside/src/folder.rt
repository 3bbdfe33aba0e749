ghost use Rattle.std.specs.Prelude.{◌≡◌, ℕ, ◌^◌, ◌≤◌, ◌<◌, Option, None, length, IfOk, IfSome, IsErrOf, IsSomeAnd};
ghost use Rattle.std.specs.FinMap.{get};
ghost use Rattle.ofit_outside.specs.declared.folder.FetchFault.TheVariants.{Memory};

use std::alloc::{AllocError, Global};
use thiserror::Error;

/// Why a fetch gave nothing.
#[derive(Clone, Copy, Debug, PartialEq, Eq, Error)]
pub enum FetchFault {
    /// The folder itself failed, and counted it.
    #[error("the folder failed")]
    Failed,
    /// There is nothing under the name.
    #[error("no such file")]
    Missing,
    /// There are more bytes under the name than were asked for.
    #[error("file too long")]
    Long,
    /// Memory was wanting.
    #[error("out of memory")]
    Memory,
}

impl From<AllocError> for FetchFault {
    ghost from_gives = { λ _ e. e ≡ Memory };

    fn from(_: AllocError) -> Self {
        FetchFault::Memory
    }
}

/// A place that files are read from, whole and by name.
///
/// A folder in memory tells what it holds; a real one doesn't, since another program may change it.
pub trait Folder {
    ghost use Rattle.ofit_outside.specs.Folder.{Held, CountsFetch};

    /// The bytes under each name, where the folder tells them.
    ghost held: { Self → Option Held };

    /// How often the folder has failed; at 2^64 - 1 it stays there.
    ghost faults: { Self → ℕ };

    /// All the bytes under a name, if there are at most `limit`.
    fn fetch(&mut self, alloc: Global, name: &str, limit: u64) -> Result<Vec<u8>, FetchFault>
        ensures held { held self.new ≡ held self.old }

        ensures within { IfOk result (λ bytes. length bytes.items ≤ limit) }
        ensures ok { IfSome (held self.old) (λ held.
            IfOk result (λ bytes. get held name.now ≡ Some bytes.items)) }
        ensures missing { IfSome (held self.old) (λ held.
            IsErrOf result FetchFault.Missing → get held name.now ≡ None) }
        ensures long { IfSome (held self.old) (λ held.
            IsErrOf result FetchFault.Long → IsSomeAnd (get held name.now) (λ bytes. limit < length bytes)) }

        // `Failed` comes only where the count rose, and every other answer leaves it.
        ensures faults { CountsFetch (faults self.old) (faults self.new) result }
        ensures never_falls { faults self.old ≤ faults self.new }
        ensures at_most { faults self.new < 2 ^ 64 };
}
