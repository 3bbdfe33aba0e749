ghost use Rattle.std.specs.Prelude.{◌≡◌};
ghost use Rattle.ofit_unimodal.specs.declared.fault.UnimodalFault.TheVariants.{Memory};

use std::alloc::AllocError;
use thiserror::Error;

/// Why the fit of an unknown peak isn't made.
#[derive(Clone, Copy, Debug, PartialEq, Eq, Error)]
pub enum UnimodalFault {
    /// The study has more than 200 groups.
    #[error("more than 200 groups")]
    TooManyGroups,
    /// Memory was wanting.
    #[error("out of memory")]
    Memory,
}

impl From<AllocError> for UnimodalFault {
    ghost from_gives = { λ _ e. e ≡ Memory };

    fn from(_error: AllocError) -> UnimodalFault {
        UnimodalFault::Memory
    }
}
