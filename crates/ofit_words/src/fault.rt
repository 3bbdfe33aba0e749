ghost use Rattle.std.specs.Prelude.{◌≡◌};
ghost use Rattle.ofit_words.specs.declared.fault.WordFault.TheVariants.{Memory};

use std::alloc::AllocError;
use thiserror::Error;

/// The first fault of the words. A place is the number of a word, with the command as 0.
#[derive(Clone, Copy, Debug, PartialEq, Eq, Error)]
pub enum WordFault {
    /// There is no word.
    #[error("no command")]
    NoCommand,
    /// The first word is no command.
    #[error("unknown command")]
    UnknownCommand,
    /// Fewer words follow than the command has names.
    #[error("names missing")]
    MissingName,
    /// The level isn't the canonical text of a number from 1 to 34.
    #[error("level out of range")]
    LevelOutOfRange,
    /// The word at this place has no `=`, or the command doesn't have its key.
    #[error("unknown setting at word {0}")]
    UnknownSetting(u32),
    /// An earlier setting has the key of the word at this place.
    #[error("repeated setting at word {0}")]
    RepeatedSetting(u32),
    /// The key of the word at this place may not have its value.
    #[error("bad setting at word {0}")]
    BadSetting(u32),
    /// The least value is above the greatest.
    #[error("bounds cross")]
    BoundsCross,
    /// Memory was wanting.
    #[error("out of memory")]
    Memory,
}

impl From<AllocError> for WordFault {
    ghost from_gives = { λ _ e. e ≡ Memory };

    fn from(_e: AllocError) -> WordFault {
        WordFault::Memory
    }
}
