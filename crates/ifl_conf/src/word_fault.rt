ghost use Rattle.std.specs.Prelude.{◌≡◌};
ghost use Rattle.ifl_conf.specs.declared.word_fault.WordFault.TheVariants.{Memory};

use std::alloc::{AllocError, AllocFailed};
use thiserror::Error;

/// Why the words of a command line are refused: their first fault, in this order.
#[derive(Clone, Copy, Debug, PartialEq, Eq, Error)]
pub enum WordFault {
    /// There is no word.
    #[error("no command")]
    NoCommand,
    /// The first word is no command.
    #[error("unknown command")]
    UnknownCommand,
    /// The words behind the command are not of its grammar.
    #[error("refused")]
    Refused,
    /// A name that is to be written is the same text as another name.
    #[error("names")]
    Names,
    /// There was no memory for the names.
    #[error("out of memory")]
    Memory,
}

impl From<AllocError> for WordFault {
    ghost from_gives = { λ _ e. e ≡ Memory };

    fn from(_: AllocError) -> WordFault {
        WordFault::Memory
    }
}

impl<T: Drop> From<AllocFailed<T>> for WordFault {
    ghost from_gives = { λ _ e. e ≡ Memory };

    fn from(_: AllocFailed<T>) -> WordFault {
        WordFault::Memory
    }
}
