//! Errors of reading words.

ghost use Rattle.std.specs.Prelude.{◌≡◌};
ghost use Rattle.command_words.specs.declared.error.WordsErr.TheVariants.{NoMemory};

use std::alloc::AllocError;

/// The reason why words are no request.
#[derive(Clone, Copy, Debug, PartialEq, Eq)]
pub enum WordsErr {
    /// The words are wrong.
    Usage,
    NoMemory,
}

impl From<AllocError> for WordsErr {
    ghost from_gives = { λ _ error. error ≡ NoMemory };

    fn from(_: AllocError) -> WordsErr {
        WordsErr::NoMemory
    }
}
