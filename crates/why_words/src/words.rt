//! From the words to a request.

ghost use Rattle.std.specs.Prelude.{◌≡◌};
ghost use Rattle.clap.specs.Values.{kind_of};
ghost use Rattle.why_words.specs.Answers.{IsRefusal, IsShown, ReadsRequest, no_request};
ghost use Rattle.why_words.specs.declared.words.NoRequest.TheVariants.{NoMemory as OutOfMemory};

use crate::Request;
use crate::command::why_command;
use crate::matches::request_from;
use clap::Error;
use clap::error::ErrorKind;
use command_words::WordsErr;
use edge_io::Word;
use std::alloc::{AllocError, Global};

/// Why words are no request.
#[derive(Debug, Drop)]
pub enum NoRequest {
    /// The words are wrong.
    Usage,
    /// The words ask for this text: the help or the version.
    Shown { text: String },
    NoMemory,
}

/// The request of the words after the program's name: its options in any order, each once.
pub fn request_of(alloc: Global, words: &[Word]) -> Result<Request, NoRequest>
    ensures { ReadsRequest result words.now }
{
    let command = why_command(alloc)?;
    match command.try_get_matches_from(words) {
        Ok(matches) => Ok(request_from(alloc, &matches)?),
        Err(error) => Err(refusal(alloc, &error)),
    }
}

/// The error of a refusal by clap: help and the version are shown, anything else is wrong words.
fn refusal(alloc: Global, error: &Error) -> NoRequest
    ensures { IsRefusal error.now result }
{
    match error.kind() {
        ErrorKind::DisplayHelp | ErrorKind::DisplayVersion => shown(alloc, error),
        ErrorKind::OutOfMemory => NoRequest::NoMemory,
        _ => NoRequest::Usage,
    }
}

/// The text of the help or of the version.
fn shown(alloc: Global, error: &Error) -> NoRequest
    requires { IsShown (kind_of error.now) }
    ensures { IsRefusal error.now result }
{
    match format!(in alloc; "{error}") {
        Ok(text) => NoRequest::Shown { text },
        Err(_) => NoRequest::NoMemory,
    }
}

impl From<AllocError> for NoRequest {
    ghost from_gives = { λ _ error. error ≡ OutOfMemory };

    fn from(_: AllocError) -> NoRequest {
        NoRequest::NoMemory
    }
}

impl From<WordsErr> for NoRequest {
    ghost from_gives = { λ words error. error ≡ no_request words };

    fn from(error: WordsErr) -> NoRequest {
        match error {
            WordsErr::Usage => NoRequest::Usage,
            WordsErr::NoMemory => NoRequest::NoMemory,
        }
    }
}
