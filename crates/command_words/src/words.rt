//! From the words to a request.

ghost use Rattle.std.specs.Prelude.{IfOk};
ghost use Rattle.command_words.specs.Answers.{IsRefusal, ReadsWords};
ghost use Rattle.command_words.specs.Words.{IsInRange, asked_of};

use crate::commands::soroban_command;
use crate::matches::request_from;
use crate::{Request, WordsErr};
use clap::Error;
use clap::error::ErrorKind;
use edge_io::Word;
use std::alloc::Global;

/// The request of the words after the program's name: one command, and its options in any order, each once.
pub fn request_of(alloc: Global, words: &[Word]) -> Result<Request, WordsErr>
    ensures request { ReadsWords result (asked_of words.now) }
    ensures range { IfOk result IsInRange }
{
    let command = soroban_command(alloc)?;
    match command.try_get_matches_from(words) {
        Ok(matches) => request_from(alloc, &matches),
        Err(error) => Err(refusal(&error)),
    }
}

/// The error of a refusal by clap.
fn refusal(error: &Error) -> WordsErr
    ensures { IsRefusal error.now result }
{
    match error.kind() {
        ErrorKind::OutOfMemory => WordsErr::NoMemory,
        _ => WordsErr::Usage,
    }
}
