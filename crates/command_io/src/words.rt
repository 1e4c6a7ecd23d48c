//! The request of a command's words.

ghost use Rattle.std.specs.Prelude.{IfOk};
ghost use Rattle.command_words.specs.Words.{IsInRange, asked_of};
ghost use Rattle.command_io.specs.Steps.{ReadsWords};

use crate::Status;
use command_words::{Request, WordsErr, request_of};
use edge_io::Word;
use std::alloc::Global;

/// Reads the request of the words; the error is Usage if they are wrong.
pub fn asked(alloc: Global, words: &[Word]) -> Result<Request, Status>
    ensures request { ReadsWords result (asked_of words.now) }
    ensures range { IfOk result IsInRange }
{
    match request_of(alloc, words) {
        Ok(request) => Ok(request),
        Err(WordsErr::Usage) => Err(Status::Usage),
        Err(WordsErr::NoMemory) => Err(Status::NoMemory),
    }
}
