//! Errors of the libraries as errors of a case.

ghost use Rattle.std.specs.Prelude.{◌≡◌, IfOk, Ok};

use case_text::CaseErr;
use xdr_core::{NoMemory, ReadXdr};

/// Returns what a library made, unless it ran out of memory.
pub fn made<T: Drop>(result_of: Result<T, NoMemory>) -> Result<T, CaseErr>
    ensures { IfOk result (λ v. result_of ≡ Ok v) }
{
    match result_of {
        Ok(value) => Ok(value),
        Err(NoMemory) => Err(CaseErr::NoMemory),
    }
}

/// Returns the value that a case's bytes have to spell.
pub fn spelled<T: Drop>(read: Result<T, ReadXdr>, what: &'static str) -> Result<T, CaseErr>
    ensures { IfOk result (λ v. read ≡ Ok v) }
{
    match read {
        Ok(value) => Ok(value),
        Err(error) => Err(unread(error, what)),
    }
}

/// Why a case has no outcome whose bytes do not spell a value.
pub fn unread(error: ReadXdr, what: &'static str) -> CaseErr {
    match error {
        ReadXdr::Bad(_) => CaseErr::Lacks(what),
        // Bytes in memory never stop.
        ReadXdr::NoMemory | ReadXdr::Stopped => CaseErr::NoMemory,
    }
}
