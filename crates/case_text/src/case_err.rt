//! Why a case has no outcome.

use hex::FromHexError;
use std::alloc::{AllocError, AllocFailed};
use std::{fmt, io};

/// Why a case has no outcome.
#[derive(Debug, Drop)]
pub enum CaseErr {
    /// The line lacks this. The case is counted as one that fails, and the cases after it are still judged.
    Lacks(&'static str),
    /// The program ran out of memory. The case is counted as one that fails.
    NoMemory,
    /// A table could not be read, or the report not be written, which ends the run.
    Io(io::Error),
}

impl From<AllocError> for CaseErr {
    fn from(_: AllocError) -> CaseErr {
        CaseErr::NoMemory
    }
}

impl<T: Drop> From<AllocFailed<T>> for CaseErr {
    fn from(_: AllocFailed<T>) -> CaseErr {
        CaseErr::NoMemory
    }
}

impl From<fmt::Error> for CaseErr {
    fn from(_: fmt::Error) -> CaseErr {
        CaseErr::NoMemory
    }
}

impl From<io::Error> for CaseErr {
    fn from(error: io::Error) -> CaseErr {
        CaseErr::Io(error)
    }
}

impl From<FromHexError> for CaseErr {
    fn from(error: FromHexError) -> CaseErr {
        match error {
            FromHexError::OutOfMemory => CaseErr::NoMemory,
            _ => CaseErr::Lacks("hex digits"),
        }
    }
}
