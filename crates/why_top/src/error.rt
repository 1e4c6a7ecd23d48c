//! Refusals: their lines and exit codes. Where `soroban_cmd` has the same refusal, they are the same as there.

ghost use Rattle.std.specs.Prelude.{◌≡◌, ◌++◌, IfOk, codes, decimal};
ghost use Rattle.why_top.specs.Lines.{conflict_line, line_of, name_of, number_of, place_line};
ghost use Rattle.why_top.specs.Refused.{of_words, unread, unread_ledger};
ghost use Rattle.why_top.specs.declared.error.WhyErr.TheVariants.{NoMemory as OutOfMemory};

use edge_io::Word;
use ledger_file::LedgerErr;
use ledger_spec::LedgerWhy;
use set_place::Place;
use std::alloc::{AllocError, AllocFailed, Global};
use text_lines::{push_hex, push_number};
use why_words::NoRequest;
use xdr_core::{NoMemory, ReadXdr};
use xdr_spec::Why;

/// Why there is no trace.
#[derive(Debug, Drop)]
pub enum WhyErr {
    /// The words are wrong.
    Usage,
    /// The words ask for this text: the help or the version.
    Shown {
        text: String,
    },
    /// A call for this file failed.
    Fault {
        name: Word,
    },
    /// This file has more than 2^30 bytes.
    TooLong {
        name: Word,
    },
    Ledger {
        why: LedgerWhy,
        at: u64,
    },
    Verdicts {
        at: u64,
    },
    /// The text of this file is no base64.
    NotBase64 {
        name: Word,
    },
    /// The bytes are no spelling of an envelope or of a set.
    Malformed {
        at: u64,
        why: Why,
    },
    /// Two clusters of a stage of the set conflict on the key with these XDR bytes. It is the set's first conflict.
    Conflict {
        stage: u64,
        a: u64,
        b: u64,
        key: Vec<u8>,
    },
    /// The set has no transaction at this place.
    NoPlace {
        place: Place,
    },
    NoMemory,
}

impl WhyErr {
    ghost use Rattle.why_top.specs.Lines.{code_of};

    /// The exit code of the program.
    pub fn code(&self) -> u8
        ensures { result ≡ code_of self.now }
    {
        match self {
            WhyErr::Shown { .. } => 0,
            WhyErr::Malformed { .. } | WhyErr::NotBase64 { .. } | WhyErr::Conflict { .. } => 1,
            WhyErr::Usage => 2,
            WhyErr::Ledger { .. } | WhyErr::Verdicts { .. } => 3,
            WhyErr::Fault { .. } => 4,
            WhyErr::NoMemory => 5,
            WhyErr::TooLong { .. } => 6,
            WhyErr::NoPlace { .. } => 7,
        }
    }

    /// The line that is printed; for the help and the version, their text.
    pub fn line(&self, alloc: Global) -> Result<Vec<u8>, AllocError>
        ensures { IfOk result (λ v. v.items ≡ line_of self.now) }
    {
        match self {
            WhyErr::Usage => Vec::from_slice(alloc, b"usage\n"),
            WhyErr::Shown { text } => Vec::from_slice(alloc, text.as_bytes()),
            WhyErr::Fault { name } => name_line(alloc, b"fault on ", name),
            WhyErr::TooLong { name } => name_line(alloc, b"too long: ", name),
            WhyErr::NotBase64 { name } => name_line(alloc, b"not base64: ", name),
            WhyErr::Ledger { why, at } => number_line(alloc, number_of(*why), *at, b"\n"),
            WhyErr::Verdicts { at } => number_line(alloc, b"verdicts refused at ", *at, b"\n"),
            WhyErr::Malformed { at, why } => {
                number_line(alloc, b"refused at ", *at, name_of(*why))
            }
            WhyErr::Conflict { stage, a, b, key } => conflict_line(alloc, *stage, *a, *b, key),
            WhyErr::NoPlace { place } => place_line(alloc, *place),
            WhyErr::NoMemory => Vec::from_slice(alloc, b"no memory\n"),
        }
    }
}

/// A line that names a file.
fn name_line(alloc: Global, before: &[u8], name: &Word) -> Result<Vec<u8>, AllocError>
    ensures { IfOk result (λ v. v.items ≡ before.now ++ name.now ++ codes "\n") }
{
    let mut line = Vec::from_slice(alloc, before)?;
    line.extend_from_slice(name.as_str().as_bytes())?;
    line.extend_from_slice(b"\n")?;
    Ok(line)
}

/// A line with a number.
fn number_line(
    alloc: Global,
    before: &[u8],
    number: u64,
    after: &[u8],
) -> Result<Vec<u8>, AllocError>
    ensures { IfOk result (λ v. v.items ≡ before.now ++ decimal number ++ after.now) }
{
    let mut line = Vec::from_slice(alloc, before)?;
    push_number(&mut line, number, after)?;
    Ok(line)
}

/// The line of a conflict.
fn conflict_line(
    alloc: Global,
    stage: u64,
    a: u64,
    b: u64,
    key: &[u8],
) -> Result<Vec<u8>, AllocError>
    ensures { IfOk result (λ v. v.items ≡ conflict_line stage a b key.now) }
{
    let mut line = Vec::from_slice(alloc, b"conflict: stage ")?;
    push_number(&mut line, stage, b", clusters ")?;
    push_number(&mut line, a, b" and ")?;
    push_number(&mut line, b, b", key ")?;
    push_hex(alloc, &mut line, key, b"\n")?;
    Ok(line)
}

/// The line of a place that a set does not have.
fn place_line(alloc: Global, place: Place) -> Result<Vec<u8>, AllocError>
    ensures { IfOk result (λ v. v.items ≡ place_line place) }
{
    let mut line = Vec::from_slice(alloc, b"no such place: stage ")?;
    push_number(&mut line, place.stage as u64, b", cluster ")?;
    push_number(&mut line, place.cluster as u64, b", place ")?;
    push_number(&mut line, place.transaction as u64, b"\n")?;
    Ok(line)
}

/// The start of the line of a refused ledger, up to the number of the reason.
fn number_of(why: LedgerWhy) -> &'static [u8]
    ensures { result.now ≡ number_of why }
{
    match why {
        LedgerWhy::Xdr => b"ledger refused: 1 at ",
        LedgerWhy::Order => b"ledger refused: 2 at ",
        LedgerWhy::TtlHash => b"ledger refused: 3 at ",
        LedgerWhy::CodeHash => b"ledger refused: 4 at ",
        LedgerWhy::Settings => b"ledger refused: 5 at ",
        LedgerWhy::SeqEnd => b"ledger refused: 6 at ",
    }
}

/// The end of the line of a refusal, with the name of its reason.
fn name_of(why: Why) -> &'static [u8]
    ensures { result.now ≡ name_of why }
{
    match why {
        Why::End => b": end\n",
        Why::Padding => b": padding\n",
        Why::Boolean => b": bool\n",
        Why::Tag => b": tag\n",
        Why::Limit => b": limit\n",
        Why::Depth => b": depth\n",
        Why::Trailing => b": trailing\n",
    }
}

impl From<AllocError> for WhyErr {
    ghost from_gives = { λ _ error. error ≡ OutOfMemory };

    fn from(_: AllocError) -> WhyErr {
        WhyErr::NoMemory
    }
}

impl<T: Drop> From<AllocFailed<T>> for WhyErr {
    ghost from_gives = { λ _ error. error ≡ OutOfMemory };

    fn from(_: AllocFailed<T>) -> WhyErr {
        WhyErr::NoMemory
    }
}

impl From<NoMemory> for WhyErr {
    ghost from_gives = { λ _ error. error ≡ OutOfMemory };

    fn from(_: NoMemory) -> WhyErr {
        WhyErr::NoMemory
    }
}

impl From<ReadXdr> for WhyErr {
    ghost from_gives = { λ error refusal. refusal ≡ unread error };

    fn from(error: ReadXdr) -> WhyErr {
        match error {
            ReadXdr::Bad(error) => WhyErr::Malformed {
                at: error.at,
                why: error.why,
            },
            // Bytes in memory never stop.
            ReadXdr::NoMemory | ReadXdr::Stopped => WhyErr::NoMemory,
        }
    }
}

impl From<LedgerErr> for WhyErr {
    ghost from_gives = { λ error refusal. refusal ≡ unread_ledger error };

    fn from(error: LedgerErr) -> WhyErr {
        match error {
            LedgerErr::Refused(refusal) => WhyErr::Ledger {
                why: refusal.why,
                at: refusal.at,
            },
            LedgerErr::NoMemory => WhyErr::NoMemory,
        }
    }
}

impl From<NoRequest> for WhyErr {
    ghost from_gives = { λ error refusal. refusal ≡ of_words error };

    fn from(error: NoRequest) -> WhyErr {
        match error {
            NoRequest::Usage => WhyErr::Usage,
            NoRequest::Shown { text } => WhyErr::Shown { text },
            NoRequest::NoMemory => WhyErr::NoMemory,
        }
    }
}
