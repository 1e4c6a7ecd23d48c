//! Values that bytes spell.

ghost use Rattle.std.specs.Prelude.{◌≡◌};

use crate::errors::made;
use crate::types;
use case_text::{CaseErr, Fragments, first_word};
use std::alloc::Global;
use std::fmt::Write;
use value_xdr::{Xdr, decode, encode};
use xdr_core::{ReadXdr, Why, XdrErr};

/// What bytes are as the spelling of a type.
#[derive(Clone, Copy)]
pub enum Spelling {
    /// A value is read, and written to the same bytes: their number.
    Same(u64),
    /// A value is read, and written to other bytes.
    Other,
    Refused(XdrErr),
}

/// TYPE BYTES: how many bytes the value has, or why and where they are refused.
pub fn xdr(
    alloc: Global,
    fragments: &Fragments,
    words: &str,
    out: &mut String,
) -> Result<(), CaseErr> {
    let (name, bytes) = first_word(words);
    let spelling = types::spelling_of(alloc, name, &fragments.bytes(alloc, bytes)?)?;
    push_spelling(out, spelling)
}

fn push_spelling(out: &mut String, spelling: Spelling) -> Result<(), CaseErr> {
    match spelling {
        Spelling::Same(size) => writeln!(out, "ok {size}")?,
        Spelling::Other => out.push_str("written otherwise\n")?,
        Spelling::Refused(error) => {
            let (at, why) = (error.at, reason(error.why));
            writeln!(out, "refused at {at}: {why}")?;
        }
    }
    Ok(())
}

/// Reads a value and writes it.
pub fn rewritten<T: Xdr + Drop>(alloc: Global, bytes: &[u8]) -> Result<Spelling, CaseErr> {
    match decode::<T>(alloc, bytes) {
        Ok(value) => written(alloc, bytes, &value),
        Err(error) => refused(error),
    }
}

/// Reads a value and writes its clone.
pub fn cloned<T: Xdr + Drop + Clone>(alloc: Global, bytes: &[u8]) -> Result<Spelling, CaseErr>
    requires same { (v w : T) → T.is_clone v w → w ≡ v }
{
    match decode::<T>(alloc, bytes) {
        Ok(value) => written_clone(alloc, bytes, &value),
        Err(error) => refused(error),
    }
}

fn written_clone<T: Xdr + Drop + Clone>(
    alloc: Global,
    bytes: &[u8],
    value: &T,
) -> Result<Spelling, CaseErr>
    requires same { (v w : T) → T.is_clone v w → w ≡ v }
    requires fits { T.format.fits value.now }
{
    match value.clone() {
        Ok(value) => written(alloc, bytes, &value),
        Err(_) => Err(CaseErr::NoMemory),
    }
}

/// Writes the value that bytes spell, and compares the bytes with those, and their number with the value's size.
pub fn written<T: Xdr>(alloc: Global, bytes: &[u8], value: &T) -> Result<Spelling, CaseErr>
    requires { T.format.fits value.now }
{
    let again = made(encode(alloc, value))?;
    let size = value.size();
    if again.as_slice() == bytes && size == bytes.len() as u64 {
        Ok(Spelling::Same(size))
    } else {
        Ok(Spelling::Other)
    }
}

/// Turns the reason why no value was read into the spelling of a refused one.
pub fn refused(error: ReadXdr) -> Result<Spelling, CaseErr> {
    match error {
        ReadXdr::Bad(error) => Ok(Spelling::Refused(error)),
        // Bytes in memory never stop.
        ReadXdr::NoMemory | ReadXdr::Stopped => Err(CaseErr::NoMemory),
    }
}

fn reason(why: Why) -> &'static str {
    match why {
        Why::End => "end",
        Why::Padding => "padding",
        Why::Boolean => "bool",
        Why::Tag => "tag",
        Why::Limit => "limit",
        Why::Depth => "depth",
        Why::Trailing => "trailing",
    }
}
