//! The parts of an outcome.

ghost use Rattle.value_types.specs.Views.{datum};
ghost use Rattle.host_spec.specs.Hosted.{IsHosted};
ghost use Rattle.object_store.specs.Shown.{AreIndices};

use crate::errors::made;
use budget_meter::Used;
use case_text::{CaseErr, push_hex};
use host_frame::size_of;
use host_spec::ValueErr;
use object_store::{Objects, Shown};
use std::alloc::Global;
use std::fmt::Write;
use value_types::ScVal;
use value_xdr::value_to_bytes;

/// Appends the objects that the frame has shown after so many.
pub fn push_shown(
    alloc: Global,
    out: &mut String,
    objects: &Objects,
    shown: &Shown,
    before: usize,
) -> Result<(), CaseErr>
    requires { AreIndices objects.now shown.now }
{
    for handle in before..1_000_000 {
        match objects.shown(shown, handle) {
            None => return Ok(()),
            Some(value) => {
                out.push_str(if handle == before { " shows " } else { " " })?;
                push_value(alloc, out, value)?;
            }
        }
    }
    Ok(())
}

/// Appends a value's XDR, or the number of its bytes if there are more than 1000.
#[tactic(auto, using(host_frame::proofs::Lemmas::hosted_fits))]
fn push_value(alloc: Global, out: &mut String, value: &ScVal) -> Result<(), CaseErr>
    requires { IsHosted (datum value.now) }
{
    let size = size_of(value);
    if size > 1000 {
        push_size(out, size)
    } else {
        push_hex(alloc, out, &made(value_to_bytes(alloc, value))?)
    }
}

/// Appends a number of bytes, which stands for bytes that are not shown.
pub fn push_size(out: &mut String, size: u64) -> Result<(), CaseErr> {
    write!(out, "[{size} bytes]")?;
    Ok(())
}

/// Appends the linear memory if it is not what it was before.
pub fn push_memory(
    alloc: Global,
    out: &mut String,
    before: &[u8],
    memory: &[u8],
) -> Result<(), CaseErr> {
    if memory != before {
        out.push_str(" memory ")?;
        push_hex(alloc, out, memory)?;
    }
    Ok(())
}

/// Appends how a function ended that returned no word.
pub fn push_error(out: &mut String, error: ValueErr) -> Result<(), CaseErr> {
    match error {
        ValueErr::Failed(error) => write!(out, "fails {error:?}")?,
        ValueErr::Spent => out.push_str("spent")?,
        ValueErr::NoMemory => return Err(CaseErr::NoMemory),
    }
    Ok(())
}

/// Appends the sums so far, and ends the line.
pub fn push_costs(out: &mut String, used: Used) -> Result<(), CaseErr> {
    let (instructions, bytes) = (used.instructions, used.memory);
    writeln!(out, " costs {instructions} {bytes}")?;
    Ok(())
}
