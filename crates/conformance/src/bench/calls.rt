//! Calls of functions over values.

ghost use Rattle.object_store.specs.Shown.{AreIndices};

use crate::events::budget_within;
use crate::host::{Frame, NO_LIMITS, show_value};
use case_text::CaseErr;
use host_interface::HostImport;
use std::alloc::Global;
use std::fmt::Write;

/// The number of rounds. Each begins with new objects.
const ROUNDS: u32 = 100;

/// The number of calls of a round.
const CALLS: u32 = 1_000;

/// The word of the U32 7, which is a key of each map and an item of each vec.
const SEVEN: u64 = 0x7_0000_0004;

/// Calls a function on a value 100,000 times.
pub fn call_often(
    alloc: Global,
    value: &[u8],
    name: &str,
    out: &mut String,
) -> Result<(), CaseErr> {
    let (import, words) = measured(name)?;
    for _round in 0..ROUNDS {
        round(alloc, value, import, words)?;
    }
    let calls = ROUNDS * CALLS;
    writeln!(out, "{calls} calls")?;
    Ok(())
}

/// The function of a name, and the number of words that it takes.
fn measured(name: &str) -> Result<(HostImport, usize), CaseErr> {
    match name {
        "map_put" => Ok((HostImport::MapPut, 3)),
        "map_get" => Ok((HostImport::MapGet, 2)),
        "vec_push_back" => Ok((HostImport::VecPushBack, 2)),
        "bytes_append" => Ok((HostImport::BytesAppend, 2)),
        "obj_to_u64" => Ok((HostImport::ObjToU64, 1)),
        _ => Err(CaseErr::Lacks("a function that is measured")),
    }
}

/// Calls a function in a new frame, whose first object is the value.
fn round(alloc: Global, value: &[u8], import: HostImport, words: usize) -> Result<(), CaseErr> {
    let mut frame = Frame::new(alloc, Vec::new(alloc), budget_within(NO_LIMITS));
    in_frame(alloc, &mut frame, value, import, words)
}

fn in_frame(
    alloc: Global,
    frame: &mut Frame,
    value: &[u8],
    import: HostImport,
    words: usize,
) -> Result<(), CaseErr>
    requires { AreIndices frame.old.objects frame.old.shown }
{
    let word = show_value(alloc, &mut frame.objects, &mut frame.shown, value)?.0;
    let second = match import {
        HostImport::BytesAppend => word,
        _ => SEVEN,
    };
    let given = [word, second, SEVEN];
    call_all(frame, import, given.get(..words).unwrap_or(&[]))
}

fn call_all(frame: &mut Frame, import: HostImport, words: &[u64]) -> Result<(), CaseErr>
    requires { AreIndices frame.old.objects frame.old.shown }
{
    for _call in 0..CALLS {
        if frame.call(import, words)?.is_err() {
            return Err(CaseErr::Lacks("a value that the function takes"));
        }
    }
    Ok(())
}
