//! Frames that have shown values.

ghost use Rattle.std.specs.Prelude.{◌<◌};
ghost use Rattle.std.specs.Bool.{OnTrue};
ghost use Rattle.value_types.specs.Formats.{scval_format};
ghost use Rattle.value_types.specs.Views.{datum};
ghost use Rattle.host_spec.specs.Addresses.{address_tag};
ghost use Rattle.host_spec.specs.Words.{object_tag};
ghost use Rattle.object_store.specs.Shown.{AreIndices};

use crate::errors::unread;
use crate::host::prepared::Prepared;
use case_text::CaseErr;
use host_frame::entry;
use object_store::{Objects, ShowErr, Shown};
use std::alloc::Global;
use tagged_val::Val;
use value_types::{ScAddress, ScVal};
use value_xdr::value_from_bytes;

/// Shows what the lines of a table prepared, and returns the number of objects.
pub fn show_prepared(
    alloc: Global,
    objects: &mut Objects,
    shown: &mut Shown,
    prepared: &Prepared,
) -> Result<usize, CaseErr>
    requires { AreIndices objects.old shown.old }
    ensures { AreIndices objects.new shown.new }
{
    show_all(alloc, objects, shown, &prepared.shown)?;
    let number = prepared.shown.len();
    if prepared.filled <= number {
        return Ok(number);
    }
    let more = prepared.filled - number;
    fill(alloc, objects, shown, &prepared.filler, more)?;
    Ok(prepared.filled)
}

fn show_all(
    alloc: Global,
    objects: &mut Objects,
    shown: &mut Shown,
    values: &[Vec<u8>],
) -> Result<(), CaseErr>
    requires { AreIndices objects.old shown.old }
    ensures { AreIndices objects.new shown.new }
{
    for bytes in values {
        let _word = show_value(alloc, objects, shown, bytes)?;
    }
    Ok(())
}

/// Shows a value so many times.
fn fill(
    alloc: Global,
    objects: &mut Objects,
    shown: &mut Shown,
    bytes: &[u8],
    times: usize,
) -> Result<(), CaseErr>
    requires { AreIndices objects.old shown.old }
    ensures { AreIndices objects.new shown.new }
{
    for _time in 0..times {
        let _word = show_value(alloc, objects, shown, bytes)?;
    }
    Ok(())
}

/// Shows the value that bytes spell as an object, also if it has a small form. Returns its word.
pub fn show_value(
    alloc: Global,
    objects: &mut Objects,
    shown: &mut Shown,
    bytes: &[u8],
) -> Result<Val, CaseErr>
    requires { AreIndices objects.old shown.old }
    ensures { AreIndices objects.new shown.new }
{
    match value_from_bytes(alloc, bytes) {
        Ok(value) => show(objects, shown, value),
        Err(error) => Err(unread(error, "a value")),
    }
}

#[tactic(auto, using(host_frame::proofs::Lemmas::spelled_bounded, host_frame::proofs::Lemmas::entered_hosted))]
fn show(objects: &mut Objects, shown: &mut Shown, value: ScVal) -> Result<Val, CaseErr>
    requires fits { scval_format.fits value }
    requires indices { AreIndices objects.old shown.old }
    ensures { AreIndices objects.new shown.new }
{
    if entry(&value).is_err() || !has_objects(&value) {
        return Err(CaseErr::Lacks("a value that the host holds as an object"));
    }
    match objects.to_object(shown, value) {
        Ok(word) => Ok(word),
        Err(ShowErr::Full) => Err(CaseErr::Lacks("room in the frame")),
        Err(ShowErr::NoMemory) => Err(CaseErr::NoMemory),
    }
}

/// Whether values of this type can be objects.
fn has_objects(value: &ScVal) -> bool
    ensures { OnTrue result (0 < object_tag (datum value.now)) }
{
    match value {
        ScVal::Address(address) => is_held(*address),
        ScVal::U64(_) | ScVal::I64(_) | ScVal::Timepoint(_) | ScVal::Duration(_) => true,
        ScVal::U128(_) | ScVal::I128(_) => true,
        ScVal::Bytes(_) | ScVal::String(_) | ScVal::Symbol(_) => true,
        ScVal::Vec(Some(_)) | ScVal::Map(Some(_)) => true,
        _ => false,
    }
}

fn is_held(address: ScAddress) -> bool
    ensures { OnTrue result (0 < address_tag address) }
{
    match address {
        ScAddress::ClaimableBalance(_) | ScAddress::LiquidityPool(_) => false,
        _ => true,
    }
}
