//! Module b: values as XDR.

ghost use Rattle.std.specs.Prelude.{◌≡◌, ◌<◌, ◌^◌, [], ◌∷◌, length, IfOk};
ghost use Rattle.xdr_spec.specs.Decoded.{decoded};
ghost use Rattle.value_types.specs.Datum.{bytes as bytes_datum};
ghost use Rattle.value_types.specs.Views.{datum};
ghost use Rattle.value_types.specs.Formats.{scval_format};
ghost use Rattle.value_xdr.specs.Bytes.{bytes_of, IsBounded};
ghost use Rattle.host_interface.specs.declared.kinds.ArgKind.TheVariants as kinds;
ghost use Rattle.host_spec.specs.Acts.{State, Says};
ghost use Rattle.host_spec.specs.Hosted.{IsHosted};
ghost use Rattle.host_spec.specs.ByteRows.{serialize_to_bytes, deserialize_from_bytes, read_as};
ghost use Rattle.host_frame.specs.Answered.{Answers, answer_of, IsMadeIfOk};
ghost use Rattle.byte_calls.specs.Decodes.{Decodes};

use budget_meter::{Budget, Kind};
use host_frame::{Answer, INVALID_VALUE, Values, charge, enter, entry, size_of};
use host_spec::ValueErr;
use std::alloc::Global;
use value_types::ScVal;
use value_xdr::{value_from_bytes, value_to_bytes};
use xdr_core::{NoMemory, ReadXdr};

/// The XDR of a value.
#[tactic(auto, using(host_frame::proofs::Lemmas::hosted_fits, host_frame::proofs::Lemmas::spelled_bytes, host_frame::proofs::Lemmas::few_spelled))]
fn xdr_of(alloc: Global, value: &ScVal) -> Result<Vec<u8>, NoMemory>
    requires { IsHosted (datum value.now) }
    ensures value { IfOk result (λ v. v.items ≡ bytes_of (datum value.now)) }
    ensures few { IfOk result (λ v. length v.items < 2 ^ 32) }
{
    let bytes = value_to_bytes(alloc, value)?;
    Ok(bytes)
}

/// `serialize_to_bytes`: the XDR of a value.
pub fn serialize_to_bytes(
    values: &Values<'_>,
    budget: &mut Budget,
    a: u64,
) -> Result<Answer, ValueErr>
    ensures { Answers result (kinds.Value ∷ []) serialize_to_bytes (a ∷ []) values.now budget.old budget.new }
{
    let value = values.value(a)?;
    enter(budget, &[a])?;
    charge(budget, Kind::ValSer, size_of(value.get()))?;
    Ok(Answer::bytes(xdr_of(values.allocator(), value.get())?))
}

/// The value that bytes spell.
fn decoded_value(alloc: Global, bytes: &[u8]) -> Result<ScVal, ReadXdr>
    requires { IsHosted (bytes_datum bytes.now) }
    ensures value { Decodes result (decoded scval_format bytes.now) }
    ensures bounded { IfOk result (λ v. IsBounded (datum v)) }
{
    value_from_bytes(alloc, bytes)
}

/// The value that bytes spell, if it may enter the host.
fn read_value(alloc: Global, bytes: &[u8]) -> Result<Answer, ValueErr>
    requires { IsHosted (bytes_datum bytes.now) }
    ensures does { (w : State) → Says result answer_of (read_as (decoded scval_format bytes.now) w) w }
    ensures made { IsMadeIfOk result }
{
    match decoded_value(alloc, bytes) {
        // Bytes in memory never stop.
        Err(ReadXdr::NoMemory | ReadXdr::Stopped) => Err(ValueErr::NoMemory),
        Err(ReadXdr::Bad(_)) => Err(INVALID_VALUE),
        Ok(value) => {
            entry(&value)?;
            Ok(Answer::value(value))
        }
    }
}

/// `deserialize_from_bytes`: the value that the bytes spell.
pub fn deserialize_from_bytes(
    values: &Values<'_>,
    budget: &mut Budget,
    a: u64,
) -> Result<Answer, ValueErr>
    ensures { Answers result (kinds.Bytes ∷ []) deserialize_from_bytes (a ∷ []) values.now budget.old budget.new }
{
    let bytes = values.bytes(a)?;
    enter(budget, &[a])?;
    charge(budget, Kind::ValDeser, bytes.len() as u64)?;
    read_value(values.allocator(), bytes)
}
