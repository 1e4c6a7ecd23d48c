//! Values as values of one type.

ghost use Rattle.std.specs.Prelude.{◌≡◌, IfOk};
ghost use Rattle.value_types.specs.Views.{datum, datums, datum_pairs};
ghost use Rattle.value_types.specs.Datum.{items_of, members_of, bytes, string, symbol, vec, map, address as address_datum};
ghost use Rattle.host_spec.specs.Arguments.{typed, as_error, as_u32, as_u64, as_i64, as_u128, as_i128, as_timepoint, as_duration};
ghost use Rattle.host_spec.specs.Arguments.{as_bytes, as_string, as_symbol, as_vec, as_map, as_address, as_muxed_address};
ghost use Rattle.host_spec.specs.Addresses.{as_plain, as_muxed};
ghost use Rattle.host_spec.specs.Hosted.{IsHosted, IsMade};
ghost use Rattle.value_types.specs.Address.{address_format};
ghost use Rattle.host_frame.specs.Resolved.{Resolves};
ghost use Rattle.host_frame.specs.Held.{held, held_text, muxed};

use crate::errors::OTHER_TYPE;
use crate::held::{Held, HeldText};
use host_spec::ValueErr;
use value_types::{AccountId, Entry, Int128Parts, ScAddress, ScError, ScVal, UInt128Parts};

/// Returns the error that a value is. Fails if it has another type.
pub fn error_of(value: &ScVal) -> Result<ScError, ValueErr>
    ensures { Resolves result (λ e. e) (typed (as_error (datum value.now))) }
{
    match value {
        ScVal::Error(error) => Ok(*error),
        _ => Err(OTHER_TYPE),
    }
}

/// Returns the number of a U32. Fails for another type.
pub fn number32_of(value: &ScVal) -> Result<u32, ValueErr>
    ensures { Resolves result (λ n. n) (typed (as_u32 (datum value.now))) }
{
    match value {
        ScVal::U32(number) => Ok(*number),
        _ => Err(OTHER_TYPE),
    }
}

/// Returns the number of a U64. Fails for another type.
pub fn number64_of(value: &ScVal) -> Result<u64, ValueErr>
    ensures { Resolves result (λ n. n) (typed (as_u64 (datum value.now))) }
{
    match value {
        ScVal::U64(number) => Ok(*number),
        _ => Err(OTHER_TYPE),
    }
}

/// Returns the number of an I64. Fails for another type.
pub fn signed64_of(value: &ScVal) -> Result<i64, ValueErr>
    ensures { Resolves result (λ n. n) (typed (as_i64 (datum value.now))) }
{
    match value {
        ScVal::I64(number) => Ok(*number),
        _ => Err(OTHER_TYPE),
    }
}

/// Returns the words of a U128. Fails for another type.
pub fn number128_of(value: &ScVal) -> Result<UInt128Parts, ValueErr>
    ensures { Resolves result (λ n. n) (typed (as_u128 (datum value.now))) }
{
    match value {
        ScVal::U128(number) => Ok(*number),
        _ => Err(OTHER_TYPE),
    }
}

/// Returns the words of an I128. Fails for another type.
pub fn signed128_of(value: &ScVal) -> Result<Int128Parts, ValueErr>
    ensures { Resolves result (λ n. n) (typed (as_i128 (datum value.now))) }
{
    match value {
        ScVal::I128(number) => Ok(*number),
        _ => Err(OTHER_TYPE),
    }
}

/// Returns the seconds of a timepoint. Fails for another type.
pub fn timepoint_of(value: &ScVal) -> Result<u64, ValueErr>
    ensures { Resolves result (λ n. n) (typed (as_timepoint (datum value.now))) }
{
    match value {
        ScVal::Timepoint(number) => Ok(*number),
        _ => Err(OTHER_TYPE),
    }
}

/// Returns the seconds of a duration. Fails for another type.
pub fn duration_of(value: &ScVal) -> Result<u64, ValueErr>
    ensures { Resolves result (λ n. n) (typed (as_duration (datum value.now))) }
{
    match value {
        ScVal::Duration(number) => Ok(*number),
        _ => Err(OTHER_TYPE),
    }
}

/// Lends the bytes of a Bytes. Fails for another type.
pub fn bytes_of(value: &ScVal) -> Result<&[u8], ValueErr>
    ensures means { Resolves result (λ b. b.now) (typed (as_bytes (datum value.now))) }
    ensures same { IfOk result (λ b. bytes b.now ≡ datum value.now) }
{
    match value {
        ScVal::Bytes(blob) => Ok(blob.as_slice()),
        _ => Err(OTHER_TYPE),
    }
}

/// Lends the bytes of a String. Fails for another type.
pub fn string_of(value: &ScVal) -> Result<&[u8], ValueErr>
    ensures means { Resolves result (λ b. b.now) (typed (as_string (datum value.now))) }
    ensures same { IfOk result (λ b. string b.now ≡ datum value.now) }
{
    match value {
        ScVal::String(blob) => Ok(blob.as_slice()),
        _ => Err(OTHER_TYPE),
    }
}

/// The text of a symbol. Takes no memory.
pub fn text_of<'a>(value: Held<'a>) -> Result<HeldText<'a>, ValueErr>
    ensures means { Resolves result (λ t. held_text t) (typed (as_symbol (datum (held value.entry)))) }
    ensures same { IfOk result (λ t. symbol (held_text t) ≡ datum (held value.entry)) }
{
    match value {
        Held::Own(ScVal::Symbol(text)) => Ok(HeldText::Own(text)),
        Held::Lent(ScVal::Symbol(text)) => Ok(HeldText::Lent(text.as_slice())),
        _ => Err(OTHER_TYPE),
    }
}

/// Lends the items of a vec. Fails for another type.
#[tactic(auto, using(crate::proofs::Resolving::vec_typed))]
pub fn items_of(value: &ScVal) -> Result<&[ScVal], ValueErr>
    ensures means { Resolves result (λ m. datums m.now) (typed (as_vec (datum value.now))) }
    ensures same { IfOk result (λ m. vec (items_of (datums m.now)) ≡ datum value.now) }
{
    match value {
        ScVal::Vec(Some(items)) => Ok(items.as_slice()),
        _ => Err(OTHER_TYPE),
    }
}

/// Lends the entries of a map. Fails for another type.
#[tactic(auto, using(crate::proofs::Resolving::map_typed))]
pub fn entries_of(value: &ScVal) -> Result<&[Entry], ValueErr>
    ensures means { Resolves result (λ m. datum_pairs m.now) (typed (as_map (datum value.now))) }
    ensures same { IfOk result (λ m. map (members_of (datum_pairs m.now)) ≡ datum value.now) }
{
    match value {
        ScVal::Map(Some(entries)) => Ok(entries.as_slice()),
        _ => Err(OTHER_TYPE),
    }
}

/// The value and its items.
#[tactic(auto, using(crate::proofs::Resolving::vec_typed))]
pub fn whole_vec_of(value: &ScVal) -> Result<(&ScVal, &[ScVal]), ValueErr>
    ensures means { Resolves result (λ p. datums p.1.now) (typed (as_vec (datum value.now))) }
    ensures same { IfOk result (λ p. vec (items_of (datums p.1.now)) ≡ datum value.now) }
    ensures whole { IfOk result (λ p. p.0.now ≡ value.now) }
{
    match value {
        ScVal::Vec(Some(items)) => Ok((value, items.as_slice())),
        _ => Err(OTHER_TYPE),
    }
}

/// The value and its entries.
#[tactic(auto, using(crate::proofs::Resolving::map_typed))]
pub fn whole_map_of(value: &ScVal) -> Result<(&ScVal, &[Entry]), ValueErr>
    ensures means { Resolves result (λ p. datum_pairs p.1.now) (typed (as_map (datum value.now))) }
    ensures same { IfOk result (λ p. map (members_of (datum_pairs p.1.now)) ≡ datum value.now) }
    ensures whole { IfOk result (λ p. p.0.now ≡ value.now) }
{
    match value {
        ScVal::Map(Some(entries)) => Ok((value, entries.as_slice())),
        _ => Err(OTHER_TYPE),
    }
}

fn plain_of(address: ScAddress) -> Result<ScAddress, ValueErr>
    ensures { Resolves result (λ a. a) (typed (as_plain address)) }
{
    match address {
        ScAddress::Account(_) | ScAddress::Contract(_) => Ok(address),
        _ => Err(OTHER_TYPE),
    }
}

/// Returns the address of an account or a contract. Fails for another address or type.
pub fn address_of(value: &ScVal) -> Result<ScAddress, ValueErr>
    ensures { Resolves result (λ a. a) (typed (as_address (datum value.now))) }
{
    match value {
        ScVal::Address(address) => plain_of(*address),
        _ => Err(OTHER_TYPE),
    }
}

#[tactic(auto, using(crate::proofs::Making::account_of_muxed))]
fn muxed_parts(address: ScAddress) -> Result<(u64, AccountId), ValueErr>
    ensures means { Resolves result muxed (typed (as_muxed address)) }
    ensures account { address_format.fits address → IfOk result (λ p. IsMade (address_datum (ScAddress.Account p.1))) }
{
    match address {
        ScAddress::MuxedAccount { id, ed25519 } => Ok((id, AccountId(ed25519))),
        _ => Err(OTHER_TYPE),
    }
}

/// The number and the account of a muxed account's address.
pub fn muxed_of(value: &ScVal) -> Result<(u64, AccountId), ValueErr>
    requires { IsHosted (datum value.now) }
    ensures means { Resolves result muxed (typed (as_muxed_address (datum value.now))) }
    ensures account { IfOk result (λ p. IsMade (address_datum (ScAddress.Account p.1))) }
{
    match value {
        ScVal::Address(address) => muxed_parts(*address),
        _ => Err(OTHER_TYPE),
    }
}
