//! Whether values have a spelling. Each value that a contract holds has one. It is tested for what is recorded, so that contracts
//! can say it.

ghost use Rattle.std.specs.Prelude.{◌≡◌, true};
ghost use Rattle.xdr_spec.specs.Format.{number32, number64, signed32, signed64, opaque};
ghost use Rattle.value_types.specs.AccountId.{account_id_format};
ghost use Rattle.value_types.specs.Address.{address_format};
ghost use Rattle.value_types.specs.Datum.{vec, map, items_of, members_of};
ghost use Rattle.value_types.specs.Error.{error_format};
ghost use Rattle.value_types.specs.Formats.{scval_format};
ghost use Rattle.value_types.specs.Numbers.{u128_format, i128_format};
ghost use Rattle.value_types.specs.Views.{datum, datums, datum_pairs};
ghost use Rattle.value_xdr.specs.Bytes.{IsBounded};
ghost use Rattle.invoke_types.specs.Arguments.{values_format};

use value_types::{
    AccountId, Entry, Hash, Int128Parts, ScAddress, ScError, ScVal, UInt128Parts, depth, hash_fits,
};
use value_xdr::hold_bytes;

/// Says that the id of an account has a spelling.
#[tactic(auto, unfolding(value_types::specs::AccountId::account_id_format))]
pub(crate) fn hold_account(account: AccountId)
    ensures { account_id_format.fits account }
{
    hash_fits(account.0);
}

/// Says that a number has a spelling.
#[tactic(auto, unfolding(xdr_spec::specs::Format::number32))]
pub(crate) fn hold_u32(number: u32)
    ensures { number32.fits number }
{
    let _ = number;
}

/// Says that a number has a spelling.
#[tactic(auto, unfolding(xdr_spec::specs::Format::number64))]
fn hold_u64(number: u64)
    ensures { number64.fits number }
{
    let _ = number;
}

/// Says that a number has a spelling.
#[tactic(auto, unfolding(xdr_spec::specs::Format::signed32))]
fn hold_i32(number: i32)
    ensures { signed32.fits number }
{
    let _ = number;
}

/// Says that a number has a spelling.
#[tactic(auto, unfolding(xdr_spec::specs::Format::signed64))]
pub(crate) fn hold_i64(number: i64)
    ensures { signed64.fits number }
{
    let _ = number;
}

/// Says that a number has a spelling.
#[tactic(auto, unfolding(value_types::specs::Numbers::u128_format))]
fn hold_u128(number: UInt128Parts)
    ensures { u128_format.fits number }
{
    hold_u64(number.hi);
    hold_u64(number.lo);
}

/// Says that a number has a spelling.
#[tactic(auto, unfolding(value_types::specs::Numbers::i128_format))]
fn hold_i128(number: Int128Parts)
    ensures { i128_format.fits number }
{
    hold_i64(number.hi);
    hold_u64(number.lo);
}

/// Says that an error has a spelling.
#[tactic(auto, unfolding(value_types::specs::Error::error_format, value_types::specs::Error::code_format))]
fn hold_error(error: ScError)
    ensures { error_format.fits error }
{
    match error {
        ScError::Contract(code) => hold_u32(code),
        ScError::WasmVm(_) => (),
        ScError::Context(_) => (),
        ScError::Storage(_) => (),
        ScError::Object(_) => (),
        ScError::Crypto(_) => (),
        ScError::Events(_) => (),
        ScError::Budget(_) => (),
        ScError::Value(_) => (),
        ScError::Auth(_) => (),
    }
}

/// Whether an address is one of those that a contract can hold: those of accounts and of contracts.
#[tactic(auto, unfolding(value_types::specs::Address::address_format))]
pub(crate) fn address_fits(address: ScAddress) -> bool
    ensures { result ≡ true → address_format.fits address }
{
    match address {
        ScAddress::Account(account) => {
            hold_account(account);
            true
        }
        ScAddress::Contract(contract) => {
            hash_fits(contract);
            true
        }
        _ => false,
    }
}

/// Whether there are at most so many bytes.
#[tactic(auto, unfolding(xdr_spec::specs::Format::opaque))]
pub(crate) fn is_short(text: &[u8], most: u32) -> bool
    ensures { result ≡ true → (opaque most).fits text.now }
{
    hold_bytes(text);
    if text.len() > most as usize {
        return false;
    }
    true
}

/// Whether a value without members and without bytes is one that a contract can hold.
fn number_is_bounded(value: &ScVal) -> bool
    ensures { result ≡ true → IsBounded (datum value.now) }
{
    match value {
        ScVal::Void => true,
        ScVal::U32(number) => {
            hold_u32(*number);
            true
        }
        ScVal::I32(number) => {
            hold_i32(*number);
            true
        }
        ScVal::U64(number) | ScVal::Timepoint(number) | ScVal::Duration(number) => {
            hold_u64(*number);
            true
        }
        ScVal::I64(number) => {
            hold_i64(*number);
            true
        }
        ScVal::U128(number) => {
            hold_u128(*number);
            true
        }
        ScVal::I128(number) => {
            hold_i128(*number);
            true
        }
        _ => false,
    }
}

/// Whether each count in a value is in its range. Values that no contract can hold are refused, too.
#[cycle(bounded)]
#[tactic(auto, unfolding(xdr_spec::specs::Format::boolean))]
fn is_bounded(value: &ScVal) -> bool
    ensures { result ≡ true → IsBounded (datum value.now) }
{
    match value {
        ScVal::Bool(_) => true,
        ScVal::Error(error) => {
            hold_error(*error);
            true
        }
        ScVal::Bytes(bytes) => is_short(bytes.as_slice(), 4_294_967_295),
        ScVal::String(text) => is_short(text.as_slice(), 4_294_967_295),
        ScVal::Symbol(text) => is_short(text.as_slice(), 32),
        ScVal::Address(address) => address_fits(*address),
        ScVal::Vec(Some(items)) => items_are_bounded(items.as_slice()),
        ScVal::Map(Some(entries)) => entries_are_bounded(entries.as_slice()),
        _ => number_is_bounded(value),
    }
}

/// Whether so many items can stand in a vec, and each is bounded.
#[cycle(bounded)]
fn items_are_bounded(items: &[ScVal]) -> bool
    ensures { result ≡ true → IsBounded (vec (items_of (datums items.now))) }
{
    if items.len() > 4_294_967_295 {
        return false;
    }
    for item in items {
        let good = is_bounded(item);
        if !good {
            return false;
        }
    }
    true
}

/// Whether so many entries can stand in a map, and each is bounded.
#[cycle(bounded)]
fn entries_are_bounded(entries: &[Entry]) -> bool
    ensures { result ≡ true → IsBounded (map (members_of (datum_pairs entries.now))) }
{
    if entries.len() > 4_294_967_295 {
        return false;
    }
    for entry in entries {
        let key = is_bounded(&entry.key);
        let val = is_bounded(&entry.val);
        let good = key && val;
        if !good {
            return false;
        }
    }
    true
}

/// Whether a value has a spelling.
pub(crate) fn value_fits(value: &ScVal) -> bool
    ensures { result ≡ true → scval_format.fits value.now }
{
    if depth(value) > 100 {
        return false;
    }
    is_bounded(value)
}

/// Whether values have a spelling in a row.
pub(crate) fn values_fit(values: &[ScVal]) -> bool
    ensures { result ≡ true → values_format.fits values.now }
{
    if values.len() > 4_294_967_295 {
        return false;
    }
    for value in values {
        let good = value_fits(value);
        if !good {
            return false;
        }
    }
    true
}
