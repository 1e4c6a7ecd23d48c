//! The entry of values into the host: three tests of the whole value.

ghost use Rattle.std.specs.Prelude.{◌≡◌, OnOk};
ghost use Rattle.std.specs.List.{list_all};
ghost use Rattle.host_spec.specs.Characters.{is_character};
ghost use Rattle.value_types.specs.Datum.{items_of, members_of};
ghost use Rattle.value_types.specs.Views.{datum, datums, datum_pairs};
ghost use Rattle.value_xdr.specs.Bytes.{IsBounded};
ghost use Rattle.host_spec.specs.Addresses.{is_host_address};
ghost use Rattle.host_spec.specs.Hosted.{entry, has_host_types, items_have_host_types, members_have_host_types, is_symbol};
ghost use Rattle.host_spec.specs.Hosted.{is_below, is_well_formed, items_are_well_formed, members_are_well_formed, IsMade};
ghost use Rattle.host_frame.specs.Resolved.{Resolves};

use crate::errors::{INVALID_VALUE, OTHER_TYPE, TOO_LARGE};
use crate::sizes::measured;
use host_spec::ValueErr;
use std::cmp::Ordering;
use tagged_val::is_character;
use value_types::{Entry, ScAddress, ScVal, cmp_val};

fn is_host_address(address: ScAddress) -> bool
    ensures { result ≡ is_host_address address }
{
    match address {
        ScAddress::ClaimableBalance(_) | ScAddress::LiquidityPool(_) => false,
        _ => true,
    }
}

/// Whether no value in it has a type that the host lacks.
#[cycle(types)]
fn has_host_types(value: &ScVal) -> bool
    ensures { result ≡ has_host_types (datum value.now) }
{
    match value {
        ScVal::Vec(Some(items)) => items_have_host_types(items.as_slice()),
        ScVal::Map(Some(entries)) => entries_have_host_types(entries.as_slice()),
        ScVal::Address(address) => is_host_address(*address),
        ScVal::U256(_) | ScVal::I256(_) | ScVal::Vec(None) | ScVal::Map(None) => false,
        ScVal::ContractInstance(_) | ScVal::LedgerKeyContractInstance | ScVal::LedgerKeyNonce(_) =>
            false,
        _ => true,
    }
}

#[cycle(types)]
#[tactic(auto, using(crate::proofs::Entering::types_past, crate::proofs::Entering::types_stop, crate::proofs::Entering::types_end))]
fn items_have_host_types(items: &[ScVal]) -> bool
    ensures { result ≡ items_have_host_types (items_of (datums items.now)) }
{
    for item in items {
        if !has_host_types(item) {
            return false;
        }
    }
    true
}

#[cycle(types)]
#[tactic(auto, using(crate::proofs::Entering::pair_types_past, crate::proofs::Entering::pair_types_stop, crate::proofs::Entering::pair_types_end))]
fn entries_have_host_types(entries: &[Entry]) -> bool
    ensures { result ≡ members_have_host_types (members_of (datum_pairs entries.now)) }
{
    for entry in entries {
        let key = has_host_types(&entry.key);
        let val = has_host_types(&entry.val);
        if !(key && val) {
            return false;
        }
    }
    true
}

/// Whether a symbol may hold each of these bytes.
pub fn are_characters(text: &[u8]) -> bool
    ensures { result ≡ list_all is_character text.now }
{
    text.iter().all(|byte| is_character(*byte))
}

/// Whether a symbol may have this text.
pub fn is_symbol(text: &[u8]) -> bool
    ensures { result ≡ is_symbol text.now }
{
    text.len() <= 32 && are_characters(text)
}

/// Whether a key is below the first of the entries.
fn is_below(key: &ScVal, rest: &[Entry]) -> bool
    ensures { result ≡ is_below (datum key.now) (members_of (datum_pairs rest.now)) }
{
    match rest.first() {
        None => true,
        Some(next) => cmp_val(key, &next.key) == Ordering::Less,
    }
}

/// Whether the keys of each map in it rise strictly, and each symbol has the text of one.
#[cycle(form)]
fn is_well_formed(value: &ScVal) -> bool
    ensures { result ≡ is_well_formed (datum value.now) }
{
    match value {
        ScVal::Symbol(text) => is_symbol(text.as_slice()),
        ScVal::Vec(Some(items)) => items_are_well_formed(items.as_slice()),
        ScVal::Map(Some(entries)) => entries_are_well_formed(entries.as_slice()),
        _ => true,
    }
}

#[cycle(form)]
#[tactic(auto, using(crate::proofs::Entering::form_past, crate::proofs::Entering::form_stop, crate::proofs::Entering::form_end))]
fn items_are_well_formed(items: &[ScVal]) -> bool
    ensures { result ≡ items_are_well_formed (items_of (datums items.now)) }
{
    for item in items {
        if !is_well_formed(item) {
            return false;
        }
    }
    true
}

#[cycle(form)]
#[tactic(auto, using(crate::proofs::Entering::pair_form_past, crate::proofs::Entering::pair_form_stop, crate::proofs::Entering::pair_form_end))]
fn entries_are_well_formed(entries: &[Entry]) -> bool
    ensures { result ≡ members_are_well_formed (members_of (datum_pairs entries.now)) }
{
    for (i, entry) in entries.iter().enumerate() {
        let (_, rest) = entries.split_at(i + 1);
        let below = is_below(&entry.key, rest);
        let key = is_well_formed(&entry.key);
        let val = is_well_formed(&entry.val);
        if !(below && key && val) {
            return false;
        }
    }
    true
}

/// Whether a value enters the host: its size, then its types, then its form, each of the whole value.
#[tactic(auto, using(crate::proofs::Entering::entry_too_large, crate::proofs::Entering::entry_other_type, crate::proofs::Entering::entry_invalid, crate::proofs::Entering::entry_good, crate::proofs::Entering::entered_made))]
pub fn entry(value: &ScVal) -> Result<(), ValueErr>
    requires { IsBounded (datum value.now) }
    ensures does { Resolves result (λ _. datum value.now) (entry (datum value.now)) }
    ensures made { OnOk result (IsMade (datum value.now)) }
{
    let size = measured(value);
    if size > 16_777_216 {
        return Err(TOO_LARGE);
    }
    if !has_host_types(value) {
        return Err(OTHER_TYPE);
    }
    if !is_well_formed(value) {
        return Err(INVALID_VALUE);
    }
    Ok(())
}
