//! Wide keys of contract data: those of many bytes.

ghost use Rattle.std.specs.Prelude.{◌≡◌, ◌+◌, ◌≤◌, length, true};
ghost use Rattle.std.specs.List.{slice_index_or};
ghost use Rattle.value_types.specs.declared.value.ScVal.{ScVal as Value};

use crate::table::Slot;
use ledger_types::LedgerKey;
use std::slice::from_ref;
use value_paths::Numbered;
use value_types::{ScVal, ScVals, is_same_scalar, xdr_size};

/// The bytes of XDR from which on a key is wide. Shorter ones are compared sooner than told apart.
const WIDE: u64 = 512;

/// Returns the value of a wide key of contract data.
pub(crate) fn wide_value(key: &LedgerKey) -> Option<&ScVal> {
    match key {
        LedgerKey::ContractData { key, .. } => {
            if xdr_size(key) >= WIDE {
                Some(key)
            } else {
                None
            }
        }
        _ => None,
    }
}

/// Whether two keys of contract data are the same. Other keys are taken for different ones.
pub(crate) fn are_same(one: &LedgerKey, other: &LedgerKey) -> bool
    ensures { result ≡ true → one.now ≡ other.now }
{
    match one {
        LedgerKey::ContractData {
            contract,
            key,
            durability,
        } => match other {
            LedgerKey::ContractData {
                contract: other_contract,
                key: other_key,
                durability: other_durability,
            } => {
                *contract == *other_contract
                    && *durability == *other_durability
                    && are_same_values(key, other_key)
            }
            _ => false,
        },
        _ => false,
    }
}

/// Whether two values are the same.
fn are_same_values(one: &ScVal, other: &ScVal) -> bool
    ensures { result ≡ true → one.now ≡ other.now }
{
    match one {
        ScVal::Vec(items) => match other {
            ScVal::Vec(other_items) => are_same_vecs(items, other_items),
            _ => false,
        },
        _ => *one == *other,
    }
}

/// Whether two vecs are the same. Null is not the empty vec.
fn are_same_vecs(one: &Option<ScVals>, other: &Option<ScVals>) -> bool
    ensures { result ≡ true → one.now ≡ other.now }
{
    match (one, other) {
        (Some(items), Some(other_items)) => {
            are_same_items(items.as_slice(), other_items.as_slice())
        }
        _ => false,
    }
}

/// Whether two lists are the same. A loop that takes four items at a time has half the instructions for each.
fn are_same_items(one: &[ScVal], other: &[ScVal]) -> bool
    ensures { result ≡ true → one.now ≡ other.now }
{
    if one.len() != other.len() {
        return false;
    }
    let fours = one.len() / 4;
    for i in 0..fours {
        if !are_same_four(one, other, 4 * i) {
            return false;
        }
    }
    for i in 4 * fours..one.len() {
        if !is_same_item(&one[i], &other[i]) {
            return false;
        }
    }
    true
}

/// Whether four items from an index on are the same.
#[inline]
fn are_same_four(one: &[ScVal], other: &[ScVal], at: usize) -> bool
    requires one { at + 4 ≤ length one.now }
    requires other { at + 4 ≤ length other.now }
    ensures first { result ≡ true → (d : Value) → slice_index_or one.now at d ≡ slice_index_or other.now at d }
    ensures second { result ≡ true → (d : Value) → slice_index_or one.now (at + 1) d ≡ slice_index_or other.now (at + 1) d }
    ensures third { result ≡ true → (d : Value) → slice_index_or one.now (at + 2) d ≡ slice_index_or other.now (at + 2) d }
    ensures fourth { result ≡ true → (d : Value) → slice_index_or one.now (at + 3) d ≡ slice_index_or other.now (at + 3) d }
{
    is_same_item(&one[at], &other[at])
        && is_same_item(&one[at + 1], &other[at + 1])
        && is_same_item(&one[at + 2], &other[at + 2])
        && is_same_item(&one[at + 3], &other[at + 3])
}

/// Whether two items are the same. Equal scalars are told by a quick test.
#[inline]
fn is_same_item(one: &ScVal, other: &ScVal) -> bool
    ensures { result ≡ true → one.now ≡ other.now }
{
    is_same_scalar(one, other) || *one == *other
}

/// Slots by numbers, with the values of their keys if these are wide.
#[derive(Clone, Copy)]
pub(crate) struct Wide<'t, 'a> {
    pub slots: &'t [Slot<'a>],
}

impl<'t, 'a> Wide<'t, 'a> {
    /// Whether the key of a slot is wide.
    pub(crate) fn has(&self, number: usize) -> bool {
        !self.values(number).is_empty()
    }
}

impl<'t, 'a> Numbered for Wide<'t, 'a> {
    fn values(&self, number: usize) -> &[ScVal] {
        let Some(slot) = self.slots.get(number) else {
            return &[];
        };
        match wide_value(&slot.key) {
            None => &[],
            Some(value) => from_ref(value),
        }
    }
}
