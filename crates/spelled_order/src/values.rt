//! Values.

ghost use Rattle.std.specs.Prelude.{◌≡◌, length, ◌++◌};
ghost use Rattle.std.specs.List.{flat_map};
ghost use Rattle.value_types.specs.Kinds.{number};
ghost use Rattle.value_types.specs.Formats.{kind};
ghost use Rattle.value_types.specs.Views.{datums, datum_pairs};
ghost use Rattle.spelled_order.specs.Against.{Against};
ghost use Rattle.spelled_order.specs.Ranked.{ranked_value, ranked_body, ranked_length, ranked_row, ranked_of, ranked_pair};
ghost use Rattle.spelled_order.specs.Ranked.{ranked_instance};

use crate::ranked::{Ranked, cmp_word};
use crate::text::{cmp_lengths, cmp_text};
use std::cmp::Ordering;
use value_types::{Entries, Entry, Instance, ScVal, ScVals, is_same_scalar};

/// Compares with the value in the same arm of `$b`. Both values are of one type, so the other branch is never taken.
macro_rules! among {
    ($arm:ident, $b:expr, |$y:ident| $order:expr) => {
        match $b {
            ScVal::$arm($y) => $order,
            _ => Ordering::Equal,
        }
    };
}

/// Compares the XDR bytes of two values. It takes no memory, and at most as many nested calls as the values have levels.
#[cycle(rank)]
pub fn cmp_value(a: &ScVal, b: &ScVal) -> Ordering
    ensures { Against (ranked_value a.now) (ranked_value b.now) result }
{
    let (one, other) = (a.kind().number(), b.kind().number());
    if one == other {
        cmp_body(a, b)
    } else {
        cmp_word(one, other)
    }
}

/// Compares the bodies of two values of one type.
#[cycle(rank)]
fn cmp_body(a: &ScVal, b: &ScVal) -> Ordering
    requires { number (kind a.now) ≡ number (kind b.now) }
    ensures { Against (ranked_body a.now) (ranked_body b.now) result }
{
    match a {
        ScVal::Bool(x) => among!(Bool, b, |y| x.rank(y)),
        ScVal::Error(x) => among!(Error, b, |y| x.rank(y)),
        ScVal::U32(x) => among!(U32, b, |y| x.rank(y)),
        ScVal::I32(x) => among!(I32, b, |y| x.rank(y)),
        ScVal::U64(x) => among!(U64, b, |y| x.rank(y)),
        ScVal::I64(x) => among!(I64, b, |y| x.rank(y)),
        ScVal::Timepoint(x) => among!(Timepoint, b, |y| x.rank(y)),
        ScVal::Duration(x) => among!(Duration, b, |y| x.rank(y)),
        ScVal::U128(x) => among!(U128, b, |y| x.rank(y)),
        ScVal::I128(x) => among!(I128, b, |y| x.rank(y)),
        ScVal::U256(x) => among!(U256, b, |y| x.rank(y)),
        ScVal::I256(x) => among!(I256, b, |y| x.rank(y)),
        ScVal::Bytes(x) => among!(Bytes, b, |y| cmp_text(x.as_slice(), y.as_slice())),
        ScVal::String(x) => among!(String, b, |y| cmp_text(x.as_slice(), y.as_slice())),
        ScVal::Symbol(x) => among!(Symbol, b, |y| cmp_text(x.as_slice(), y.as_slice())),
        ScVal::Vec(x) => among!(Vec, b, |y| cmp_vecs(x, y)),
        ScVal::Map(x) => among!(Map, b, |y| cmp_maps(x, y)),
        ScVal::Address(x) => among!(Address, b, |y| x.rank(y)),
        ScVal::ContractInstance(x) => among!(ContractInstance, b, |y| cmp_instances(x, y)),
        ScVal::LedgerKeyNonce(x) => among!(LedgerKeyNonce, b, |y| x.rank(y)),
        ScVal::Void | ScVal::LedgerKeyContractInstance => Ordering::Equal,
    }
}

#[cycle(rank)]
fn cmp_vecs(a: &Option<ScVals>, b: &Option<ScVals>) -> Ordering
    ensures { Against (ranked_row ranked_of a.now) (ranked_row ranked_of b.now) result }
{
    match (a, b) {
        (None, None) => Ordering::Equal,
        (None, Some(_)) => Ordering::Less,
        (Some(_), None) => Ordering::Greater,
        (Some(x), Some(y)) => cmp_items(x.as_slice(), y.as_slice()),
    }
}

#[cycle(rank)]
fn cmp_maps(a: &Option<Entries>, b: &Option<Entries>) -> Ordering
    ensures { Against (ranked_row ranked_pair a.now) (ranked_row ranked_pair b.now) result }
{
    match (a, b) {
        (None, None) => Ordering::Equal,
        (None, Some(_)) => Ordering::Less,
        (Some(_), None) => Ordering::Greater,
        (Some(x), Some(y)) => cmp_pairs(x.as_slice(), y.as_slice()),
    }
}

#[cycle(rank)]
fn cmp_items(a: &[ScVal], b: &[ScVal]) -> Ordering
    ensures { Against (ranked_length (length a.now) ++ flat_map ranked_of (datums a.now))
        (ranked_length (length b.now) ++ flat_map ranked_of (datums b.now)) result }
{
    match cmp_lengths(a.len(), b.len()) {
        Ordering::Equal => cmp_row(a, b),
        unequal => unequal,
    }
}

#[cycle(rank)]
fn cmp_pairs(a: &[Entry], b: &[Entry]) -> Ordering
    ensures { Against (ranked_length (length a.now) ++ flat_map ranked_pair (datum_pairs a.now))
        (ranked_length (length b.now) ++ flat_map ranked_pair (datum_pairs b.now)) result }
{
    match cmp_lengths(a.len(), b.len()) {
        Ordering::Equal => cmp_pair_row(a, b),
        unequal => unequal,
    }
}

#[cycle(rank)]
fn cmp_row(a: &[ScVal], b: &[ScVal]) -> Ordering
    requires { length a.now ≡ length b.now }
    ensures { Against (flat_map ranked_of (datums a.now)) (flat_map ranked_of (datums b.now)) result }
{
    for (i, x) in a.iter().enumerate() {
        match cmp_item(x, &b[i]) {
            Ordering::Equal => {}
            unequal => return unequal,
        }
    }
    Ordering::Equal
}

/// Compares two members. Those that are the same scalar are told by a quick test.
#[cycle(rank)]
#[tactic(auto, using(crate::proofs::Rows::same_value))]
fn cmp_item(a: &ScVal, b: &ScVal) -> Ordering
    ensures { Against (ranked_value a.now) (ranked_value b.now) result }
{
    if is_same_scalar(a, b) {
        Ordering::Equal
    } else {
        cmp_value(a, b)
    }
}

#[cycle(rank)]
fn cmp_pair_row(a: &[Entry], b: &[Entry]) -> Ordering
    requires { length a.now ≡ length b.now }
    ensures { Against (flat_map ranked_pair (datum_pairs a.now)) (flat_map ranked_pair (datum_pairs b.now)) result }
{
    for (i, x) in a.iter().enumerate() {
        match cmp_entry(x, &b[i]) {
            Ordering::Equal => {}
            unequal => return unequal,
        }
    }
    Ordering::Equal
}

#[cycle(rank)]
fn cmp_entry(a: &Entry, b: &Entry) -> Ordering
    ensures { Against (ranked_value a.now.key ++ ranked_value a.now.val)
        (ranked_value b.now.key ++ ranked_value b.now.val) result }
{
    match cmp_item(&a.key, &b.key) {
        Ordering::Equal => cmp_item(&a.val, &b.val),
        unequal => unequal,
    }
}

#[cycle(rank)]
fn cmp_instances(a: &Instance, b: &Instance) -> Ordering
    ensures { Against (ranked_instance a.now) (ranked_instance b.now) result }
{
    match a.executable.rank(&b.executable) {
        Ordering::Equal => cmp_maps(&a.storage, &b.storage),
        unequal => unequal,
    }
}
