//! The order of values and of keys, and the size and the depth of values.

ghost use Rattle.ledger_types.specs.Key.{key_format};
ghost use Rattle.value_types.specs.Formats.{scval_format};

use crate::errors::{made, unread};
use case_text::{CaseErr, Fragments, first_word, push_str};
use ledger_types::{LedgerKey, cmp_keys};
use std::alloc::Global;
use std::cmp::Ordering;
use std::fmt::Write;
use value_types::{ScVal, cmp_val, depth};
use value_xdr::{decode, val_size, value_from_bytes, value_to_bytes};

/// TYPE BYTES BYTES ..: whether each value comes before all those behind it, or the first two for which that does not hold.
pub fn rises(
    alloc: Global,
    fragments: &Fragments,
    words: &str,
    out: &mut String,
) -> Result<(), CaseErr> {
    let (name, rest) = first_word(words);
    let mut spellings = Vec::new(alloc);
    fragments.push_each(alloc, &mut spellings, rest)?;
    push_rises(alloc, out, name, &spellings)
}

fn push_rises(
    alloc: Global,
    out: &mut String,
    name: &str,
    spellings: &[Vec<u8>],
) -> Result<(), CaseErr> {
    for (i, bytes) in spellings.iter().enumerate() {
        if !is_in_order(alloc, out, name, spellings, i, bytes)? {
            return Ok(());
        }
    }
    push_str(out, "rises\n")
}

/// Whether the value of an index comes behind those before it, and before those behind it. Else a line says which does not.
fn is_in_order(
    alloc: Global,
    out: &mut String,
    name: &str,
    spellings: &[Vec<u8>],
    i: usize,
    bytes: &[u8],
) -> Result<bool, CaseErr> {
    for (j, other) in spellings.iter().enumerate() {
        let order = order_of(alloc, name, bytes, other)?;
        if order != i.cmp(&j) {
            let name = name_of(order);
            writeln!(out, "the one of index {i} is {name} than that of {j}")?;
            return Ok(false);
        }
    }
    Ok(true)
}

fn order_of(alloc: Global, name: &str, bytes: &[u8], other: &[u8]) -> Result<Ordering, CaseErr> {
    match name {
        "value" => order_of_values(alloc, bytes, other),
        "key" => order_of_keys(alloc, bytes, other),
        _ => Err(CaseErr::Lacks("a type that has an order")),
    }
}

fn name_of(order: Ordering) -> &'static str {
    match order {
        Ordering::Less => "less",
        Ordering::Equal => "equal",
        Ordering::Greater => "greater",
    }
}

fn order_of_values(alloc: Global, bytes: &[u8], other: &[u8]) -> Result<Ordering, CaseErr> {
    match decode::<ScVal>(alloc, bytes) {
        Ok(value) => order_of_value(alloc, &value, other),
        Err(error) => Err(unread(error, "a value")),
    }
}

fn order_of_value(alloc: Global, value: &ScVal, other: &[u8]) -> Result<Ordering, CaseErr> {
    match decode::<ScVal>(alloc, other) {
        Ok(other) => Ok(cmp_val(value, &other)),
        Err(error) => Err(unread(error, "a value")),
    }
}

fn order_of_keys(alloc: Global, bytes: &[u8], other: &[u8]) -> Result<Ordering, CaseErr> {
    match decode::<LedgerKey>(alloc, bytes) {
        Ok(key) => order_of_key(alloc, &key, other),
        Err(error) => Err(unread(error, "a key")),
    }
}

fn order_of_key(alloc: Global, key: &LedgerKey, other: &[u8]) -> Result<Ordering, CaseErr>
    requires { key_format.fits key.now }
{
    match decode::<LedgerKey>(alloc, other) {
        Ok(other) => Ok(cmp_keys(key, &other)),
        Err(error) => Err(unread(error, "a key")),
    }
}

/// KEY KEY: how the first compares with the second.
pub fn against(
    alloc: Global,
    fragments: &Fragments,
    words: &str,
    out: &mut String,
) -> Result<(), CaseErr> {
    let (key, other) = first_word(words);
    let key = fragments.bytes(alloc, key)?;
    let order = order_of_keys(alloc, &key, &fragments.bytes(alloc, other)?)?;
    out.push_str(name_of(order))?;
    push_str(out, "\n")
}

/// VALUE: its size and its depth.
pub fn measure(
    alloc: Global,
    fragments: &Fragments,
    words: &str,
    out: &mut String,
) -> Result<(), CaseErr> {
    push_measured(alloc, out, &fragments.bytes(alloc, words)?)
}

fn push_measured(alloc: Global, out: &mut String, bytes: &[u8]) -> Result<(), CaseErr> {
    match value_from_bytes(alloc, bytes) {
        Ok(value) => push_measures(alloc, out, bytes, &value),
        Err(error) => Err(unread(error, "a value")),
    }
}

fn push_measures(
    alloc: Global,
    out: &mut String,
    bytes: &[u8],
    value: &ScVal,
) -> Result<(), CaseErr>
    requires { scval_format.fits value.now }
{
    if made(value_to_bytes(alloc, value))?.as_slice() == bytes {
        let (size, depth) = (val_size(value), depth(value));
        writeln!(out, "size {size} depth {depth}")?;
    } else {
        out.push_str("written otherwise\n")?;
    }
    Ok(())
}
