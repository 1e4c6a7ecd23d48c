//! Whether lists of values are the same, and the first place at which they differ.

ghost use Rattle.std.specs.Prelude.{◌≡◌, IfOk};
ghost use Rattle.std.specs.Bool.{Decides};

use byte_list::Blob;
use value_types::{Entries, Entry, ScVal, ScVals, is_same_scalar};
use xdr_core::NoMemory;

/// How deep a place may lead. What lies deeper is compared as a whole.
const DEEPEST: u64 = 200;

/// Returns whether two lists are the same. If they are not, it adds the steps of the first place at which they differ to an empty
/// list: `differ_at` is true there. A difference deeper than 200 steps, or in an instance, has the place of what it lies in. It
/// takes time in proportion to what both lists share before that place, and memory for each step.
pub fn same_until(one: &[ScVal], other: &[ScVal], place: &mut Vec<usize>) -> Result<bool, NoMemory>
    ensures { IfOk result (λ same. Decides same (one.now ≡ other.now)) }
{
    same_items(one, other, place, DEEPEST)
}

/// The same, at most so many steps deep.
#[cycle(same)]
fn same_items(
    one: &[ScVal],
    other: &[ScVal],
    place: &mut Vec<usize>,
    deepest: u64,
) -> Result<bool, NoMemory>
    ensures { IfOk result (λ same. Decides same (one.now ≡ other.now)) }
{
    if one.len() != other.len() {
        return Ok(false);
    }
    for i in 0..one.len() {
        if !is_same_scalar(&one[i], &other[i])
            && !same_values(&one[i], &other[i], place, deepest)?
        {
            place.push(i)?;
            return Ok(false);
        }
    }
    Ok(true)
}

/// The same of entries of maps.
#[cycle(same)]
fn same_entries(
    one: &[Entry],
    other: &[Entry],
    place: &mut Vec<usize>,
    deepest: u64,
) -> Result<bool, NoMemory>
    ensures { IfOk result (λ same. Decides same (one.now ≡ other.now)) }
{
    if one.len() != other.len() {
        return Ok(false);
    }
    for i in 0..one.len() {
        if !same_values(&one[i].key, &other[i].key, place, deepest)? {
            place.push(2 * i)?;
            return Ok(false);
        }
        if !same_values(&one[i].val, &other[i].val, place, deepest)? {
            place.push(2 * i + 1)?;
            return Ok(false);
        }
    }
    Ok(true)
}

/// The same of two values.
#[cycle(same)]
fn same_values(
    one: &ScVal,
    other: &ScVal,
    place: &mut Vec<usize>,
    deepest: u64,
) -> Result<bool, NoMemory>
    ensures { IfOk result (λ same. Decides same (one.now ≡ other.now)) }
{
    if deepest == 0 {
        return Ok(*one == *other);
    }
    match one {
        ScVal::Vec(x) => match other {
            ScVal::Vec(y) => same_vecs(x, y, place, deepest - 1),
            _ => Ok(false),
        },
        ScVal::Map(x) => match other {
            ScVal::Map(y) => same_maps(x, y, place, deepest - 1),
            _ => Ok(false),
        },
        ScVal::Bytes(x) => match other {
            ScVal::Bytes(y) => same_bytes(x, y, place),
            _ => Ok(false),
        },
        ScVal::String(x) => match other {
            ScVal::String(y) => same_bytes(x, y, place),
            _ => Ok(false),
        },
        ScVal::Symbol(x) => match other {
            ScVal::Symbol(y) => same_bytes(x, y, place),
            _ => Ok(false),
        },
        _ => Ok(*one == *other),
    }
}

/// The same of two vecs.
#[cycle(same)]
fn same_vecs(
    one: &Option<ScVals>,
    other: &Option<ScVals>,
    place: &mut Vec<usize>,
    deepest: u64,
) -> Result<bool, NoMemory>
    ensures { IfOk result (λ same. Decides same (one.now ≡ other.now)) }
{
    match (one, other) {
        (None, None) => Ok(true),
        (Some(x), Some(y)) => same_items(x.as_slice(), y.as_slice(), place, deepest),
        _ => Ok(false),
    }
}

/// The same of two maps.
#[cycle(same)]
fn same_maps(
    one: &Option<Entries>,
    other: &Option<Entries>,
    place: &mut Vec<usize>,
    deepest: u64,
) -> Result<bool, NoMemory>
    ensures { IfOk result (λ same. Decides same (one.now ≡ other.now)) }
{
    match (one, other) {
        (None, None) => Ok(true),
        (Some(x), Some(y)) => same_entries(x.as_slice(), y.as_slice(), place, deepest),
        _ => Ok(false),
    }
}

/// The same of bytes.
fn same_bytes(one: &Blob, other: &Blob, place: &mut Vec<usize>) -> Result<bool, NoMemory>
    ensures { IfOk result (λ same. Decides same (one.now ≡ other.now)) }
{
    let (x, y) = (one.as_slice(), other.as_slice());
    if x.len() != y.len() {
        return Ok(false);
    }
    for i in 0..x.len() {
        if x[i] != y[i] {
            place.push(i)?;
            return Ok(false);
        }
    }
    Ok(true)
}
