//! Whether lists of values differ at a place.
//!
//! A place is a list of steps, the last one first: the index of an item or of a byte, or twice the index of an entry of a map,
//! plus one for its value.

ghost use Rattle.std.specs.Prelude.{◌≡◌, ◌≤◌, length, true};

use byte_list::Blob;
use value_types::{Entries, Entry, ScVal, ScVals};

/// Whether two lists differ at a place: in their lengths on the way, or in what is there. It takes O(1) for each step. If the
/// place is not in both, they are taken for alike.
pub fn differ_at(one: &[ScVal], other: &[ScVal], place: &[usize]) -> bool
    ensures { result ≡ true → one.now ≡ other.now → ⊥ }
{
    items_differ(one, other, place, place.len())
}

/// Whether two lists differ at a place of so many steps.
#[cycle(differ)]
fn items_differ(one: &[ScVal], other: &[ScVal], place: &[usize], steps: usize) -> bool
    requires { steps ≤ length place.now }
    ensures { result ≡ true → one.now ≡ other.now → ⊥ }
{
    if one.len() != other.len() {
        return true;
    }
    if steps == 0 {
        return false;
    }
    let i = place[steps - 1];
    i < one.len() && values_differ(&one[i], &other[i], place, steps - 1)
}

/// Whether two lists of entries differ at a place of so many steps.
#[cycle(differ)]
fn entries_differ(one: &[Entry], other: &[Entry], place: &[usize], steps: usize) -> bool
    requires { steps ≤ length place.now }
    ensures { result ≡ true → one.now ≡ other.now → ⊥ }
{
    if one.len() != other.len() {
        return true;
    }
    if steps == 0 {
        return false;
    }
    let i = place[steps - 1] / 2;
    if i >= one.len() {
        return false;
    }
    if place[steps - 1] % 2 == 0 {
        values_differ(&one[i].key, &other[i].key, place, steps - 1)
    } else {
        values_differ(&one[i].val, &other[i].val, place, steps - 1)
    }
}

/// Whether two values differ at a place of so many steps.
#[cycle(differ)]
fn values_differ(one: &ScVal, other: &ScVal, place: &[usize], steps: usize) -> bool
    requires { steps ≤ length place.now }
    ensures { result ≡ true → one.now ≡ other.now → ⊥ }
{
    match one {
        ScVal::Vec(x) => match other {
            ScVal::Vec(y) => vecs_differ(x, y, place, steps),
            _ => true,
        },
        ScVal::Map(x) => match other {
            ScVal::Map(y) => maps_differ(x, y, place, steps),
            _ => true,
        },
        ScVal::Bytes(x) => match other {
            ScVal::Bytes(y) => bytes_differ(x, y, place, steps),
            _ => true,
        },
        ScVal::String(x) => match other {
            ScVal::String(y) => bytes_differ(x, y, place, steps),
            _ => true,
        },
        ScVal::Symbol(x) => match other {
            ScVal::Symbol(y) => bytes_differ(x, y, place, steps),
            _ => true,
        },
        _ => are_other(one, other),
    }
}

/// Whether two values differ as a whole.
fn are_other(one: &ScVal, other: &ScVal) -> bool
    ensures { result ≡ true → one.now ≡ other.now → ⊥ }
{
    let same = *one == *other;
    !same
}

/// Whether two vecs differ at a place of so many steps.
#[cycle(differ)]
fn vecs_differ(one: &Option<ScVals>, other: &Option<ScVals>, place: &[usize], steps: usize) -> bool
    requires { steps ≤ length place.now }
    ensures { result ≡ true → one.now ≡ other.now → ⊥ }
{
    match (one, other) {
        (None, None) => false,
        (Some(x), Some(y)) => items_differ(x.as_slice(), y.as_slice(), place, steps),
        _ => true,
    }
}

/// Whether two maps differ at a place of so many steps.
#[cycle(differ)]
fn maps_differ(
    one: &Option<Entries>,
    other: &Option<Entries>,
    place: &[usize],
    steps: usize,
) -> bool
    requires { steps ≤ length place.now }
    ensures { result ≡ true → one.now ≡ other.now → ⊥ }
{
    match (one, other) {
        (None, None) => false,
        (Some(x), Some(y)) => entries_differ(x.as_slice(), y.as_slice(), place, steps),
        _ => true,
    }
}

/// Whether bytes differ at a place of so many steps.
fn bytes_differ(one: &Blob, other: &Blob, place: &[usize], steps: usize) -> bool
    requires { steps ≤ length place.now }
    ensures { result ≡ true → one.now ≡ other.now → ⊥ }
{
    let (x, y) = (one.as_slice(), other.as_slice());
    if x.len() != y.len() {
        return true;
    }
    if steps == 0 {
        return false;
    }
    let i = place[steps - 1];
    i < x.len() && x[i] != y[i]
}
