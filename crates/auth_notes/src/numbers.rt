//! Numbers by keys that are lists of numbers.

ghost use Rattle.std.specs.Prelude.{◌≡◌, None, true, false, IfOk};
ghost use Rattle.auth_notes.specs.Indices.{number_at, count_at, HasPut};

use std::collections::BTreeMap;

/// Returns the number at a key, in O(log n) comparisons.
pub(crate) fn number_at(numbers: &BTreeMap<Vec<u64>, usize>, key: &[u64]) -> Option<usize>
    ensures { result ≡ number_at numbers.now.entries key.now }
{
    numbers.get(key).copied()
}

/// Returns the number at a key, or 0, in O(log n) comparisons.
pub(crate) fn count_at(numbers: &BTreeMap<Vec<u64>, usize>, key: &[u64]) -> usize
    ensures { result ≡ count_at numbers.now.entries key.now }
{
    number_at(numbers, key).unwrap_or(0)
}

/// Puts a number at a key, in O(log n) comparisons. Returns whether there was memory for it. A key that is there needs none.
pub(crate) fn put(numbers: &mut BTreeMap<Vec<u64>, usize>, key: Vec<u64>, number: usize) -> bool
    ensures put { result ≡ true → HasPut numbers.old.entries key.items number numbers.new.entries }
    ensures refused { result ≡ false → numbers.new.entries ≡ numbers.old.entries }
    ensures missing { result ≡ false → number_at numbers.old.entries key.items ≡ None }
{
    match numbers.insert(key, number) {
        Ok(_) => true,
        Err(_) => false,
    }
}
