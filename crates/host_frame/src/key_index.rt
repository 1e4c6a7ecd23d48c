//! Where a key stands in a map.

ghost use Rattle.std.specs.Prelude.{◌≡◌, ◌<◌, ◌≤◌, length, take, drop, true, MatchResult};
ghost use Rattle.value_types.specs.Datum.{members_of, map};
ghost use Rattle.value_types.specs.Views.{datum, datum_pairs};
ghost use Rattle.host_spec.specs.Hosted.{IsHosted, is_below};
ghost use Rattle.host_frame.specs.KeyIndex.{AreBelow, IsThere, IsGap};

use std::cmp::Ordering;
use value_types::{Entry, ScVal, cmp_val};

/// The index of a key between two others, by halves. `Err` is the index where it would stand.
#[tactic(auto, using(crate::proofs::KeyLaws::above_middle, crate::proofs::KeyLaws::below_middle, crate::proofs::KeyLaws::gap))]
fn index_between(key: &ScVal, entries: &[Entry], from: usize, to: usize) -> Result<usize, usize>
    requires order { from ≤ to }
    requires within { to ≤ length entries.now }
    requires hosted { IsHosted (map (members_of (datum_pairs entries.now))) }
    requires below { AreBelow (datum key.now) (take from (datum_pairs entries.now)) }
    requires above { is_below (datum key.now) (members_of (drop to (datum_pairs entries.now))) ≡ true }
    ensures stands { MatchResult result (λ i. IsThere (datum key.now) (datum_pairs entries.now) i)
        (λ i. IsGap (datum key.now) (datum_pairs entries.now) i) }
    ensures within { MatchResult result (λ i. i < length entries.now) (λ i. i ≤ length entries.now) }
{
    if from == to {
        return Err(from);
    }
    let middle = from + (to - from) / 2;
    let entry = &entries[middle];
    match cmp_val(key, &entry.key) {
        Ordering::Less => index_between(key, entries, from, middle),
        Ordering::Equal => Ok(middle),
        Ordering::Greater => index_between(key, entries, middle + 1, to),
    }
}

/// The index of a key. `Err` is the index where it would stand.
#[tactic(auto, using(crate::proofs::KeyLaws::above_end))]
pub fn index_of(key: &ScVal, entries: &[Entry]) -> Result<usize, usize>
    requires { IsHosted (map (members_of (datum_pairs entries.now))) }
    ensures stands { MatchResult result (λ i. IsThere (datum key.now) (datum_pairs entries.now) i)
        (λ i. IsGap (datum key.now) (datum_pairs entries.now) i) }
    ensures within { MatchResult result (λ i. i < length entries.now) (λ i. i ≤ length entries.now) }
{
    index_between(key, entries, 0, entries.len())
}
