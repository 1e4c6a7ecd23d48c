//! Parts of maps, and maps made of them.

ghost use Rattle.std.specs.Prelude.{◌≡◌, ◌<◌, ◌≤◌, length, take, drop, map as each, slice_get, is_some, Some, None, true, false};
ghost use Rattle.std.specs.Prelude.{IfOk, IfErr, IfSome, MatchOption};
ghost use Rattle.std.specs.Option.{option_map};
ghost use Rattle.value_types.specs.Datum.{members_of, map, items_of, vec};
ghost use Rattle.value_types.specs.Views.{datum, datums, datum_pairs};
ghost use Rattle.host_spec.specs.Hosted.{IsHosted, IsMade};
ghost use Rattle.host_spec.specs.MapRows.{value_at, put, without, map_answer};
ghost use Rattle.host_spec.specs.VecRows.{vec_answer};
ghost use Rattle.host_spec.specs.declared.error.ValueErr.TheVariants as errs;
ghost use Rattle.host_frame.specs.Answered.{answer_of};
ghost use Rattle.host_frame.specs.Made.{IsAnswerMade};
ghost use Rattle.host_frame.specs.KeyIndex.{IsThere, IsGap};

use crate::clones::{joined_entries, joined_entries_by};
use host_frame::{Answer, index_of};
use host_spec::ValueErr;
use std::alloc::Global;
use value_types::{Entry, ScVal, ScVals};

/// The value of a key.
#[tactic(auto, using(host_frame::proofs::Lemmas::value_there, host_frame::proofs::Lemmas::value_gap, host_frame::proofs::Lemmas::val_made))]
pub fn value_at<'a>(key: &ScVal, entries: &'a [Entry]) -> Option<&'a ScVal>
    requires { IsHosted (map (members_of (datum_pairs entries.now))) }
    ensures found { MatchOption result (value_at (datum key.now) (datum_pairs entries.now) ≡ None)
        (λ v. value_at (datum key.now) (datum_pairs entries.now) ≡ Some (datum v.now)) }
    ensures made { IfSome result (λ v. IsMade (datum v.now)) }
{
    match index_of(key, entries) {
        Ok(index) => {
            let entry = &entries[index];
            Some(&entry.val)
        }
        Err(_) => None,
    }
}

/// Whether a map has a key.
pub fn has_key(key: &ScVal, entries: &[Entry]) -> bool
    requires { IsHosted (map (members_of (datum_pairs entries.now))) }
    ensures { result ≡ is_some (value_at (datum key.now) (datum_pairs entries.now)) }
{
    match value_at(key, entries) {
        None => false,
        Some(_) => true,
    }
}

/// The key at an index.
#[tactic(auto, using(crate::proofs::KeyLaws::entry_here, crate::proofs::KeyLaws::entry_past, host_frame::proofs::Lemmas::key_made))]
pub fn key_at(entries: &[Entry], index: usize) -> Option<&ScVal>
    requires { IsHosted (map (members_of (datum_pairs entries.now))) }
    ensures found { MatchOption result (option_map (λ m. m.0) (slice_get (datum_pairs entries.now) index) ≡ None)
        (λ v. option_map (λ m. m.0) (slice_get (datum_pairs entries.now) index) ≡ Some (datum v.now)) }
    ensures made { IfSome result (λ v. IsMade (datum v.now)) }
{
    if index < entries.len() {
        let entry = &entries[index];
        Some(&entry.key)
    } else {
        None
    }
}

/// The value at an index.
#[tactic(auto, using(crate::proofs::KeyLaws::entry_here, crate::proofs::KeyLaws::entry_past, host_frame::proofs::Lemmas::val_made))]
pub fn val_at(entries: &[Entry], index: usize) -> Option<&ScVal>
    requires { IsHosted (map (members_of (datum_pairs entries.now))) }
    ensures found { MatchOption result (option_map (λ m. m.1) (slice_get (datum_pairs entries.now) index) ≡ None)
        (λ v. option_map (λ m. m.1) (slice_get (datum_pairs entries.now) index) ≡ Some (datum v.now)) }
    ensures made { IfSome result (λ v. IsMade (datum v.now)) }
{
    if index < entries.len() {
        let entry = &entries[index];
        Some(&entry.val)
    } else {
        None
    }
}

/// The entries before an index.
#[tactic(auto, using(crate::proofs::KeyLaws::pairs_take))]
fn entries_before(entries: &[Entry], index: usize) -> &[Entry]
    requires { index ≤ length entries.now }
    ensures { datum_pairs result.now ≡ take index (datum_pairs entries.now) }
{
    let (front, _) = entries.split_at(index);
    front
}

/// The entries from an index on.
#[tactic(auto, using(crate::proofs::KeyLaws::pairs_drop))]
fn entries_behind(entries: &[Entry], index: usize) -> &[Entry]
    requires { index ≤ length entries.now }
    ensures { datum_pairs result.now ≡ drop index (datum_pairs entries.now) }
{
    let (_, back) = entries.split_at(index);
    back
}

/// The entries with another in the place of the one at an index.
#[tactic(auto, using(crate::proofs::KeyLaws::put_there))]
fn put_over(
    alloc: Global,
    entries: &[Entry],
    index: usize,
    key: &ScVal,
    val: &ScVal,
) -> Result<Vec<Entry>, ValueErr>
    requires within { index < length entries.now }
    requires stands { IsThere (datum key.now) (datum_pairs entries.now) index }
    ensures value { IfOk result (λ v. datum_pairs v.items ≡ put (datum key.now) (datum val.now) (datum_pairs entries.now)) }
    ensures memory { IfErr result (λ e. e ≡ errs.NoMemory) }
{
    let front = entries_before(entries, index);
    let back = entries_behind(entries, index + 1);
    let made = joined_entries_by(alloc, front, key, val, back)?;
    Ok(made)
}

/// The entries with one more before the one at an index.
#[tactic(auto, using(crate::proofs::KeyLaws::put_gap))]
fn put_between(
    alloc: Global,
    entries: &[Entry],
    index: usize,
    key: &ScVal,
    val: &ScVal,
) -> Result<Vec<Entry>, ValueErr>
    requires within { index ≤ length entries.now }
    requires stands { IsGap (datum key.now) (datum_pairs entries.now) index }
    ensures value { IfOk result (λ v. datum_pairs v.items ≡ put (datum key.now) (datum val.now) (datum_pairs entries.now)) }
    ensures memory { IfErr result (λ e. e ≡ errs.NoMemory) }
{
    let front = entries_before(entries, index);
    let back = entries_behind(entries, index);
    let made = joined_entries_by(alloc, front, key, val, back)?;
    Ok(made)
}

/// The entries with a value put at a key.
fn put_of(
    alloc: Global,
    entries: &[Entry],
    key: &ScVal,
    val: &ScVal,
) -> Result<Vec<Entry>, ValueErr>
    requires { IsHosted (map (members_of (datum_pairs entries.now))) }
    ensures value { IfOk result (λ v. datum_pairs v.items ≡ put (datum key.now) (datum val.now) (datum_pairs entries.now)) }
    ensures memory { IfErr result (λ e. e ≡ errs.NoMemory) }
{
    match index_of(key, entries) {
        Ok(index) => put_over(alloc, entries, index, key, val),
        Err(index) => put_between(alloc, entries, index, key, val),
    }
}

/// The map with a value put at a key.
pub fn map_with(
    alloc: Global,
    entries: &[Entry],
    key: &ScVal,
    val: &ScVal,
) -> Result<Answer, ValueErr>
    requires hosted { IsHosted (map (members_of (datum_pairs entries.now))) }
    requires key { IsMade (datum key.now) }
    requires val { IsMade (datum val.now) }
    ensures value { IfOk result (λ a. answer_of a ≡ map_answer (put (datum key.now) (datum val.now) (datum_pairs entries.now))) }
    ensures made { IfOk result (λ a. IsAnswerMade (answer_of a)) }
    ensures memory { IfErr result (λ e. e ≡ errs.NoMemory) }
{
    let made = put_of(alloc, entries, key, val)?;
    Answer::map(made)
}

/// The entries without the one at an index.
#[tactic(auto, using(crate::proofs::KeyLaws::without_there))]
fn left_out(
    alloc: Global,
    entries: &[Entry],
    index: usize,
    key: &ScVal,
) -> Result<Vec<Entry>, ValueErr>
    requires within { index < length entries.now }
    requires stands { IsThere (datum key.now) (datum_pairs entries.now) index }
    ensures value { IfOk result (λ v. datum_pairs v.items ≡ without (datum key.now) (datum_pairs entries.now)) }
    ensures memory { IfErr result (λ e. e ≡ errs.NoMemory) }
{
    let front = entries_before(entries, index);
    let back = entries_behind(entries, index + 1);
    let made = joined_entries(alloc, front, back)?;
    Ok(made)
}

/// The map without the key at an index.
fn map_left_out(
    alloc: Global,
    entries: &[Entry],
    index: usize,
    key: &ScVal,
) -> Result<Answer, ValueErr>
    requires hosted { IsHosted (map (members_of (datum_pairs entries.now))) }
    requires within { index < length entries.now }
    requires stands { IsThere (datum key.now) (datum_pairs entries.now) index }
    ensures value { IfOk result (λ a. answer_of a ≡ map_answer (without (datum key.now) (datum_pairs entries.now))) }
    ensures made { IfOk result (λ a. IsAnswerMade (answer_of a)) }
    ensures memory { IfErr result (λ e. e ≡ errs.NoMemory) }
{
    let made = left_out(alloc, entries, index, key)?;
    Answer::map(made)
}

/// The map without a key, if it has it.
#[tactic(auto, using(crate::proofs::KeyLaws::value_is_there, host_frame::proofs::Lemmas::value_gap))]
pub fn map_without(
    alloc: Global,
    entries: &[Entry],
    key: &ScVal,
) -> Result<Option<Answer>, ValueErr>
    requires hosted { IsHosted (map (members_of (datum_pairs entries.now))) }
    ensures value { IfOk result (λ o. MatchOption o (is_some (value_at (datum key.now) (datum_pairs entries.now)) ≡ false)
        (λ a. (is_some (value_at (datum key.now) (datum_pairs entries.now)) ≡ true)
        × (answer_of a ≡ map_answer (without (datum key.now) (datum_pairs entries.now))) × IsAnswerMade (answer_of a))) }
    ensures memory { IfErr result (λ e. e ≡ errs.NoMemory) }
{
    match index_of(key, entries) {
        Ok(index) => Ok(Some(map_left_out(alloc, entries, index, key)?)),
        Err(_) => Ok(None),
    }
}

/// Clones of the keys.
fn keys_of(alloc: Global, entries: &[Entry]) -> Result<Vec<ScVal>, ValueErr>
    ensures value { IfOk result (λ v. datums v.items ≡ each (λ m. m.0) (datum_pairs entries.now)) }
    ensures memory { IfErr result (λ e. e ≡ errs.NoMemory) }
{
    let mut made = Vec::with_capacity(alloc, entries.len())?;
    for entry in entries {
        made.push(entry.key.clone()?)?;
    }
    Ok(made)
}

/// Clones of the values.
fn vals_of(alloc: Global, entries: &[Entry]) -> Result<Vec<ScVal>, ValueErr>
    ensures value { IfOk result (λ v. datums v.items ≡ each (λ m. m.1) (datum_pairs entries.now)) }
    ensures memory { IfErr result (λ e. e ≡ errs.NoMemory) }
{
    let mut made = Vec::with_capacity(alloc, entries.len())?;
    for entry in entries {
        made.push(entry.val.clone()?)?;
    }
    Ok(made)
}

/// The vec of the keys.
pub fn vec_of_keys(alloc: Global, entries: &[Entry]) -> Result<Answer, ValueErr>
    requires { IsHosted (map (members_of (datum_pairs entries.now))) }
    ensures value { IfOk result (λ a. answer_of a ≡ vec_answer (each (λ m. m.0) (datum_pairs entries.now))) }
    ensures made { IfOk result (λ a. IsAnswerMade (answer_of a)) }
    ensures memory { IfErr result (λ e. e ≡ errs.NoMemory) }
{
    let made = keys_of(alloc, entries)?;
    let keys = ScVals::from_vec(made)?;
    Ok(Answer::value(ScVal::Vec(Some(keys))))
}

/// The vec of the values.
pub fn vec_of_vals(alloc: Global, entries: &[Entry]) -> Result<Answer, ValueErr>
    requires { IsHosted (map (members_of (datum_pairs entries.now))) }
    ensures value { IfOk result (λ a. answer_of a ≡ vec_answer (each (λ m. m.1) (datum_pairs entries.now))) }
    ensures made { IfOk result (λ a. IsAnswerMade (answer_of a)) }
    ensures memory { IfErr result (λ e. e ≡ errs.NoMemory) }
{
    let made = vals_of(alloc, entries)?;
    let vals = ScVals::from_vec(made)?;
    Ok(Answer::value(ScVal::Vec(Some(vals))))
}
