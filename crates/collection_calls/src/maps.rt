//! Module m: maps.

ghost use Rattle.std.specs.Prelude.{[], ◌∷◌};
ghost use Rattle.host_interface.specs.declared.kinds.ArgKind.TheVariants as kinds;
ghost use Rattle.host_spec.specs.MapRows.{map_new, map_put, map_get, map_del, map_len, map_has, map_key_by_pos, map_val_by_pos};
ghost use Rattle.host_spec.specs.MapRows.{map_keys, map_values};
ghost use Rattle.host_frame.specs.Answered.{Answers};

use crate::map_parts::{
    has_key, key_at, map_with, map_without, val_at, value_at, vec_of_keys, vec_of_vals,
};
use budget_meter::{Budget, Kind};
use host_frame::{ABSENT_KEY, Answer, OUTSIDE_OBJECT, Values, charge, enter, size_of};
use host_spec::ValueErr;

/// `map_new`: the empty map.
#[tactic(auto, using(crate::proofs::MapLaws::empty_made))]
pub fn map_new(values: &Values<'_>, budget: &mut Budget) -> Result<Answer, ValueErr>
    ensures { Answers result [] map_new [] values.now budget.old budget.new }
{
    enter(budget, &[])?;
    Answer::map(Vec::new(values.allocator()))
}

/// `map_put`: with a value put at a key.
pub fn map_put(
    values: &Values<'_>,
    budget: &mut Budget,
    a: u64,
    b: u64,
    c: u64,
) -> Result<Answer, ValueErr>
    ensures { Answers result (kinds.Map ∷ kinds.Value ∷ kinds.Value ∷ []) map_put
        (a ∷ b ∷ c ∷ []) values.now budget.old budget.new }
{
    let (map, entries) = values.whole_map(a)?;
    let key = values.value(b)?;
    let value = values.value(c)?;
    enter(budget, &[a, b, c])?;
    charge(budget, Kind::MemCmp, size_of(map) + size_of(key.get()))?;
    map_with(values.allocator(), entries, key.get(), value.get())
}

/// `map_get`: the value of a key.
pub fn map_get(values: &Values<'_>, budget: &mut Budget, a: u64, b: u64) -> Result<Answer, ValueErr>
    ensures { Answers result (kinds.Map ∷ kinds.Value ∷ []) map_get (a ∷ b ∷ []) values.now budget.old budget.new }
{
    let (map, entries) = values.whole_map(a)?;
    let key = values.value(b)?;
    enter(budget, &[a, b])?;
    charge(budget, Kind::MemCmp, size_of(map) + size_of(key.get()))?;
    match value_at(key.get(), entries) {
        None => Err(ABSENT_KEY),
        Some(value) => Ok(Answer::value(value.clone()?)),
    }
}

/// `map_del`: without a key.
pub fn map_del(values: &Values<'_>, budget: &mut Budget, a: u64, b: u64) -> Result<Answer, ValueErr>
    ensures { Answers result (kinds.Map ∷ kinds.Value ∷ []) map_del (a ∷ b ∷ []) values.now budget.old budget.new }
{
    let (map, entries) = values.whole_map(a)?;
    let key = values.value(b)?;
    enter(budget, &[a, b])?;
    charge(budget, Kind::MemCmp, size_of(map) + size_of(key.get()))?;
    match map_without(values.allocator(), entries, key.get())? {
        None => Err(ABSENT_KEY),
        Some(answer) => Ok(answer),
    }
}

/// `map_len`: the number of entries.
#[tactic(auto, using(host_frame::proofs::Lemmas::few_entries, host_frame::proofs::Lemmas::pairs_length))]
pub fn map_len(values: &Values<'_>, budget: &mut Budget, a: u64) -> Result<Answer, ValueErr>
    ensures { Answers result (kinds.Map ∷ []) map_len (a ∷ []) values.now budget.old budget.new }
{
    let entries = values.map(a)?;
    enter(budget, &[a])?;
    Ok(Answer::number32(entries.len() as u32))
}

/// `map_has`: whether it has a key.
pub fn map_has(values: &Values<'_>, budget: &mut Budget, a: u64, b: u64) -> Result<Answer, ValueErr>
    ensures { Answers result (kinds.Map ∷ kinds.Value ∷ []) map_has (a ∷ b ∷ []) values.now budget.old budget.new }
{
    let (map, entries) = values.whole_map(a)?;
    let key = values.value(b)?;
    enter(budget, &[a, b])?;
    charge(budget, Kind::MemCmp, size_of(map) + size_of(key.get()))?;
    Ok(Answer::boolean(has_key(key.get(), entries)))
}

/// `map_key_by_pos`: the key at an index.
pub fn map_key_by_pos(
    values: &Values<'_>,
    budget: &mut Budget,
    a: u64,
    b: u64,
) -> Result<Answer, ValueErr>
    ensures { Answers result (kinds.Map ∷ kinds.U32 ∷ []) map_key_by_pos (a ∷ b ∷ []) values.now budget.old budget.new }
{
    let entries = values.map(a)?;
    let index = values.number32(b)?;
    enter(budget, &[a, b])?;
    match key_at(entries, index as usize) {
        None => Err(OUTSIDE_OBJECT),
        Some(key) => Ok(Answer::value(key.clone()?)),
    }
}

/// `map_val_by_pos`: the value at an index.
pub fn map_val_by_pos(
    values: &Values<'_>,
    budget: &mut Budget,
    a: u64,
    b: u64,
) -> Result<Answer, ValueErr>
    ensures { Answers result (kinds.Map ∷ kinds.U32 ∷ []) map_val_by_pos (a ∷ b ∷ []) values.now budget.old budget.new }
{
    let entries = values.map(a)?;
    let index = values.number32(b)?;
    enter(budget, &[a, b])?;
    match val_at(entries, index as usize) {
        None => Err(OUTSIDE_OBJECT),
        Some(value) => Ok(Answer::value(value.clone()?)),
    }
}

/// `map_keys`: the vec of the keys.
pub fn map_keys(values: &Values<'_>, budget: &mut Budget, a: u64) -> Result<Answer, ValueErr>
    ensures { Answers result (kinds.Map ∷ []) map_keys (a ∷ []) values.now budget.old budget.new }
{
    let entries = values.map(a)?;
    enter(budget, &[a])?;
    vec_of_keys(values.allocator(), entries)
}

/// `map_values`: the vec of the values.
pub fn map_values(values: &Values<'_>, budget: &mut Budget, a: u64) -> Result<Answer, ValueErr>
    ensures { Answers result (kinds.Map ∷ []) map_values (a ∷ []) values.now budget.old budget.new }
{
    let entries = values.map(a)?;
    enter(budget, &[a])?;
    vec_of_vals(values.allocator(), entries)
}
