//! Lists of clones.

ghost use Rattle.std.specs.Prelude.{◌≡◌, ◌++◌, ◌∷◌, IfOk, IfErr, OnOk};
ghost use Rattle.value_types.specs.Views.{datum, datums, datum_pair, datum_pairs};
ghost use Rattle.host_spec.specs.declared.error.ValueErr.TheVariants as errs;

use host_spec::ValueErr;
use std::alloc::Global;
use value_types::{Entry, ScVal};

/// Adds clones of values.
fn push_values(made: &mut Vec<ScVal>, values: &[ScVal]) -> Result<(), ValueErr>
    ensures value { OnOk result (datums made.new.items ≡ datums made.old.items ++ datums values.now) }
    ensures memory { IfErr result (λ e. e ≡ errs.NoMemory) }
{
    for value in values {
        made.push(value.clone()?)?;
    }
    Ok(())
}

/// Clones values into a list of their own.
pub fn clones_of(alloc: Global, values: &[ScVal]) -> Result<Vec<ScVal>, ValueErr>
    ensures value { IfOk result (λ v. datums v.items ≡ datums values.now) }
    ensures memory { IfErr result (λ e. e ≡ errs.NoMemory) }
{
    let mut made = Vec::with_capacity(alloc, values.len())?;
    push_values(&mut made, values)?;
    Ok(made)
}

/// Clones of these values, then of those.
pub fn joined(alloc: Global, front: &[ScVal], back: &[ScVal]) -> Result<Vec<ScVal>, ValueErr>
    ensures value { IfOk result (λ v. datums v.items ≡ datums front.now ++ datums back.now) }
    ensures memory { IfErr result (λ e. e ≡ errs.NoMemory) }
{
    let mut made = Vec::with_capacity(alloc, front.len() + back.len())?;
    push_values(&mut made, front)?;
    push_values(&mut made, back)?;
    Ok(made)
}

/// Clones of these values, then of a value, then of those.
pub fn joined_by(
    alloc: Global,
    front: &[ScVal],
    value: &ScVal,
    back: &[ScVal],
) -> Result<Vec<ScVal>, ValueErr>
    ensures value { IfOk result (λ v. datums v.items ≡ datums front.now ++ (datum value.now ∷ datums back.now)) }
    ensures memory { IfErr result (λ e. e ≡ errs.NoMemory) }
{
    let mut made = Vec::with_capacity(alloc, front.len() + back.len() + 1)?;
    push_values(&mut made, front)?;
    made.push(value.clone()?)?;
    push_values(&mut made, back)?;
    Ok(made)
}

/// Adds clones of entries.
fn push_entries(made: &mut Vec<Entry>, entries: &[Entry]) -> Result<(), ValueErr>
    ensures value { OnOk result (datum_pairs made.new.items ≡ datum_pairs made.old.items ++ datum_pairs entries.now) }
    ensures memory { IfErr result (λ e. e ≡ errs.NoMemory) }
{
    for entry in entries {
        made.push(entry.clone()?)?;
    }
    Ok(())
}

/// Clones of these entries, then of those.
pub fn joined_entries(
    alloc: Global,
    front: &[Entry],
    back: &[Entry],
) -> Result<Vec<Entry>, ValueErr>
    ensures value { IfOk result (λ v. datum_pairs v.items ≡ datum_pairs front.now ++ datum_pairs back.now) }
    ensures memory { IfErr result (λ e. e ≡ errs.NoMemory) }
{
    let mut made = Vec::with_capacity(alloc, front.len() + back.len())?;
    push_entries(&mut made, front)?;
    push_entries(&mut made, back)?;
    Ok(made)
}

/// An entry of clones.
fn entry_of(key: &ScVal, val: &ScVal) -> Result<Entry, ValueErr>
    ensures value { IfOk result (λ e. datum_pair e ≡ (datum key.now, datum val.now)) }
    ensures memory { IfErr result (λ e. e ≡ errs.NoMemory) }
{
    Ok(Entry {
        key: key.clone()?,
        val: val.clone()?,
    })
}

/// Clones of these entries, then an entry of clones, then clones of those.
pub fn joined_entries_by(
    alloc: Global,
    front: &[Entry],
    key: &ScVal,
    val: &ScVal,
    back: &[Entry],
) -> Result<Vec<Entry>, ValueErr>
    ensures value { IfOk result (λ v. datum_pairs v.items ≡ datum_pairs front.now ++
        ((datum key.now, datum val.now) ∷ datum_pairs back.now)) }
    ensures memory { IfErr result (λ e. e ≡ errs.NoMemory) }
{
    let mut made = Vec::with_capacity(alloc, front.len() + back.len() + 1)?;
    push_entries(&mut made, front)?;
    made.push(entry_of(key, val)?)?;
    push_entries(&mut made, back)?;
    Ok(made)
}
