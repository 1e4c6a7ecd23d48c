//! Module b: rows that read the linear memory.

ghost use Rattle.std.specs.Prelude.{[], ◌∷◌};
ghost use Rattle.host_interface.specs.declared.kinds.ArgKind.TheVariants as kinds;
ghost use Rattle.host_spec.specs.ByteRows.{bytes_copy_from_linear_memory, bytes_new_from_linear_memory};
ghost use Rattle.host_spec.specs.ByteRows.{string_new_from_linear_memory, symbol_new_from_linear_memory};
ghost use Rattle.host_frame.specs.Answered.{AnswersOver};
ghost use Rattle.host_frame.specs.Made.{IsMemory};

use crate::edits::overwritten;
use crate::parts::gap_of;
use budget_meter::{Budget, Kind};
use host_frame::{Answer, INVALID_VALUE, Values, are_characters, charge, enter, range};
use host_spec::ValueErr;

/// `bytes_new_from_linear_memory`: the bytes of a range of the memory.
pub fn bytes_new_from_linear_memory(
    values: &Values<'_>,
    memory: &[u8],
    budget: &mut Budget,
    a: u64,
    b: u64,
) -> Result<Answer, ValueErr>
    ensures { AnswersOver result (kinds.U32 ∷ kinds.U32 ∷ []) bytes_new_from_linear_memory
        (a ∷ b ∷ []) values.now memory.now budget.old budget.new }
{
    let from = values.number32(a)?;
    let len = values.number32(b)?;
    enter(budget, &[a, b])?;
    let found = range(memory, from, u64::from(len))?;
    charge(budget, Kind::MemCpy, u64::from(len))?;
    Ok(Answer::bytes(Vec::from_slice(values.allocator(), found)?))
}

/// `string_new_from_linear_memory`: the string of a range of the memory.
pub fn string_new_from_linear_memory(
    values: &Values<'_>,
    memory: &[u8],
    budget: &mut Budget,
    a: u64,
    b: u64,
) -> Result<Answer, ValueErr>
    ensures { AnswersOver result (kinds.U32 ∷ kinds.U32 ∷ []) string_new_from_linear_memory
        (a ∷ b ∷ []) values.now memory.now budget.old budget.new }
{
    let from = values.number32(a)?;
    let len = values.number32(b)?;
    enter(budget, &[a, b])?;
    let found = range(memory, from, u64::from(len))?;
    charge(budget, Kind::MemCpy, u64::from(len))?;
    Ok(Answer::string(Vec::from_slice(values.allocator(), found)?))
}

/// `symbol_new_from_linear_memory`: the symbol of a range of the memory.
pub fn symbol_new_from_linear_memory(
    values: &Values<'_>,
    memory: &[u8],
    budget: &mut Budget,
    a: u64,
    b: u64,
) -> Result<Answer, ValueErr>
    ensures { AnswersOver result (kinds.U32 ∷ kinds.U32 ∷ []) symbol_new_from_linear_memory
        (a ∷ b ∷ []) values.now memory.now budget.old budget.new }
{
    let from = values.number32(a)?;
    let len = values.number32(b)?;
    enter(budget, &[a, b])?;
    let found = range(memory, from, u64::from(len))?;
    if len > 32 {
        return Err(INVALID_VALUE);
    }
    charge(budget, Kind::MemCpy, u64::from(len))?;
    if !are_characters(found) {
        return Err(INVALID_VALUE);
    }
    Ok(Answer::symbol(Vec::from_slice(values.allocator(), found)?))
}

/// `bytes_copy_from_linear_memory`: other bytes from an index on, those of a range of the memory. They may end behind the old
/// ones.
pub fn bytes_copy_from_linear_memory(
    values: &Values<'_>,
    memory: &[u8],
    budget: &mut Budget,
    a: u64,
    b: u64,
    c: u64,
    d: u64,
) -> Result<Answer, ValueErr>
    requires { IsMemory memory.now }
    ensures { AnswersOver result (kinds.Bytes ∷ kinds.U32 ∷ kinds.U32 ∷ kinds.U32 ∷ []) bytes_copy_from_linear_memory
        (a ∷ b ∷ c ∷ d ∷ []) values.now memory.now budget.old budget.new }
{
    let bytes = values.bytes(a)?;
    let to = values.number32(b)?;
    let from = values.number32(c)?;
    let len = values.number32(d)?;
    enter(budget, &[a, b, c, d])?;
    let index = gap_of(bytes, to)?;
    let found = range(memory, from, u64::from(len))?;
    charge(budget, Kind::MemCpy, u64::from(len))?;
    Ok(Answer::bytes(overwritten(values.allocator(), bytes, index, found)?))
}
