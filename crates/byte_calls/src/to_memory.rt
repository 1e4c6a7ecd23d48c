//! Module b: rows that write to the linear memory.

ghost use Rattle.std.specs.Prelude.{[], ◌∷◌, List};
ghost use Rattle.value_types.specs.Datum.{Datum};
ghost use Rattle.host_interface.specs.declared.kinds.ArgKind.TheVariants as kinds;
ghost use Rattle.host_spec.specs.Acts.{state, Says};
ghost use Rattle.host_spec.specs.ByteRows.{copy_to_linear_memory, bytes_copy_to_linear_memory, string_copy_to_linear_memory};
ghost use Rattle.host_spec.specs.ByteRows.{symbol_copy_to_linear_memory};
ghost use Rattle.host_frame.specs.Answered.{AnswersInto, answer_of, IsMadeIfOk};

use crate::parts::range_of;
use budget_meter::{Budget, Kind};
use host_frame::{Answer, Values, charge, enter, in_memory, write};
use host_spec::ValueErr;

/// Copies `len` bytes from an index of an object on, to an index of the memory.
fn copy_out(
    memory: &mut [u8],
    budget: &mut Budget,
    bytes: &[u8],
    from: u32,
    to: u32,
    len: u32,
) -> Result<Answer, ValueErr>
    ensures does { (shown : List Datum)
        → Says result answer_of (copy_to_linear_memory bytes.now from to len (state shown memory.old budget.old))
        (state shown memory.new budget.new) }
    ensures made { IsMadeIfOk result }
{
    let part = range_of(bytes, from, len)?;
    in_memory(memory, to, u64::from(len))?;
    charge(budget, Kind::MemCpy, u64::from(len))?;
    write(memory, to, part);
    Ok(Answer::void())
}

/// `bytes_copy_to_linear_memory`: copies a range of bytes to the memory.
pub fn bytes_copy_to_linear_memory(
    values: &Values<'_>,
    memory: &mut [u8],
    budget: &mut Budget,
    a: u64,
    b: u64,
    c: u64,
    d: u64,
) -> Result<Answer, ValueErr>
    ensures { AnswersInto result (kinds.Bytes ∷ kinds.U32 ∷ kinds.U32 ∷ kinds.U32 ∷ []) bytes_copy_to_linear_memory
        (a ∷ b ∷ c ∷ d ∷ []) values.now memory.old memory.new budget.old budget.new }
{
    let bytes = values.bytes(a)?;
    let from = values.number32(b)?;
    let to = values.number32(c)?;
    let len = values.number32(d)?;
    enter(budget, &[a, b, c, d])?;
    copy_out(memory, budget, bytes, from, to, len)
}

/// `string_copy_to_linear_memory`: copies a range of a string to the memory.
pub fn string_copy_to_linear_memory(
    values: &Values<'_>,
    memory: &mut [u8],
    budget: &mut Budget,
    a: u64,
    b: u64,
    c: u64,
    d: u64,
) -> Result<Answer, ValueErr>
    ensures { AnswersInto result (kinds.String ∷ kinds.U32 ∷ kinds.U32 ∷ kinds.U32 ∷ []) string_copy_to_linear_memory
        (a ∷ b ∷ c ∷ d ∷ []) values.now memory.old memory.new budget.old budget.new }
{
    let text = values.string(a)?;
    let from = values.number32(b)?;
    let to = values.number32(c)?;
    let len = values.number32(d)?;
    enter(budget, &[a, b, c, d])?;
    copy_out(memory, budget, text, from, to, len)
}

/// `symbol_copy_to_linear_memory`: copies a range of a symbol's text to the memory.
pub fn symbol_copy_to_linear_memory(
    values: &Values<'_>,
    memory: &mut [u8],
    budget: &mut Budget,
    a: u64,
    b: u64,
    c: u64,
    d: u64,
) -> Result<Answer, ValueErr>
    ensures { AnswersInto result (kinds.Symbol ∷ kinds.U32 ∷ kinds.U32 ∷ kinds.U32 ∷ []) symbol_copy_to_linear_memory
        (a ∷ b ∷ c ∷ d ∷ []) values.now memory.old memory.new budget.old budget.new }
{
    let text = values.symbol(a)?;
    let from = values.number32(b)?;
    let to = values.number32(c)?;
    let len = values.number32(d)?;
    enter(budget, &[a, b, c, d])?;
    copy_out(memory, budget, text.get(), from, to, len)
}
