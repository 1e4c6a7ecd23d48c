//! Module b: bytes.

ghost use Rattle.std.specs.Prelude.{[], ◌∷◌};
ghost use Rattle.host_interface.specs.declared.kinds.ArgKind.TheVariants as kinds;
ghost use Rattle.host_spec.specs.ByteRows.{bytes_new, bytes_put, bytes_get, bytes_del, bytes_len, bytes_push, bytes_pop};
ghost use Rattle.host_spec.specs.ByteRows.{bytes_front, bytes_back, bytes_insert, bytes_append, bytes_slice};
ghost use Rattle.host_frame.specs.Answered.{Answers};

use crate::edits::{joined, with_inserted, with_pushed, with_put, without};
use crate::parts::{byte_at, byte_of, front_of, gap_of, index_of, last_of, part_of};
use budget_meter::Budget;
use host_frame::{Answer, OUTSIDE_OBJECT, Values, enter};
use host_spec::ValueErr;

/// `bytes_new`: no bytes.
pub fn bytes_new(values: &Values<'_>, budget: &mut Budget) -> Result<Answer, ValueErr>
    ensures { Answers result [] bytes_new [] values.now budget.old budget.new }
{
    enter(budget, &[])?;
    Ok(Answer::bytes(Vec::new(values.allocator())))
}

/// `bytes_put`: another byte at an index.
pub fn bytes_put(
    values: &Values<'_>,
    budget: &mut Budget,
    a: u64,
    b: u64,
    c: u64,
) -> Result<Answer, ValueErr>
    ensures { Answers result (kinds.Bytes ∷ kinds.U32 ∷ kinds.U32 ∷ []) bytes_put
        (a ∷ b ∷ c ∷ []) values.now budget.old budget.new }
{
    let bytes = values.bytes(a)?;
    let index = values.number32(b)?;
    let number = values.number32(c)?;
    enter(budget, &[a, b, c])?;
    let index = index_of(bytes, index)?;
    let byte = byte_of(number)?;
    Ok(Answer::bytes(with_put(values.allocator(), bytes, index, byte)?))
}

/// `bytes_get`: the byte at an index.
pub fn bytes_get(
    values: &Values<'_>,
    budget: &mut Budget,
    a: u64,
    b: u64,
) -> Result<Answer, ValueErr>
    ensures { Answers result (kinds.Bytes ∷ kinds.U32 ∷ []) bytes_get (a ∷ b ∷ []) values.now budget.old budget.new }
{
    let bytes = values.bytes(a)?;
    let index = values.number32(b)?;
    enter(budget, &[a, b])?;
    match byte_at(bytes, index) {
        None => Err(OUTSIDE_OBJECT),
        Some(byte) => Ok(Answer::number32(u32::from(byte))),
    }
}

/// `bytes_del`: without the byte at an index.
pub fn bytes_del(
    values: &Values<'_>,
    budget: &mut Budget,
    a: u64,
    b: u64,
) -> Result<Answer, ValueErr>
    ensures { Answers result (kinds.Bytes ∷ kinds.U32 ∷ []) bytes_del (a ∷ b ∷ []) values.now budget.old budget.new }
{
    let bytes = values.bytes(a)?;
    let index = values.number32(b)?;
    enter(budget, &[a, b])?;
    let index = index_of(bytes, index)?;
    Ok(Answer::bytes(without(values.allocator(), bytes, index)?))
}

/// `bytes_len`: the number of bytes.
#[tactic(auto, using(host_frame::proofs::Lemmas::few_bytes))]
pub fn bytes_len(values: &Values<'_>, budget: &mut Budget, a: u64) -> Result<Answer, ValueErr>
    ensures { Answers result (kinds.Bytes ∷ []) bytes_len (a ∷ []) values.now budget.old budget.new }
{
    let bytes = values.bytes(a)?;
    enter(budget, &[a])?;
    Ok(Answer::number32(bytes.len() as u32))
}

/// `bytes_push`: a byte more at the end.
pub fn bytes_push(
    values: &Values<'_>,
    budget: &mut Budget,
    a: u64,
    b: u64,
) -> Result<Answer, ValueErr>
    ensures { Answers result (kinds.Bytes ∷ kinds.U32 ∷ []) bytes_push (a ∷ b ∷ []) values.now budget.old budget.new }
{
    let bytes = values.bytes(a)?;
    let number = values.number32(b)?;
    enter(budget, &[a, b])?;
    let byte = byte_of(number)?;
    Ok(Answer::bytes(with_pushed(values.allocator(), bytes, byte)?))
}

/// `bytes_pop`: without the last byte.
pub fn bytes_pop(values: &Values<'_>, budget: &mut Budget, a: u64) -> Result<Answer, ValueErr>
    ensures { Answers result (kinds.Bytes ∷ []) bytes_pop (a ∷ []) values.now budget.old budget.new }
{
    let bytes = values.bytes(a)?;
    enter(budget, &[a])?;
    let front = front_of(bytes)?;
    Ok(Answer::bytes(Vec::from_slice(values.allocator(), front)?))
}

/// `bytes_front`: the first byte.
pub fn bytes_front(values: &Values<'_>, budget: &mut Budget, a: u64) -> Result<Answer, ValueErr>
    ensures { Answers result (kinds.Bytes ∷ []) bytes_front (a ∷ []) values.now budget.old budget.new }
{
    let bytes = values.bytes(a)?;
    enter(budget, &[a])?;
    match byte_at(bytes, 0) {
        None => Err(OUTSIDE_OBJECT),
        Some(byte) => Ok(Answer::number32(u32::from(byte))),
    }
}

/// `bytes_back`: the last byte.
pub fn bytes_back(values: &Values<'_>, budget: &mut Budget, a: u64) -> Result<Answer, ValueErr>
    ensures { Answers result (kinds.Bytes ∷ []) bytes_back (a ∷ []) values.now budget.old budget.new }
{
    let bytes = values.bytes(a)?;
    enter(budget, &[a])?;
    match last_of(bytes) {
        None => Err(OUTSIDE_OBJECT),
        Some(byte) => Ok(Answer::number32(u32::from(byte))),
    }
}

/// `bytes_insert`: a byte before the one at an index, or at the end.
pub fn bytes_insert(
    values: &Values<'_>,
    budget: &mut Budget,
    a: u64,
    b: u64,
    c: u64,
) -> Result<Answer, ValueErr>
    ensures { Answers result (kinds.Bytes ∷ kinds.U32 ∷ kinds.U32 ∷ []) bytes_insert
        (a ∷ b ∷ c ∷ []) values.now budget.old budget.new }
{
    let bytes = values.bytes(a)?;
    let index = values.number32(b)?;
    let number = values.number32(c)?;
    enter(budget, &[a, b, c])?;
    let index = gap_of(bytes, index)?;
    let byte = byte_of(number)?;
    Ok(Answer::bytes(with_inserted(values.allocator(), bytes, index, byte)?))
}

/// `bytes_append`: the bytes of both.
pub fn bytes_append(
    values: &Values<'_>,
    budget: &mut Budget,
    a: u64,
    b: u64,
) -> Result<Answer, ValueErr>
    ensures { Answers result (kinds.Bytes ∷ kinds.Bytes ∷ []) bytes_append (a ∷ b ∷ []) values.now budget.old budget.new }
{
    let front = values.bytes(a)?;
    let back = values.bytes(b)?;
    enter(budget, &[a, b])?;
    Ok(Answer::bytes(joined(values.allocator(), front, back)?))
}

/// `bytes_slice`: the bytes from one index to another.
pub fn bytes_slice(
    values: &Values<'_>,
    budget: &mut Budget,
    a: u64,
    b: u64,
    c: u64,
) -> Result<Answer, ValueErr>
    ensures { Answers result (kinds.Bytes ∷ kinds.U32 ∷ kinds.U32 ∷ []) bytes_slice
        (a ∷ b ∷ c ∷ []) values.now budget.old budget.new }
{
    let bytes = values.bytes(a)?;
    let from = values.number32(b)?;
    let to = values.number32(c)?;
    enter(budget, &[a, b, c])?;
    let part = part_of(bytes, from, to)?;
    Ok(Answer::bytes(Vec::from_slice(values.allocator(), part)?))
}
