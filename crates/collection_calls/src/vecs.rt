//! Module v: vecs.

ghost use Rattle.std.specs.Prelude.{[], ◌∷◌};
ghost use Rattle.host_interface.specs.declared.kinds.ArgKind.TheVariants as kinds;
ghost use Rattle.host_spec.specs.VecRows.{vec_new, vec_put, vec_get, vec_del, vec_len, vec_push_front, vec_pop_front};
ghost use Rattle.host_spec.specs.VecRows.{vec_push_back, vec_pop_back, vec_front, vec_back, vec_insert, vec_append, vec_slice};
ghost use Rattle.host_spec.specs.VecRows.{vec_first_index_of, vec_last_index_of};
ghost use Rattle.host_frame.specs.Answered.{Answers};

use crate::seeking::{first_index, index_answer, last_index};
use crate::vec_parts::{
    in_range, item_at, last_item, up_to_end, vec_both, vec_grown, vec_longer, vec_part,
    vec_shorter, vec_with, vec_without, within,
};
use budget_meter::{Budget, Kind};
use host_frame::{Answer, OUTSIDE_OBJECT, Values, charge, enter, size_of};
use host_spec::ValueErr;

/// `vec_new`: the empty vec.
pub fn vec_new(values: &Values<'_>, budget: &mut Budget) -> Result<Answer, ValueErr>
    ensures { Answers result [] vec_new [] values.now budget.old budget.new }
{
    enter(budget, &[])?;
    Answer::vec(Vec::new(values.allocator()))
}

/// `vec_put`: another item at an index.
pub fn vec_put(
    values: &Values<'_>,
    budget: &mut Budget,
    a: u64,
    b: u64,
    c: u64,
) -> Result<Answer, ValueErr>
    ensures { Answers result (kinds.Vec ∷ kinds.U32 ∷ kinds.Value ∷ []) vec_put
        (a ∷ b ∷ c ∷ []) values.now budget.old budget.new }
{
    let items = values.vec(a)?;
    let index = values.number32(b)?;
    let value = values.value(c)?;
    enter(budget, &[a, b, c])?;
    within(index, items)?;
    vec_with(values.allocator(), items, index as usize, value.get())
}

/// `vec_get`: the item at an index.
pub fn vec_get(values: &Values<'_>, budget: &mut Budget, a: u64, b: u64) -> Result<Answer, ValueErr>
    ensures { Answers result (kinds.Vec ∷ kinds.U32 ∷ []) vec_get (a ∷ b ∷ []) values.now budget.old budget.new }
{
    let items = values.vec(a)?;
    let index = values.number32(b)?;
    enter(budget, &[a, b])?;
    match item_at(items, index as usize) {
        None => Err(OUTSIDE_OBJECT),
        Some(value) => Ok(Answer::value(value.clone()?)),
    }
}

/// `vec_del`: without the item at an index.
pub fn vec_del(values: &Values<'_>, budget: &mut Budget, a: u64, b: u64) -> Result<Answer, ValueErr>
    ensures { Answers result (kinds.Vec ∷ kinds.U32 ∷ []) vec_del (a ∷ b ∷ []) values.now budget.old budget.new }
{
    let items = values.vec(a)?;
    let index = values.number32(b)?;
    enter(budget, &[a, b])?;
    within(index, items)?;
    vec_without(values.allocator(), items, index as usize)
}

/// `vec_len`: the number of items.
#[tactic(auto, using(host_frame::proofs::Lemmas::few_values, host_frame::proofs::Lemmas::datums_length))]
pub fn vec_len(values: &Values<'_>, budget: &mut Budget, a: u64) -> Result<Answer, ValueErr>
    ensures { Answers result (kinds.Vec ∷ []) vec_len (a ∷ []) values.now budget.old budget.new }
{
    let items = values.vec(a)?;
    enter(budget, &[a])?;
    Ok(Answer::number32(items.len() as u32))
}

/// `vec_push_front`: one more item before the first.
pub fn vec_push_front(
    values: &Values<'_>,
    budget: &mut Budget,
    a: u64,
    b: u64,
) -> Result<Answer, ValueErr>
    ensures { Answers result (kinds.Vec ∷ kinds.Value ∷ []) vec_push_front (a ∷ b ∷ []) values.now budget.old budget.new }
{
    let items = values.vec(a)?;
    let value = values.value(b)?;
    enter(budget, &[a, b])?;
    vec_grown(values.allocator(), items, 0, value.get())
}

/// `vec_pop_front`: without the first item.
pub fn vec_pop_front(values: &Values<'_>, budget: &mut Budget, a: u64) -> Result<Answer, ValueErr>
    ensures { Answers result (kinds.Vec ∷ []) vec_pop_front (a ∷ []) values.now budget.old budget.new }
{
    let items = values.vec(a)?;
    enter(budget, &[a])?;
    within(0, items)?;
    vec_without(values.allocator(), items, 0)
}

/// `vec_push_back`: one more item after the last.
pub fn vec_push_back(
    values: &Values<'_>,
    budget: &mut Budget,
    a: u64,
    b: u64,
) -> Result<Answer, ValueErr>
    ensures { Answers result (kinds.Vec ∷ kinds.Value ∷ []) vec_push_back (a ∷ b ∷ []) values.now budget.old budget.new }
{
    let items = values.vec(a)?;
    let value = values.value(b)?;
    enter(budget, &[a, b])?;
    vec_longer(values.allocator(), items, value.get())
}

/// `vec_pop_back`: without the last item.
pub fn vec_pop_back(values: &Values<'_>, budget: &mut Budget, a: u64) -> Result<Answer, ValueErr>
    ensures { Answers result (kinds.Vec ∷ []) vec_pop_back (a ∷ []) values.now budget.old budget.new }
{
    let items = values.vec(a)?;
    enter(budget, &[a])?;
    within(0, items)?;
    vec_shorter(values.allocator(), items)
}

/// `vec_front`: the first item.
pub fn vec_front(values: &Values<'_>, budget: &mut Budget, a: u64) -> Result<Answer, ValueErr>
    ensures { Answers result (kinds.Vec ∷ []) vec_front (a ∷ []) values.now budget.old budget.new }
{
    let items = values.vec(a)?;
    enter(budget, &[a])?;
    match item_at(items, 0) {
        None => Err(OUTSIDE_OBJECT),
        Some(value) => Ok(Answer::value(value.clone()?)),
    }
}

/// `vec_back`: the last item.
pub fn vec_back(values: &Values<'_>, budget: &mut Budget, a: u64) -> Result<Answer, ValueErr>
    ensures { Answers result (kinds.Vec ∷ []) vec_back (a ∷ []) values.now budget.old budget.new }
{
    let items = values.vec(a)?;
    enter(budget, &[a])?;
    match last_item(items) {
        None => Err(OUTSIDE_OBJECT),
        Some(value) => Ok(Answer::value(value.clone()?)),
    }
}

/// `vec_insert`: one more item before the one at an index.
pub fn vec_insert(
    values: &Values<'_>,
    budget: &mut Budget,
    a: u64,
    b: u64,
    c: u64,
) -> Result<Answer, ValueErr>
    ensures { Answers result (kinds.Vec ∷ kinds.U32 ∷ kinds.Value ∷ []) vec_insert
        (a ∷ b ∷ c ∷ []) values.now budget.old budget.new }
{
    let items = values.vec(a)?;
    let index = values.number32(b)?;
    let value = values.value(c)?;
    enter(budget, &[a, b, c])?;
    up_to_end(index, items)?;
    vec_grown(values.allocator(), items, index as usize, value.get())
}

/// `vec_append`: the items of one and then of another.
pub fn vec_append(
    values: &Values<'_>,
    budget: &mut Budget,
    a: u64,
    b: u64,
) -> Result<Answer, ValueErr>
    ensures { Answers result (kinds.Vec ∷ kinds.Vec ∷ []) vec_append (a ∷ b ∷ []) values.now budget.old budget.new }
{
    let front = values.vec(a)?;
    let back = values.vec(b)?;
    enter(budget, &[a, b])?;
    vec_both(values.allocator(), front, back)
}

/// `vec_slice`: the items from an index up to another.
pub fn vec_slice(
    values: &Values<'_>,
    budget: &mut Budget,
    a: u64,
    b: u64,
    c: u64,
) -> Result<Answer, ValueErr>
    ensures { Answers result (kinds.Vec ∷ kinds.U32 ∷ kinds.U32 ∷ []) vec_slice
        (a ∷ b ∷ c ∷ []) values.now budget.old budget.new }
{
    let items = values.vec(a)?;
    let from = values.number32(b)?;
    let to = values.number32(c)?;
    enter(budget, &[a, b, c])?;
    in_range(from, to, items)?;
    vec_part(values.allocator(), items, from as usize, to as usize)
}

/// `vec_first_index_of`: the index of the first item that is a value, or void.
pub fn vec_first_index_of(
    values: &Values<'_>,
    budget: &mut Budget,
    a: u64,
    b: u64,
) -> Result<Answer, ValueErr>
    ensures { Answers result (kinds.Vec ∷ kinds.Value ∷ []) vec_first_index_of (a ∷ b ∷ []) values.now budget.old budget.new }
{
    let (vec, items) = values.whole_vec(a)?;
    let value = values.value(b)?;
    enter(budget, &[a, b])?;
    charge(budget, Kind::MemCmp, size_of(vec) + size_of(value.get()))?;
    Ok(index_answer(first_index(value.get(), items)))
}

/// `vec_last_index_of`: the index of the last item that is a value, or void.
pub fn vec_last_index_of(
    values: &Values<'_>,
    budget: &mut Budget,
    a: u64,
    b: u64,
) -> Result<Answer, ValueErr>
    ensures { Answers result (kinds.Vec ∷ kinds.Value ∷ []) vec_last_index_of (a ∷ b ∷ []) values.now budget.old budget.new }
{
    let (vec, items) = values.whole_vec(a)?;
    let value = values.value(b)?;
    enter(budget, &[a, b])?;
    charge(budget, Kind::MemCmp, size_of(vec) + size_of(value.get()))?;
    Ok(index_answer(last_index(value.get(), items)))
}
