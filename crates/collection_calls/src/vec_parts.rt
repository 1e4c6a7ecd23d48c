//! Parts of vecs, and vecs made of them.

ghost use Rattle.std.specs.Prelude.{◌≡◌, ◌+◌, ◌-◌, ◌<◌, ◌≤◌, ◌&&◌, ◌++◌, [], ◌∷◌, length, take, drop, nat_lt, nat_le, slice_get};
ghost use Rattle.std.specs.Prelude.{slice_set, slice_range, Some, None, true, false, IfOk, IfErr, IfSome, MatchOption};
ghost use Rattle.std.specs.Prelude.{MatchResult};
ghost use Rattle.std.specs.List.{insert, remove};
ghost use Rattle.value_types.specs.Datum.{items_of, vec};
ghost use Rattle.value_types.specs.Views.{datum, datums};
ghost use Rattle.host_spec.specs.Errors.{OUTSIDE_OBJECT as outside};
ghost use Rattle.host_spec.specs.Hosted.{IsHosted, IsMade};
ghost use Rattle.host_spec.specs.VecRows.{vec_answer};
ghost use Rattle.host_spec.specs.declared.error.ValueErr.TheVariants as errs;
ghost use Rattle.host_frame.specs.Answered.{answer_of};
ghost use Rattle.host_frame.specs.Made.{IsAnswerMade};
ghost use Rattle.collection_calls.specs.Parts.{IsPart};

use crate::clones::{joined, joined_by};
use host_frame::{Answer, OUTSIDE_OBJECT};
use host_spec::ValueErr;
use std::alloc::Global;
use value_types::ScVal;

/// Whether an index is in a vec: `OUTSIDE_OBJECT` if it is not.
#[tactic(auto, using(host_frame::proofs::Lemmas::datums_length))]
pub fn within(index: u32, items: &[ScVal]) -> Result<(), ValueErr>
    ensures test { MatchResult result (λ _. nat_lt index (length (datums items.now)) ≡ true)
        (λ e. (nat_lt index (length (datums items.now)) ≡ false) × (e ≡ errs.Failed outside)) }
    ensures inside { IfOk result (λ _. index < length items.now) }
{
    if (index as usize) < items.len() {
        Ok(())
    } else {
        Err(OUTSIDE_OBJECT)
    }
}

/// Whether an index may be the first of what is put into a vec: `OUTSIDE_OBJECT` if not.
#[tactic(auto, using(host_frame::proofs::Lemmas::datums_length))]
pub fn up_to_end(index: u32, items: &[ScVal]) -> Result<(), ValueErr>
    ensures test { MatchResult result (λ _. nat_le index (length (datums items.now)) ≡ true)
        (λ e. (nat_le index (length (datums items.now)) ≡ false) × (e ≡ errs.Failed outside)) }
    ensures inside { IfOk result (λ _. index ≤ length items.now) }
{
    if index as usize <= items.len() {
        Ok(())
    } else {
        Err(OUTSIDE_OBJECT)
    }
}

/// Whether a range is in a vec: `OUTSIDE_OBJECT` if it is not.
#[tactic(auto, using(host_frame::proofs::Lemmas::datums_length))]
pub fn in_range(from: u32, to: u32, items: &[ScVal]) -> Result<(), ValueErr>
    ensures test { MatchResult result (λ _. nat_le from to && nat_le to (length (datums items.now)) ≡ true)
        (λ e. (nat_le from to && nat_le to (length (datums items.now)) ≡ false) × (e ≡ errs.Failed outside)) }
    ensures inside { IfOk result (λ _. (from ≤ to) × (to ≤ length items.now)) }
{
    if from <= to && to as usize <= items.len() {
        Ok(())
    } else {
        Err(OUTSIDE_OBJECT)
    }
}

/// The item at an index.
#[tactic(auto, using(crate::proofs::VecLaws::item_here, crate::proofs::VecLaws::item_past, crate::proofs::VecLaws::hosted_item))]
pub fn item_at(items: &[ScVal], index: usize) -> Option<&ScVal>
    requires { IsHosted (vec (items_of (datums items.now))) }
    ensures found { MatchOption result (slice_get (datums items.now) index ≡ None)
        (λ v. slice_get (datums items.now) index ≡ Some (datum v.now)) }
    ensures made { IfSome result (λ v. IsMade (datum v.now)) }
{
    if index < items.len() {
        Some(&items[index])
    } else {
        None
    }
}

/// Returns the last item, or None if there is none.
#[tactic(auto, using(crate::proofs::VecLaws::item_here, crate::proofs::VecLaws::hosted_item, host_frame::proofs::Lemmas::datums_length))]
pub fn last_item(items: &[ScVal]) -> Option<&ScVal>
    requires { IsHosted (vec (items_of (datums items.now))) }
    ensures found { MatchOption result (nat_lt 0 (length (datums items.now)) ≡ false)
        (λ v. (nat_lt 0 (length (datums items.now)) ≡ true)
        × (slice_get (datums items.now) (length (datums items.now) - 1) ≡ Some (datum v.now))) }
    ensures made { IfSome result (λ v. IsMade (datum v.now)) }
{
    if items.is_empty() {
        None
    } else {
        Some(&items[items.len() - 1])
    }
}

/// The items before an index.
#[tactic(auto, using(crate::proofs::VecLaws::datums_take, crate::proofs::VecLaws::part_take))]
fn before(items: &[ScVal], index: usize) -> &[ScVal]
    requires within { index ≤ length items.now }
    requires part { IsPart (datums items.now) }
    ensures value { datums result.now ≡ take index (datums items.now) }
    ensures part { IsPart (datums result.now) }
{
    let (front, _) = items.split_at(index);
    front
}

/// The items from an index on.
#[tactic(auto, using(crate::proofs::VecLaws::datums_drop, crate::proofs::VecLaws::part_drop))]
fn behind(items: &[ScVal], index: usize) -> &[ScVal]
    requires within { index ≤ length items.now }
    requires part { IsPart (datums items.now) }
    ensures value { datums result.now ≡ drop index (datums items.now) }
    ensures part { IsPart (datums result.now) }
    ensures len { length result.now + index ≡ length items.now }
{
    let (_, back) = items.split_at(index);
    back
}

/// The vec of some items and then of others.
fn vec_joined(alloc: Global, front: &[ScVal], back: &[ScVal]) -> Result<Answer, ValueErr>
    requires front { IsPart (datums front.now) }
    requires back { IsPart (datums back.now) }
    ensures value { IfOk result (λ a. answer_of a ≡ vec_answer (datums front.now ++ datums back.now)) }
    ensures made { IfOk result (λ a. IsAnswerMade (answer_of a)) }
    ensures memory { IfErr result (λ e. e ≡ errs.NoMemory) }
{
    let made = joined(alloc, front, back)?;
    Answer::vec(made)
}

/// The vec of some items, then of a value, then of other items.
fn vec_joined_by(
    alloc: Global,
    front: &[ScVal],
    value: &ScVal,
    back: &[ScVal],
) -> Result<Answer, ValueErr>
    requires front { IsPart (datums front.now) }
    requires value { IsMade (datum value.now) }
    requires back { IsPart (datums back.now) }
    ensures value { IfOk result (λ a. answer_of a ≡ vec_answer (datums front.now ++ (datum value.now ∷ datums back.now))) }
    ensures made { IfOk result (λ a. IsAnswerMade (answer_of a)) }
    ensures memory { IfErr result (λ e. e ≡ errs.NoMemory) }
{
    let made = joined_by(alloc, front, value, back)?;
    Answer::vec(made)
}

/// The vec of the items of one and then of another.
pub fn vec_both(alloc: Global, front: &[ScVal], back: &[ScVal]) -> Result<Answer, ValueErr>
    requires front { IsHosted (vec (items_of (datums front.now))) }
    requires back { IsHosted (vec (items_of (datums back.now))) }
    ensures value { IfOk result (λ a. answer_of a ≡ vec_answer (datums front.now ++ datums back.now)) }
    ensures made { IfOk result (λ a. IsAnswerMade (answer_of a)) }
    ensures memory { IfErr result (λ e. e ≡ errs.NoMemory) }
{
    vec_joined(alloc, front, back)
}

/// The vec of the items from an index up to another.
pub fn vec_part(alloc: Global, items: &[ScVal], from: usize, to: usize) -> Result<Answer, ValueErr>
    requires range { from ≤ to }
    requires within { to ≤ length items.now }
    requires hosted { IsHosted (vec (items_of (datums items.now))) }
    ensures value { IfOk result (λ a. answer_of a ≡ vec_answer (slice_range (datums items.now) from to)) }
    ensures made { IfOk result (λ a. IsAnswerMade (answer_of a)) }
    ensures memory { IfErr result (λ e. e ≡ errs.NoMemory) }
{
    let rest = behind(items, from);
    let part = before(rest, to - from);
    vec_joined(alloc, part, &[])
}

/// The vec without the item at an index.
pub fn vec_without(alloc: Global, items: &[ScVal], index: usize) -> Result<Answer, ValueErr>
    requires within { index < length items.now }
    requires hosted { IsHosted (vec (items_of (datums items.now))) }
    ensures value { IfOk result (λ a. answer_of a ≡ vec_answer (remove (datums items.now) index)) }
    ensures made { IfOk result (λ a. IsAnswerMade (answer_of a)) }
    ensures memory { IfErr result (λ e. e ≡ errs.NoMemory) }
{
    let front = before(items, index);
    let back = behind(items, index + 1);
    vec_joined(alloc, front, back)
}

/// The vec with another item at an index.
pub fn vec_with(
    alloc: Global,
    items: &[ScVal],
    index: usize,
    value: &ScVal,
) -> Result<Answer, ValueErr>
    requires within { index < length items.now }
    requires hosted { IsHosted (vec (items_of (datums items.now))) }
    requires value { IsMade (datum value.now) }
    ensures value { IfOk result (λ a. answer_of a ≡ vec_answer (slice_set (datums items.now) index (datum value.now))) }
    ensures made { IfOk result (λ a. IsAnswerMade (answer_of a)) }
    ensures memory { IfErr result (λ e. e ≡ errs.NoMemory) }
{
    let front = before(items, index);
    let back = behind(items, index + 1);
    vec_joined_by(alloc, front, value, back)
}

/// The vec with one more item before the one at an index.
pub fn vec_grown(
    alloc: Global,
    items: &[ScVal],
    index: usize,
    value: &ScVal,
) -> Result<Answer, ValueErr>
    requires within { index ≤ length items.now }
    requires hosted { IsHosted (vec (items_of (datums items.now))) }
    requires value { IsMade (datum value.now) }
    ensures value { IfOk result (λ a. answer_of a ≡ vec_answer (insert (datums items.now) index (datum value.now))) }
    ensures made { IfOk result (λ a. IsAnswerMade (answer_of a)) }
    ensures memory { IfErr result (λ e. e ≡ errs.NoMemory) }
{
    let front = before(items, index);
    let back = behind(items, index);
    vec_joined_by(alloc, front, value, back)
}

/// The vec with one more item after the last.
pub fn vec_longer(alloc: Global, items: &[ScVal], value: &ScVal) -> Result<Answer, ValueErr>
    requires hosted { IsHosted (vec (items_of (datums items.now))) }
    requires value { IsMade (datum value.now) }
    ensures value { IfOk result (λ a. answer_of a ≡ vec_answer (datums items.now ++ (datum value.now ∷ []))) }
    ensures made { IfOk result (λ a. IsAnswerMade (answer_of a)) }
    ensures memory { IfErr result (λ e. e ≡ errs.NoMemory) }
{
    vec_joined_by(alloc, items, value, &[])
}

/// The vec without its last item.
pub fn vec_shorter(alloc: Global, items: &[ScVal]) -> Result<Answer, ValueErr>
    requires some { 0 < length items.now }
    requires hosted { IsHosted (vec (items_of (datums items.now))) }
    ensures value { IfOk result (λ a. answer_of a ≡ vec_answer (take (length (datums items.now) - 1) (datums items.now))) }
    ensures made { IfOk result (λ a. IsAnswerMade (answer_of a)) }
    ensures memory { IfErr result (λ e. e ≡ errs.NoMemory) }
{
    let front = before(items, items.len() - 1);
    vec_joined(alloc, front, &[])
}
