//! Indices of values in vecs.

ghost use Rattle.std.specs.Prelude.{◌≡◌};
ghost use Rattle.value_types.specs.Datum.{items_of, vec};
ghost use Rattle.value_types.specs.Views.{datum, datums};
ghost use Rattle.host_spec.specs.Hosted.{IsHosted};
ghost use Rattle.host_spec.specs.VecRows.{first_index_of, last_index_of, index_answer};
ghost use Rattle.host_frame.specs.Answered.{answer_of};
ghost use Rattle.host_frame.specs.Made.{IsAnswerMade};

use host_frame::Answer;
use std::cmp::Ordering;
use value_types::{ScVal, cmp_val};

/// The index of the first item that is this value.
#[tactic(auto, using(host_frame::proofs::Lemmas::few_values, crate::proofs::SeekLaws::counted_start, crate::proofs::SeekLaws::first_here, crate::proofs::SeekLaws::first_past, crate::proofs::SeekLaws::first_end))]
pub fn first_index(value: &ScVal, items: &[ScVal]) -> Option<u32>
    requires { IsHosted (vec (items_of (datums items.now))) }
    ensures { result ≡ first_index_of (datum value.now) (datums items.now) }
{
    for (i, item) in items.iter().enumerate() {
        if cmp_val(value, item) == Ordering::Equal {
            return Some(i as u32);
        }
    }
    None
}

/// The index of the last item that is this value.
#[tactic(auto, using(host_frame::proofs::Lemmas::few_values, crate::proofs::SeekLaws::last_start, crate::proofs::SeekLaws::last_here, crate::proofs::SeekLaws::last_past))]
pub fn last_index(value: &ScVal, items: &[ScVal]) -> Option<u32>
    requires { IsHosted (vec (items_of (datums items.now))) }
    ensures { result ≡ last_index_of (datum value.now) (datums items.now) }
{
    let mut end = items.len();
    while end > 0 {
        end -= 1;
        if cmp_val(value, &items[end]) == Ordering::Equal {
            return Some(end as u32);
        }
    }
    None
}

/// Answers an index as a U32, and void for none.
pub fn index_answer(index: Option<u32>) -> Answer
    ensures value { answer_of result ≡ index_answer index }
    ensures made { IsAnswerMade (answer_of result) }
{
    match index {
        None => Answer::void(),
        Some(number) => Answer::number32(number),
    }
}
