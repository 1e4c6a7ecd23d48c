//! What a function over values returns, and the word that stands for it.

ghost use Rattle.std.specs.Prelude.{◌≡◌, ◌<◌, ◌≤◌, ◌^◌, ℕ, List, [], true, length, IfOk, OnOk};
ghost use Rattle.value_types.specs.Views.{datum, datums};
ghost use Rattle.value_types.specs.Datum.{items_of, members_of, boolean, void, u32 as u32_datum, bytes as bytes_datum};
ghost use Rattle.value_types.specs.Datum.{string as string_datum, symbol as symbol_datum, vec as vec_datum, map as map_datum};
ghost use Rattle.host_spec.specs.Acts.{state, Says};
ghost use Rattle.host_spec.specs.Answers.{given, shown_as_object, value as value_answer, object as object_answer};
ghost use Rattle.host_spec.specs.Hosted.{IsMade, is_symbol, members_are_well_formed};
ghost use Rattle.host_spec.specs.VecRows.{all_given};
ghost use Rattle.host_spec.specs.Words.{object_tag};
ghost use Rattle.object_store.specs.Shown.{shown_of, AreIndices};
ghost use Rattle.host_frame.specs.Answered.{answer_of};
ghost use Rattle.host_frame.specs.Made.{IsAnswerMade, IsObjectMade, AreMade, ArePairsMade};

use crate::charges::charge;
use crate::errors::{FULL_FRAME, TOO_LARGE};
use crate::sizes::measured;
use budget_meter::{Budget, Kind};
use host_spec::ValueErr;
use object_store::{Objects, ShowErr, Shown};
use tagged_val::small_word;
use value_types::{ScVal, depth};

/// What a function over values returns.
#[derive(Drop)]
pub enum Answer {
    /// In its small form if it has one.
    Value(ScVal),
    /// Always an object.
    Object(ScVal),
    /// A word without a tag.
    Raw(u64),
}

/// Shows a value as an object: the bound of values, the charge, the bound of the frame.
fn show_object(
    objects: &mut Objects,
    shown: &mut Shown,
    budget: &mut Budget,
    value: ScVal,
) -> Result<u64, ValueErr>
    requires made { IsObjectMade (datum value) }
    requires indices { AreIndices objects.old shown.old }
    ensures does { (memory : List ℕ) → Says result (λ n. n)
        (shown_as_object (datum value) (state (shown_of objects.old shown.old) memory budget.old))
        (state (shown_of objects.new shown.new) memory budget.new) }
    ensures indices { AreIndices objects.new shown.new }
{
    let size = measured(&value);
    if size > 16_777_216 || depth(&value) > 100 {
        return Err(TOO_LARGE);
    }
    charge(budget, Kind::MemAlloc, size)?;
    match objects.to_object(shown, value) {
        Ok(word) => Ok(word.0),
        Err(ShowErr::Full) => Err(FULL_FRAME),
        Err(ShowErr::NoMemory) => Err(ValueErr::NoMemory),
    }
}

/// The word of an answer.
#[tactic(auto, using(crate::proofs::Making::value_object))]
pub fn give(
    objects: &mut Objects,
    shown: &mut Shown,
    budget: &mut Budget,
    answer: Answer,
) -> Result<u64, ValueErr>
    requires made { IsAnswerMade (answer_of answer) }
    requires indices { AreIndices objects.old shown.old }
    ensures does { (memory : List ℕ) → Says result (λ n. n)
        (given (answer_of answer) (state (shown_of objects.old shown.old) memory budget.old))
        (state (shown_of objects.new shown.new) memory budget.new) }
    ensures indices { AreIndices objects.new shown.new }
{
    match answer {
        Answer::Raw(word) => Ok(word),
        Answer::Object(value) => show_object(objects, shown, budget, value),
        Answer::Value(value) => match small_word(&value) {
            Some(word) => Ok(word.0),
            None => show_object(objects, shown, budget, value),
        },
    }
}
