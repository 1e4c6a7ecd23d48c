//! Module v: vecs whose words are written to the linear memory.

ghost use Rattle.std.specs.Prelude.{◌≡◌, ◌+◌, ◌*◌, ◌≤◌, ◌++◌, ℕ, List, [], ◌∷◌, length};
ghost use Rattle.std.specs.Int.{w64, to_le_bytes};
ghost use Rattle.value_types.specs.Views.{datum, datums};
ghost use Rattle.host_interface.specs.declared.kinds.ArgKind.TheVariants as kinds;
ghost use Rattle.host_spec.specs.Acts.{state, Says, then_do, gives};
ghost use Rattle.host_spec.specs.Answers.{given, value as given_value};
ghost use Rattle.host_spec.specs.Hosted.{IsMade};
ghost use Rattle.host_spec.specs.LinearMemory.{overwritten};
ghost use Rattle.host_spec.specs.VecRows.{all_given, words_bytes, vec_unpack_to_linear_memory};
ghost use Rattle.object_store.specs.Shown.{shown_of, AreIndices};
ghost use Rattle.host_frame.specs.Answered.{answer_of, AnswersFrom, IsMadeIfOk};
ghost use Rattle.host_frame.specs.Made.{AreMade};
ghost use Rattle.collection_calls.specs.Unpacked.{given_to};

use crate::clones::clones_of;
use budget_meter::{Budget, Kind};
use host_frame::{Answer, OTHER_COUNT, Values, charge, enter, give_each, in_memory};
use host_spec::ValueErr;
use object_store::{Objects, Shown};
use value_types::ScVal;

/// Writes a word, its lowest byte first.
fn write_word(memory: &mut [u8], at: usize, word: u64)
    requires { at + 8 ≤ length memory.old }
    ensures { memory.new ≡ overwritten memory.old at (to_le_bytes w64 word) }
{
    memory[at..at + 8].copy_from_slice(&word.to_le_bytes());
}

/// Writes words from an index on.
fn write_words(memory: &mut [u8], to: u32, words: &[u64])
    requires { to + 8 * length words.now ≤ length memory.old }
    ensures { memory.new ≡ overwritten memory.old to (words_bytes words.now) }
{
    let mut at = to as usize;
    for word in words {
        write_word(memory, at, *word);
        at += 8;
    }
}

/// Gives each of the values, and writes their words.
fn unpack(
    objects: &mut Objects,
    shown: &mut Shown,
    memory: &mut [u8],
    budget: &mut Budget,
    items: Vec<ScVal>,
    to: u32,
) -> Result<Answer, ValueErr>
    requires made { AreMade (datums items.items) }
    requires indices { AreIndices objects.old shown.old }
    requires room { to + 8 * length items.items ≤ length memory.old }
    ensures does { Says result answer_of
        (given_to to (datums items.items) (state (shown_of objects.old shown.old) memory.old budget.old))
        (state (shown_of objects.new shown.new) memory.new budget.new) }
    ensures made { IsMadeIfOk result }
    ensures indices { AreIndices objects.new shown.new }
{
    let words = give_each(objects, shown, budget, items)?;
    write_words(memory, to, &words);
    Ok(Answer::void())
}

/// `vec_unpack_to_linear_memory`: the words of the items, from an index of the memory on. Items without a small form are shown as
/// new objects.
#[tactic(auto, using(crate::proofs::VecLaws::same_made, crate::proofs::VecLaws::same_length))]
pub fn vec_unpack_to_linear_memory(
    objects: &mut Objects,
    shown: &mut Shown,
    memory: &mut [u8],
    budget: &mut Budget,
    a: u64,
    b: u64,
    c: u64,
) -> Result<Answer, ValueErr>
    requires { AreIndices objects.old shown.old }
    ensures answers { AnswersFrom result (kinds.Vec ∷ kinds.U32 ∷ kinds.U32 ∷ []) vec_unpack_to_linear_memory (a ∷ b ∷ c ∷ [])
        (state (shown_of objects.old shown.old) memory.old budget.old)
        (state (shown_of objects.new shown.new) memory.new budget.new) }
    ensures indices { AreIndices objects.new shown.new }
{
    let values = Values::new(objects, shown);
    let items = values.vec(a)?;
    let to = values.number32(b)?;
    let count = values.number32(c)?;
    enter(budget, &[a, b, c])?;
    if count as usize != items.len() {
        return Err(OTHER_COUNT);
    }
    let len = 8 * u64::from(count);
    in_memory(memory, to, len)?;
    charge(budget, Kind::MemCpy, len)?;
    let copies = clones_of(values.allocator(), items)?;
    unpack(objects, shown, memory, budget, copies, to)
}
