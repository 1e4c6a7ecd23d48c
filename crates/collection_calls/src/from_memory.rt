//! Module v: vecs of words that the linear memory holds.

ghost use Rattle.std.specs.Prelude.{◌≡◌, ◌+◌, ◌*◌, ◌<◌, ◌≤◌, ◌^◌, ℕ, List, [], ◌∷◌, Some, true, length, take, drop, nat_le, IfOk};
ghost use Rattle.std.specs.Int.{w64, from_le_bytes};
ghost use Rattle.std.specs.Option.{option_map};
ghost use Rattle.value_types.specs.Views.{datum, datums};
ghost use Rattle.host_interface.specs.declared.kinds.ArgKind.TheVariants as kinds;
ghost use Rattle.host_spec.specs.Acts.{state, Says, then_do};
ghost use Rattle.host_spec.specs.Answers.{given};
ghost use Rattle.host_spec.specs.Calls.{call_of};
ghost use Rattle.host_spec.specs.Hosted.{IsHosted, IsMade, size_of};
ghost use Rattle.host_spec.specs.VecRows.{meanings, words_in, vec_of, vec_new_from_linear_memory};
ghost use Rattle.host_spec.specs.Words.{meaning};
ghost use Rattle.object_store.specs.Shown.{shown_of, AreIndices};
ghost use Rattle.host_frame.specs.Held.{held};
ghost use Rattle.host_frame.specs.Made.{AreMade};
ghost use Rattle.collection_calls.specs.Found.{Finds};
ghost use Rattle.collection_calls.specs.Within.{is_within};

use budget_meter::{Budget, Kind};
use host_frame::{Answer, Held, TOO_LARGE, Values, charge, enter, give, range, size_of};
use host_spec::ValueErr;
use object_store::{Objects, Shown};
use value_types::ScVal;

/// The most bytes that the XDR of a host value has.
const MOST_BYTES: u64 = 16_777_216;

/// The number that 8 bytes spell, the lowest first.
fn number_of(bytes: &[u8]) -> u64
    requires { length bytes.now ≡ 8 }
    ensures { result ≡ from_le_bytes w64 bytes.now }
{
    u64::from_le_bytes([
        bytes[0], bytes[1], bytes[2], bytes[3], bytes[4], bytes[5], bytes[6], bytes[7],
    ])
}

/// The word at an index among those in bytes.
fn word_at(bytes: &[u8], index: usize) -> u64
    requires { 8 * index + 8 ≤ length bytes.now }
    ensures { result ≡ from_le_bytes w64 (take 8 (drop (8 * index) bytes.now)) }
{
    let start = 8 * index;
    number_of(&bytes[start..start + 8])
}

/// The value of a word. An object is only lent.
#[tactic(auto, using(crate::proofs::WordLaws::word_means, crate::proofs::WordLaws::word_fails))]
fn value_of<'a>(values: &Values<'a>, word: u64) -> Result<Held<'a>, ValueErr>
    ensures found { Finds result (λ h. datum (held h)) (meaning values.now word) }
    ensures hosted { IfOk result (λ h. IsHosted (datum (held h))) }
{
    match values.value(word) {
        Err(error) => Err(error),
        Ok(value) => Ok(value),
    }
}

/// Adds the size of a value to a sum. A sum above the bound of values stays as it is, so no further value is measured.
#[tactic(auto, using(crate::proofs::SizeLaws::sum_stays, crate::proofs::SizeLaws::sum_grows))]
fn grown(sum: u64, value: &ScVal) -> u64
    requires sum { sum ≤ 33554432 }
    requires value { IsHosted (datum value.now) }
    ensures sum { (more : ℕ) → nat_le (result + more) 16777216 ≡ nat_le (sum + (size_of (datum value.now) + more)) 16777216 }
    ensures small { result ≤ 33554432 }
{
    if sum > MOST_BYTES {
        sum
    } else {
        sum + size_of(value)
    }
}

/// Whether the vec of the words in bytes is within the bound of values. Each word is judged, also behind the bound. No object is
/// cloned.
fn are_within(values: &Values<'_>, bytes: &[u8], count: usize) -> Result<bool, ValueErr>
    requires { length bytes.now ≡ 8 * count }
    ensures { Finds result (λ within. within) (option_map is_within (meanings values.now (words_in count bytes.now))) }
{
    // The type, the flag and the count of a vec's XDR.
    let mut sum = 12;
    for i in 0..count {
        let value = value_of(values, word_at(bytes, i))?;
        sum = grown(sum, value.get());
    }
    Ok(sum <= MOST_BYTES)
}

/// The value of a word, owned: a clone if the word means an object.
#[tactic(auto, using(crate::proofs::WordLaws::word_means, crate::proofs::WordLaws::word_fails))]
fn owned(values: &Values<'_>, word: u64) -> Result<ScVal, ValueErr>
    ensures found { Finds result datum (meaning values.now word) }
    ensures made { IfOk result (λ v. IsMade (datum v)) }
{
    match values.value(word) {
        Err(error) => Err(error),
        Ok(Held::Own(value)) => Ok(value),
        Ok(Held::Lent(value)) => Ok(value.clone()?),
    }
}

/// The values of the words in bytes, as clones. Their vec has to be within the bound of values: words that name one object ask
/// for as many clones of it.
#[tactic(auto, using(crate::proofs::WordLaws::meant_start, crate::proofs::WordLaws::meant_end))]
fn values_in(values: &Values<'_>, bytes: &[u8], count: usize) -> Result<Vec<ScVal>, ValueErr>
    requires len { length bytes.now ≡ 8 * count }
    requires within { option_map is_within (meanings values.now (words_in count bytes.now)) ≡ Some true }
    ensures found { Finds result (λ v. datums v.items) (meanings values.now (words_in count bytes.now)) }
    ensures made { IfOk result (λ v. AreMade (datums v.items)) }
    ensures count { IfOk result (λ v. length v.items ≡ count) }
{
    let mut made = Vec::with_capacity(values.allocator(), count)?;
    for i in 0..count {
        made.push(owned(values, word_at(bytes, i))?)?;
    }
    Ok(made)
}

/// Shows the vec of the words in bytes. It is cloned only if it is within the bound of values.
#[tactic(auto, using(crate::proofs::SizeLaws::too_large))]
fn show_words(
    objects: &mut Objects,
    shown: &mut Shown,
    budget: &mut Budget,
    bytes: &[u8],
    count: u32,
) -> Result<u64, ValueErr>
    requires len { length bytes.now ≡ 8 * count }
    requires indices { AreIndices objects.old shown.old }
    ensures does { (memory : List ℕ) → Says result (λ n. n)
        (then_do (vec_of (meanings (shown_of objects.old shown.old) (words_in count bytes.now))
        (state (shown_of objects.old shown.old) memory budget.old)) given)
        (state (shown_of objects.new shown.new) memory budget.new) }
    ensures indices { AreIndices objects.new shown.new }
{
    let values = Values::new(objects, shown);
    if !are_within(&values, bytes, count as usize)? {
        return Err(TOO_LARGE);
    }
    let items = values_in(&values, bytes, count as usize)?;
    give(objects, shown, budget, Answer::vec(items)?)
}

/// `vec_new_from_linear_memory`: shows the vec of so many words, from an index of the memory on. A vec above the bound of values
/// is never made, so this is the whole call, up to the word of its answer.
pub fn vec_new_from_linear_memory(
    objects: &mut Objects,
    shown: &mut Shown,
    memory: &[u8],
    budget: &mut Budget,
    a: u64,
    b: u64,
) -> Result<u64, ValueErr>
    requires { AreIndices objects.old shown.old }
    ensures does { Says result (λ n. n) (call_of (kinds.U32 ∷ kinds.U32 ∷ []) vec_new_from_linear_memory (a ∷ b ∷ [])
        (state (shown_of objects.old shown.old) memory.now budget.old))
        (state (shown_of objects.new shown.new) memory.now budget.new) }
    ensures indices { AreIndices objects.new shown.new }
{
    let values = Values::new(objects, shown);
    let from = values.number32(a)?;
    let count = values.number32(b)?;
    enter(budget, &[a, b])?;
    let len = 8 * u64::from(count);
    let bytes = range(memory, from, len)?;
    charge(budget, Kind::MemCpy, len)?;
    show_words(objects, shown, budget, bytes, count)
}
