//! Calls by the function of the host interface.

ghost use Rattle.std.specs.Prelude.{◌≡◌, ◌≤◌, ℕ, List, [], ◌∷◌, length};
ghost use Rattle.host_spec.specs.Acts.{state};
ghost use Rattle.host_spec.specs.ValueFunctions.{value_function};
ghost use Rattle.object_store.specs.Shown.{shown_of, AreIndices};
ghost use Rattle.host_frame.specs.Made.{IsMemory};
ghost use Rattle.host_interface.specs.declared.import.HostImport.TheVariants as imports;
ghost use Rattle.host_values.specs.Rows.{AnswersRow, group_of};
ghost use Rattle.host_values.specs.Called.{IsValueCall, Calls};

use crate::binary::two_words;
use crate::nullary::without_words;
use crate::quaternary::four_words;
use crate::ternary::three_words;
use crate::unary::one_word;
use budget_meter::Budget;
use collection_calls::{vec_new_from_linear_memory, vec_unpack_to_linear_memory};
use host_frame::{Answer, Values, give};
use host_interface::HostImport;
use host_spec::ValueErr;
use object_store::{Objects, Shown};

/// Returns what a function answers that shows nothing before its result.
#[tactic(auto, using(crate::proofs::Groups::grouped, crate::proofs::Groups::no_word, crate::proofs::Groups::one_word, crate::proofs::Groups::two_words, crate::proofs::Groups::three_words, crate::proofs::Groups::four_words, crate::proofs::Groups::no_more))]
fn plain_answer(
    import: HostImport,
    values: &Values<'_>,
    memory: &mut [u8],
    budget: &mut Budget,
    words: &[u64],
) -> Result<Answer, ValueErr>
    requires call { IsValueCall «import» words.now }
    requires plain { group_of «import» ≤ 10 }
    requires memory { IsMemory memory.old }
    ensures { AnswersRow result «import» words.now (state values.now memory.old budget.old)
        (state values.now memory.new budget.new) }
{
    match words {
        [] => without_words(import, values, budget),
        [a] => one_word(import, values, budget, *a),
        [a, b] => two_words(import, values, memory, budget, *a, *b),
        [a, b, c] => three_words(import, values, budget, *a, *b, *c),
        [a, b, c, d] => four_words(import, values, memory, budget, *a, *b, *c, *d),
        _ => unreachable!(),
    }
}

/// Returns what `vec_unpack_to_linear_memory` answers.
fn unpacked(
    objects: &mut Objects,
    shown: &mut Shown,
    memory: &mut [u8],
    budget: &mut Budget,
    words: &[u64],
) -> Result<Answer, ValueErr>
    requires words { length words.now ≡ 3 }
    requires indices { AreIndices objects.old shown.old }
    ensures answers { AnswersRow result imports.VecUnpackToLinearMemory words.now
        (state (shown_of objects.old shown.old) memory.old budget.old)
        (state (shown_of objects.new shown.new) memory.new budget.new) }
    ensures indices { AreIndices objects.new shown.new }
{
    match words {
        [a, b, c] => vec_unpack_to_linear_memory(objects, shown, memory, budget, *a, *b, *c),
        _ => unreachable!(),
    }
}

/// Returns what a function answers, but `vec_new_from_linear_memory`.
#[tactic(auto, using(crate::proofs::Groups::not_unpack, crate::proofs::Groups::unpack_words))]
fn answer(
    objects: &mut Objects,
    shown: &mut Shown,
    memory: &mut [u8],
    budget: &mut Budget,
    import: HostImport,
    words: &[u64],
) -> Result<Answer, ValueErr>
    requires call { IsValueCall «import» words.now }
    requires whole { group_of «import» ≤ 11 }
    requires indices { AreIndices objects.old shown.old }
    requires memory { IsMemory memory.old }
    ensures answers { AnswersRow result «import» words.now (state (shown_of objects.old shown.old) memory.old budget.old)
        (state (shown_of objects.new shown.new) memory.new budget.new) }
    ensures indices { AreIndices objects.new shown.new }
{
    match import {
        HostImport::VecUnpackToLinearMemory => unpacked(objects, shown, memory, budget, words),
        _ => plain_answer(import, &Values::new(objects, shown), memory, budget, words),
    }
}

/// Shows what a function answers, but `vec_new_from_linear_memory`.
fn shown_answer(
    objects: &mut Objects,
    shown: &mut Shown,
    memory: &mut [u8],
    budget: &mut Budget,
    import: HostImport,
    words: &[u64],
) -> Result<u64, ValueErr>
    requires call { IsValueCall «import» words.now }
    requires whole { group_of «import» ≤ 11 }
    requires indices { AreIndices objects.old shown.old }
    requires memory { IsMemory memory.old }
    ensures does { Calls result (value_function «import») words.now (state (shown_of objects.old shown.old) memory.old budget.old)
        (state (shown_of objects.new shown.new) memory.new budget.new) }
    ensures indices { AreIndices objects.new shown.new }
{
    let made = answer(objects, shown, memory, budget, import, words)?;
    give(objects, shown, budget, made)
}

/// Shows the vec of `vec_new_from_linear_memory`.
#[tactic(auto, unfolding(host_spec::specs::ValueFunctions::value_function))]
fn shown_vec(
    objects: &mut Objects,
    shown: &mut Shown,
    memory: &[u8],
    budget: &mut Budget,
    words: &[u64],
) -> Result<u64, ValueErr>
    requires words { length words.now ≡ 2 }
    requires indices { AreIndices objects.old shown.old }
    ensures does { Calls result (value_function imports.VecNewFromLinearMemory) words.now
        (state (shown_of objects.old shown.old) memory.now budget.old)
        (state (shown_of objects.new shown.new) memory.now budget.new) }
    ensures indices { AreIndices objects.new shown.new }
{
    match words {
        [a, b] => vec_new_from_linear_memory(objects, shown, memory, budget, *a, *b),
        _ => unreachable!(),
    }
}

/// Calls a function over values, in a frame that has shown these objects, with this linear memory.
///
/// It charges the budget, shows what it returns and writes to the memory, as the function's row of the host interface says. If
/// memory runs out, what was lent is to be dropped.
#[tactic(auto, using(crate::proofs::Groups::not_new_vec, crate::proofs::Groups::new_vec_words))]
pub fn call_function(
    objects: &mut Objects,
    shown: &mut Shown,
    memory: &mut [u8],
    budget: &mut Budget,
    import: HostImport,
    words: &[u64],
) -> Result<u64, ValueErr>
    requires call { IsValueCall «import» words.now }
    requires indices { AreIndices objects.old shown.old }
    requires memory { IsMemory memory.old }
    ensures does { Calls result (value_function «import») words.now (state (shown_of objects.old shown.old) memory.old budget.old)
        (state (shown_of objects.new shown.new) memory.new budget.new) }
    ensures indices { AreIndices objects.new shown.new }
{
    match import {
        HostImport::VecNewFromLinearMemory => shown_vec(objects, shown, memory, budget, words),
        _ => shown_answer(objects, shown, memory, budget, import, words),
    }
}
