//! Values that are shown one after another.

ghost use Rattle.std.specs.Prelude.{◌++◌, ℕ, List, [], ◌∷◌};
ghost use Rattle.value_types.specs.Views.{datum, datums};
ghost use Rattle.host_spec.specs.Acts.{state, Says, then_do, gives};
ghost use Rattle.host_spec.specs.Answers.{given, value as given_value};
ghost use Rattle.host_spec.specs.Hosted.{IsMade};
ghost use Rattle.host_spec.specs.VecRows.{all_given};
ghost use Rattle.object_store.specs.Shown.{shown_of, AreIndices};
ghost use Rattle.host_frame.specs.Made.{AreMade};

use crate::answer::{Answer, give};
use budget_meter::Budget;
use host_spec::ValueErr;
use object_store::{Objects, Shown};
use value_types::ScVal;

/// Shows one more value, and adds its word.
fn give_next(
    objects: &mut Objects,
    shown: &mut Shown,
    budget: &mut Budget,
    mut words: Vec<u64>,
    item: ScVal,
) -> Result<Vec<u64>, ValueErr>
    requires made { IsMade (datum item) }
    requires indices { AreIndices objects.old shown.old }
    ensures does { (memory : List ℕ) → Says result (λ after. after.items)
        (then_do (given (given_value (datum item)) (state (shown_of objects.old shown.old) memory budget.old))
        (λ word. gives (words.items ++ word ∷ [])))
        (state (shown_of objects.new shown.new) memory budget.new) }
    ensures indices { AreIndices objects.new shown.new }
{
    let word = give(objects, shown, budget, Answer::Value(item))?;
    words.push(word)?;
    Ok(words)
}

/// Shows values in order. Returns their words.
pub fn give_each(
    objects: &mut Objects,
    shown: &mut Shown,
    budget: &mut Budget,
    items: Vec<ScVal>,
) -> Result<Vec<u64>, ValueErr>
    requires made { AreMade (datums items.items) }
    requires indices { AreIndices objects.old shown.old }
    ensures does { (memory : List ℕ) → Says result (λ words. words.items)
        (all_given (datums items.items) (state (shown_of objects.old shown.old) memory budget.old))
        (state (shown_of objects.new shown.new) memory budget.new) }
    ensures indices { AreIndices objects.new shown.new }
{
    let mut words = Vec::with_capacity(objects.allocator(), items.len())?;
    for item in items {
        words = give_next(objects, shown, budget, words, item)?;
    }
    Ok(words)
}
