//! Module x, as far as it needs values alone: the order of values.

ghost use Rattle.std.specs.Prelude.{◌≡◌, [], ◌∷◌};
ghost use Rattle.host_interface.specs.declared.kinds.ArgKind.TheVariants as kinds;
ghost use Rattle.host_spec.specs.ContextRows.{obj_cmp, order_word};
ghost use Rattle.host_frame.specs.Answered.{Answers};

use budget_meter::{Budget, Kind};
use host_frame::{Answer, Values, charge, enter, size_of};
use host_spec::ValueErr;
use std::cmp::Ordering;
use value_types::cmp_val;

/// -1, 0 or 1 as a signed word.
fn order_word(order: Ordering) -> u64
    ensures { result ≡ order_word order }
{
    match order {
        Ordering::Less => u64::MAX,
        Ordering::Equal => 0,
        Ordering::Greater => 1,
    }
}

/// `obj_cmp`: how two values compare.
pub fn obj_cmp(values: &Values<'_>, budget: &mut Budget, a: u64, b: u64) -> Result<Answer, ValueErr>
    ensures { Answers result (kinds.Value ∷ kinds.Value ∷ []) obj_cmp (a ∷ b ∷ []) values.now budget.old budget.new }
{
    let left = values.value(a)?;
    let right = values.value(b)?;
    enter(budget, &[a, b])?;
    charge(
        budget,
        Kind::MemCmp,
        size_of(left.get()) + size_of(right.get()),
    )?;
    Ok(Answer::Raw(order_word(cmp_val(left.get(), right.get()))))
}
