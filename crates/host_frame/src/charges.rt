//! Charges.

ghost use Rattle.std.specs.Prelude.{◌≡◌, ℕ, List};
ghost use Rattle.value_types.specs.Datum.{Datum};
ghost use Rattle.host_spec.specs.Acts.{state, charged, Says};
ghost use Rattle.host_spec.specs.Arguments.{dispatched, visited};

use budget_meter::{Budget, Kind};
use host_spec::ValueErr;
use tagged_val::Val;

/// Charges the budget. The clause holds whatever was shown and whatever the memory holds, so a caller needs no state.
pub fn charge(budget: &mut Budget, kind: Kind, input: u64) -> Result<(), ValueErr>
    ensures { (shown : List Datum) (memory : List ℕ)
        → Says result (λ u. u) (charged kind input (state shown memory budget.old)) (state shown memory budget.new) }
{
    match budget.charge(kind, input) {
        Ok(()) => Ok(()),
        Err(_) => Err(ValueErr::Spent),
    }
}

/// Charges a visit of each object among the words.
fn visit(budget: &mut Budget, words: &[u64]) -> Result<(), ValueErr>
    ensures { (shown : List Datum) (memory : List ℕ)
        → Says result (λ u. u) (visited words.now (state shown memory budget.old)) (state shown memory budget.new) }
{
    match words {
        [] => Ok(()),
        [word, rest @ ..] => {
            if Val(*word).is_object() {
                charge(budget, Kind::VisitObject, 1)?;
            }
            visit(budget, rest)
        }
    }
}

/// Charges a call with these words: its dispatch, then a visit of each object. The words are the tagged ones in the order of the
/// arguments, without those that are numbers of 64 bits themselves.
pub fn enter(budget: &mut Budget, words: &[u64]) -> Result<(), ValueErr>
    ensures { (shown : List Datum) (memory : List ℕ)
        → Says result (λ u. u) (dispatched words.now (state shown memory budget.old)) (state shown memory budget.new) }
{
    charge(budget, Kind::DispatchHostFunction, 1)?;
    visit(budget, words)
}
