//! The charge for an instruction.

ghost use Rattle.std.specs.Prelude.{◌≡◌, MatchBool, IsTrue};
ghost use Rattle.wasm_machine.specs.MachineState.{Pays, CannotPay};

use budget_meter::Budget;

/// Counts and charges one instruction. Returns false and changes nothing if none is left or the budget has no room.
pub fn pay(left: &mut u64, budget: &mut Budget) -> bool
    ensures paid { MatchBool result
        (Pays left.old budget.old left.new budget.new)
        (CannotPay left.old budget.old × (left.new ≡ left.old) × (budget.new ≡ budget.old)) }
{
    if *left == 0 || !budget.charge_instruction() {
        return false;
    }
    *left -= 1;
    true
}
