//! Charges.

ghost use Rattle.std.specs.Prelude.{◌≡◌, IfErr};
ghost use Rattle.host_spec.specs.Acts.{charged};
ghost use Rattle.host_spec.specs.declared.error.HostErr.TheVariants as ends;
ghost use Rattle.call_spec.specs.Acts.{lift};
ghost use Rattle.call_parts.specs.Steps.{Charges};
ghost use Rattle.host_ledger.specs.Spelled.{IsKeySpelled};

use budget_meter::{Budget, Kind};
use host_spec::HostErr;

/// Charges the budget. It fails only if a limit would be exceeded.
pub fn pay(budget: &mut Budget, kind: Kind, input: u64) -> Result<(), HostErr>
    ensures does { Charges result (λ u. u) (lift (charged kind input)) budget.old budget.new }
    ensures spent { IfErr result (λ e. e ≡ ends.Spent) }
    ensures key { IfErr result IsKeySpelled }
{
    match budget.charge(kind, input) {
        Ok(()) => Ok(()),
        Err(_) => Err(HostErr::Spent),
    }
}
