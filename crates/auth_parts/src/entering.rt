//! Arguments enter the host.

ghost use Rattle.std.specs.Prelude.{◌∷◌, [], All, OnOk};
ghost use Rattle.value_types.specs.Datum.{Datum};
ghost use Rattle.value_types.specs.Views.{datum, datums};
ghost use Rattle.value_xdr.specs.Bytes.{IsBounded};
ghost use Rattle.host_spec.specs.Hosted.{IsHosted, AreHosted};
ghost use Rattle.host_frame.specs.Resolved.{Resolves};
ghost use Rattle.call_spec.specs.Entering.{argument_entry, entering};
ghost use Rattle.auth_parts.specs.Entering.{Enters, IsEncodable};

use budget_meter::{Budget, Kind};
use host_frame::{TOO_LARGE, charge, entry, measured};
use host_spec::ValueErr;
use value_types::{ScVal, depth};

/// The depth of the deepest value that the host holds.
const DEEPEST: u64 = 100;

/// Tests whether an argument may enter the host.
#[tactic(auto, using(crate::proofs::Passing::deep_entry, crate::proofs::Passing::shallow_entry, crate::proofs::Passing::entered_if))]
fn argument_entry(value: &ScVal) -> Result<(), ValueErr>
    requires { IsBounded (datum value.now) }
    ensures does { Resolves result (λ _. datum value.now) (argument_entry (datum value.now)) }
    ensures hosted { OnOk result (IsHosted (datum value.now)) }
{
    if depth(value) > DEEPEST {
        return Err(TOO_LARGE);
    }
    entry(value)
}

/// Charges an argument, and tests whether it may enter the host.
fn enter_one(budget: &mut Budget, value: &ScVal) -> Result<(), ValueErr>
    requires { IsBounded (datum value.now) }
    ensures does { Enters {A = Datum} result (entering (datum value.now ∷ [])) budget.old budget.new }
    ensures hosted { OnOk result (IsHosted (datum value.now)) }
{
    let size = measured(value);
    // Memory holds no value that is so large.
    if size == u64::MAX {
        return Err(ValueErr::NoMemory);
    }
    charge(budget, Kind::ValDeser, size)?;
    argument_entry(value)
}

/// Lets the arguments enter the host one by one, each after its charge.
pub fn enter_all(budget: &mut Budget, values: &[ScVal]) -> Result<(), ValueErr>
    requires { All IsEncodable values.now }
    ensures does { Enters {A = Datum} result (entering (datums values.now)) budget.old budget.new }
    ensures hosted { OnOk result (AreHosted (datums values.now)) }
{
    for value in values {
        enter_one(budget, value)?;
    }
    Ok(())
}
