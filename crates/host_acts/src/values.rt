//! Values cloned.

ghost use Rattle.std.specs.Prelude.{◌≡◌, IfOk, IfErr};
ghost use Rattle.host_spec.specs.declared.error.ValueErr.TheVariants as errs;

use host_spec::ValueErr;
use std::alloc::Global;
use value_types::ScVal;

/// Clones a value. Its only error is memory.
pub fn clone_value(value: &ScVal) -> Result<ScVal, ValueErr>
    ensures ok { IfOk result (λ v. v ≡ value.now) }
    ensures memory { IfErr result (λ e. e ≡ errs.NoMemory) }
{
    Ok(value.clone()?)
}

/// Clones values. Its only error is memory.
pub fn clone_values(alloc: Global, values: &[ScVal]) -> Result<Vec<ScVal>, ValueErr>
    ensures ok { IfOk result (λ v. v.items ≡ values.now) }
    ensures memory { IfErr result (λ e. e ≡ errs.NoMemory) }
{
    Ok(values.to_vec(alloc)?)
}
