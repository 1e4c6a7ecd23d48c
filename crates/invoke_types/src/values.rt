//! Lists of values.

ghost use Rattle.std.specs.Prelude.{◌≡◌, IfOk};

use std::alloc::AllocError;
use value_types::{Items, ScVal};

/// Clones the values.
pub fn clone_values(
    values: &Items<ScVal, 4294967295>,
) -> Result<Items<ScVal, 4294967295>, AllocError>
    ensures { IfOk result (λ copies. copies ≡ values.now) }
{
    values.clone()
}
