//! Numeric instructions with a result of type `i32` (core section 4.4.1).

ghost use Rattle.std.specs.Prelude.{◌≡◌, ◌<◌, ◌^◌, Some};
ghost use Rattle.wasm_spec.specs.Integers.{numeric_result, width};
ghost use Rattle.wasm_spec.specs.declared.instructions.Numeric.TheVariants as numeric;

use crate::comparisons::compare;
use wasm_spec::{Comparison, ValueType};

/// Returns the result of a test of an integer of the type: 1 if it is 0.
#[inline]
#[tactic(auto, unfolding(wasm_spec::specs::Integers::numeric_result))]
pub fn tested(value_type: ValueType, operand: u64) -> u64
    requires { operand < 2 ^ width value_type }
    ensures value { Some result ≡ numeric_result (numeric.Eqz value_type) operand 0 }
    ensures fits { result < 2 ^ 32 }
{
    u64::from(operand == 0)
}

/// Returns the result of a comparison of two integers of the type: 1 if it holds. The second operand is the topmost.
///
/// `WIDE` changes no result. It makes an instance for each type, so that LLVM compiles the code of each with its width.
#[inline]
#[tactic(auto, unfolding(wasm_spec::specs::Integers::numeric_result))]
pub fn compared<const WIDE: bool>(
    value_type: ValueType,
    operation: Comparison,
    first: u64,
    second: u64,
) -> u64
    requires first { first < 2 ^ width value_type }
    requires second { second < 2 ^ width value_type }
    ensures value { Some result ≡ numeric_result (numeric.Compare value_type operation) first second }
    ensures fits { result < 2 ^ 32 }
{
    u64::from(compare(value_type, operation, first, second))
}
