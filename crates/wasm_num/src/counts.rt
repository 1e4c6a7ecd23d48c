//! Counts of bits (core section 4.3.2).

ghost use Rattle.std.specs.Prelude.{◌≡◌, ◌<◌, ◌^◌};
ghost use Rattle.wasm_spec.specs.Integers.{unary_of, width};

use wasm_spec::{Unary, ValueType};

/// Returns the result of an operation on one integer of the type.
#[inline]
#[tactic(auto, using(crate::proofs::WidthLaws::count_laws), unfolding(wasm_spec::specs::Integers::unary_of))]
pub fn unary(value_type: ValueType, operation: Unary, operand: u64) -> u64
    requires { operand < 2 ^ width value_type }
    ensures value { result ≡ unary_of (width value_type) operation operand }
    ensures fits { result < 2 ^ width value_type }
{
    match (operation, value_type) {
        (Unary::Clz, ValueType::I32) => u64::from((operand as u32).leading_zeros()),
        (Unary::Clz, ValueType::I64) => u64::from(operand.leading_zeros()),
        (Unary::Ctz, ValueType::I32) => u64::from((operand as u32).trailing_zeros()),
        (Unary::Ctz, ValueType::I64) => u64::from(operand.trailing_zeros()),
        (Unary::Popcnt, _) => u64::from(operand.count_ones()),
    }
}
