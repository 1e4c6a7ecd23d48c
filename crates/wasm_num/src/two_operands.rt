//! Operations on two operands (core section 4.3.2).

ghost use Rattle.std.specs.Prelude.{◌≡◌, ◌<◌, ◌^◌, IfSome};
ghost use Rattle.wasm_spec.specs.Integers.{binary_of, irotl, irotr, width};

use crate::signs::{divide, remainder, shift_right};
use crate::widths::{width, wrap};
use wasm_spec::{Binary, Sign, ValueType};

/// Returns the result of an operation on two integers of the type, or `None` if it traps: for a divisor of 0, and if
/// the quotient does not fit.
///
/// `WIDE` changes no result. It makes an instance for each type, so that LLVM compiles the code of each with its width.
#[inline]
#[tactic(auto, using(crate::proofs::WidthLaws::bit_laws), unfolding(wasm_spec::specs::Integers::binary_of))]
pub fn binary<const WIDE: bool>(
    value_type: ValueType,
    operation: Binary,
    first: u64,
    second: u64,
) -> Option<u64>
    requires first { first < 2 ^ width value_type }
    requires second { second < 2 ^ width value_type }
    ensures value { result ≡ binary_of (width value_type) operation first second }
    ensures fits { IfSome result (λ n. n < 2 ^ width value_type) }
{
    match operation {
        Binary::Add => Some(wrap(value_type, first.wrapping_add(second))),
        Binary::Sub => Some(wrap(value_type, first.wrapping_sub(second))),
        Binary::Mul => Some(wrap(value_type, first.wrapping_mul(second))),
        Binary::Div(Sign::Unsigned) => first.checked_div(second),
        Binary::Div(Sign::Signed) => divide(value_type, first, second),
        Binary::Rem(Sign::Unsigned) => first.checked_rem(second),
        Binary::Rem(Sign::Signed) => remainder(value_type, first, second),
        Binary::And => Some(first & second),
        Binary::Or => Some(first | second),
        Binary::Xor => Some(first ^ second),
        Binary::Shl => Some(wrap(value_type, first << (second % width(value_type)))),
        Binary::Shr(Sign::Unsigned) => Some(first >> (second % width(value_type))),
        Binary::Shr(Sign::Signed) => Some(shift_right(value_type, first, second)),
        Binary::Rotl => Some(rotate_left(value_type, first, second)),
        Binary::Rotr => Some(rotate_right(value_type, first, second)),
    }
}

/// Rotates the bits to the left, by a distance modulo the width.
#[inline]
#[tactic(auto, using(crate::proofs::WidthLaws::bit_laws))]
fn rotate_left(value_type: ValueType, number: u64, distance: u64) -> u64
    requires { number < 2 ^ width value_type }
    ensures value { result ≡ irotl (width value_type) number distance }
    ensures fits { result < 2 ^ width value_type }
{
    match value_type {
        ValueType::I32 => u64::from((number as u32).rotate_left((distance % 32) as u32)),
        ValueType::I64 => number.rotate_left((distance % 64) as u32),
    }
}

/// Rotates the bits to the right, by a distance modulo the width.
#[inline]
#[tactic(auto, using(crate::proofs::WidthLaws::bit_laws))]
fn rotate_right(value_type: ValueType, number: u64, distance: u64) -> u64
    requires { number < 2 ^ width value_type }
    ensures value { result ≡ irotr (width value_type) number distance }
    ensures fits { result < 2 ^ width value_type }
{
    match value_type {
        ValueType::I32 => u64::from((number as u32).rotate_right((distance % 32) as u32)),
        ValueType::I64 => number.rotate_right((distance % 64) as u32),
    }
}
