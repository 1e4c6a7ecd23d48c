//! Signed division, and shifts that copy the sign (core section 4.3.2).

ghost use Rattle.std.specs.Prelude.{◌≡◌, ◌<◌, ◌^◌, IfSome};
ghost use Rattle.wasm_spec.specs.Integers.{idiv_s, irem_s, ishr_s, width};

use wasm_spec::ValueType;

/// Divides as signed numbers, rounding toward zero (`idiv_s`). Returns `None` for a divisor of 0, and for the
/// least number divided by -1, whose quotient does not fit.
#[inline]
pub fn divide(value_type: ValueType, first: u64, second: u64) -> Option<u64>
    requires first { first < 2 ^ width value_type }
    requires second { second < 2 ^ width value_type }
    ensures value { result ≡ idiv_s (width value_type) first second }
    ensures fits { IfSome result (λ n. n < 2 ^ width value_type) }
{
    match value_type {
        ValueType::I32 => {
            let divisor = (second as u32).cast_signed();
            let quotient = (first as u32).cast_signed().checked_div(divisor)?;
            Some(u64::from(quotient.cast_unsigned()))
        }
        ValueType::I64 => {
            let quotient = first.cast_signed().checked_div(second.cast_signed())?;
            Some(quotient.cast_unsigned())
        }
    }
}

/// Returns the remainder of the signed division (`irem_s`), or `None` for a divisor of 0.
#[inline]
pub fn remainder(value_type: ValueType, first: u64, second: u64) -> Option<u64>
    requires first { first < 2 ^ width value_type }
    requires second { second < 2 ^ width value_type }
    ensures value { result ≡ irem_s (width value_type) first second }
    ensures fits { IfSome result (λ n. n < 2 ^ width value_type) }
{
    if second == 0 {
        return None;
    }
    match value_type {
        ValueType::I32 => {
            let divisor = (second as u32).cast_signed();
            let left = (first as u32).cast_signed().wrapping_rem(divisor);
            Some(u64::from(left.cast_unsigned()))
        }
        ValueType::I64 => {
            let left = first.cast_signed().wrapping_rem(second.cast_signed());
            Some(left.cast_unsigned())
        }
    }
}

/// Shifts to the right and copies the sign, by a distance modulo the width (`ishr_s`).
#[inline]
#[tactic(auto, using(crate::proofs::SignLaws::ishr_s_is))]
pub fn shift_right(value_type: ValueType, first: u64, second: u64) -> u64
    requires first { first < 2 ^ width value_type }
    ensures value { result ≡ ishr_s (width value_type) first second }
    ensures fits { result < 2 ^ width value_type }
{
    match value_type {
        ValueType::I32 => {
            u64::from(((first as u32).cast_signed() >> (second % 32)).cast_unsigned())
        }
        ValueType::I64 => (first.cast_signed() >> (second % 64)).cast_unsigned(),
    }
}
