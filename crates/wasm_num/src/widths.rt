//! Integers of both types as numbers of 64 bits (core sections 4.3.1 and 4.3.4).

ghost use Rattle.std.specs.Prelude.{◌≡◌, ◌<◌, ◌^◌};
ghost use Rattle.wasm_spec.specs.Integers.{signed, width, wrap};

use wasm_spec::ValueType;

/// Returns the number of bits of an integer of the type.
#[inline]
pub fn width(value_type: ValueType) -> u64
    ensures { result ≡ width value_type }
{
    match value_type {
        ValueType::I32 => 32,
        ValueType::I64 => 64,
    }
}

/// Returns the number modulo 2^width.
#[inline]
pub fn wrap(value_type: ValueType, number: u64) -> u64
    ensures value { result ≡ wrap (width value_type) number }
    ensures fits { result < 2 ^ width value_type }
{
    match value_type {
        ValueType::I32 => number % 0x1_0000_0000,
        ValueType::I64 => number,
    }
}

/// Returns the signed interpretation of an integer (core section 4.3.1).
#[inline]
pub fn signed(value_type: ValueType, number: u64) -> i64
    requires { number < 2 ^ width value_type }
    ensures { result ≡ signed (width value_type) number }
{
    match value_type {
        ValueType::I32 => i64::from((number as u32).cast_signed()),
        ValueType::I64 => number.cast_signed(),
    }
}
