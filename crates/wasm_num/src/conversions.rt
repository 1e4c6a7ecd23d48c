//! Conversions and sign extensions (core sections 4.3.2 and 4.3.4).

ghost use Rattle.std.specs.Prelude.{◌≡◌, ◌<◌, ◌^◌};
ghost use Rattle.wasm_spec.specs.Typing.{converted_from, converted_to};
ghost use Rattle.wasm_spec.specs.Integers.{conversion_of, extend_s, width};

use crate::widths::wrap;
use wasm_spec::{Conversion, Sign, ValueType};

/// Converts an integer of the operand's type to an integer of the result's type.
#[inline]
#[tactic(auto, unfolding(wasm_spec::specs::Integers::conversion_of))]
pub fn convert(operation: Conversion, operand: u64) -> u64
    requires { operand < 2 ^ width (converted_from operation) }
    ensures value { result ≡ conversion_of operation operand }
    ensures fits { result < 2 ^ width (converted_to operation) }
{
    match operation {
        Conversion::I32Wrap => operand % 0x1_0000_0000,
        Conversion::I64Extend(Sign::Unsigned) => operand,
        Conversion::I64Extend(Sign::Signed) => extend_32(operand as u32),
        Conversion::I32Extend8 => extend_8(ValueType::I32, (operand % 0x100) as u8),
        Conversion::I32Extend16 => extend_16(ValueType::I32, (operand % 0x1_0000) as u16),
        Conversion::I64Extend8 => extend_8(ValueType::I64, (operand % 0x100) as u8),
        Conversion::I64Extend16 => extend_16(ValueType::I64, (operand % 0x1_0000) as u16),
        Conversion::I64Extend32 => extend_32((operand % 0x1_0000_0000) as u32),
    }
}

/// Extends the sign of an integer of 8 bits to the type (`extend_s`).
#[inline]
pub fn extend_8(value_type: ValueType, operand: u8) -> u64
    ensures value { result ≡ extend_s 8 (width value_type) operand }
    ensures fits { result < 2 ^ width value_type }
{
    wrap(value_type, i64::from(operand.cast_signed()).cast_unsigned())
}

/// Extends the sign of an integer of 16 bits to the type (`extend_s`).
#[inline]
pub fn extend_16(value_type: ValueType, operand: u16) -> u64
    ensures value { result ≡ extend_s 16 (width value_type) operand }
    ensures fits { result < 2 ^ width value_type }
{
    wrap(value_type, i64::from(operand.cast_signed()).cast_unsigned())
}

/// Extends the sign of an integer of 32 bits to 64 bits (`extend_s`).
#[inline]
pub fn extend_32(operand: u32) -> u64
    ensures { result ≡ extend_s 32 64 operand }
{
    i64::from(operand.cast_signed()).cast_unsigned()
}
