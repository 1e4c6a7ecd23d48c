//! The numeric instructions in the order of their opcodes (core section 5.4.5). Constants and three of the conversions are in
//! none of the tables.

use crate::instructions::{Binary, Comparison, Conversion, Numeric, Sign, Unary};
use crate::types::ValueType;

/// The tests and comparisons, from opcode 0x45 on.
pub const COMPARISONS: [Numeric; 22] = [
    Numeric::Eqz(ValueType::I32),
    Numeric::Compare(ValueType::I32, Comparison::Eq),
    Numeric::Compare(ValueType::I32, Comparison::Ne),
    Numeric::Compare(ValueType::I32, Comparison::Lt(Sign::Signed)),
    Numeric::Compare(ValueType::I32, Comparison::Lt(Sign::Unsigned)),
    Numeric::Compare(ValueType::I32, Comparison::Gt(Sign::Signed)),
    Numeric::Compare(ValueType::I32, Comparison::Gt(Sign::Unsigned)),
    Numeric::Compare(ValueType::I32, Comparison::Le(Sign::Signed)),
    Numeric::Compare(ValueType::I32, Comparison::Le(Sign::Unsigned)),
    Numeric::Compare(ValueType::I32, Comparison::Ge(Sign::Signed)),
    Numeric::Compare(ValueType::I32, Comparison::Ge(Sign::Unsigned)),
    Numeric::Eqz(ValueType::I64),
    Numeric::Compare(ValueType::I64, Comparison::Eq),
    Numeric::Compare(ValueType::I64, Comparison::Ne),
    Numeric::Compare(ValueType::I64, Comparison::Lt(Sign::Signed)),
    Numeric::Compare(ValueType::I64, Comparison::Lt(Sign::Unsigned)),
    Numeric::Compare(ValueType::I64, Comparison::Gt(Sign::Signed)),
    Numeric::Compare(ValueType::I64, Comparison::Gt(Sign::Unsigned)),
    Numeric::Compare(ValueType::I64, Comparison::Le(Sign::Signed)),
    Numeric::Compare(ValueType::I64, Comparison::Le(Sign::Unsigned)),
    Numeric::Compare(ValueType::I64, Comparison::Ge(Sign::Signed)),
    Numeric::Compare(ValueType::I64, Comparison::Ge(Sign::Unsigned)),
];

/// The operations with one and with two operands, from opcode 0x67 on.
pub const ARITHMETIC: [Numeric; 36] = [
    Numeric::Unary(ValueType::I32, Unary::Clz),
    Numeric::Unary(ValueType::I32, Unary::Ctz),
    Numeric::Unary(ValueType::I32, Unary::Popcnt),
    Numeric::Binary(ValueType::I32, Binary::Add),
    Numeric::Binary(ValueType::I32, Binary::Sub),
    Numeric::Binary(ValueType::I32, Binary::Mul),
    Numeric::Binary(ValueType::I32, Binary::Div(Sign::Signed)),
    Numeric::Binary(ValueType::I32, Binary::Div(Sign::Unsigned)),
    Numeric::Binary(ValueType::I32, Binary::Rem(Sign::Signed)),
    Numeric::Binary(ValueType::I32, Binary::Rem(Sign::Unsigned)),
    Numeric::Binary(ValueType::I32, Binary::And),
    Numeric::Binary(ValueType::I32, Binary::Or),
    Numeric::Binary(ValueType::I32, Binary::Xor),
    Numeric::Binary(ValueType::I32, Binary::Shl),
    Numeric::Binary(ValueType::I32, Binary::Shr(Sign::Signed)),
    Numeric::Binary(ValueType::I32, Binary::Shr(Sign::Unsigned)),
    Numeric::Binary(ValueType::I32, Binary::Rotl),
    Numeric::Binary(ValueType::I32, Binary::Rotr),
    Numeric::Unary(ValueType::I64, Unary::Clz),
    Numeric::Unary(ValueType::I64, Unary::Ctz),
    Numeric::Unary(ValueType::I64, Unary::Popcnt),
    Numeric::Binary(ValueType::I64, Binary::Add),
    Numeric::Binary(ValueType::I64, Binary::Sub),
    Numeric::Binary(ValueType::I64, Binary::Mul),
    Numeric::Binary(ValueType::I64, Binary::Div(Sign::Signed)),
    Numeric::Binary(ValueType::I64, Binary::Div(Sign::Unsigned)),
    Numeric::Binary(ValueType::I64, Binary::Rem(Sign::Signed)),
    Numeric::Binary(ValueType::I64, Binary::Rem(Sign::Unsigned)),
    Numeric::Binary(ValueType::I64, Binary::And),
    Numeric::Binary(ValueType::I64, Binary::Or),
    Numeric::Binary(ValueType::I64, Binary::Xor),
    Numeric::Binary(ValueType::I64, Binary::Shl),
    Numeric::Binary(ValueType::I64, Binary::Shr(Sign::Signed)),
    Numeric::Binary(ValueType::I64, Binary::Shr(Sign::Unsigned)),
    Numeric::Binary(ValueType::I64, Binary::Rotl),
    Numeric::Binary(ValueType::I64, Binary::Rotr),
];

/// The sign extensions, from opcode 0xC0 on.
pub const SIGN_EXTENSIONS: [Numeric; 5] = [
    Numeric::Convert(Conversion::I32Extend8),
    Numeric::Convert(Conversion::I32Extend16),
    Numeric::Convert(Conversion::I64Extend8),
    Numeric::Convert(Conversion::I64Extend16),
    Numeric::Convert(Conversion::I64Extend32),
];
