//! From values to words.

ghost use Rattle.std.specs.Prelude.{◌≡◌, ◌<◌, ◌^◌, ◌+◌, ◌*◌, ◌%◌, ◌==◌, ◌&&◌, nat_lt};
ghost use Rattle.std.specs.Option.{option_map};
ghost use Rattle.std.specs.Int.{w64, cast_unsigned};
ghost use Rattle.value_types.specs.Views.{datum};
ghost use Rattle.value_types.specs.Error.{number as type_number, kind as error_kind, code};
ghost use Rattle.host_spec.specs.Words.{only_if, small_word, fits56, parts_fit56};
ghost use Rattle.tagged_val.specs.Bits.{bits};

use crate::val::Val;
use value_types::{Int128Parts, ScError, ScVal, UInt128Parts};

/// 2^56: what the body of a word holds is below it.
const BODY_END: u64 = 0x100_0000_0000_0000;

/// The word of a number under a tag, or `None` if 56 bits do not hold it.
pub fn small_unsigned(tag: u64, number: u64) -> Option<Val>
    requires { tag < 256 }
    ensures { option_map bits result ≡ only_if (nat_lt number (2 ^ 56)) (tag + number * 256) }
{
    if number < BODY_END {
        Some(Val(tag + number * 256))
    } else {
        None
    }
}

/// The word of an I64, or `None` if 56 bits do not hold it.
pub fn small_signed(number: i64) -> Option<Val>
    ensures { option_map bits result ≡ only_if (fits56 number) (7 + cast_unsigned w64 number % 2 ^ 56 * 256) }
{
    if -0x80_0000_0000_0000 <= number && number < 0x80_0000_0000_0000 {
        Some(Val(7 + number.cast_unsigned() % BODY_END * 256))
    } else {
        None
    }
}

fn small_u128(number: UInt128Parts) -> Option<Val>
    ensures { option_map bits result ≡ only_if ((number.hi == 0) && nat_lt number.lo (2 ^ 56)) (10 + number.lo * 256) }
{
    if number.hi == 0 && number.lo < BODY_END {
        Some(Val(10 + number.lo * 256))
    } else {
        None
    }
}

fn parts_fit56(number: Int128Parts) -> bool
    ensures { result ≡ parts_fit56 number.hi number.lo }
{
    if number.hi >= 0 {
        number.hi == 0 && number.lo < 0x80_0000_0000_0000
    } else {
        number.hi == -1 && number.lo >= 0xff80_0000_0000_0000
    }
}

fn small_i128(number: Int128Parts) -> Option<Val>
    ensures { option_map bits result ≡ only_if (parts_fit56 number.hi number.lo) (11 + number.lo % 2 ^ 56 * 256) }
{
    if parts_fit56(number) {
        Some(Val(11 + number.lo % BODY_END * 256))
    } else {
        None
    }
}

fn error_word(error: ScError) -> Val
    ensures { result.0 ≡ 3 + type_number (error_kind error) * 256 + code error * 2 ^ 32 }
{
    Val(3 + u64::from(error.kind().number()) * 256 + u64::from(error.code()) * 0x1_0000_0000)
}

/// The small form of a value, if it has one.
pub fn small_word(value: &ScVal) -> Option<Val>
    ensures { option_map bits result ≡ small_word (datum value.now) }
{
    match value {
        ScVal::Bool(false) => Some(Val(0)),
        ScVal::Bool(true) => Some(Val(1)),
        ScVal::Void => Some(Val(2)),
        ScVal::Error(error) => Some(error_word(*error)),
        ScVal::U32(number) => Some(Val::of_u32(*number)),
        ScVal::I32(number) => Some(Val(5 + u64::from(number.cast_unsigned()) * 0x1_0000_0000)),
        ScVal::U64(number) => small_unsigned(6, *number),
        ScVal::I64(number) => small_signed(*number),
        ScVal::Timepoint(number) => small_unsigned(8, *number),
        ScVal::Duration(number) => small_unsigned(9, *number),
        ScVal::U128(number) => small_u128(*number),
        ScVal::I128(number) => small_i128(*number),
        ScVal::Symbol(text) => Val::small_symbol(text.as_slice()),
        _ => None,
    }
}
