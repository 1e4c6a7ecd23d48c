//! From words to values.

ghost use Rattle.std.specs.Prelude.{◌≡◌, ◌≢◌, ◌<◌, ◌^◌, true, IfSome};
ghost use Rattle.std.specs.Option.{option_map};
ghost use Rattle.value_types.specs.Views.{datum};
ghost use Rattle.value_types.specs.Error.{error_format};
ghost use Rattle.host_spec.specs.Words.{small_of, signed56, upper56, error_of};
ghost use Rattle.value_xdr.specs.Bytes.{IsBounded};
ghost use Rattle.tagged_val.specs.Scalars.{is_scalar};

use crate::val::Val;
use host_spec::Tag;
use value_types::{Int128Parts, ScError, ScErrorCode, ScErrorType, ScVal, UInt128Parts};

/// 2^55: a body from here on is that of a negative number.
const SIGN: u64 = 0x80_0000_0000_0000;

fn signed56(body: u64) -> i64
    requires { body < 2 ^ 56 }
    ensures { result ≡ signed56 body }
{
    if body < SIGN {
        body.cast_signed()
    } else {
        (body + 0xff00_0000_0000_0000).cast_signed()
    }
}

fn upper56(body: u64) -> i64
    ensures { result ≡ upper56 body }
{
    if body < SIGN { 0 } else { -1 }
}

#[tactic(auto, unfolding(value_types::specs::Error::error_format, value_types::specs::Error::code_format, xdr_spec::specs::Format::number32))]
fn error_of(kind: ScErrorType, code: u32) -> Option<ScError>
    ensures means { result ≡ error_of kind code }
    ensures bounded { IfSome result (λ e. error_format.fits e) }
{
    if kind == ScErrorType::Contract {
        return Some(ScError::Contract(code));
    }
    let Some(code) = ScErrorCode::from_number(code) else {
        return None;
    };
    match kind {
        ScErrorType::Contract => None,
        ScErrorType::WasmVm => Some(ScError::WasmVm(code)),
        ScErrorType::Context => Some(ScError::Context(code)),
        ScErrorType::Storage => Some(ScError::Storage(code)),
        ScErrorType::Object => Some(ScError::Object(code)),
        ScErrorType::Crypto => Some(ScError::Crypto(code)),
        ScErrorType::Events => Some(ScError::Events(code)),
        ScErrorType::Budget => Some(ScError::Budget(code)),
        ScErrorType::Value => Some(ScError::Value(code)),
        ScErrorType::Auth => Some(ScError::Auth(code)),
    }
}

fn error_value(word: u64) -> Option<ScVal>
    ensures means { option_map datum result ≡ small_of Tag.Error word }
    ensures bounded { IfSome result (λ v. IsBounded (datum v)) }
    ensures scalar { IfSome result (λ v. is_scalar (datum v) ≡ true) }
{
    let kind = (word / 256 % 0x100_0000) as u32;
    let code = (word / 0x1_0000_0000) as u32;
    match ScErrorType::from_number(kind) {
        None => None,
        Some(kind) => match error_of(kind, code) {
            None => None,
            Some(error) => Some(ScVal::Error(error)),
        },
    }
}

/// The value of a word with the tag of a small form, symbols aside. Returns `None` if the word means nothing.
#[tactic(auto, unfolding(xdr_spec::specs::Format::boolean, xdr_spec::specs::Format::number32, xdr_spec::specs::Format::number64, xdr_spec::specs::Format::signed32, xdr_spec::specs::Format::signed64, value_types::specs::Numbers::u128_format, value_types::specs::Numbers::i128_format))]
pub fn scalar_of(tag: Tag, val: Val) -> Option<ScVal>
    requires { tag ≢ Tag.SymbolSmall }
    ensures means { option_map datum result ≡ small_of tag val.0 }
    ensures bounded { IfSome result (λ v. IsBounded (datum v)) }
    ensures scalar { IfSome result (λ v. is_scalar (datum v) ≡ true) }
{
    let word = val.0;
    let body = word / 256;
    let minor = word / 256 % 0x100_0000;
    let major = (word / 0x1_0000_0000) as u32;
    match tag {
        Tag::False if body == 0 => Some(ScVal::Bool(false)),
        Tag::True if body == 0 => Some(ScVal::Bool(true)),
        Tag::Void if body == 0 => Some(ScVal::Void),
        Tag::Error => error_value(word),
        Tag::U32 if minor == 0 => Some(ScVal::U32(major)),
        Tag::I32 if minor == 0 => Some(ScVal::I32(major.cast_signed())),
        Tag::U64Small => Some(ScVal::U64(body)),
        Tag::I64Small => Some(ScVal::I64(signed56(body))),
        Tag::TimepointSmall => Some(ScVal::Timepoint(body)),
        Tag::DurationSmall => Some(ScVal::Duration(body)),
        Tag::U128Small => Some(ScVal::U128(UInt128Parts { hi: 0, lo: body })),
        Tag::I128Small => Some(ScVal::I128(Int128Parts {
            hi: upper56(body),
            lo: signed56(body).cast_unsigned(),
        })),
        _ => None,
    }
}
