//! Module i: integers. A number that is made is always an object.

ghost use Rattle.std.specs.Prelude.{[], ◌∷◌};
ghost use Rattle.host_interface.specs.declared.kinds.ArgKind.TheVariants as kinds;
ghost use Rattle.host_spec.specs.IntegerRows.{obj_from_u64, obj_to_u64, obj_from_i64, obj_to_i64, obj_from_u128_pieces};
ghost use Rattle.host_spec.specs.IntegerRows.{obj_to_u128_hi64, obj_to_u128_lo64, obj_from_i128_pieces, obj_to_i128_hi64};
ghost use Rattle.host_spec.specs.IntegerRows.{obj_to_i128_lo64, timepoint_obj_from_u64, timepoint_obj_to_u64};
ghost use Rattle.host_spec.specs.IntegerRows.{duration_obj_from_u64, duration_obj_to_u64};
ghost use Rattle.host_frame.specs.Answered.{Answers};

use budget_meter::Budget;
use host_frame::{Answer, Values, enter};
use host_spec::ValueErr;
use value_types::{Int128Parts, ScVal, UInt128Parts};

/// `obj_from_u64`: a U64 of this number.
#[tactic(auto, unfolding(xdr_spec::specs::Format::number64))]
pub fn obj_from_u64(values: &Values<'_>, budget: &mut Budget, a: u64) -> Result<Answer, ValueErr>
    ensures { Answers result (kinds.Unsigned ∷ []) obj_from_u64 (a ∷ []) values.now budget.old budget.new }
{
    enter(budget, &[])?;
    Ok(Answer::object(ScVal::U64(a)))
}

/// `obj_to_u64`: the number of a U64.
pub fn obj_to_u64(values: &Values<'_>, budget: &mut Budget, a: u64) -> Result<Answer, ValueErr>
    ensures { Answers result (kinds.U64 ∷ []) obj_to_u64 (a ∷ []) values.now budget.old budget.new }
{
    let number = values.number64(a)?;
    enter(budget, &[a])?;
    Ok(Answer::Raw(number))
}

/// `obj_from_i64`: an I64 of this number.
#[tactic(auto, unfolding(xdr_spec::specs::Format::signed64))]
pub fn obj_from_i64(values: &Values<'_>, budget: &mut Budget, a: u64) -> Result<Answer, ValueErr>
    ensures { Answers result (kinds.Signed ∷ []) obj_from_i64 (a ∷ []) values.now budget.old budget.new }
{
    enter(budget, &[])?;
    Ok(Answer::object(ScVal::I64(a.cast_signed())))
}

/// `obj_to_i64`: the number of an I64.
pub fn obj_to_i64(values: &Values<'_>, budget: &mut Budget, a: u64) -> Result<Answer, ValueErr>
    ensures { Answers result (kinds.I64 ∷ []) obj_to_i64 (a ∷ []) values.now budget.old budget.new }
{
    let number = values.signed64(a)?;
    enter(budget, &[a])?;
    Ok(Answer::Raw(number.cast_unsigned()))
}

/// `obj_from_u128_pieces`: a U128 of its upper and its lower 64 bits.
#[tactic(auto, unfolding(value_types::specs::Numbers::u128_format, xdr_spec::specs::Format::number64))]
pub fn obj_from_u128_pieces(
    values: &Values<'_>,
    budget: &mut Budget,
    a: u64,
    b: u64,
) -> Result<Answer, ValueErr>
    ensures { Answers result (kinds.Unsigned ∷ kinds.Unsigned ∷ []) obj_from_u128_pieces
        (a ∷ b ∷ []) values.now budget.old budget.new }
{
    enter(budget, &[])?;
    Ok(Answer::object(ScVal::U128(UInt128Parts { hi: a, lo: b })))
}

/// `obj_to_u128_hi64`: the upper 64 bits of a U128.
pub fn obj_to_u128_hi64(
    values: &Values<'_>,
    budget: &mut Budget,
    a: u64,
) -> Result<Answer, ValueErr>
    ensures { Answers result (kinds.U128 ∷ []) obj_to_u128_hi64 (a ∷ []) values.now budget.old budget.new }
{
    let number = values.number128(a)?;
    enter(budget, &[a])?;
    Ok(Answer::Raw(number.hi))
}

/// `obj_to_u128_lo64`: the lower 64 bits of a U128.
pub fn obj_to_u128_lo64(
    values: &Values<'_>,
    budget: &mut Budget,
    a: u64,
) -> Result<Answer, ValueErr>
    ensures { Answers result (kinds.U128 ∷ []) obj_to_u128_lo64 (a ∷ []) values.now budget.old budget.new }
{
    let number = values.number128(a)?;
    enter(budget, &[a])?;
    Ok(Answer::Raw(number.lo))
}

/// `obj_from_i128_pieces`: an I128 of its upper and its lower 64 bits.
#[tactic(auto, unfolding(value_types::specs::Numbers::i128_format, xdr_spec::specs::Format::number64, xdr_spec::specs::Format::signed64))]
pub fn obj_from_i128_pieces(
    values: &Values<'_>,
    budget: &mut Budget,
    a: u64,
    b: u64,
) -> Result<Answer, ValueErr>
    ensures { Answers result (kinds.Signed ∷ kinds.Unsigned ∷ []) obj_from_i128_pieces
        (a ∷ b ∷ []) values.now budget.old budget.new }
{
    enter(budget, &[])?;
    Ok(Answer::object(ScVal::I128(Int128Parts {
        hi: a.cast_signed(),
        lo: b,
    })))
}

/// `obj_to_i128_hi64`: the upper 64 bits of an I128, which have its sign.
pub fn obj_to_i128_hi64(
    values: &Values<'_>,
    budget: &mut Budget,
    a: u64,
) -> Result<Answer, ValueErr>
    ensures { Answers result (kinds.I128 ∷ []) obj_to_i128_hi64 (a ∷ []) values.now budget.old budget.new }
{
    let number = values.signed128(a)?;
    enter(budget, &[a])?;
    Ok(Answer::Raw(number.hi.cast_unsigned()))
}

/// `obj_to_i128_lo64`: the lower 64 bits of an I128.
pub fn obj_to_i128_lo64(
    values: &Values<'_>,
    budget: &mut Budget,
    a: u64,
) -> Result<Answer, ValueErr>
    ensures { Answers result (kinds.I128 ∷ []) obj_to_i128_lo64 (a ∷ []) values.now budget.old budget.new }
{
    let number = values.signed128(a)?;
    enter(budget, &[a])?;
    Ok(Answer::Raw(number.lo))
}

/// `timepoint_obj_from_u64`: a timepoint of this number of seconds.
#[tactic(auto, unfolding(xdr_spec::specs::Format::number64))]
pub fn timepoint_obj_from_u64(
    values: &Values<'_>,
    budget: &mut Budget,
    a: u64,
) -> Result<Answer, ValueErr>
    ensures { Answers result (kinds.Unsigned ∷ []) timepoint_obj_from_u64 (a ∷ []) values.now budget.old budget.new }
{
    enter(budget, &[])?;
    Ok(Answer::object(ScVal::Timepoint(a)))
}

/// `timepoint_obj_to_u64`: the seconds of a timepoint.
pub fn timepoint_obj_to_u64(
    values: &Values<'_>,
    budget: &mut Budget,
    a: u64,
) -> Result<Answer, ValueErr>
    ensures { Answers result (kinds.Timepoint ∷ []) timepoint_obj_to_u64 (a ∷ []) values.now budget.old budget.new }
{
    let number = values.timepoint(a)?;
    enter(budget, &[a])?;
    Ok(Answer::Raw(number))
}

/// `duration_obj_from_u64`: a duration of this number of seconds.
#[tactic(auto, unfolding(xdr_spec::specs::Format::number64))]
pub fn duration_obj_from_u64(
    values: &Values<'_>,
    budget: &mut Budget,
    a: u64,
) -> Result<Answer, ValueErr>
    ensures { Answers result (kinds.Unsigned ∷ []) duration_obj_from_u64 (a ∷ []) values.now budget.old budget.new }
{
    enter(budget, &[])?;
    Ok(Answer::object(ScVal::Duration(a)))
}

/// `duration_obj_to_u64`: the seconds of a duration.
pub fn duration_obj_to_u64(
    values: &Values<'_>,
    budget: &mut Budget,
    a: u64,
) -> Result<Answer, ValueErr>
    ensures { Answers result (kinds.Duration ∷ []) duration_obj_to_u64 (a ∷ []) values.now budget.old budget.new }
{
    let number = values.duration(a)?;
    enter(budget, &[a])?;
    Ok(Answer::Raw(number))
}
