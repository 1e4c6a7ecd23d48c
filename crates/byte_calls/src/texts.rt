//! Module b: strings and symbols.

ghost use Rattle.std.specs.Prelude.{[], ◌∷◌};
ghost use Rattle.host_interface.specs.declared.kinds.ArgKind.TheVariants as kinds;
ghost use Rattle.host_spec.specs.ByteRows.{string_len, symbol_len, string_to_bytes, bytes_to_string};
ghost use Rattle.host_frame.specs.Answered.{Answers};

use budget_meter::Budget;
use host_frame::{Answer, Values, enter};
use host_spec::ValueErr;

/// `string_len`: the number of bytes of a string.
#[tactic(auto, using(host_frame::proofs::Lemmas::few_string))]
pub fn string_len(values: &Values<'_>, budget: &mut Budget, a: u64) -> Result<Answer, ValueErr>
    ensures { Answers result (kinds.String ∷ []) string_len (a ∷ []) values.now budget.old budget.new }
{
    let text = values.string(a)?;
    enter(budget, &[a])?;
    Ok(Answer::number32(text.len() as u32))
}

/// `symbol_len`: the number of characters of a symbol.
#[tactic(auto, using(host_frame::proofs::Lemmas::few_symbol))]
pub fn symbol_len(values: &Values<'_>, budget: &mut Budget, a: u64) -> Result<Answer, ValueErr>
    ensures { Answers result (kinds.Symbol ∷ []) symbol_len (a ∷ []) values.now budget.old budget.new }
{
    let text = values.symbol(a)?;
    enter(budget, &[a])?;
    Ok(Answer::number32(text.get().len() as u32))
}

/// `string_to_bytes`: the bytes of a string.
#[tactic(auto, using(host_frame::proofs::Lemmas::few_string))]
pub fn string_to_bytes(values: &Values<'_>, budget: &mut Budget, a: u64) -> Result<Answer, ValueErr>
    ensures { Answers result (kinds.String ∷ []) string_to_bytes (a ∷ []) values.now budget.old budget.new }
{
    let text = values.string(a)?;
    enter(budget, &[a])?;
    Ok(Answer::bytes(Vec::from_slice(values.allocator(), text)?))
}

/// `bytes_to_string`: the string of these bytes.
#[tactic(auto, using(host_frame::proofs::Lemmas::few_bytes))]
pub fn bytes_to_string(values: &Values<'_>, budget: &mut Budget, a: u64) -> Result<Answer, ValueErr>
    ensures { Answers result (kinds.Bytes ∷ []) bytes_to_string (a ∷ []) values.now budget.old budget.new }
{
    let bytes = values.bytes(a)?;
    enter(budget, &[a])?;
    Ok(Answer::string(Vec::from_slice(values.allocator(), bytes)?))
}
