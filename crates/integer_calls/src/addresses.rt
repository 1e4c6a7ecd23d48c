//! Module a, as far as it needs values alone: the parts of muxed addresses.

ghost use Rattle.std.specs.Prelude.{[], ◌∷◌};
ghost use Rattle.host_interface.specs.declared.kinds.ArgKind.TheVariants as kinds;
ghost use Rattle.host_spec.specs.AddressRows.{get_address_from_muxed_address, get_id_from_muxed_address};
ghost use Rattle.host_frame.specs.Answered.{Answers};

use budget_meter::Budget;
use host_frame::{Answer, Values, enter};
use host_spec::ValueErr;
use value_types::{ScAddress, ScVal};

/// `get_address_from_muxed_address`: the account.
pub fn get_address_from_muxed_address(
    values: &Values<'_>,
    budget: &mut Budget,
    a: u64,
) -> Result<Answer, ValueErr>
    ensures { Answers result (kinds.MuxedAddress ∷ []) get_address_from_muxed_address (a ∷ []) values.now budget.old budget.new }
{
    let (_, account) = values.muxed_address(a)?;
    enter(budget, &[a])?;
    Ok(Answer::value(ScVal::Address(ScAddress::Account(account))))
}

/// `get_id_from_muxed_address`: the number that tells the accounts of one key apart.
#[tactic(auto, using(host_frame::proofs::Lemmas::scalar_made), unfolding(xdr_spec::specs::Format::number64))]
pub fn get_id_from_muxed_address(
    values: &Values<'_>,
    budget: &mut Budget,
    a: u64,
) -> Result<Answer, ValueErr>
    ensures { Answers result (kinds.MuxedAddress ∷ []) get_id_from_muxed_address (a ∷ []) values.now budget.old budget.new }
{
    let (id, _) = values.muxed_address(a)?;
    enter(budget, &[a])?;
    Ok(Answer::value(ScVal::U64(id)))
}
