//! Module x: the ledger that is made, the running contract, failing.

ghost use Rattle.std.specs.Prelude.{◌≡◌, [], ◌∷◌, IfOk, IfErr};
ghost use Rattle.host_interface.specs.declared.kinds.ArgKind.TheVariants as kinds;
ghost use Rattle.value_types.specs.Datum.{bytes, u64};
ghost use Rattle.ledger_spec.specs.Changes.{furthest as furthest_in};
ghost use Rattle.contract_storage.specs.Stored.{HasBounds};
ghost use Rattle.host_spec.specs.Answers.{value};
ghost use Rattle.host_spec.specs.declared.error.ValueErr.TheVariants as errs;
ghost use Rattle.host_frame.specs.Answered.{answer_of};
ghost use Rattle.host_frame.specs.Made.{IsAnswerMade};
ghost use Rattle.call_spec.specs.World.{next_seq};
ghost use Rattle.call_spec.specs.Events.{get_ledger_version, get_ledger_sequence, get_ledger_timestamp, get_ledger_network_id};
ghost use Rattle.call_spec.specs.Events.{get_current_contract_address, get_max_live_until_ledger, fail_with_error};
ghost use Rattle.host_ledger.specs.Worlds.{IsReady};
ghost use Rattle.host_ledger.specs.Answered.{Answers};
ghost use Rattle.host_acts.specs.Spelled.{IsKeySpelled};

use crate::errors::NO_CONTRACT_ERROR;
use crate::state::HostLedger;
use contract_storage::Watch;
use entry_lookup::Ground;
use host_acts::address_of;
use host_frame::{Answer, Values, enter};
use host_spec::{HostErr, ValueErr};
use ledger_types::Header;
use std::alloc::Global;
use value_types::{Hash, ScError, ScVal};

/// The number of the ledger that is made.
pub fn made_seq(header: &Header) -> u32
    requires { HasBounds (next_seq header.now) header.now.settings }
    ensures { result ≡ next_seq header.now }
{
    header.seq + 1
}

/// The last ledger that an extension may reach.
fn furthest(header: &Header) -> u32
    requires { HasBounds (next_seq header.now) header.now.settings }
    ensures { result ≡ furthest_in header.now.settings (next_seq header.now) }
{
    let most = u64::from(header.settings.max_entry_ttl);
    (u64::from(made_seq(header)) + most).saturating_sub(1) as u32
}

/// A U64.
#[tactic(auto, using(host_frame::proofs::Lemmas::scalar_made), unfolding(xdr_spec::specs::Format::number64))]
fn number64(number: u64) -> Answer
    ensures value { answer_of result ≡ value (u64 number) }
    ensures made { IsAnswerMade (answer_of result) }
{
    Answer::value(ScVal::U64(number))
}

/// A hash as an answer.
fn bytes_of(alloc: Global, hash: &Hash) -> Result<Answer, ValueErr>
    ensures value { IfOk result (λ a. answer_of a ≡ value (bytes hash.now.0)) }
    ensures made { IfOk result (λ a. IsAnswerMade (answer_of a)) }
    ensures memory { IfErr result (λ e. e ≡ errs.NoMemory) }
{
    let content = hash.0.to_vec(alloc)?;
    Ok(Answer::bytes(content))
}

/// `get_ledger_version`: the version of the protocol.
pub fn get_ledger_version<G: Ground, W: Watch>(
    host: &mut HostLedger<'_, G, W>,
) -> Result<Answer, HostErr>
    requires { IsReady host.old }
    ensures does { Answers result [] get_ledger_version [] host.old host.new }
    ensures key { IfErr result IsKeySpelled }
{
    enter(&mut host.budget, &[])?;
    Ok(Answer::number32(host.header.protocol))
}

/// `get_ledger_sequence`: the number of the ledger that is made.
pub fn get_ledger_sequence<G: Ground, W: Watch>(
    host: &mut HostLedger<'_, G, W>,
) -> Result<Answer, HostErr>
    requires { IsReady host.old }
    ensures does { Answers result [] get_ledger_sequence [] host.old host.new }
    ensures key { IfErr result IsKeySpelled }
{
    enter(&mut host.budget, &[])?;
    Ok(Answer::number32(made_seq(host.header)))
}

/// `get_ledger_timestamp`: its close time.
pub fn get_ledger_timestamp<G: Ground, W: Watch>(
    host: &mut HostLedger<'_, G, W>,
) -> Result<Answer, HostErr>
    requires { IsReady host.old }
    ensures does { Answers result [] get_ledger_timestamp [] host.old host.new }
    ensures key { IfErr result IsKeySpelled }
{
    enter(&mut host.budget, &[])?;
    Ok(number64(host.header.close_time))
}

/// `get_ledger_network_id`: the SHA-256 of the network's passphrase.
pub fn get_ledger_network_id<G: Ground, W: Watch>(
    host: &mut HostLedger<'_, G, W>,
) -> Result<Answer, HostErr>
    requires { IsReady host.old }
    ensures does { Answers result [] get_ledger_network_id [] host.old host.new }
    ensures key { IfErr result IsKeySpelled }
{
    enter(&mut host.budget, &[])?;
    let answer = bytes_of(host.objects.allocator(), &host.header.network_id)?;
    Ok(answer)
}

/// `get_max_live_until_ledger`: the last ledger that an extension may reach.
pub fn get_max_live_until_ledger<G: Ground, W: Watch>(
    host: &mut HostLedger<'_, G, W>,
) -> Result<Answer, HostErr>
    requires { IsReady host.old }
    ensures does { Answers result [] get_max_live_until_ledger [] host.old host.new }
    ensures key { IfErr result IsKeySpelled }
{
    enter(&mut host.budget, &[])?;
    Ok(Answer::number32(furthest(host.header)))
}

/// `get_current_contract_address`: the address of the contract that runs.
pub fn get_current_contract_address<G: Ground, W: Watch>(
    host: &mut HostLedger<'_, G, W>,
) -> Result<Answer, HostErr>
    requires { IsReady host.old }
    ensures does { Answers result [] (λ _. get_current_contract_address) [] host.old host.new }
    ensures key { IfErr result IsKeySpelled }
{
    enter(&mut host.budget, &[])?;
    Ok(address_of(host.frame.contract))
}

/// `fail_with_error`: fails with an error of type CONTRACT.
pub fn fail_with_error<G: Ground, W: Watch>(
    host: &mut HostLedger<'_, G, W>,
    a: u64,
) -> Result<Answer, HostErr>
    requires { IsReady host.old }
    ensures does { Answers result (kinds.Error ∷ []) (λ _. fail_with_error) (a ∷ []) host.old host.new }
    ensures key { IfErr result IsKeySpelled }
{
    let error = Values::new(&host.objects, &host.frame.shown).error(a)?;
    enter(&mut host.budget, &[a])?;
    match error {
        ScError::Contract(_) => Err(HostErr::Failed(error)),
        _ => Err(NO_CONTRACT_ERROR),
    }
}
