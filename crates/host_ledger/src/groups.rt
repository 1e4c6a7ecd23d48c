//! Calls of functions by the number of their words.

ghost use Rattle.std.specs.Prelude.{◌≡◌, [], ◌∷◌, IfErr};
ghost use Rattle.host_ledger.specs.Worlds.{IsReady};
ghost use Rattle.host_ledger.specs.Rows.{AnswersRow, group_of};
ghost use Rattle.host_acts.specs.Spelled.{IsKeySpelled};

use crate::context::{
    fail_with_error, get_current_contract_address, get_ledger_network_id, get_ledger_sequence,
    get_ledger_timestamp, get_ledger_version, get_max_live_until_ledger,
};
use crate::data::{
    del_contract_data, extend_contract_data_ttl, get_contract_data, has_contract_data,
    put_contract_data,
};
use crate::events::contract_event;
use crate::ids::get_contract_id;
use crate::instance::extend_current_contract_instance_and_code_ttl;
use crate::state::HostLedger;
use crate::updates::update_current_contract_wasm;
use contract_storage::Watch;
use entry_lookup::Ground;
use host_frame::Answer;
use host_interface::HostImport;
use host_spec::HostErr;

/// Calls a function without arguments.
#[tactic(auto, using(crate::proofs::Grouping::after_without_words))]
pub(crate) fn without_words<G: Ground, W: Watch>(
    host: &mut HostLedger<'_, G, W>,
    import: HostImport,
) -> Result<Answer, HostErr>
    requires group { group_of «import» ≡ 1 }
    requires ready { IsReady host.old }
    ensures does { AnswersRow result «import» ([]) host.old host.new }
    ensures key { IfErr result IsKeySpelled }
{
    match import {
        HostImport::GetLedgerVersion => get_ledger_version(host),
        HostImport::GetLedgerSequence => get_ledger_sequence(host),
        HostImport::GetLedgerTimestamp => get_ledger_timestamp(host),
        HostImport::GetLedgerNetworkId => get_ledger_network_id(host),
        HostImport::GetCurrentContractAddress => get_current_contract_address(host),
        HostImport::GetMaxLiveUntilLedger => get_max_live_until_ledger(host),
        _ => unreachable!(),
    }
}

/// Calls a function of one argument.
#[tactic(auto, using(crate::proofs::Grouping::after_one_word))]
pub(crate) fn one_word<G: Ground, W: Watch>(
    host: &mut HostLedger<'_, G, W>,
    import: HostImport,
    a: u64,
) -> Result<Answer, HostErr>
    requires group { group_of «import» ≡ 2 }
    requires ready { IsReady host.old }
    ensures does { AnswersRow result «import» (a ∷ []) host.old host.new }
    ensures key { IfErr result IsKeySpelled }
{
    match import {
        HostImport::FailWithError => fail_with_error(host, a),
        HostImport::UpdateCurrentContractWasm => update_current_contract_wasm(host, a),
        _ => unreachable!(),
    }
}

/// Calls a function of two arguments.
#[tactic(auto, using(crate::proofs::Grouping::after_two_words))]
pub(crate) fn two_words<G: Ground, W: Watch>(
    host: &mut HostLedger<'_, G, W>,
    import: HostImport,
    a: u64,
    b: u64,
) -> Result<Answer, HostErr>
    requires group { group_of «import» ≡ 3 }
    requires ready { IsReady host.old }
    ensures does { AnswersRow result «import» (a ∷ b ∷ []) host.old host.new }
    ensures key { IfErr result IsKeySpelled }
{
    match import {
        HostImport::ContractEvent => contract_event(host, a, b),
        HostImport::HasContractData => has_contract_data(host, a, b),
        HostImport::GetContractData => get_contract_data(host, a, b),
        HostImport::DelContractData => del_contract_data(host, a, b),
        HostImport::ExtendCurrentContractInstanceAndCodeTtl =>
            extend_current_contract_instance_and_code_ttl(host, a, b),
        HostImport::GetContractId => get_contract_id(host, a, b),
        _ => unreachable!(),
    }
}

/// Calls a function of three arguments.
#[tactic(auto, using(crate::proofs::Grouping::after_three_words))]
pub(crate) fn three_words<G: Ground, W: Watch>(
    host: &mut HostLedger<'_, G, W>,
    import: HostImport,
    a: u64,
    b: u64,
    c: u64,
) -> Result<Answer, HostErr>
    requires group { group_of «import» ≡ 4 }
    requires ready { IsReady host.old }
    ensures does { AnswersRow result «import» (a ∷ b ∷ c ∷ []) host.old host.new }
    ensures key { IfErr result IsKeySpelled }
{
    match import {
        HostImport::PutContractData => put_contract_data(host, a, b, c),
        _ => unreachable!(),
    }
}

/// Calls a function of four arguments.
#[tactic(auto, using(crate::proofs::Grouping::after_four_words))]
pub(crate) fn four_words<G: Ground, W: Watch>(
    host: &mut HostLedger<'_, G, W>,
    import: HostImport,
    a: u64,
    b: u64,
    c: u64,
    d: u64,
) -> Result<Answer, HostErr>
    requires group { group_of «import» ≡ 5 }
    requires ready { IsReady host.old }
    ensures does { AnswersRow result «import» (a ∷ b ∷ c ∷ d ∷ []) host.old host.new }
    ensures key { IfErr result IsKeySpelled }
{
    match import {
        HostImport::ExtendContractDataTtl => extend_contract_data_ttl(host, a, b, c, d),
        _ => unreachable!(),
    }
}
