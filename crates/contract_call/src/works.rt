//! What a transaction does: a call, an upload, or a create.

ghost use Rattle.std.specs.Prelude.{◌≡◌, ◌<◌, ◌^◌, length, map, Some, None, IfOk, IfErr};
ghost use Rattle.std.specs.Option.{option_map};
ghost use Rattle.value_types.specs.Datum.{bytes, address as address_datum};
ghost use Rattle.value_types.specs.Views.{datum, datums};
ghost use Rattle.value_types.specs.declared.address.ScAddress.TheVariants as addresses;
ghost use Rattle.host_spec.specs.Hosted.{IsHosted, AreHosted};
ghost use Rattle.contract_storage.specs.Stored.{IsLater};
ghost use Rattle.call_spec.specs.Creating.{uploads};
ghost use Rattle.call_spec.specs.HostFunctions.{MOST_FRAMES};
ghost use Rattle.call_parts.specs.Steps.{Steps};
ghost use Rattle.host_ledger.specs.Worlds.{IsReady};
ghost use Rattle.host_ledger.specs.Spelled.{IsKeySpelled};
ghost use Rattle.call_spec.specs.WholeRuns.{calling, uploading, creating, done_under};
ghost use Rattle.call_host.specs.Worlds.{DoesAround, MayRun};
ghost use Rattle.call_host.specs.Creations.{creation_of, AreArgsHosted};
ghost use Rattle.contract_call.specs.Ended.{Ends, EndsRecorded};
ghost use Rattle.call_host.specs.Paths.{HasRoom};

use crate::calls;
use auth_trees::Authority;
use call_host::{ContractCall, Host, NewContract, ended};
use contract_storage::Watch;
use entry_lookup::Ground;
use host_ledger::HostLedger;
use host_spec::HostErr;
use value_types::{Hash, ScAddress, ScVal};

/// The most open frames.
fn most_frames() -> u32
    ensures { result ≡ MOST_FRAMES }
{
    64
}

/// Calls a function of a contract, for the transaction itself.
pub fn invoke<G: Ground, A: Authority, W: Watch>(
    host: &mut Host<'_, G, A, W>,
    contract: ScAddress,
    function: &[u8],
    args: Vec<ScVal>,
) -> Result<ScVal, HostErr>
    requires ready { MayRun host.old }
    requires path { HasRoom 64 host.old }
    requires args { AreHosted (datums args.items) }
    ensures does { DoesAround result datum
        (λ env. done_under env.judge env.header env.authority
        (calling contract function.now (datums args.items))) host.old host.new }
    ensures ends { Ends (calling contract function.now (datums args.items)) result datum host.old host.new }
    ensures recorded { EndsRecorded (calling contract function.now (datums args.items)) result datum host.old host.new }
    ensures base { host.new.ledger.storage.base ≡ host.old.ledger.storage.base }
    ensures hosted { IfOk result (λ value. IsHosted (datum value)) }
    ensures key { IfErr result IsKeySpelled }
{
    let mark = host.mark()?;
    let call = ContractCall {
        caller: None,
        by_host: false,
        contract,
        function,
        args,
    };
    let made = calls::call(host, most_frames(), call);
    ended(host, mark, made)
}

/// Uploads a code to the ledger.
fn upload_in<G: Ground, W: Watch>(
    ledger: &mut HostLedger<'_, G, W>,
    code: &[u8],
) -> Result<Hash, HostErr>
    requires ready { IsReady ledger.old }
    requires size { length code.now < 2 ^ 32 }
    ensures does { Steps result (λ hash. hash)
        (λ env. uploads env code.now) ledger.old.storage ledger.new.storage ledger.old.budget ledger.new.budget }
    ensures later { IsLater ledger.old.storage ledger.new.storage }
    ensures stays { ledger.new ≡ record ledger.old { storage = ledger.new.storage; budget = ledger.new.budget } }
    ensures key { IfErr result IsKeySpelled }
{
    let n = ledger.header.seq + 1;
    call_parts::upload(
        ledger.objects.allocator(),
        &mut ledger.storage,
        &mut ledger.budget,
        n,
        code,
    )
}

/// Uploads a code, and returns its hash.
pub fn upload<G: Ground, A: Authority, W: Watch>(
    host: &mut Host<'_, G, A, W>,
    code: &[u8],
) -> Result<Hash, HostErr>
    requires ready { MayRun host.old }
    requires size { length code.now < 2 ^ 32 }
    ensures does { DoesAround result (λ hash. bytes hash.0)
        (λ env. done_under env.judge env.header env.authority (uploading code.now)) host.old host.new }
    ensures ends { Ends (uploading code.now) result (λ hash. bytes hash.0) host.old host.new }
    ensures recorded { EndsRecorded (uploading code.now) result (λ hash. bytes hash.0) host.old host.new }
    ensures base { host.new.ledger.storage.base ≡ host.old.ledger.storage.base }
    ensures key { IfErr result IsKeySpelled }
{
    let mark = host.mark()?;
    let made = upload_in(&mut host.ledger, code);
    ended(host, mark, made)
}

/// Makes a contract and calls its constructor, if it has one. Returns the contract's id.
pub fn create<G: Ground, A: Authority, W: Watch>(
    host: &mut Host<'_, G, A, W>,
    contract: NewContract,
) -> Result<Hash, HostErr>
    requires ready { MayRun host.old }
    requires path { HasRoom 64 host.old }
    requires args { AreArgsHosted contract.args }
    ensures does { DoesAround result (λ id. address_datum (addresses.Contract id))
        (λ env. done_under env.judge env.header env.authority (creating (creation_of contract))) host.old host.new }
    ensures ends { Ends (creating (creation_of contract)) result (λ id. address_datum (addresses.Contract id)) host.old host.new }
    ensures recorded { EndsRecorded (creating (creation_of contract)) result
        (λ id. address_datum (addresses.Contract id)) host.old host.new }
    ensures base { host.new.ledger.storage.base ≡ host.old.ledger.storage.base }
    ensures key { IfErr result IsKeySpelled }
{
    let mark = host.mark()?;
    let made = calls::create(host, most_frames(), None, contract);
    ended(host, mark, made)
}
