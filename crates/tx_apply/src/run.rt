//! Runs a host function in the host.

ghost use Rattle.std.specs.Prelude.{◌≡◌, ◌<◌, ◌^◌, length, IfOk, IfErr};
ghost use Rattle.std.specs.Option.{option_map};
ghost use Rattle.value_types.specs.Datum.{Datum, bytes, address as address_datum};
ghost use Rattle.value_types.specs.Views.{datum, datums};
ghost use Rattle.value_types.specs.declared.address.ScAddress.TheVariants as addresses;
ghost use Rattle.host_spec.specs.Hosted.{IsHosted, AreHosted, size_of as size_in};
ghost use Rattle.call_spec.specs.Acts.{paying};
ghost use Rattle.call_spec.specs.WholeRuns.{calling, uploading, creating};
ghost use Rattle.contract_call.specs.Creations.{args_of, creation_of, AreArgsHosted};
ghost use Rattle.contract_call.specs.Ended.{Ends, EndsRecorded};
ghost use Rattle.contract_call.specs.Paths.{HasRoom};
ghost use Rattle.contract_call.specs.Worlds.{MayRun};
ghost use Rattle.tx_steps.specs.Jobs.{work_in, values_in, datums_in, IsSpelled};
ghost use Rattle.contract_call.specs.Entering.{Enters};
ghost use Rattle.tx_apply.specs.Running.{Charges, EndsCharged, EndsChargedRecorded};
ghost use Rattle.tx_apply.specs.Watching.{Told};

use auth_trees::Authority;
use budget_meter::{Budget, Kind};
use contract_call::{Host, NewContract, clone_values, create, invoke, upload};
use contract_storage::Watch;
use entry_lookup::Ground;
use host_frame::{charge, size_of};
use host_spec::{HostErr, ValueErr};
use std::alloc::Global;
use tx_steps::Job;
use value_types::{Blob, Hash, ScAddress, ScVal, hash_fits};

/// A hash as a value of bytes.
fn hash_value(alloc: Global, hash: Hash) -> Result<ScVal, ValueErr>
    ensures value { IfOk result (λ value. datum value ≡ bytes hash.0) }
    ensures hosted { IfOk result (λ value. IsHosted (datum value)) }
    ensures memory { IfErr result (λ e. e ≡ ValueErr.NoMemory) }
{
    hash_fits(hash);
    let content = hash.0.to_vec(alloc)?;
    Ok(ScVal::Bytes(Blob::from_vec(content)))
}

/// The address of a contract as a value.
fn contract_value(id: Hash) -> ScVal
    ensures value { datum result ≡ address_datum (addresses.Contract id) }
    ensures hosted { IsHosted (datum result) }
{
    hash_fits(id);
    ScVal::Address(ScAddress::Contract(id))
}

/// Calls a function of a contract.
fn call<G: Ground, A: Authority, W: Watch>(
    alloc: Global,
    host: &mut Host<'_, G, A, W>,
    contract: ScAddress,
    function: &[u8],
    args: &[ScVal],
) -> Result<ScVal, HostErr>
    requires ready { MayRun host.old }
    requires path { HasRoom 64 host.old }
    requires args { AreHosted (datums args.now) }
    ensures ends { Ends (calling contract function.now (datums args.now)) result datum host.old host.new }
    ensures recorded { EndsRecorded (calling contract function.now (datums args.now)) result datum host.old host.new }
    ensures told { Told (calling contract function.now (datums args.now)) result host.old host.new }
    ensures base { host.new.ledger.storage.base ≡ host.old.ledger.storage.base }
    ensures hosted { IfOk result (λ value. IsHosted (datum value)) }
{
    let args = clone_values(alloc, args)?;
    invoke(host, contract, function, args)
}

/// Uploads a code.
fn upload_code<G: Ground, A: Authority, W: Watch>(
    alloc: Global,
    host: &mut Host<'_, G, A, W>,
    code: &[u8],
) -> Result<ScVal, HostErr>
    requires ready { MayRun host.old }
    requires size { length code.now < 2 ^ 32 }
    ensures ends { Ends (uploading code.now) result datum host.old host.new }
    ensures recorded { EndsRecorded (uploading code.now) result datum host.old host.new }
    ensures told { Told (uploading code.now) result host.old host.new }
    ensures base { host.new.ledger.storage.base ≡ host.old.ledger.storage.base }
    ensures hosted { IfOk result (λ value. IsHosted (datum value)) }
{
    match upload(host, code) {
        Ok(hash) => Ok(hash_value(alloc, hash)?),
        Err(end) => Err(end),
    }
}

/// Clones the arguments of a constructor.
fn clone_args(alloc: Global, args: Option<&[ScVal]>) -> Result<Option<Vec<ScVal>>, ValueErr>
    ensures ok { IfOk result (λ clone. option_map args_of clone ≡ option_map datums_in args.entry) }
    ensures memory { IfErr result (λ e. e ≡ ValueErr.NoMemory) }
{
    match args {
        None => Ok(None),
        Some(args) => Ok(Some(clone_values(alloc, args)?)),
    }
}

/// Creates a contract.
fn create_contract<G: Ground, A: Authority, W: Watch>(
    host: &mut Host<'_, G, A, W>,
    contract: NewContract,
) -> Result<ScVal, HostErr>
    requires ready { MayRun host.old }
    requires path { HasRoom 64 host.old }
    requires args { AreArgsHosted contract.args }
    ensures ends { Ends (creating (creation_of contract)) result datum host.old host.new }
    ensures recorded { EndsRecorded (creating (creation_of contract)) result datum host.old host.new }
    ensures told { Told (creating (creation_of contract)) result host.old host.new }
    ensures base { host.new.ledger.storage.base ≡ host.old.ledger.storage.base }
    ensures hosted { IfOk result (λ value. IsHosted (datum value)) }
{
    match create(host, contract) {
        Ok(id) => Ok(contract_value(id)),
        Err(end) => Err(end),
    }
}

/// Calls, uploads or creates.
fn perform<G: Ground, A: Authority, W: Watch>(
    alloc: Global,
    host: &mut Host<'_, G, A, W>,
    job: &Job<'_>,
) -> Result<ScVal, HostErr>
    requires ready { MayRun host.old }
    requires path { HasRoom 64 host.old }
    requires spelled { IsSpelled job.now }
    requires hosted { AreHosted (datums (values_in job.now)) }
    ensures ends { Ends (work_in job.now) result datum host.old host.new }
    ensures recorded { EndsRecorded (work_in job.now) result datum host.old host.new }
    ensures told { Told (work_in job.now) result host.old host.new }
    ensures base { host.new.ledger.storage.base ≡ host.old.ledger.storage.base }
    ensures hosted { IfOk result (λ value. IsHosted (datum value)) }
{
    match job {
        Job::Call {
            contract,
            function,
            args,
        } => call(alloc, host, *contract, function, args),
        Job::Upload(code) => upload_code(alloc, host, code),
        Job::Create {
            deployer,
            code,
            salt,
            args,
        } => {
            let args = clone_args(alloc, *args)?;
            create_contract(
                host,
                NewContract {
                    deployer: *deployer,
                    code: *code,
                    salt: *salt,
                    args,
                },
            )
        }
    }
}

/// Charges the value that is returned.
fn charge_value(budget: &mut Budget, value: &ScVal) -> Result<(), ValueErr>
    requires { IsHosted (datum value.now) }
    ensures { Enters {A = Datum} result (paying Kind.ValSer (size_in (datum value.now))) budget.old budget.new }
{
    charge(budget, Kind::ValSer, size_of(value))
}

/// Returns the value after its charge.
fn charged(budget: &mut Budget, value: ScVal) -> Result<ScVal, HostErr>
    requires { IsHosted (datum value) }
    ensures { Charges result value budget.old budget.new }
{
    charge_value(budget, &value)?;
    Ok(value)
}

/// Runs a host function, as `run_job` does. The storage then knows the accesses of the run.
pub(crate) fn run_told<G: Ground, A: Authority, W: Watch>(
    alloc: Global,
    host: &mut Host<'_, G, A, W>,
    job: &Job<'_>,
) -> Result<ScVal, HostErr>
    requires ready { MayRun host.old }
    requires path { HasRoom 64 host.old }
    requires spelled { IsSpelled job.now }
    requires hosted { AreHosted (datums (values_in job.now)) }
    ensures ends { EndsCharged (work_in job.now) result host.old host.new }
    ensures recorded { EndsChargedRecorded (work_in job.now) result host.old host.new }
    ensures told { Told (work_in job.now) result host.old host.new }
    ensures base { host.new.ledger.storage.base ≡ host.old.ledger.storage.base }
    ensures hosted { IfOk result (λ value. IsHosted (datum value)) }
{
    match perform(alloc, host, job) {
        Ok(value) => charged(&mut host.ledger.budget, value),
        Err(end) => Err(end),
    }
}

/// Runs a host function whose arguments have entered the host. Returns its value after the charge for it.
pub fn run_job<G: Ground, A: Authority, W: Watch>(
    alloc: Global,
    host: &mut Host<'_, G, A, W>,
    job: &Job<'_>,
) -> Result<ScVal, HostErr>
    requires ready { MayRun host.old }
    requires path { HasRoom 64 host.old }
    requires spelled { IsSpelled job.now }
    requires hosted { AreHosted (datums (values_in job.now)) }
    ensures ends { EndsCharged (work_in job.now) result host.old host.new }
    ensures recorded { EndsChargedRecorded (work_in job.now) result host.old host.new }
    ensures base { host.new.ledger.storage.base ≡ host.old.ledger.storage.base }
    ensures hosted { IfOk result (λ value. IsHosted (datum value)) }
{
    run_told(alloc, host, job)
}
