//! What an observer of the run is told. It changes nothing that contracts see.

ghost use Rattle.std.specs.Prelude.{◌≡◌};

use crate::functions::{args_of, name_of};
use crate::host::Host;
use crate::targets::ContractCall;
use auth_trees::Authority;
use contract_storage::{End, Moment, Watch};
use entry_lookup::Ground;
use host_ledger::HostLedger;
use host_spec::HostErr;
use value_types::ScVal;

/// How a call or a frame ended.
fn end_of(end: &Result<ScVal, HostErr>) -> End<'_> {
    match end {
        Ok(value) => End::Value(value),
        Err(HostErr::Failed(error)) => End::Failed(*error),
        Err(HostErr::Spent) => End::Spent,
        Err(HostErr::Undeclared(key)) => End::Undeclared(key),
        Err(HostErr::Archived(key)) => End::Archived(key),
        Err(HostErr::NoMemory) => End::NoMemory,
    }
}

/// Tells that a call begins.
pub fn tell_called<G: Ground, A: Authority, W: Watch>(
    host: &mut Host<'_, G, A, W>,
    call: &ContractCall<'_>,
)
    ensures { host.new ≡ host.old }
{
    let used = host.ledger.budget.spent();
    host.ledger.storage.tell(Moment::Called {
        caller: call.caller,
        address: call.contract,
        function: call.function,
        args: call.args.as_slice(),
        used,
    });
}

/// Tells that the call that began last returns.
pub fn tell_returned<G: Ground, A: Authority, W: Watch>(
    host: &mut Host<'_, G, A, W>,
    end: &Result<ScVal, HostErr>,
)
    ensures { host.new ≡ host.old }
{
    let used = host.ledger.budget.spent();
    host.ledger.storage.tell(Moment::Returned {
        end: end_of(end),
        used,
    });
}

/// Tells that the ledger's running frame begins.
fn tell_begun_in<G: Ground, W: Watch>(ledger: &mut HostLedger<'_, G, W>)
    ensures { ledger.new ≡ ledger.old }
{
    let used = ledger.budget.spent();
    ledger.storage.tell(Moment::Begun {
        contract: ledger.frame.contract,
        caller: ledger.frame.caller,
        function: name_of(&ledger.frame.function),
        args: args_of(&ledger.frame.function),
        used,
    });
}

/// Tells that the running frame begins.
pub(crate) fn tell_begun<G: Ground, A: Authority, W: Watch>(host: &mut Host<'_, G, A, W>)
    ensures { host.new ≡ host.old }
{
    tell_begun_in(&mut host.ledger);
}

/// Tells that the running frame ends.
pub(crate) fn tell_ended<G: Ground, A: Authority, W: Watch>(
    host: &mut Host<'_, G, A, W>,
    end: &Result<ScVal, HostErr>,
)
    ensures { host.new ≡ host.old }
{
    let used = host.ledger.budget.spent();
    host.ledger.storage.tell(Moment::Ended {
        end: end_of(end),
        used,
    });
}
