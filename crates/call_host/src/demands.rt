//! Demands of authorisation, up to the node that meets them.

ghost use Rattle.std.specs.Prelude.{◌≡◌, ◌≤◌, length};
ghost use Rattle.std.specs.Option.{option_map};
ghost use Rattle.auth_spec.specs.Authorities.{IsDemanded};
ghost use Rattle.host_ledger.specs.Worlds.{address_of};
ghost use Rattle.call_host.specs.Demanded.{IsMet};
ghost use Rattle.call_host.specs.Worlds.{Stays};

use crate::host::Host;
use auth_spec::Demand;
use auth_trees::{Authorising, Authority};
use contract_storage::{Met, Moment, Storage, Watch};
use entry_lookup::Ground;
use host_ledger::HostLedger;
use invoke_types::Function;
use value_types::{Hash, ScAddress};

/// The address of a contract, if there is one.
fn contract_address(contract: Option<Hash>) -> Option<ScAddress>
    ensures { result ≡ option_map address_of contract }
{
    match contract {
        None => None,
        Some(contract) => Some(ScAddress::Contract(contract)),
    }
}

/// What met a demand.
fn met_by(demand: Demand) -> Met {
    match demand {
        Demand::Matched { entry, first } => Met::ByEntry { entry, first },
        Demand::ByInvoker => Met::ByCaller,
        Demand::Denied => Met::Denied,
        Demand::Noted => Met::Noted,
        Demand::NoMemory => Met::NoMemory,
    }
}

/// Meets a demand in the frame of a path, and tells the observer.
fn demand_in<G: Ground, A: Authority, W: Watch>(
    marks: &mut Authorising<A>,
    storage: &mut Storage<'_, G, W>,
    path: &[u64],
    caller: Option<Hash>,
    address: ScAddress,
    function: &Function,
) -> Demand
    requires { length path.now ≤ 130 }
    ensures demanded { IsDemanded path.now (option_map address_of caller) address function.now result marks.old marks.new }
    ensures storage { storage.new ≡ storage.old }
{
    let met = marks.demand(path, contract_address(caller), address, function);
    storage.tell(Moment::Demanded {
        address,
        function,
        met: met_by(met),
    });
    met
}

/// Demands that an address authorises the function of the ledger's running frame.
fn demand_own_in<G: Ground, A: Authority, W: Watch>(
    marks: &mut Authorising<A>,
    ledger: &mut HostLedger<'_, G, W>,
    address: ScAddress,
) -> Demand
    requires { length ledger.old.frame.path.items ≤ 130 }
    ensures demanded { IsDemanded ledger.old.frame.path.items (option_map address_of ledger.old.frame.caller) address
        ledger.old.frame.function result marks.old marks.new }
    ensures ledger { ledger.new ≡ ledger.old }
{
    demand_in(
        marks,
        &mut ledger.storage,
        ledger.frame.path.as_slice(),
        ledger.frame.caller,
        address,
        &ledger.frame.function,
    )
}

/// Demands that an address authorises the running frame's function with its arguments. Returns what meets the demand.
pub fn demand_own<G: Ground, A: Authority, W: Watch>(
    host: &mut Host<'_, G, A, W>,
    address: ScAddress,
) -> Demand
    requires { length host.old.ledger.frame.path.items ≤ 130 }
    ensures met { IsMet host.old.ledger.frame.path.items host.old.ledger.frame.caller address host.old.ledger.frame.function
        result host.old host.new }
    ensures stays { Stays host.old host.new }
{
    demand_own_in(&mut host.marks, &mut host.ledger, address)
}

/// Demands in the ledger's running frame that an address authorises a function.
fn demand_here_in<G: Ground, A: Authority, W: Watch>(
    marks: &mut Authorising<A>,
    ledger: &mut HostLedger<'_, G, W>,
    address: ScAddress,
    function: &Function,
) -> Demand
    requires { length ledger.old.frame.path.items ≤ 130 }
    ensures demanded { IsDemanded ledger.old.frame.path.items (option_map address_of ledger.old.frame.caller) address
        function.now result marks.old marks.new }
    ensures ledger { ledger.new ≡ ledger.old }
{
    demand_in(
        marks,
        &mut ledger.storage,
        ledger.frame.path.as_slice(),
        ledger.frame.caller,
        address,
        function,
    )
}

/// Demands in the running frame that an address authorises a function. Returns what meets the demand.
pub fn demand_here<G: Ground, A: Authority, W: Watch>(
    host: &mut Host<'_, G, A, W>,
    address: ScAddress,
    function: &Function,
) -> Demand
    requires { length host.old.ledger.frame.path.items ≤ 130 }
    ensures met { IsMet host.old.ledger.frame.path.items host.old.ledger.frame.caller address function.now
        result host.old host.new }
    ensures stays { Stays host.old host.new }
{
    demand_here_in(&mut host.marks, &mut host.ledger, address, function)
}

/// Demands that the deployer of a create that has a path authorises the create. Returns what meets the demand.
pub fn demand_create<G: Ground, A: Authority, W: Watch>(
    host: &mut Host<'_, G, A, W>,
    path: &[u64],
    creator: Option<Hash>,
    deployer: ScAddress,
    function: &Function,
) -> Demand
    requires { length path.now ≤ 130 }
    ensures met { IsMet path.now creator deployer function.now result host.old host.new }
    ensures stays { Stays host.old host.new }
{
    demand_in(
        &mut host.marks,
        &mut host.ledger.storage,
        path,
        creator,
        deployer,
        function,
    )
}
