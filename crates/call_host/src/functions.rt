//! The functions of frames, as authorisations name them.

ghost use Rattle.std.specs.Prelude.{◌≡◌, length, IfOk, IfErr};
ghost use Rattle.value_types.specs.Views.{datums};
ghost use Rattle.value_types.specs.declared.address.ScAddress.TheVariants as addresses;
ghost use Rattle.invoke_types.specs.declared.function.Function.TheVariants as functions;
ghost use Rattle.host_spec.specs.declared.error.HostErr.TheVariants as ends;
ghost use Rattle.host_ledger.specs.Worlds.{called_name, called_args};

use host_ledger::clone_values;
use host_spec::HostErr;
use invoke_types::{Args, Function, InvokeContractArgs};
use std::alloc::Global;
use value_types::{Blob, Bytes, Hash, ScAddress, ScVal};

/// Clones bytes. Its only error is memory.
pub fn clone_bytes(alloc: Global, bytes: &[u8]) -> Result<Vec<u8>, HostErr>
    ensures ok { IfOk result (λ v. v.items ≡ bytes.now) }
    ensures memory { IfErr result (λ e. e ≡ ends.NoMemory) }
{
    match bytes.to_vec(alloc) {
        Ok(clone) => Ok(clone),
        Err(_) => Err(HostErr::NoMemory),
    }
}

/// Clones values. Its only error is memory.
pub fn clone_args(alloc: Global, args: &[ScVal]) -> Result<Vec<ScVal>, HostErr>
    ensures ok { IfOk result (λ v. v.items ≡ args.now) }
    ensures memory { IfErr result (λ e. e ≡ ends.NoMemory) }
{
    match clone_values(alloc, args) {
        Ok(clone) => Ok(clone),
        Err(_) => Err(HostErr::NoMemory),
    }
}

/// The function of a contract with this name and these arguments. Takes no memory.
pub fn contract_function(contract: Hash, name: Vec<u8>, args: Args) -> Function
    ensures { result
        ≡ functions.ContractFn (record {
          contract = addresses.Contract contract;
          function = name.items;
          args = args;
        }) }
{
    let content = Blob::from_vec(name);
    let name = Bytes::from_blob(content);
    Function::ContractFn(InvokeContractArgs {
        contract: ScAddress::Contract(contract),
        function: name,
        args,
    })
}

/// The same of arguments that nothing shares yet. Its only error is memory.
pub(crate) fn function_of_values(
    contract: Hash,
    name: Vec<u8>,
    args: Vec<ScVal>,
) -> Result<Function, HostErr>
    ensures ok { IfOk result (λ f. f
        ≡ functions.ContractFn (record {
          contract = addresses.Contract contract;
          function = name.items;
          args = args.items;
        })) }
    ensures memory { IfErr result (λ e. e ≡ ends.NoMemory) }
{
    match Args::from_vec(args) {
        Ok(args) => Ok(contract_function(contract, name, args)),
        Err(_) => Err(HostErr::NoMemory),
    }
}

/// The name of a contract's function. A create has none.
pub fn name_of(function: &Function) -> &[u8]
    ensures { result.now ≡ called_name function.now }
{
    match function {
        Function::ContractFn(call) => call.function.as_blob().as_slice(),
        Function::CreateContract(_) => &[],
        Function::CreateContractV2(_) => &[],
    }
}

/// The arguments of a contract's function. A create has none.
pub fn args_of(function: &Function) -> &[ScVal]
    ensures args { datums result.now ≡ called_args function.now }
    ensures count { length result.now ≡ length (called_args function.now) }
{
    match function {
        Function::ContractFn(call) => call.args.as_slice(),
        Function::CreateContract(_) => &[],
        Function::CreateContractV2(_) => &[],
    }
}
