//! What an account contract is told of an entry: the functions that the entry authorises.

ghost use Rattle.std.specs.Prelude.{◌≡◌, ◌++◌, IfOk, OnOk};
ghost use Rattle.value_types.specs.Datum.{bytes, symbol, vec, items_of};
ghost use Rattle.value_types.specs.Views.{datum, datums, datum_pair, datum_pairs};
ghost use Rattle.auth_types.specs.Tree.{trees_of};
ghost use Rattle.auth_types.specs.Views.{tree_of, forest_of};
ghost use Rattle.call_spec.specs.Contexts.{context, executable_in, salt_in, arguments_in, context_of, contexts_of};
ghost use Rattle.call_spec.specs.Contexts.{all_contexts_of};

use auth_types::Invocation;
use invoke_types::{
    CreateContractArgs, CreateContractArgsV2, Function, InvokeContractArgs, Preimage,
};
use std::alloc::Global;
use value_types::{Blob, Entries, Entry, Executable, Hash, ScVal, ScVals};
use xdr_core::NoMemory;

/// A symbol.
fn symbol_of(alloc: Global, text: &[u8]) -> Result<ScVal, NoMemory>
    ensures { IfOk result (λ v. datum v ≡ symbol text.now) }
{
    Ok(ScVal::Symbol(Blob::from_vec(text.to_vec(alloc)?)))
}

/// The bytes of a hash.
pub(crate) fn bytes_of(alloc: Global, hash: Hash) -> Result<ScVal, NoMemory>
    ensures { IfOk result (λ v. datum v ≡ bytes hash.0) }
{
    Ok(ScVal::Bytes(Blob::from_vec(hash.0.to_vec(alloc)?)))
}

/// A vec of these items.
pub(crate) fn vec_of(items: Vec<ScVal>) -> Result<ScVal, NoMemory>
    ensures { IfOk result (λ v. datum v ≡ vec (items_of (datums items.items))) }
{
    Ok(ScVal::Vec(Some(ScVals::from_vec(items)?)))
}

/// A member of a context.
fn member(alloc: Global, key: &[u8], val: ScVal) -> Result<Entry, NoMemory>
    ensures { IfOk result (λ e. datum_pair e ≡ (symbol key.now, datum val)) }
{
    Ok(Entry {
        key: symbol_of(alloc, key)?,
        val,
    })
}

/// A context of a kind with these members.
fn context(alloc: Global, kind: &[u8], members: Vec<Entry>) -> Result<ScVal, NoMemory>
    ensures { IfOk result (λ v. datum v ≡ context kind.now (datum_pairs members.items)) }
{
    let mut items = Vec::with_capacity(alloc, 2)?;
    items.push(symbol_of(alloc, kind)?)?;
    items.push(ScVal::Map(Some(Entries::from_vec(members)?)))?;
    vec_of(items)
}

/// The executable of a contract that is created.
fn executable_in(alloc: Global, executable: Executable) -> Result<ScVal, NoMemory>
    ensures { IfOk result (λ v. datum v ≡ executable_in executable) }
{
    match executable {
        Executable::StellarAsset => Ok(ScVal::Void),
        Executable::Wasm(code) => {
            let mut items = Vec::with_capacity(alloc, 2)?;
            items.push(symbol_of(alloc, b"Wasm")?)?;
            items.push(bytes_of(alloc, code)?)?;
            vec_of(items)
        }
    }
}

/// The salt of the id of a contract that is created.
fn salt_in(alloc: Global, preimage: Preimage) -> Result<ScVal, NoMemory>
    ensures { IfOk result (λ v. datum v ≡ salt_in preimage) }
{
    match preimage {
        Preimage::FromAddress { salt, .. } => bytes_of(alloc, salt),
        Preimage::FromAsset(_) => Ok(ScVal::Void),
    }
}

/// The arguments of a function.
fn arguments_in(alloc: Global, args: &[ScVal]) -> Result<ScVal, NoMemory>
    ensures { IfOk result (λ v. datum v ≡ arguments_in (datums args.now)) }
{
    vec_of(args.to_vec(alloc)?)
}

/// The context of a call.
fn context_of_call(alloc: Global, call: &InvokeContractArgs) -> Result<ScVal, NoMemory>
    ensures { IfOk result (λ v. datum v ≡ context_of (Function.ContractFn call.now)) }
{
    let args = arguments_in(alloc, call.args.as_slice())?;
    let name = symbol_of(alloc, call.function.as_blob().as_slice())?;
    let mut members = Vec::with_capacity(alloc, 3)?;
    members.push(member(alloc, b"args", args)?)?;
    members.push(member(alloc, b"contract", ScVal::Address(call.contract))?)?;
    members.push(member(alloc, b"fn_name", name)?)?;
    context(alloc, b"Contract", members)
}

/// The context of a create.
fn context_of_create(alloc: Global, create: &CreateContractArgs) -> Result<ScVal, NoMemory>
    ensures { IfOk result (λ v. datum v ≡ context_of (Function.CreateContract create.now)) }
{
    let executable = executable_in(alloc, create.executable)?;
    let salt = salt_in(alloc, create.preimage)?;
    let mut members = Vec::with_capacity(alloc, 2)?;
    members.push(member(alloc, b"executable", executable)?)?;
    members.push(member(alloc, b"salt", salt)?)?;
    context(alloc, b"CreateContractHostFn", members)
}

/// The context of a create with a constructor.
fn context_of_create_v2(alloc: Global, create: &CreateContractArgsV2) -> Result<ScVal, NoMemory>
    ensures { IfOk result (λ v. datum v ≡ context_of (Function.CreateContractV2 create.now)) }
{
    let args = arguments_in(alloc, create.constructor_args.as_slice())?;
    let executable = executable_in(alloc, create.executable)?;
    let salt = salt_in(alloc, create.preimage)?;
    let mut members = Vec::with_capacity(alloc, 3)?;
    members.push(member(alloc, b"constructor_args", args)?)?;
    members.push(member(alloc, b"executable", executable)?)?;
    members.push(member(alloc, b"salt", salt)?)?;
    context(alloc, b"CreateContractWithCtorHostFn", members)
}

/// The context of a function.
fn context_of(alloc: Global, function: &Function) -> Result<ScVal, NoMemory>
    ensures { IfOk result (λ v. datum v ≡ context_of function.now) }
{
    match function {
        Function::ContractFn(call) => context_of_call(alloc, call),
        Function::CreateContract(create) => context_of_create(alloc, create),
        Function::CreateContractV2(create) => context_of_create_v2(alloc, create),
    }
}

/// Appends the contexts of an invocation: its own, and those of its sub-invocations.
#[cycle(contexts)]
fn add_contexts(
    alloc: Global,
    invocation: &Invocation,
    out: &mut Vec<ScVal>,
) -> Result<(), NoMemory>
    ensures { OnOk result (datums out.new.items ≡ datums out.old.items ++ contexts_of (tree_of invocation.now)) }
{
    out.push(context_of(alloc, &invocation.function)?)?;
    add_all_contexts(alloc, invocation.sub_invocations.as_slice(), out)
}

/// Appends the contexts of invocations, one after another.
#[cycle(contexts)]
fn add_all_contexts(
    alloc: Global,
    invocations: &[Invocation],
    out: &mut Vec<ScVal>,
) -> Result<(), NoMemory>
    ensures { OnOk result (datums out.new.items
        ≡ datums out.old.items ++ all_contexts_of (trees_of (forest_of invocations.now))) }
{
    for invocation in invocations {
        add_contexts(alloc, invocation, out)?;
    }
    Ok(())
}

/// The contexts of an invocation: one for each function of its tree, each before those below it.
pub(crate) fn contexts_of(alloc: Global, invocation: &Invocation) -> Result<Vec<ScVal>, NoMemory>
    ensures { IfOk result (λ c. datums c.items ≡ contexts_of (tree_of invocation.now)) }
{
    let mut out = Vec::new(alloc);
    add_contexts(alloc, invocation, &mut out)?;
    Ok(out)
}
