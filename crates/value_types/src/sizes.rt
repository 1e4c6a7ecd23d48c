//! The sizes of values in XDR bytes.

ghost use Rattle.std.specs.Prelude.{◌≡◌, ◌-◌, ◌^◌, min};
ghost use Rattle.value_types.specs.XdrSize.{value_xdr_size, blob_xdr_size, address_xdr_size, executable_xdr_size};
ghost use Rattle.value_types.specs.XdrSize.{instance_xdr_size};

use crate::address::ScAddress;
use crate::executable::Executable;
use crate::value::{Instance, ScVal};
use byte_list::Blob;

/// The size of a value in XDR bytes, or `u64::MAX` if it is larger. O(1).
pub fn xdr_size(value: &ScVal) -> u64
    ensures { result ≡ min (value_xdr_size value.now) (2 ^ 64 - 1) }
{
    match value {
        ScVal::Void | ScVal::LedgerKeyContractInstance => 4,
        ScVal::Bool(_) | ScVal::U32(_) | ScVal::I32(_) => 8,
        ScVal::Vec(None) | ScVal::Map(None) => 8,
        ScVal::U64(_) | ScVal::I64(_) | ScVal::Timepoint(_) | ScVal::Duration(_) => 12,
        ScVal::Error(_) | ScVal::LedgerKeyNonce(_) => 12,
        ScVal::U128(_) | ScVal::I128(_) => 20,
        ScVal::U256(_) | ScVal::I256(_) => 36,
        ScVal::Bytes(bytes) | ScVal::String(bytes) | ScVal::Symbol(bytes) => {
            xdr_size_of_blob(bytes).saturating_add(4)
        }
        ScVal::Vec(Some(items)) => items.xdr_size().saturating_add(12),
        ScVal::Map(Some(entries)) => entries.xdr_size().saturating_add(12),
        ScVal::Address(address) => xdr_size_of_address(*address).saturating_add(4),
        ScVal::ContractInstance(instance) => xdr_size_of_instance(instance).saturating_add(4),
    }
}

/// The size of a length, its bytes and their padding, or `u64::MAX` if it is larger. O(1).
pub fn xdr_size_of_blob(blob: &Blob) -> u64
    ensures { result ≡ min (blob_xdr_size blob.now) (2 ^ 64 - 1) }
{
    let len = blob.as_slice().len() as u64;
    len.saturating_add((4 - len % 4) % 4).saturating_add(4)
}

/// The size of an address in XDR bytes.
pub fn xdr_size_of_address(address: ScAddress) -> u64
    ensures { result ≡ address_xdr_size address }
{
    match address {
        ScAddress::Account(_) | ScAddress::ClaimableBalance(_) => 40,
        ScAddress::Contract(_) | ScAddress::LiquidityPool(_) => 36,
        ScAddress::MuxedAccount { .. } => 44,
    }
}

/// The size of an executable in XDR bytes.
pub fn xdr_size_of_executable(executable: Executable) -> u64
    ensures { result ≡ executable_xdr_size executable }
{
    match executable {
        Executable::Wasm(_) => 36,
        Executable::StellarAsset => 4,
    }
}

/// The size of an instance in XDR bytes, or `u64::MAX` if it is larger. O(1).
pub fn xdr_size_of_instance(instance: &Instance) -> u64
    ensures { result ≡ min (instance_xdr_size instance.now) (2 ^ 64 - 1) }
{
    let executable = xdr_size_of_executable(instance.executable);
    match &instance.storage {
        None => executable.saturating_add(4),
        Some(entries) => executable.saturating_add(entries.xdr_size().saturating_add(8)),
    }
}
