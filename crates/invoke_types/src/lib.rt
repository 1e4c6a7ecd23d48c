//! Host functions, contract events and the ids of contracts, with their codecs (the Stellar XDR files, under RFC 4506).
#![tactic(auto)]

mod args;
mod arguments;
mod asset;
mod equality;
mod event;
mod function;
mod host_function;
mod ids;
mod preimage;
mod success;
mod values;

pub use args::Args;
pub use arguments::{CreateContractArgs, CreateContractArgsV2, InvokeContractArgs};
pub use asset::Asset;
pub use event::{ContractEvent, ContractEventType};
pub use function::{Function, FunctionType};
pub use host_function::{HostFunction, HostFunctionType};
pub use ids::{contract_id, contract_id_lengths};
pub use preimage::{Preimage, PreimageType};
pub use success::SuccessPreimage;
pub use values::clone_values;
