//! The numbers of words that functions over values take.

ghost use Rattle.std.specs.Prelude.{◌≡◌, ◌≤◌, length, is_some, true, IfSome};
ghost use Rattle.host_spec.specs.Indices.{arguments_of};
ghost use Rattle.host_spec.specs.ValueFunctions.{value_rule};

use host_interface::HostImport;

/// Returns the number of words that a function over values takes, or `None` for another function.
pub fn words_taken(import: HostImport) -> Option<usize>
    ensures over_values { is_some result ≡ is_some (value_rule «import») }
    ensures arity { IfSome result (λ n. n ≡ length (arguments_of «import»)) }
{
    if is_over_values(import) {
        Some(word_count(import))
    } else {
        None
    }
}

/// Returns whether a function is over values.
#[tactic(auto, using(crate::proofs::Counts::over_values))]
fn is_over_values(import: HostImport) -> bool
    ensures { result ≡ is_some (value_rule «import») }
{
    match import {
        HostImport::ContractEvent
        | HostImport::GetLedgerVersion
        | HostImport::GetLedgerSequence
        | HostImport::GetLedgerTimestamp
        | HostImport::GetLedgerNetworkId
        | HostImport::GetCurrentContractAddress
        | HostImport::GetMaxLiveUntilLedger
        | HostImport::FailWithError => false,
        HostImport::PutContractData
        | HostImport::HasContractData
        | HostImport::GetContractData
        | HostImport::DelContractData
        | HostImport::ExtendContractDataTtl
        | HostImport::ExtendCurrentContractInstanceAndCodeTtl => false,
        HostImport::UploadWasm
        | HostImport::CreateContract
        | HostImport::CreateContractWithConstructor
        | HostImport::UpdateCurrentContractWasm
        | HostImport::GetContractId => false,
        HostImport::Call
        | HostImport::TryCall
        | HostImport::RequireAuth
        | HostImport::RequireAuthForArgs => false,
        _ => true,
    }
}

/// Returns how many words a function over values takes: none, three or four, or else one or two.
#[tactic(auto, using(crate::proofs::Counts::one_or_two))]
fn word_count(import: HostImport) -> usize
    requires { is_some (value_rule «import») ≡ true }
    ensures { result ≡ length (arguments_of «import») }
{
    match import {
        HostImport::MapNew | HostImport::VecNew | HostImport::BytesNew => 0,
        HostImport::MapPut
        | HostImport::VecPut
        | HostImport::VecInsert
        | HostImport::VecSlice
        | HostImport::VecUnpackToLinearMemory
        | HostImport::BytesPut
        | HostImport::BytesInsert
        | HostImport::BytesSlice => 3,
        HostImport::BytesCopyToLinearMemory
        | HostImport::StringCopyToLinearMemory
        | HostImport::SymbolCopyToLinearMemory
        | HostImport::BytesCopyFromLinearMemory => 4,
        _ => one_or_two(import),
    }
}

/// Returns how many words a function takes that takes one or two.
#[tactic(auto, using(crate::proofs::Counts::just_one))]
fn one_or_two(import: HostImport) -> usize
    requires from { 1 ≤ length (arguments_of «import») }
    requires to { length (arguments_of «import») ≤ 2 }
    requires call { is_some (value_rule «import») ≡ true }
    ensures { result ≡ length (arguments_of «import») }
{
    match import {
        HostImport::ObjCmp
        | HostImport::ObjFromU128Pieces
        | HostImport::ObjFromI128Pieces
        | HostImport::MapGet
        | HostImport::MapDel
        | HostImport::MapHas
        | HostImport::MapKeyByPos
        | HostImport::MapValByPos
        | HostImport::VecGet
        | HostImport::VecDel
        | HostImport::VecPushFront
        | HostImport::VecPushBack
        | HostImport::VecAppend
        | HostImport::VecFirstIndexOf
        | HostImport::VecLastIndexOf
        | HostImport::VecNewFromLinearMemory
        | HostImport::BytesGet
        | HostImport::BytesDel
        | HostImport::BytesPush
        | HostImport::BytesAppend
        | HostImport::BytesNewFromLinearMemory
        | HostImport::StringNewFromLinearMemory
        | HostImport::SymbolNewFromLinearMemory => 2,
        _ => 1,
    }
}
