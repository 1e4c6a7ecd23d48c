//! Values, addresses, keys, functions and errors in short form. Of long bytes and lists the first are shown, and how many there
//! are.

use crate::names::{code_name, durability_name, met_name, type_name};
use contract_storage::Met;
use invoke_types::{Function, Preimage};
use itoa::{Buffer, Integer};
use ledger_types::{Durability, LedgerKey};
use std::alloc::{AllocError, Global};
use text_lines::{push_hex, push_number};
use value_types::{
    Entry, Executable, Hash, Int128Parts, ScAddress, ScError, ScErrorCode, ScVal, UInt128Parts,
};

/// How many bytes of a value are shown.
const MOST_BYTES: usize = 64;

/// How many members of a list are shown.
const MOST_MEMBERS: usize = 8;

/// How many levels of a value are shown. The host has no deeper ones.
const MOST_LEVELS: u32 = 100;

/// Says how many there are of what was cut.
fn push_length(text: &mut Vec<u8>, before: &[u8], length: usize) -> Result<(), AllocError> {
    text.extend_from_slice(before)?;
    text.extend_from_slice(b"..(")?;
    push_number(text, length as u64, b")")
}

// ---- bytes

fn start_of(bytes: &[u8]) -> &[u8] {
    &bytes[..bytes.len().min(MOST_BYTES)]
}

fn push_cut(text: &mut Vec<u8>, bytes: &[u8]) -> Result<(), AllocError> {
    if bytes.len() > MOST_BYTES {
        push_length(text, b"", bytes.len())?;
    }
    Ok(())
}

fn is_plain(byte: u8) -> bool {
    byte >= b' ' && byte <= b'~' && byte != b'"' && byte != b'\\'
}

/// Bytes that are mostly text: the printable ones as they are, the others as `\x` and two digits.
pub(crate) fn push_text(alloc: Global, text: &mut Vec<u8>, bytes: &[u8]) -> Result<(), AllocError> {
    for byte in bytes {
        if is_plain(*byte) {
            text.extend_from_slice(&[*byte])?;
        } else {
            text.extend_from_slice(b"\\x")?;
            push_hex(alloc, text, &[*byte], b"")?;
        }
    }
    Ok(())
}

fn push_bytes(alloc: Global, text: &mut Vec<u8>, bytes: &[u8]) -> Result<(), AllocError> {
    push_hex(alloc, text, start_of(bytes), b"")?;
    push_cut(text, bytes)
}

fn push_string(alloc: Global, text: &mut Vec<u8>, bytes: &[u8]) -> Result<(), AllocError> {
    text.extend_from_slice(b"\"")?;
    push_text(alloc, text, start_of(bytes))?;
    text.extend_from_slice(b"\"")?;
    push_cut(text, bytes)
}

// ---- addresses

/// A hash behind a word that says what it is of.
fn push_hash(
    alloc: Global,
    text: &mut Vec<u8>,
    word: &[u8],
    hash: &Hash,
) -> Result<(), AllocError> {
    text.extend_from_slice(word)?;
    push_hex(alloc, text, &hash.0, b"")
}

/// An address.
pub(crate) fn push_address(
    alloc: Global,
    text: &mut Vec<u8>,
    address: &ScAddress,
) -> Result<(), AllocError> {
    match address {
        ScAddress::Account(account) => push_hash(alloc, text, b"account:", &account.0),
        ScAddress::Contract(id) => push_hash(alloc, text, b"contract:", id),
        ScAddress::MuxedAccount { id, ed25519 } => {
            push_hash(alloc, text, b"muxed:", ed25519)?;
            push_tagged(text, b":", *id)
        }
        ScAddress::ClaimableBalance(id) => push_hash(alloc, text, b"balance:", id),
        ScAddress::LiquidityPool(id) => push_hash(alloc, text, b"pool:", id),
    }
}

// ---- errors

/// The code of an error of the host.
pub(crate) fn code_of(error: ScError) -> Option<ScErrorCode> {
    match error {
        ScError::Contract(_) => None,
        ScError::WasmVm(code)
        | ScError::Context(code)
        | ScError::Storage(code)
        | ScError::Object(code)
        | ScError::Crypto(code)
        | ScError::Events(code)
        | ScError::Budget(code)
        | ScError::Value(code)
        | ScError::Auth(code) => Some(code),
    }
}

/// An error by its type and its code: `STORAGE MISSING_VALUE`, or `CONTRACT 7`.
pub(crate) fn push_error(text: &mut Vec<u8>, error: ScError) -> Result<(), AllocError> {
    text.extend_from_slice(type_name(error.kind()).as_bytes())?;
    text.extend_from_slice(b" ")?;
    match code_of(error) {
        Some(code) => text.extend_from_slice(code_name(code).as_bytes()),
        None => push_number(text, u64::from(error.code()), b""),
    }
}

// ---- numbers

/// A number behind a word.
fn push_tagged<I: Integer>(text: &mut Vec<u8>, word: &[u8], number: I) -> Result<(), AllocError> {
    let mut digits = Buffer::new();
    text.extend_from_slice(word)?;
    text.extend_from_slice(digits.format(number).as_bytes())
}

/// A number of 256 bits behind a word, in base 16.
fn push_parts(
    alloc: Global,
    text: &mut Vec<u8>,
    word: &[u8],
    highest: [u8; 8],
    lower: [u64; 3],
) -> Result<(), AllocError> {
    text.extend_from_slice(word)?;
    push_hex(alloc, text, &highest, b"")?;
    for part in &lower {
        push_hex(alloc, text, &part.to_be_bytes(), b"")?;
    }
    Ok(())
}

fn unsigned_of(number: UInt128Parts) -> u128 {
    u128::from(number.hi) * 18_446_744_073_709_551_616 + u128::from(number.lo)
}

fn signed_of(number: Int128Parts) -> i128 {
    i128::from(number.hi) * 18_446_744_073_709_551_616 + i128::from(number.lo)
}

fn push_integer(alloc: Global, text: &mut Vec<u8>, value: &ScVal) -> Result<(), AllocError> {
    match value {
        ScVal::U32(number) => push_tagged(text, b"u32:", *number),
        ScVal::I32(number) => push_tagged(text, b"i32:", *number),
        ScVal::U64(number) => push_tagged(text, b"u64:", *number),
        ScVal::I64(number) => push_tagged(text, b"i64:", *number),
        ScVal::Timepoint(number) => push_tagged(text, b"timepoint:", *number),
        ScVal::Duration(number) => push_tagged(text, b"duration:", *number),
        ScVal::U128(number) => push_tagged(text, b"u128:", unsigned_of(*number)),
        ScVal::I128(number) => push_tagged(text, b"i128:", signed_of(*number)),
        ScVal::U256(number) => {
            let lower = [number.hi_lo, number.lo_hi, number.lo_lo];
            push_parts(alloc, text, b"u256:0x", number.hi_hi.to_be_bytes(), lower)
        }
        ScVal::I256(number) => {
            let lower = [number.hi_lo, number.lo_hi, number.lo_lo];
            push_parts(alloc, text, b"i256:0x", number.hi_hi.to_be_bytes(), lower)
        }
        _ => Ok(()),
    }
}

// ---- values

/// A value without members.
fn push_leaf(alloc: Global, text: &mut Vec<u8>, value: &ScVal) -> Result<(), AllocError> {
    match value {
        ScVal::Void => text.extend_from_slice(b"void"),
        ScVal::Bool(true) => text.extend_from_slice(b"true"),
        ScVal::Bool(false) => text.extend_from_slice(b"false"),
        ScVal::Error(error) => {
            text.extend_from_slice(b"error:")?;
            push_error(text, *error)
        }
        ScVal::Address(address) => push_address(alloc, text, address),
        ScVal::LedgerKeyContractInstance => text.extend_from_slice(b"instance"),
        ScVal::LedgerKeyNonce(nonce) => push_tagged(text, b"ledger-key-nonce:", *nonce),
        ScVal::Bytes(bytes) => {
            text.extend_from_slice(b"bytes:")?;
            push_bytes(alloc, text, bytes.as_slice())
        }
        ScVal::String(bytes) => {
            text.extend_from_slice(b"str:")?;
            push_string(alloc, text, bytes.as_slice())
        }
        ScVal::Symbol(bytes) => {
            text.extend_from_slice(b"sym:")?;
            push_text(alloc, text, start_of(bytes.as_slice()))?;
            push_cut(text, bytes.as_slice())
        }
        _ => push_integer(alloc, text, value),
    }
}

/// A value of at most so many levels.
#[cycle(short)]
fn push_level(
    alloc: Global,
    text: &mut Vec<u8>,
    value: &ScVal,
    levels: u32,
) -> Result<(), AllocError> {
    if levels == 0 {
        return text.extend_from_slice(b"..");
    }
    match value {
        ScVal::Vec(Some(items)) => {
            text.extend_from_slice(b"vec[")?;
            push_items(alloc, text, items.as_slice(), levels - 1)?;
            text.extend_from_slice(b"]")
        }
        ScVal::Map(Some(entries)) => {
            text.extend_from_slice(b"map{")?;
            push_entries(alloc, text, entries.as_slice(), levels - 1)?;
            text.extend_from_slice(b"}")
        }
        ScVal::ContractInstance(_) => text.extend_from_slice(b"instance"),
        ScVal::Vec(None) => text.extend_from_slice(b"vec:null"),
        ScVal::Map(None) => text.extend_from_slice(b"map:null"),
        _ => push_leaf(alloc, text, value),
    }
}

/// Members of at most so many levels.
#[cycle(short)]
fn push_items(
    alloc: Global,
    text: &mut Vec<u8>,
    items: &[ScVal],
    levels: u32,
) -> Result<(), AllocError> {
    for (index, item) in items.iter().enumerate() {
        if index == MOST_MEMBERS {
            return push_length(text, b", ", items.len());
        }
        if index > 0 {
            text.extend_from_slice(b", ")?;
        }
        push_level(alloc, text, item, levels)?;
    }
    Ok(())
}

/// Keys and values of at most so many levels.
#[cycle(short)]
fn push_entries(
    alloc: Global,
    text: &mut Vec<u8>,
    entries: &[Entry],
    levels: u32,
) -> Result<(), AllocError> {
    for (index, entry) in entries.iter().enumerate() {
        if index == MOST_MEMBERS {
            return push_length(text, b", ", entries.len());
        }
        if index > 0 {
            text.extend_from_slice(b", ")?;
        }
        push_level(alloc, text, &entry.key, levels)?;
        text.extend_from_slice(b": ")?;
        push_level(alloc, text, &entry.val, levels)?;
    }
    Ok(())
}

/// A value.
pub(crate) fn push_value(
    alloc: Global,
    text: &mut Vec<u8>,
    value: &ScVal,
) -> Result<(), AllocError> {
    push_level(alloc, text, value, MOST_LEVELS)
}

/// Values with commas between them.
pub(crate) fn push_values(
    alloc: Global,
    text: &mut Vec<u8>,
    values: &[ScVal],
) -> Result<(), AllocError> {
    push_items(alloc, text, values, MOST_LEVELS)
}

// ---- keys and functions

/// Whether this is the key of an instance.
fn is_instance(key: &ScVal, durability: Durability) -> bool {
    match durability {
        Durability::Persistent => matches!(key, ScVal::LedgerKeyContractInstance),
        Durability::Temporary => false,
    }
}

fn push_data_key(
    alloc: Global,
    text: &mut Vec<u8>,
    key: &ScVal,
    durability: Durability,
) -> Result<(), AllocError> {
    if !is_instance(key, durability) {
        text.extend_from_slice(durability_name(durability).as_bytes())?;
        text.extend_from_slice(b" ")?;
    }
    push_value(alloc, text, key)
}

/// The key of an entry: of contract data the contract, the durability and the key.
pub(crate) fn push_key(
    alloc: Global,
    text: &mut Vec<u8>,
    key: &LedgerKey,
) -> Result<(), AllocError> {
    match key {
        LedgerKey::ContractData {
            contract,
            key,
            durability,
        } => {
            push_address(alloc, text, contract)?;
            text.extend_from_slice(b" ")?;
            push_data_key(alloc, text, key, *durability)
        }
        LedgerKey::ContractCode(hash) => push_hash(alloc, text, b"code:", hash),
        LedgerKey::Ttl(hash) => push_hash(alloc, text, b"ttl:", hash),
        LedgerKey::Account(account) => push_hash(alloc, text, b"account:", &account.0),
        LedgerKey::Trustline { account, .. } => push_hash(alloc, text, b"trustline:", &account.0),
        LedgerKey::Offer { seller, .. } => push_hash(alloc, text, b"offer:", &seller.0),
        LedgerKey::Data { account, .. } => push_hash(alloc, text, b"data:", &account.0),
        LedgerKey::ClaimableBalance(id) => push_hash(alloc, text, b"balance:", id),
        LedgerKey::LiquidityPool(id) => push_hash(alloc, text, b"pool:", id),
    }
}

/// A call: its contract, its function, and its arguments in parentheses.
pub(crate) fn push_call(
    alloc: Global,
    text: &mut Vec<u8>,
    contract: &ScAddress,
    function: &[u8],
    args: &[ScVal],
) -> Result<(), AllocError> {
    push_address(alloc, text, contract)?;
    text.extend_from_slice(b" ")?;
    push_text(alloc, text, function)?;
    push_args(alloc, text, args)
}

fn push_args(alloc: Global, text: &mut Vec<u8>, args: &[ScVal]) -> Result<(), AllocError> {
    text.extend_from_slice(b"(")?;
    push_values(alloc, text, args)?;
    text.extend_from_slice(b")")
}

/// A create: its code, and its salt.
fn push_create(
    alloc: Global,
    text: &mut Vec<u8>,
    executable: Executable,
    preimage: Preimage,
) -> Result<(), AllocError> {
    text.extend_from_slice(b"create")?;
    if let Executable::Wasm(code) = executable {
        push_hash(alloc, text, b" code:", &code)?;
    }
    if let Preimage::FromAddress { salt, .. } = preimage {
        push_hash(alloc, text, b" salt:", &salt)?;
    }
    Ok(())
}

/// The function that an authorisation is demanded for.
pub(crate) fn push_function(
    alloc: Global,
    text: &mut Vec<u8>,
    function: &Function,
) -> Result<(), AllocError> {
    match function {
        Function::ContractFn(call) => {
            let name = call.function.as_blob().as_slice();
            push_call(alloc, text, &call.contract, name, call.args.as_slice())
        }
        Function::CreateContract(create) => {
            push_create(alloc, text, create.executable, create.preimage)
        }
        Function::CreateContractV2(create) => {
            push_create(alloc, text, create.executable, create.preimage)?;
            text.extend_from_slice(b" ")?;
            push_args(alloc, text, create.constructor_args.as_slice())
        }
    }
}

/// What met a demand.
pub(crate) fn push_met(text: &mut Vec<u8>, met: Met) -> Result<(), AllocError> {
    text.extend_from_slice(met_name(met).as_bytes())?;
    match met {
        Met::ByEntry { entry, .. } => push_number(text, entry as u64, b""),
        _ => Ok(()),
    }
}
