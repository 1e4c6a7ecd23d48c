//! Hashes, ids and keys.

ghost use Rattle.auth_types.specs.AuthEntry.{auth_entry_format};
ghost use Rattle.ledger_types.specs.Entry.{entry_format};

use crate::errors::{made, spelled, unread};
use auth_types::{AuthEntry, Credentials, payload_hash};
use case_text::{Case, CaseErr, Fragments, first_word, push_hex, push_str};
use invoke_types::{Preimage, contract_id};
use ledger_types::{LedgerEntry, LedgerKey, key_hash, key_of, write_key_of};
use std::alloc::Global;
use tx_xdr::{Transaction, envelope_hash, read_envelope, tx_hash};
use value_types::Hash;
use value_xdr::{decode, encode};
use xdr_core::{NoMemory, Out};

/// `payload`, `contract-id`, `tx-hash` and `envelope-hash` NETWORK VALUE: the hash of the value in the network.
pub fn in_network(
    alloc: Global,
    fragments: &Fragments,
    case: Case,
    out: &mut String,
) -> Result<(), CaseErr> {
    let (network, value) = first_word(case.words);
    let network = hash_of(alloc, fragments, network)?;
    let value = fragments.bytes(alloc, value)?;
    let hash = match case.kind {
        "payload" => payload(alloc, &network, &value),
        "contract-id" => id_of_contract(alloc, &network, &value),
        "tx-hash" => hash_of_transaction(alloc, &network, &value),
        _ => hash_of_envelope(alloc, &network, &value),
    };
    push_hex_line(alloc, out, &hash?.0)
}

/// The hash that is signed for an authorisation entry.
fn payload(alloc: Global, network: &Hash, entry: &[u8]) -> Result<Hash, CaseErr> {
    match decode::<AuthEntry>(alloc, entry) {
        Ok(entry) => payload_of(alloc, network, &entry),
        Err(error) => Err(unread(error, "an authorisation entry")),
    }
}

fn payload_of(alloc: Global, network: &Hash, entry: &AuthEntry) -> Result<Hash, CaseErr>
    requires { auth_entry_format.fits entry.now }
{
    if !matches!(entry.credentials, Credentials::Address(_)) {
        return Err(CaseErr::Lacks("an entry that is signed"));
    }
    made(payload_hash(alloc, network, entry))
}

fn id_of_contract(alloc: Global, network: &Hash, preimage: &[u8]) -> Result<Hash, CaseErr> {
    match decode::<Preimage>(alloc, preimage) {
        Ok(preimage) => made(contract_id(alloc, network, &preimage)),
        Err(error) => Err(unread(error, "a preimage")),
    }
}

fn hash_of_transaction(alloc: Global, network: &Hash, tx: &[u8]) -> Result<Hash, CaseErr> {
    match decode::<Transaction>(alloc, tx) {
        Ok(tx) => made(tx_hash(alloc, network, &tx)),
        Err(error) => Err(unread(error, "a transaction")),
    }
}

fn hash_of_envelope(alloc: Global, network: &Hash, envelope: &[u8]) -> Result<Hash, CaseErr> {
    match read_envelope(alloc, envelope) {
        Ok(envelope) => made(envelope_hash(alloc, network, &envelope)),
        Err(error) => Err(unread(error, "an envelope")),
    }
}

/// KEY: writes the hash of the ledger key that these bytes spell.
pub fn hash_of_key(
    alloc: Global,
    fragments: &Fragments,
    words: &str,
    out: &mut String,
) -> Result<(), CaseErr> {
    let hash = key_bytes_hash(alloc, &fragments.bytes(alloc, words)?)?;
    push_hex_line(alloc, out, &hash.0)
}

fn key_bytes_hash(alloc: Global, key: &[u8]) -> Result<Hash, CaseErr> {
    match decode::<LedgerKey>(alloc, key) {
        Ok(key) => made(key_hash(alloc, &key)),
        Err(error) => Err(unread(error, "a key")),
    }
}

/// ENTRY: the bytes of its key.
pub fn key_of_entry(
    alloc: Global,
    fragments: &Fragments,
    words: &str,
    out: &mut String,
) -> Result<(), CaseErr> {
    push_key(alloc, out, &fragments.bytes(alloc, words)?)
}

fn push_key(alloc: Global, out: &mut String, entry: &[u8]) -> Result<(), CaseErr> {
    match decode::<LedgerEntry>(alloc, entry) {
        Ok(entry) => push_key_of(alloc, out, &entry),
        Err(error) => Err(unread(error, "an entry")),
    }
}

fn push_key_of(alloc: Global, out: &mut String, entry: &LedgerEntry) -> Result<(), CaseErr>
    requires { entry_format.fits entry.now }
{
    let key = key_bytes(alloc, entry)?;
    if has_key(alloc, entry, &key)? {
        push_hex_line(alloc, out, &key)
    } else {
        push_str(out, "written otherwise\n")
    }
}

fn key_bytes(alloc: Global, entry: &LedgerEntry) -> Result<Vec<u8>, CaseErr>
    requires { entry_format.fits entry.now }
{
    match key_of(entry) {
        Ok(key) => made(encode(alloc, &key)),
        Err(_) => Err(CaseErr::NoMemory),
    }
}

/// Whether the entry's key is also written to these bytes.
fn has_key(alloc: Global, entry: &LedgerEntry, key: &[u8]) -> Result<bool, CaseErr>
    requires { entry_format.fits entry.now }
{
    let mut written = Out::new(alloc);
    match write_key_of(entry, &mut written) {
        Ok(()) => Ok(written.into_vec().as_slice() == key),
        Err(NoMemory) => Err(CaseErr::NoMemory),
    }
}

/// The hash that a word spells.
pub fn hash_of(alloc: Global, fragments: &Fragments, word: &str) -> Result<Hash, CaseErr> {
    read_hash(alloc, &fragments.bytes(alloc, word)?)
}

/// The hash that bytes spell.
pub fn read_hash(alloc: Global, bytes: &[u8]) -> Result<Hash, CaseErr> {
    spelled(decode::<Hash>(alloc, bytes), "32 bytes")
}

/// Appends a line of hex digits.
pub fn push_hex_line(alloc: Global, out: &mut String, bytes: &[u8]) -> Result<(), CaseErr> {
    push_hex(alloc, out, bytes)?;
    push_str(out, "\n")
}
