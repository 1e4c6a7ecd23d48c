//! The types that a case can name.

use crate::spellings::{Spelling, cloned, refused, rewritten, written};
use auth_types::AuthEntry;
use case_text::CaseErr;
use invoke_types::{ContractEvent, Function, HostFunction, Preimage, SuccessPreimage};
use ledger_file::read_verdicts;
use ledger_types::{LedgerEntry, LedgerFile, LedgerKey, LedgerRecord, Verdict};
use std::alloc::Global;
use tx_parts::{DecoratedSignature, LedgerBounds, Memo, MuxedAccount, Preconditions, SignerKey};
use tx_results::ResultSet;
use tx_xdr::{
    Cluster, Component, Envelope, Operation, OperationBody, Phase, Stage, Transaction, TxSet,
    read_envelope, read_set,
};
use value_types::{Items, ScVal, ScValType};

/// The spelling of a type by its name.
pub fn spelling_of(alloc: Global, name: &str, bytes: &[u8]) -> Result<Spelling, CaseErr> {
    match name {
        "value" => cloned::<ScVal>(alloc, bytes),
        "value-type" => rewritten::<ScValType>(alloc, bytes),
        "key" => cloned::<LedgerKey>(alloc, bytes),
        "entry" => cloned::<LedgerEntry>(alloc, bytes),
        "record" => cloned::<LedgerRecord>(alloc, bytes),
        "ledger" => rewritten::<LedgerFile>(alloc, bytes),
        "verdict" => rewritten::<Verdict>(alloc, bytes),
        "verdicts" => verdicts(alloc, bytes),
        "auth" => cloned::<AuthEntry>(alloc, bytes),
        _ => spelling_of_invocation(alloc, name, bytes),
    }
}

fn spelling_of_invocation(alloc: Global, name: &str, bytes: &[u8]) -> Result<Spelling, CaseErr> {
    match name {
        "host-function" => cloned::<HostFunction>(alloc, bytes),
        "function" => cloned::<Function>(alloc, bytes),
        "preimage" => cloned::<Preimage>(alloc, bytes),
        "event" => cloned::<ContractEvent>(alloc, bytes),
        "success" => cloned::<SuccessPreimage>(alloc, bytes),
        "results" => rewritten::<ResultSet>(alloc, bytes),
        _ => spelling_of_part(alloc, name, bytes),
    }
}

fn spelling_of_part(alloc: Global, name: &str, bytes: &[u8]) -> Result<Spelling, CaseErr> {
    match name {
        "account" => cloned::<MuxedAccount>(alloc, bytes),
        "ledger-bounds" => cloned::<LedgerBounds>(alloc, bytes),
        "memo" => cloned::<Memo>(alloc, bytes),
        "signer" => cloned::<SignerKey>(alloc, bytes),
        "signers" => rewritten::<Items<SignerKey, 2>>(alloc, bytes),
        "signature" => cloned::<DecoratedSignature>(alloc, bytes),
        "preconditions" => cloned::<Preconditions>(alloc, bytes),
        "body" => cloned::<OperationBody>(alloc, bytes),
        "operation" => cloned::<Operation>(alloc, bytes),
        "transaction" => cloned::<Transaction>(alloc, bytes),
        _ => spelling_of_set(alloc, name, bytes),
    }
}

fn spelling_of_set(alloc: Global, name: &str, bytes: &[u8]) -> Result<Spelling, CaseErr> {
    match name {
        "envelope" => cloned::<Envelope>(alloc, bytes),
        "envelope-file" => envelope_file(alloc, bytes),
        "cluster" => rewritten::<Cluster>(alloc, bytes),
        "stage" => rewritten::<Stage>(alloc, bytes),
        "component" => rewritten::<Component>(alloc, bytes),
        "phase" => rewritten::<Phase>(alloc, bytes),
        "set" => rewritten::<TxSet>(alloc, bytes),
        "set-file" => set_file(alloc, bytes),
        _ => Err(CaseErr::Lacks("a type")),
    }
}

fn verdicts(alloc: Global, bytes: &[u8]) -> Result<Spelling, CaseErr> {
    match read_verdicts(alloc, bytes) {
        Ok(value) => written(alloc, bytes, &value),
        Err(error) => refused(error),
    }
}

fn envelope_file(alloc: Global, bytes: &[u8]) -> Result<Spelling, CaseErr> {
    match read_envelope(alloc, bytes) {
        Ok(value) => written(alloc, bytes, &value),
        Err(error) => refused(error),
    }
}

fn set_file(alloc: Global, bytes: &[u8]) -> Result<Spelling, CaseErr> {
    match read_set(alloc, bytes) {
        Ok(value) => written(alloc, bytes, &value),
        Err(error) => refused(error),
    }
}
