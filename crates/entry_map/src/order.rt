//! The order of an entry and a key: that of the XDR bytes of both keys, without writing the bytes and without memory.

ghost use Rattle.std.specs.Prelude.{◌≡◌, ◌++◌};
ghost use Rattle.spelled_order.specs.Against.{Against};
ghost use Rattle.spelled_order.specs.Ranked.{ranked_value};
ghost use Rattle.ledger_types.specs.Durability.{durability_format};
ghost use Rattle.ledger_types.specs.Entry.{key_of as key_of_entry};
ghost use Rattle.ledger_types.specs.EntryType.{number};
ghost use Rattle.ledger_types.specs.Key.{kind};
ghost use Rattle.ledger_types.specs.KeyOrder.{key_cmp, ranked_key, ranked_rest};
ghost use Rattle.ledger_types.specs.declared.key.LedgerKey.TheVariants as keys;

use ledger_types::{
    ContractDataEntry, Durability, LedgerEntry, LedgerEntryData, LedgerEntryType, LedgerKey,
};
use spelled_order::{Ranked, cmp_value, cmp_word};
use std::cmp::Ordering;
use value_types::{ScAddress, ScVal};

/// Compares what follows the contract in two keys of contract data. The durabilities are not read if the values differ.
#[tactic(auto, using(spelled_order::proofs::Lemmas::both, spelled_order::proofs::Lemmas::first))]
fn cmp_data_rests(data: &ContractDataEntry, key: &ScVal, durability: &Durability) -> Ordering
    ensures { Against (ranked_value data.now.key ++ durability_format.spell data.now.durability)
        (ranked_value key.now ++ durability_format.spell durability.now) result }
{
    match cmp_value(&data.key, key) {
        Ordering::Equal => data.durability.rank(durability),
        unequal => unequal,
    }
}

/// Compares the bodies of two keys of contract data, the first of which is that of an entry.
#[tactic(auto, using(spelled_order::proofs::Lemmas::both, spelled_order::proofs::Lemmas::first))]
fn cmp_data(
    data: &ContractDataEntry,
    contract: &ScAddress,
    key: &ScVal,
    durability: &Durability,
) -> Ordering
    ensures { Against (ranked_rest (keys.ContractData data.now.contract data.now.key data.now.durability))
        (ranked_rest (keys.ContractData contract.now key.now durability.now)) result }
{
    match data.contract.rank(contract) {
        Ordering::Equal => cmp_data_rests(data, key, durability),
        unequal => unequal,
    }
}

/// Compares the bodies of two keys of one type, the first of which is that of an entry. The other branches are never taken.
#[tactic(auto, using(spelled_order::proofs::Lemmas::both, spelled_order::proofs::Lemmas::word_first))]
fn cmp_rests(entry: &LedgerEntry, key: &LedgerKey) -> Ordering
    requires { number (kind (key_of_entry entry.now)) ≡ number (kind key.now) }
    ensures { Against (ranked_rest (key_of_entry entry.now)) (ranked_rest key.now) result }
{
    match &entry.data {
        LedgerEntryData::ContractData(data) => match key {
            LedgerKey::ContractData {
                contract,
                key,
                durability,
            } => cmp_data(data, contract, key, durability),
            _ => Ordering::Equal,
        },
        LedgerEntryData::ContractCode(code) => match key {
            LedgerKey::ContractCode(hash) => code.hash.rank(hash),
            _ => Ordering::Equal,
        },
    }
}

/// Returns the type of an entry.
fn type_of(entry: &LedgerEntry) -> LedgerEntryType
    ensures { result ≡ kind (key_of_entry entry.now) }
{
    match &entry.data {
        LedgerEntryData::ContractData(_) => LedgerEntryType::ContractData,
        LedgerEntryData::ContractCode(_) => LedgerEntryType::ContractCode,
    }
}

/// Compares the XDR bytes of two keys, the first of which is that of an entry.
fn cmp_ranked(entry: &LedgerEntry, key: &LedgerKey) -> Ordering
    ensures { Against (ranked_key (key_of_entry entry.now)) (ranked_key key.now) result }
{
    let (number, another) = (type_of(entry).number(), key.kind().number());
    if number == another {
        cmp_rests(entry, key)
    } else {
        cmp_word(number, another)
    }
}

/// Compares the key of an entry with another key.
pub(crate) fn cmp_entry(entry: &LedgerEntry, key: &LedgerKey) -> Ordering
    ensures { result ≡ key_cmp (key_of_entry entry.now) key.now }
{
    cmp_ranked(entry, key)
}
