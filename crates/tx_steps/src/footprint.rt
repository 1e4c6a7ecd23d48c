//! The footprint of a transaction.

ghost use Rattle.std.specs.Prelude.{◌≡◌, ◌++◌, All, IfOk, OnOk, map};
ghost use Rattle.std.specs.List.{list_all};
ghost use Rattle.ledger_types.specs.Key.{key_format};
ghost use Rattle.ledger_spec.specs.LedgerMap.{key_bytes};
ghost use Rattle.apply_spec.specs.Checks.{footprint_of, may_be_declared as is_declarable, may_be_footprint as is_footprint};
ghost use Rattle.list_laws.specs.Twice.{stand_twice};
ghost use Rattle.tx_steps.specs.Spellings.{bytes_of};

use ledger_types::LedgerKey;
use std::alloc::Global;
use std::collections::BTreeSet;
use tx_xdr::{Transaction, TransactionExt};
use value_xdr::encode;
use xdr_core::NoMemory;

/// Returns the keys that a transaction declares read-only.
pub fn read_only_of(tx: &Transaction) -> &[LedgerKey]
    ensures { result.now ≡ (footprint_of tx.now).read_only }
{
    match &tx.ext {
        TransactionExt::None => &[],
        TransactionExt::Soroban(soroban) => soroban.footprint.read_only.as_slice(),
    }
}

/// Returns the keys that a transaction declares read-write.
pub fn read_write_of(tx: &Transaction) -> &[LedgerKey]
    ensures { result.now ≡ (footprint_of tx.now).read_write }
{
    match &tx.ext {
        TransactionExt::None => &[],
        TransactionExt::Soroban(soroban) => soroban.footprint.read_write.as_slice(),
    }
}

// ---- which footprint may be declared

/// Whether a Soroban transaction may declare a key.
pub fn may_be_declared(key: &LedgerKey) -> bool
    ensures { result ≡ is_declarable key.now }
{
    match key {
        LedgerKey::Account(_)
        | LedgerKey::Trustline { .. }
        | LedgerKey::ContractData { .. }
        | LedgerKey::ContractCode(_) => true,
        LedgerKey::Offer { .. }
        | LedgerKey::Data { .. }
        | LedgerKey::ClaimableBalance(_)
        | LedgerKey::LiquidityPool(_)
        | LedgerKey::Ttl(_) => false,
    }
}

/// Appends the XDR bytes of each key.
fn spell_keys(
    alloc: Global,
    keys: &[LedgerKey],
    spellings: &mut Vec<Vec<u8>>,
) -> Result<(), NoMemory>
    requires { All (λ key. key_format.fits key) keys.now }
    ensures { OnOk result (bytes_of spellings.new.items ≡ bytes_of spellings.old.items ++ map key_bytes keys.now) }
{
    for key in keys {
        let bytes = encode(alloc, key)?;
        spellings.push(bytes)?;
    }
    Ok(())
}

/// Whether the same bytes occur twice. It takes O(n log n) comparisons.
fn has_twice(alloc: Global, spellings: &[Vec<u8>]) -> Result<bool, NoMemory>
    ensures { IfOk result (λ b. b ≡ stand_twice (bytes_of spellings.now)) }
{
    let mut seen = BTreeSet::new(alloc);
    for bytes in spellings {
        if !seen.insert(bytes.as_slice())? {
            return Ok(true);
        }
    }
    Ok(false)
}

/// Whether no key occurs twice in the two lists together, and each key may be declared.
pub fn may_be_footprint(
    alloc: Global,
    read_only: &[LedgerKey],
    read_write: &[LedgerKey],
) -> Result<bool, NoMemory>
    requires read_only { All (λ key. key_format.fits key) read_only.now }
    requires read_write { All (λ key. key_format.fits key) read_write.now }
    ensures { IfOk result (λ b. b ≡ is_footprint (read_only.now ++ read_write.now)) }
{
    let mut spellings = Vec::new(alloc);
    spell_keys(alloc, read_only, &mut spellings)?;
    spell_keys(alloc, read_write, &mut spellings)?;
    if has_twice(alloc, &spellings)? {
        return Ok(false);
    }
    Ok(all_declarable(read_only) && all_declarable(read_write))
}

fn all_declarable(keys: &[LedgerKey]) -> bool
    ensures { result ≡ list_all is_declarable keys.now }
{
    keys.iter().all(may_be_declared)
}
