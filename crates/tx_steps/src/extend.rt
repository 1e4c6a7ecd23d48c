//! EXTEND_FOOTPRINT_TTL.

ghost use Rattle.std.specs.Prelude.{◌≡◌, All, IfOk, IsTrue, if◌then◌else◌};
ghost use Rattle.std.specs.List.{list_all};
ghost use Rattle.ledger_types.specs.Key.{key_format};
ghost use Rattle.ledger_spec.specs.LedgerFile.{are_settings, has_next};
ghost use Rattle.ledger_spec.specs.Seen.{seen};
ghost use Rattle.apply_spec.specs.Checks.{footprint_of};
ghost use Rattle.apply_spec.specs.Enforced.{has_life as has_life_in, may_extend as may_extend_in};
ghost use Rattle.apply_spec.specs.Extending.{extensions_of, extension_seen};
ghost use Rattle.tx_steps.specs.Outcomes.{extended};
ghost use Rattle.tx_steps.specs.Effects.{ended_of, CanEnd};

use crate::footprint::{read_only_of, read_write_of};
use crate::results::{TransactionDone, failed, nothing_used, one_result};
use contract_storage::Watch;
use entry_lookup::Ground;
use ledger_types::{Header, LedgerKey, Settings};
use stage_runs::Extension;
use std::alloc::Global;
use tx_results::{ExtendResult, InnerResult, OperationResult, TransactionOutcome};
use tx_xdr::Transaction;
use value_types::Items;
use xdr_core::NoMemory;

/// Whether entries of the key's type have a live-until ledger.
fn has_life(key: &LedgerKey) -> bool
    ensures { result ≡ has_life_in key.now }
{
    matches!(
        key,
        LedgerKey::ContractData { .. } | LedgerKey::ContractCode(_)
    )
}

fn have_lives(keys: &[LedgerKey]) -> bool
    ensures { result ≡ list_all has_life_in keys.now }
{
    keys.iter().all(has_life)
}

/// Whether EXTEND_FOOTPRINT_TTL may have this footprint and this `extend_to`.
pub fn may_extend(
    settings: &Settings,
    read_only: &[LedgerKey],
    read_write: &[LedgerKey],
    extend_to: u32,
) -> bool
    ensures { result ≡ may_extend_in settings.now (record { read_only = read_only.now; read_write = read_write.now }) extend_to }
{
    if !read_write.is_empty() || !have_lives(read_only) {
        return false;
    }
    extend_to < settings.max_entry_ttl
}

/// Whether the entry at a key is live in ledger `n` and expires before ledger `until`.
fn ends_before<G: Ground>(ground: &G, n: u32, key: &LedgerKey, until: u32) -> bool
    requires { key_format.fits key.now }
    ensures { extension_seen (seen n (G.map ground.now) key.now) key.now until ≡ (if result then Some
        (record { key = key.now; live_until = until }) else None) }
{
    match ground.find(key) {
        Some(found) => found.live_until >= n && found.live_until < until,
        None => false,
    }
}

/// Returns an extension to ledger `until` for each key whose entry is live in ledger `n` and expires before `until`.
pub fn extensions<G: Ground>(
    alloc: Global,
    ground: &G,
    n: u32,
    keys: &[LedgerKey],
    until: u32,
) -> Result<Vec<Extension>, NoMemory>
    requires { All (λ key. key_format.fits key) keys.now }
    ensures { IfOk result (λ found. found.items ≡ extensions_of n (G.map ground.now) keys.now until) }
{
    let mut found = Vec::new(alloc);
    for key in keys {
        if ends_before(ground, n, key, until) {
            let key = key.clone()?;
            found.push(Extension {
                key,
                live_until: until,
            })?;
        }
    }
    Ok(found)
}

// ---- the operation

fn extension(result_of_extend: ExtendResult) -> OperationResult
    ensures { result ≡ OperationResult.Inner (InnerResult.Extend result_of_extend) }
{
    OperationResult::Inner(InnerResult::Extend(result_of_extend))
}

/// Runs EXTEND_FOOTPRINT_TTL, and returns the outcome of its transaction.
pub fn extend_footprint<G: Ground, W: Watch>(
    alloc: Global,
    ground: &G,
    header: &Header,
    tx: &Transaction,
    extend_to: u32,
    watch: W,
) -> Result<TransactionDone<W>, NoMemory>
    requires read_only { All (λ key. key_format.fits key) (footprint_of tx.now).read_only }
    requires settings { IsTrue (are_settings header.now.settings) }
    requires next { IsTrue (has_next header.now) }
    ensures done { IfOk result (λ done. ended_of done ≡ extended header.now (G.map ground.now) (footprint_of tx.now) extend_to) }
    ensures can { IfOk result (λ done. CanEnd (ended_of done)) }
    ensures watch { IfOk result (λ done. done.watch ≡ watch) }
{
    let keys = read_only_of(tx);
    if !may_extend(&header.settings, keys, read_write_of(tx), extend_to) {
        return failed(alloc, extension(ExtendResult::Malformed), watch);
    }
    let n = header.seq + 1;
    let extensions = extensions(alloc, ground, n, keys, n + extend_to)?;
    let results = one_result(alloc, extension(ExtendResult::Success))?;
    Ok(TransactionDone {
        outcome: TransactionOutcome::Success(results),
        success: None,
        changes: Items::from_vec(Vec::new(alloc)),
        extensions: Items::from_vec(extensions),
        used: nothing_used(),
        watch,
    })
}
