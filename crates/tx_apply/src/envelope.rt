//! Runs one envelope: a transaction, or a fee bump's inner transaction as if alone.

ghost use Rattle.std.specs.Prelude.{◌≡◌, [], IfOk, IsTrue};
ghost use Rattle.ledger_spec.specs.LedgerMap.{LedgerMap};
ghost use Rattle.ledger_spec.specs.LedgerFile.{are_settings, has_next};
ghost use Rattle.tx_xdr.specs.Envelope.{envelope_format, transaction_in};
ghost use Rattle.stage_runs.specs.Maps.{AgreeOn};
ghost use Rattle.stage_runs.specs.Transactions.{declares};
ghost use Rattle.apply_spec.specs.Enforced.{enforced};
ghost use Rattle.tx_apply.specs.Done.{effect_of, IsWithin};
ghost use Rattle.tx_apply.specs.Watching.{HasSeen, accesses_of};

use crate::transaction::run_transaction;
use budget_meter::Used;
use code_cache::Cache;
use contract_storage::{NoWatch, Watch};
use entry_lookup::Ground;
use invoke_types::SuccessPreimage;
use ledger_types::{Header, Verdicts};
use stage_runs::{Change, Extension};
use std::alloc::Global;
use tx_results::TransactionResultPair;
use tx_steps::result_pair;
use tx_xdr::Envelope;
use value_types::Items;
use xdr_core::NoMemory;

/// The effect of an envelope: its result, and what it does to the entries of a ledger.
#[derive(Drop)]
pub struct TxDone {
    pub result: TransactionResultPair,
    /// The success preimage of a host function that succeeded.
    pub success: Option<SuccessPreimage>,
    /// At the keys that the transaction declares read-write, in their order.
    pub changes: Items<Change, 4294967295>,
    /// At keys that the transaction declares read-only. They are pending until they are put in.
    pub extensions: Items<Extension, 4294967295>,
    pub used: Used,
}

/// Checks and runs an envelope, as `enforce` does. The observer sees each access of the run that the footprint allows, and its
/// moments. It comes back with the effect.
pub fn enforce_watched<G: Ground, W: Watch>(
    alloc: Global,
    ground: &G,
    header: &Header,
    verdicts: &Verdicts,
    envelope: &Envelope,
    codes: Option<&Cache<'_>>,
    watch: W,
) -> Result<(TxDone, W), NoMemory>
    requires fits { envelope_format.fits envelope.now }
    requires settings { IsTrue (are_settings header.now.settings) }
    requires next { IsTrue (has_next header.now) }
    requires fresh { HasSeen (W.seen watch) [] }
    ensures done { IfOk result (λ r. effect_of r.0 ≡ enforced header.now verdicts.now (G.map ground.now) envelope.now) }
    ensures within { IfOk result (λ r. IsWithin r.0) }
    // The effect is the same on every map that agrees with the ground on the declared keys.
    ensures frame { IfOk result (λ r. (other : LedgerMap) → AgreeOn (declares envelope.now) (G.map ground.now) other
        → enforced header.now verdicts.now other envelope.now ≡ effect_of r.0) }
    ensures seen { IfOk result (λ r. HasSeen (W.seen r.1)
        (accesses_of header.now verdicts.now (G.map ground.now) (transaction_in envelope.now))) }
{
    let done = run_transaction(
        alloc,
        ground,
        header,
        verdicts,
        envelope.transaction(),
        codes,
        watch,
    )?;
    let result = result_pair(alloc, &header.network_id, envelope, done.outcome)?;
    Ok((
        TxDone {
            result,
            success: done.success,
            changes: done.changes,
            extensions: done.extensions,
            used: done.used,
        },
        done.watch,
    ))
}

/// Checks and runs an envelope over the entries of a ledger. A fee bump's inner transaction runs as if alone, and fees are not
/// judged.
///
/// `header` is that of the previous ledger, with the close time of the ledger that is being made. An account's signature of an
/// authorisation entry is good if `verdicts` has the account's key with the hash of the entry's payload. `codes` keeps each
/// code that it loads for later transactions; two threads may both load one. The effect does not depend on `codes`.
pub fn enforce<G: Ground>(
    alloc: Global,
    ground: &G,
    header: &Header,
    verdicts: &Verdicts,
    envelope: &Envelope,
    codes: Option<&Cache<'_>>,
) -> Result<TxDone, NoMemory>
    requires fits { envelope_format.fits envelope.now }
    requires settings { IsTrue (are_settings header.now.settings) }
    requires next { IsTrue (has_next header.now) }
    ensures done { IfOk result (λ done. effect_of done ≡ enforced header.now verdicts.now (G.map ground.now) envelope.now) }
    ensures within { IfOk result IsWithin }
    // The effect is the same on every map that agrees with the ground on the declared keys.
    ensures frame { IfOk result (λ done. (other : LedgerMap) → AgreeOn (declares envelope.now) (G.map ground.now) other
        → enforced header.now verdicts.now other envelope.now ≡ effect_of done) }
{
    let (done, _watch) = enforce_watched(
        alloc, ground, header, verdicts, envelope, codes, NoWatch,
    )?;
    Ok(done)
}
