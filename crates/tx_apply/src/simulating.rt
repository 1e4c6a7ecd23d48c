//! Simulates one envelope: finds the footprint that its transaction needs, and runs the envelope with it.

ghost use Rattle.std.specs.Prelude.{◌≡◌, [], true, IfOk, IsTrue};
ghost use Rattle.ledger_spec.specs.LedgerMap.{LedgerMap};
ghost use Rattle.ledger_spec.specs.LedgerFile.{are_settings, has_next};
ghost use Rattle.tx_xdr.specs.Envelope.{envelope_format, transaction_in};
ghost use Rattle.tx_xdr.specs.Soroban.{footprint_format};
ghost use Rattle.tx_xdr.specs.declared.transaction.Footprint.{Footprint as FootprintData};
ghost use Rattle.tx_results.specs.Report.{has_preimage};
ghost use Rattle.tx_results.specs.Results.{outcome_in};
ghost use Rattle.stage_runs.specs.Maps.{AgreeOn};
ghost use Rattle.stage_runs.specs.Transactions.{declares};
ghost use Rattle.apply_spec.specs.Recorded.{IsSmaller};
ghost use Rattle.apply_spec.specs.Enforced.{enforced};
ghost use Rattle.apply_spec.specs.Simulated.{simulated, with_footprint as with_footprint_in};
ghost use Rattle.apply_spec.specs.SimulatedLaws.{IsTrapped};
ghost use Rattle.tx_apply.specs.Done.{effect_of, IsWithin};
ghost use Rattle.tx_apply.specs.Simulating.{simulated_in};
ghost use Rattle.tx_apply.specs.Watching.{HasSeen, accesses_of};

use crate::envelope::{TxDone, enforce_watched};
use crate::footprint::with_footprint;
use crate::needs::needed;
use budget_meter::Used;
use code_cache::Cache;
use contract_storage::{NoWatch, Watch};
use entry_lookup::Ground;
use ledger_types::{Header, Verdicts};
use std::alloc::Global;
use tx_steps::Needs;
use tx_xdr::{Envelope, Footprint};
use xdr_core::NoMemory;

/// A simulated envelope.
#[derive(Drop)]
pub struct Simulated {
    /// The effect of the envelope with the footprint.
    pub done: TxDone,
    /// The keys that the transaction writes, and the other keys that it touches, sorted by their XDR bytes. An extension or a
    /// restore keeps the footprint that it declares.
    pub footprint: Footprint,
    /// The envelope with the footprint. A transaction without Soroban data stays as it is.
    pub envelope: Envelope,
    /// The sums of the whole run, also if a test stops the operation before it runs. They are 0 if nothing runs.
    pub used: Used,
}

/// Simulates an envelope, as `simulate_with` does. The observer sees the run with the footprint: each access, and its moments. It
/// comes back with the result.
pub fn simulate_watched<G: Ground, W: Watch>(
    alloc: Global,
    ground: &G,
    header: &Header,
    verdicts: &Verdicts,
    envelope: &Envelope,
    codes: Option<&Cache<'_>>,
    watch: W,
) -> Result<(Simulated, W), NoMemory>
    requires fits { envelope_format.fits envelope.now }
    requires settings { IsTrue (are_settings header.now.settings) }
    requires next { IsTrue (has_next header.now) }
    requires fresh { HasSeen (W.seen watch) [] }
    ensures simulated { IfOk result (λ r. simulated_in r.0
        ≡ simulated header.now verdicts.now (G.map ground.now) envelope.now) }
    ensures within { IfOk result (λ r. IsWithin r.0.done) }
    ensures footprint { IfOk result (λ r. footprint_format.fits r.0.footprint) }
    ensures envelope { IfOk result (λ r. envelope_format.fits r.0.envelope) }
    // On every map that agrees on the recorded keys, the same is enforced.
    ensures enforced { IfOk result (λ r. (other : LedgerMap) → AgreeOn (declares r.0.envelope) (G.map ground.now) other
        → enforced header.now verdicts.now other r.0.envelope ≡ effect_of r.0.done) }
    // If a call succeeded, each smaller footprint traps there.
    ensures smaller { IfOk result (λ r. (other : LedgerMap) (smaller : FootprintData)
        → AgreeOn (declares r.0.envelope) (G.map ground.now) other
        → has_preimage (outcome_in r.0.done.result.result.outcome) ≡ true → IsSmaller smaller r.0.footprint
        → IsTrapped header.now (with_footprint_in smaller envelope.now)
        (enforced header.now verdicts.now other (with_footprint_in smaller envelope.now))) }
    // The observer has seen the run with the footprint, and not the one that finds it.
    ensures seen { IfOk result (λ r. HasSeen (W.seen r.1)
        (accesses_of header.now verdicts.now (G.map ground.now) (transaction_in r.0.envelope))) }
{
    let Needs { footprint, used } = needed(
        alloc,
        ground,
        header,
        verdicts,
        envelope.transaction(),
        codes,
    )?;
    let again = footprint.clone()?;
    let envelope = with_footprint(envelope.clone()?, again);
    let (done, watch) = enforce_watched(alloc, ground, header, verdicts, &envelope, codes, watch)?;
    let simulated = Simulated {
        done,
        footprint,
        envelope,
        used,
    };
    Ok((simulated, watch))
}

/// Simulates an envelope over the entries of a ledger: finds the footprint that its transaction needs, and its effect with that
/// footprint. The declared footprint of a call is not read.
///
/// To find the footprint, a call runs once over a storage that allows every access and records the keys. Then the envelope runs
/// as in `enforce`.
///
/// `header` is that of the previous ledger, with the close time of the ledger that is being made. `codes` keeps each code that it
/// loads for later runs. The result does not depend on `codes`.
pub fn simulate_with<G: Ground>(
    alloc: Global,
    ground: &G,
    header: &Header,
    verdicts: &Verdicts,
    envelope: &Envelope,
    codes: Option<&Cache<'_>>,
) -> Result<Simulated, NoMemory>
    requires fits { envelope_format.fits envelope.now }
    requires settings { IsTrue (are_settings header.now.settings) }
    requires next { IsTrue (has_next header.now) }
    ensures simulated { IfOk result (λ s. simulated_in s
        ≡ simulated header.now verdicts.now (G.map ground.now) envelope.now) }
    ensures within { IfOk result (λ s. IsWithin s.done) }
    ensures footprint { IfOk result (λ s. footprint_format.fits s.footprint) }
    ensures envelope { IfOk result (λ s. envelope_format.fits s.envelope) }
    // On every map that agrees on the recorded keys, the same is enforced.
    ensures enforced { IfOk result (λ s. (other : LedgerMap) → AgreeOn (declares s.envelope) (G.map ground.now) other
        → enforced header.now verdicts.now other s.envelope ≡ effect_of s.done) }
    // If a call succeeded, each smaller footprint traps there.
    ensures smaller { IfOk result (λ s. (other : LedgerMap) (smaller : FootprintData)
        → AgreeOn (declares s.envelope) (G.map ground.now) other
        → has_preimage (outcome_in s.done.result.result.outcome) ≡ true → IsSmaller smaller s.footprint
        → IsTrapped header.now (with_footprint_in smaller envelope.now)
        (enforced header.now verdicts.now other (with_footprint_in smaller envelope.now))) }
{
    let (simulated, _watch) = simulate_watched(
        alloc, ground, header, verdicts, envelope, codes, NoWatch,
    )?;
    Ok(simulated)
}

/// Simulates an envelope, as `simulate_with` does, without codes that are shared.
pub fn simulate<G: Ground>(
    alloc: Global,
    ground: &G,
    header: &Header,
    verdicts: &Verdicts,
    envelope: &Envelope,
) -> Result<Simulated, NoMemory>
    requires fits { envelope_format.fits envelope.now }
    requires settings { IsTrue (are_settings header.now.settings) }
    requires next { IsTrue (has_next header.now) }
    ensures simulated { IfOk result (λ s. simulated_in s
        ≡ simulated header.now verdicts.now (G.map ground.now) envelope.now) }
    ensures within { IfOk result (λ s. IsWithin s.done) }
    ensures footprint { IfOk result (λ s. footprint_format.fits s.footprint) }
    ensures envelope { IfOk result (λ s. envelope_format.fits s.envelope) }
    // On every map that agrees on the recorded keys, the same is enforced.
    ensures enforced { IfOk result (λ s. (other : LedgerMap) → AgreeOn (declares s.envelope) (G.map ground.now) other
        → enforced header.now verdicts.now other s.envelope ≡ effect_of s.done) }
    // If a call succeeded, each smaller footprint traps there.
    ensures smaller { IfOk result (λ s. (other : LedgerMap) (smaller : FootprintData)
        → AgreeOn (declares s.envelope) (G.map ground.now) other
        → has_preimage (outcome_in s.done.result.result.outcome) ≡ true → IsSmaller smaller s.footprint
        → IsTrapped header.now (with_footprint_in smaller envelope.now)
        (enforced header.now verdicts.now other (with_footprint_in smaller envelope.now))) }
{
    simulate_with(alloc, ground, header, verdicts, envelope, None)
}
