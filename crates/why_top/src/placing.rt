//! Runs the transaction at a place of a set, and makes the lines that show what it did.

ghost use Rattle.std.specs.Prelude.{◌≡◌, IfOk, IfErr, IsSome, IsTrue, Some, map};
ghost use Rattle.std.specs.List.{AllByRecursion};
ghost use Rattle.ledger_spec.specs.LedgerFile.{are_settings, has_next};
ghost use Rattle.tx_xdr.specs.Envelope.{envelope_format};
ghost use Rattle.tx_xdr.specs.Set.{set_format};
ghost use Rattle.tx_xdr.specs.Stages.{stages_of};
ghost use Rattle.stage_runs.specs.Runs.{clusters_in, HasNoConflict};
ghost use Rattle.set_place.specs.Places.{met_in, tx_at};
ghost use Rattle.set_place.specs.Reaching.{met_of};
ghost use Rattle.why_top.specs.Placed.{EndsAsReported, ExplainsMet};
ghost use Rattle.why_top.specs.Counts.{IsOfBytes};
ghost use Rattle.why_top.specs.Refused.{IsRefusedPlace};

use crate::error::WhyErr;
use crate::explaining::explain;
use ledger_file::Ledger;
use ledger_types::Verdicts;
use set_place::{Place, PlaceErr, Reached, places_are_reported, reach};
use std::alloc::Global;
use tx_xdr::TxSet;
use value_xdr::encode;
use why_words::Form;

/// Runs the transaction at a place of a set, with the footprint that it declares, on the ledger that it meets there, and makes
/// its lines. The last one is that of the result that the set has there. A set with a conflict is refused, and so is a place that
/// the set does not have.
pub fn explain_place(
    alloc: Global,
    ledger: Ledger,
    verdicts: &Verdicts,
    set: &TxSet,
    close_time: u64,
    place: Place,
    form: Form,
) -> Result<Vec<u8>, WhyErr>
    requires set { set_format.fits set.now }
    requires settings { IsTrue (are_settings ledger.header.settings) }
    requires next { IsTrue (has_next ledger.header) }
    ensures free { IfOk result (λ _. AllByRecursion HasNoConflict (map clusters_in (stages_of set.now))) }
    ensures there { IfOk result (λ _. IsSome (tx_at (map clusters_in (stages_of set.now)) place)) }
    // The set's first conflict is refused, or else a place that it does not have.
    ensures refused { IfErr result (IsRefusedPlace place set.now) }
    ensures cause { IfErr result IsOfBytes }
    ensures explains { IfOk result (λ v.
        ExplainsMet form ledger.header verdicts.now ledger.entries set.now close_time place v.items) }
    ensures last { IfOk result (λ v. EndsAsReported ledger.header verdicts.now ledger.entries set.now close_time place v.items) }
{
    let reached = reach_place(alloc, ledger, verdicts, set, close_time, place)?;
    let form = Form {
        recorded: false,
        ..form
    };
    let lines = explain(
        alloc,
        &reached.ledger,
        verdicts,
        reached.envelope,
        close_time,
        form,
    )?;
    Ok(lines)
}

/// Brings the ledger into the state that the transaction at a place of a set meets. Returns it with that transaction.
fn reach_place<'a>(
    alloc: Global,
    ledger: Ledger,
    verdicts: &Verdicts,
    set: &'a TxSet,
    close_time: u64,
    place: Place,
) -> Result<Reached<'a>, WhyErr>
    requires set { set_format.fits set.now }
    requires settings { IsTrue (are_settings ledger.header.settings) }
    requires next { IsTrue (has_next ledger.header) }
    ensures free { IfOk result (λ _. AllByRecursion HasNoConflict (map clusters_in (stages_of set.now))) }
    ensures there { IfOk result (λ _. IsSome (tx_at (map clusters_in (stages_of set.now)) place)) }
    ensures refused { IfErr result (IsRefusedPlace place set.now) }
    ensures cause { IfErr result IsOfBytes }
    ensures met { IfOk result (λ r. Some (met_of r)
        ≡ met_in ledger.header verdicts.now ledger.entries set.now close_time place) }
    ensures header { IfOk result (λ r. r.ledger.header ≡ ledger.header) }
    ensures spelled { IfOk result (λ r. envelope_format.fits r.envelope.now) }
{
    // What is met at a place is met by the transaction there.
    places_are_reported();
    match reach(alloc, ledger, set, close_time, verdicts, place) {
        Ok(Some(reached)) => Ok(reached),
        Ok(None) => Err(WhyErr::NoPlace { place }),
        Err(PlaceErr::Conflict(conflict)) => {
            let key = encode(alloc, conflict.found.key)?;
            Err(WhyErr::Conflict {
                stage: conflict.stage as u64,
                a: conflict.found.a as u64,
                b: conflict.found.b as u64,
                key,
            })
        }
        Err(PlaceErr::NoMemory) => Err(WhyErr::NoMemory),
    }
}
