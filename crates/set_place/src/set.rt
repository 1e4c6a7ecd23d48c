//! Reaches a place of a set.

ghost use Rattle.std.specs.Prelude.{◌≡◌, IfOk, IfErr, IfSome, IsTrue, map, option_map};
ghost use Rattle.std.specs.List.{AllByRecursion};
ghost use Rattle.ledger_spec.specs.LedgerFile.{are_settings, has_next};
ghost use Rattle.tx_xdr.specs.Envelope.{envelope_format};
ghost use Rattle.tx_xdr.specs.Set.{set_format};
ghost use Rattle.tx_xdr.specs.Stages.{stages_of as stages_of_set};
ghost use Rattle.stage_runs.specs.Runs.{clusters_in, HasNoConflict};
ghost use Rattle.set_place.specs.Places.{met_in, met_on};
ghost use Rattle.set_place.specs.Reaching.{met_of, IsRefused};

use crate::stage::reach_in_stages;
use crate::{Place, PlaceErr};
use ledger_file::Ledger;
use ledger_types::{Header, Verdicts};
use set_steps::{first_in_turn, stages_of};
use std::alloc::Global;
use tx_xdr::{Envelope, TxSet};

/// A transaction of a set, and the ledger that it meets. The ledger's header is that of the ledger before the set.
#[derive(Drop)]
pub struct Reached<'a> {
    pub ledger: Ledger,
    pub envelope: &'a Envelope,
}

/// Runs what stands before a place of a set, unless two clusters of a stage conflict: the stages before, the clusters before in
/// its stage, and the transactions before in its cluster. Then the pending extensions of the keys that the transaction there
/// declares read-write are put in. Returns that transaction with the ledger, or `None` if the set has no such place.
///
/// All runs on one thread. `close_time` is that of the new ledger, in seconds since 1970.
pub fn reach<'a>(
    alloc: Global,
    ledger: Ledger,
    set: &'a TxSet,
    close_time: u64,
    verdicts: &Verdicts,
    place: Place,
) -> Result<Option<Reached<'a>>, PlaceErr<'a>>
    requires fits { set_format.fits set.now }
    requires settings { IsTrue (are_settings ledger.header.settings) }
    requires next { IsTrue (has_next ledger.header) }

    // A set is refused for its least conflict, and only for that.
    ensures refused { IfErr result (IsRefused (map clusters_in (stages_of_set set.now))) }
    ensures free { IfOk result (λ _. AllByRecursion HasNoConflict (map clusters_in (stages_of_set set.now))) }

    ensures met { IfOk result (λ o. option_map met_of o
        ≡ met_in ledger.header verdicts.now ledger.entries set.now close_time place) }
    ensures header { IfOk result (λ o. IfSome o (λ r. r.ledger.header ≡ ledger.header)) }
    ensures spelled { IfOk result (λ o. IfSome o (λ r. envelope_format.fits r.envelope.now)) }
{
    let stages = stages_of(alloc, set)?;
    if let Some(conflict) = first_in_turn(alloc, &stages)? {
        return Err(PlaceErr::Conflict(conflict));
    }
    let header = ledger.header;
    let running = Header {
        close_time,
        ..header
    };
    let mut ledger = ledger;
    let envelope = reach_in_stages(alloc, &mut ledger, &running, verdicts, &stages, place)?;
    Ok(reached_on(ledger, header, envelope))
}

/// The transaction that was reached on a ledger, if there is one. The ledger gets this header.
fn reached_on<'a>(
    ledger: Ledger,
    header: Header,
    envelope: Option<&'a Envelope>,
) -> Option<Reached<'a>>
    requires { IfSome envelope (λ tx. envelope_format.fits tx.now) }
    ensures met { option_map met_of result ≡ option_map (λ tx. met_on ledger.entries tx.now) envelope.entry }
    ensures header { IfSome result (λ r. r.ledger.header ≡ header) }
    ensures spelled { IfSome result (λ r. envelope_format.fits r.envelope.now) }
{
    match envelope {
        None => None,
        Some(envelope) => {
            let entries = ledger.entries;
            Some(Reached {
                ledger: Ledger { header, entries },
                envelope,
            })
        }
    }
}
