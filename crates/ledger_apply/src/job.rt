//! What a worker does with a cluster.

ghost use Rattle.std.specs.Prelude.{IfOk, IsTrue};
ghost use Rattle.ledger_spec.specs.LedgerFile.{are_settings, has_next};
ghost use Rattle.apply_spec.specs.Enforced.{enforced};
ghost use Rattle.set_steps.specs.State.{done_in, IsKeyed};
ghost use Rattle.set_steps.specs.Spelled.{AreEnvelopes};
ghost use Rattle.set_steps.specs.Job.{IsRun, IsRunOn};

use crate::cluster::run_cluster;
use change_log::Changes;
use code_cache::Cache;
use edge_io::Gate;
use entry_map::EntryMap;
use ledger_parts::{OnPart, Part};
use ledger_types::{Header, Verdicts};
use set_steps::{ClusterDone, Job, read_keys_of};
use std::alloc::Global;
use tx_xdr::Envelope;
use worker_runs::Work;
use xdr_core::NoMemory;

/// What the workers of a stage share: the entries that no cluster of the stage declares read-write, the codes among them, what
/// all transactions run under, the gate, the index of the stage in its set, and whether a log is kept.
#[derive(Drop)]
pub struct ClusterWork<'a, T> {
    pub alloc: Global,
    pub lent: &'a EntryMap,
    pub codes: &'a Cache<'a>,
    pub header: &'a Header,
    pub verdicts: &'a Verdicts,
    pub gate: &'a T,
    pub stage: usize,
    pub logs: bool,
    pub ghost settings: { IsTrue (are_settings header.now.settings) },
    pub ghost next: { IsTrue (has_next header.now) },
}

/// Runs a cluster on its part of the ledger: its own entries, and the keys that it declares read-only. Returns its entries, and
/// what the cluster leaves beside them. What its transactions change is added to the log, if one is kept.
fn run_part(
    alloc: Global,
    lent: &EntryMap,
    codes: &Cache<'_>,
    header: &Header,
    verdicts: &Verdicts,
    own: EntryMap,
    envelopes: &[Envelope],
    logs: bool,
    log: &mut Vec<Changes>,
) -> Result<(EntryMap, ClusterDone), NoMemory>
    requires fits { AreEnvelopes envelopes.now }
    requires settings { IsTrue (are_settings header.now.settings) }
    requires next { IsTrue (has_next header.now) }
    ensures run { IfOk result (λ r. IsRunOn (enforced header.now verdicts.now) logs lent.now envelopes.now own (done_in r.0 r.1)
        log.old.items log.new.items) }
    ensures keyed { IfOk result (λ r. IsKeyed r.1) }
{
    let read_only = read_keys_of(alloc, envelopes)?;
    let mut seen = OnPart::new(Part { own, read_only }, lent)?;
    let done = run_cluster(
        alloc,
        &mut seen,
        header,
        verdicts,
        envelopes,
        Some(codes),
        logs,
        log,
    )?;
    let OnPart { part, lent: _ } = seen;
    Ok((part.own, done))
}

impl<'a, 'b, T: Gate> Work<Job<'a>> for ClusterWork<'b, T> {
    ghost can = { λ _ _ job. AreEnvelopes job.envelopes.now };

    ghost gives = { λ work _ x y. IsRun (enforced work.header.now work.verdicts.now) work.logs work.lent.now x y };

    /// Enters the gate, and runs the cluster. Its index in the list of jobs is its index in the stage.
    fn work(&self, index: usize, job: &mut Job<'a>) {
        self.gate.enter(self.stage, index);
        let own = std::mem::replace(&mut job.own, EntryMap::new(self.alloc));
        match run_part(
            self.alloc,
            self.lent,
            self.codes,
            self.header,
            self.verdicts,
            own,
            job.envelopes,
            self.logs,
            &mut job.log,
        ) {
            Ok((own, done)) => {
                job.own = own;
                job.done = Ok(done);
            }
            Err(e) => {
                job.done = Err(e);
            }
        }
    }
}
