//! What a worker does with an envelope.

ghost use Rattle.std.specs.Prelude.{IsTrue};
ghost use Rattle.ledger_spec.specs.LedgerFile.{are_settings, has_next};
ghost use Rattle.tx_xdr.specs.Envelope.{envelope_format};
ghost use Rattle.spec_apply.specs.Runs.{IsWorkedOn};

use crate::run::{Run, run_over};
use code_cache::Cache;
use edge_io::Gate;
use entry_map::EntryMap;
use ledger_parts::Lent;
use ledger_types::{Header, Verdicts};
use std::alloc::Global;
use tx_xdr::Envelope;
use worker_runs::Work;
use xdr_core::NoMemory;

/// An envelope of a list, and room for its run.
#[derive(Drop)]
pub(crate) struct Job<'a> {
    pub envelope: &'a Envelope,
    /// `Err(NoMemory)` until the envelope has run, and if memory ran out in its run.
    pub run: Result<Run, NoMemory>,
}

/// What the workers share: the opening ledger, its codes, what all transactions run under, and the gate.
#[derive(Drop)]
pub(crate) struct ListWork<'a, T> {
    pub alloc: Global,
    pub opening: &'a EntryMap,
    pub codes: &'a Cache<'a>,
    pub header: &'a Header,
    pub verdicts: &'a Verdicts,
    pub gate: &'a T,
    pub ghost settings: { IsTrue (are_settings header.now.settings) },
    pub ghost next: { IsTrue (has_next header.now) },
}

impl<'a, 'b, T: Gate> Work<Job<'a>> for ListWork<'b, T> {
    ghost can = { λ _ _ job. envelope_format.fits job.envelope.now };

    ghost gives = { λ work _ x y. IsWorkedOn work.header.now work.verdicts.now work.opening.now x y };

    /// Enters the gate, and runs the envelope on the opening ledger. Its index in the list of jobs is its index in the list.
    fn work(&self, index: usize, job: &mut Job<'a>) {
        self.gate.enter(0, index);
        let ground = Lent {
            entries: self.opening,
        };
        job.run = run_over(
            self.alloc,
            &ground,
            self.header,
            self.verdicts,
            job.envelope,
            Some(self.codes),
        );
    }
}
