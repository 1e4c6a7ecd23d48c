//! The pass over a list in order.

ghost use Rattle.std.specs.Prelude.{◌≡◌, ◌<◌, ◌≤◌, ◌+◌, All, OnOk, IsTrue, length, map};
ghost use Rattle.ledger_spec.specs.LedgerFile.{are_settings, has_next};
ghost use Rattle.ledger_spec.specs.LedgerMap.{LedgerMap};
ghost use Rattle.tx_xdr.specs.Envelope.{envelope_format};
ghost use Rattle.spec_apply.specs.Moved.{AreMoved};
ghost use Rattle.spec_apply.specs.Runs.{IsRunOn, IsRunSpelled, IsDoneJob, envelope_of};
ghost use Rattle.spec_apply.specs.Passing.{IsNext, IsPassed};

use crate::job::Job;
use crate::moved::agrees;
use crate::pass::{Pass, put_in};
use crate::run::{Run, run_over};
use ledger_parts::Lent;
use ledger_types::{Header, Verdicts};
use std::alloc::Global;
use tx_xdr::Envelope;
use xdr_core::NoMemory;

/// Runs the next envelope of a list. `run` is its run on the opening ledger, which is kept if the ledger still has the same at
/// the keys of the footprint that it needs. If not, the envelope runs again.
fn run_next(
    alloc: Global,
    pass: &mut Pass,
    header: &Header,
    verdicts: &Verdicts,
    envelope: &Envelope,
    run: Run,
) -> Result<(), NoMemory>
    requires fits { envelope_format.fits envelope.now }
    requires spelled { IsRunSpelled run }
    requires settings { IsTrue (are_settings header.now.settings) }
    requires next { IsTrue (has_next header.now) }
    requires few { pass.old.kept < 18446744073709551615 }
    ensures next { OnOk result ((opening : LedgerMap) → IsRunOn header.now verdicts.now opening envelope.now run
        → AreMoved opening pass.old.entries pass.old.moved
        → IsNext header.now verdicts.now opening envelope.now pass.old pass.new) }
    ensures few { OnOk result (pass.new.kept ≤ pass.old.kept + 1) }
{
    if agrees(&pass.moved, &run.footprint) {
        put_in(alloc, pass, run.done)?;
        pass.kept += 1;
        return Ok(());
    }
    let ground = Lent {
        entries: &pass.entries,
    };
    let again = run_over(alloc, &ground, header, verdicts, envelope, None)?;
    put_in(alloc, pass, again.done)
}

/// Runs the envelopes of a list in order, each of which has run on the opening ledger.
pub(crate) fn run_in_order(
    alloc: Global,
    pass: &mut Pass,
    header: &Header,
    verdicts: &Verdicts,
    jobs: Vec<Job<'_>>,
) -> Result<(), NoMemory>
    requires done { (opening : LedgerMap) × All (IsDoneJob header.now verdicts.now opening) jobs.items }
    requires settings { IsTrue (are_settings header.now.settings) }
    requires next { IsTrue (has_next header.now) }
    requires few { length jobs.items ≤ 4294967295 }
    requires none { pass.old.kept ≡ 0 }
    ensures { OnOk result ((opening : LedgerMap) → All (IsDoneJob header.now verdicts.now opening) jobs.entry.items
        → AreMoved opening pass.old.entries pass.old.moved
        → IsPassed header.now verdicts.now opening (map envelope_of jobs.entry.items) pass.old pass.new) }
{
    for job in jobs {
        let Job { envelope, run } = job;
        run_next(alloc, pass, header, verdicts, envelope, run?)?;
    }
    Ok(())
}
