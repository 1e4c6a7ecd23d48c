//! Runs a transaction with an observer, and makes the lines that show what it did.

ghost use Rattle.std.specs.Prelude.{◌≡◌, ◌++◌, [], IfOk, IsTrue, OnOk};
ghost use Rattle.ledger_spec.specs.LedgerFile.{are_settings, has_next};
ghost use Rattle.tx_xdr.specs.Envelope.{envelope_format};
ghost use Rattle.apply_spec.specs.Runs.{running_header};
ghost use Rattle.apply_spec.specs.Enforced.{enforced};
ghost use Rattle.apply_spec.specs.Simulated.{simulated};
ghost use Rattle.apply_spec.specs.SimulationFile.{result_line};
ghost use Rattle.tx_apply.specs.Done.{effect_of, IsWithin};
ghost use Rattle.why_top.specs.Explained.{effect_by, ran_of, ran_with, ran_by, last_lines};
ghost use Rattle.why_top.specs.Explained.{Explains, EndsBy, EndsIn};
ghost use Rattle.run_trace.specs.Lines.{told_of};
ghost use Rattle.why_top.specs.Runs.{ShowsRun, IsRunOf};

use crate::counted::{archived_of, bytes_of, events_of};
use budget_meter::Used;
use entry_lookup::Ground;
use ledger_file::Ledger;
use ledger_types::{Header, LedgerKey, Verdicts};
use result_line::{push_codes, push_result, push_used};
use run_trace::{
    Bytes, Summary, Trace, document, push_archived, push_bytes, push_events, push_lines,
};
use std::alloc::{AllocError, Global};
use tx_apply::{Simulated, TxDone, enforce_watched, simulate_watched};
use tx_xdr::Envelope;
use why_words::Form;
use xdr_core::NoMemory;

/// How many bytes of keys and values a trace keeps at most.
const MOST_BYTES: u64 = 4_194_304;

/// A run, and what an observer kept of it.
#[derive(Drop)]
pub struct Run {
    pub done: TxDone,
    /// What the whole run took, also if a test stops it before it runs.
    pub used: Used,
    pub trace: Trace,
    /// The declared keys whose entries are archived, if they are why it was not run.
    pub archived: Vec<LedgerKey>,
    pub bytes: Option<Bytes>,
}

/// Runs an envelope over a ledger, and makes the lines to print. The last line is that of the result.
pub fn explain(
    alloc: Global,
    ledger: &Ledger,
    verdicts: &Verdicts,
    envelope: &Envelope,
    close_time: u64,
    form: Form,
) -> Result<Vec<u8>, NoMemory>
    requires envelope { envelope_format.fits envelope.now }
    requires settings { IsTrue (are_settings ledger.now.header.settings) }
    requires next { IsTrue (has_next ledger.now.header) }
    ensures last { IfOk result (λ v. EndsIn (result_line (effect_by form.recorded
        (running_header ledger.now.header close_time) verdicts.now ledger.now.entries envelope.now).result.result.outcome)
        v.items) }
    ensures explains { IfOk result (λ v. Explains form v.items (running_header ledger.now.header close_time) verdicts.now
        ledger.now.entries envelope.now) }
{
    let header = Header {
        close_time,
        ..ledger.header
    };
    explain_over(alloc, ledger, &header, verdicts, envelope, form)
}

/// The same over any entries, for the ledger that follows the one of this header. The header has the close time of the new one.
pub fn explain_over<G: Ground>(
    alloc: Global,
    ground: &G,
    header: &Header,
    verdicts: &Verdicts,
    envelope: &Envelope,
    form: Form,
) -> Result<Vec<u8>, NoMemory>
    requires envelope { envelope_format.fits envelope.now }
    requires settings { IsTrue (are_settings header.now.settings) }
    requires next { IsTrue (has_next header.now) }
    ensures last { IfOk result (λ v. EndsIn (result_line (effect_by form.recorded header.now verdicts.now (G.map ground.now)
        envelope.now).result.result.outcome) v.items) }
    ensures explains { IfOk result (λ v. Explains form v.items header.now verdicts.now (G.map ground.now) envelope.now) }
{
    let kept = watched(alloc, ground, header, verdicts, envelope, form)?;
    let lines = lines_of(alloc, &kept, form.json)?;
    Ok(lines)
}

/// Runs an envelope with an observer: with the footprint that its run needs, or with the one that it declares.
pub fn watched<G: Ground>(
    alloc: Global,
    ground: &G,
    header: &Header,
    verdicts: &Verdicts,
    envelope: &Envelope,
    form: Form,
) -> Result<Run, NoMemory>
    requires envelope { envelope_format.fits envelope.now }
    requires settings { IsTrue (are_settings header.now.settings) }
    requires next { IsTrue (has_next header.now) }
    ensures { IfOk result (λ run. IsRunOf run header.now verdicts.now (G.map ground.now)
        (ran_by form.recorded header.now verdicts.now (G.map ground.now) envelope.now)) }
{
    let trace = Trace::new(alloc, form.lines, MOST_BYTES)?;
    run_by(
        alloc,
        ground,
        header,
        verdicts,
        envelope,
        form.recorded,
        trace,
    )
}

/// The same with this observer.
fn run_by<G: Ground>(
    alloc: Global,
    ground: &G,
    header: &Header,
    verdicts: &Verdicts,
    envelope: &Envelope,
    recorded: bool,
    trace: Trace,
) -> Result<Run, NoMemory>
    requires envelope { envelope_format.fits envelope.now }
    requires settings { IsTrue (are_settings header.now.settings) }
    requires next { IsTrue (has_next header.now) }
    requires fresh { told_of trace ≡ [] }
    ensures { IfOk result (λ run. IsRunOf run header.now verdicts.now (G.map ground.now)
        (ran_by recorded header.now verdicts.now (G.map ground.now) envelope.now)) }
{
    if recorded {
        recorded_run(alloc, ground, header, verdicts, envelope, trace)
    } else {
        declared_run(alloc, ground, header, verdicts, envelope, trace)
    }
}

/// Runs an envelope with the footprint that its run needs.
fn recorded_run<G: Ground>(
    alloc: Global,
    ground: &G,
    header: &Header,
    verdicts: &Verdicts,
    envelope: &Envelope,
    trace: Trace,
) -> Result<Run, NoMemory>
    requires envelope { envelope_format.fits envelope.now }
    requires settings { IsTrue (are_settings header.now.settings) }
    requires next { IsTrue (has_next header.now) }
    requires fresh { told_of trace ≡ [] }
    ensures { IfOk result (λ run. IsRunOf run header.now verdicts.now (G.map ground.now)
        (ran_of (simulated header.now verdicts.now (G.map ground.now) envelope.now))) }
{
    let (simulated, trace) = simulate_watched(
        alloc, ground, header, verdicts, envelope, None, trace,
    )?;
    let Simulated {
        done,
        envelope,
        used,
        ..
    } = simulated;
    counted(
        alloc, ground, header, verdicts, &envelope, done, used, trace,
    )
}

/// Runs an envelope with the footprint that it declares.
fn declared_run<G: Ground>(
    alloc: Global,
    ground: &G,
    header: &Header,
    verdicts: &Verdicts,
    envelope: &Envelope,
    trace: Trace,
) -> Result<Run, NoMemory>
    requires envelope { envelope_format.fits envelope.now }
    requires settings { IsTrue (are_settings header.now.settings) }
    requires next { IsTrue (has_next header.now) }
    requires fresh { told_of trace ≡ [] }
    ensures { IfOk result (λ run. IsRunOf run header.now verdicts.now (G.map ground.now)
        (ran_with envelope.now (enforced header.now verdicts.now (G.map ground.now) envelope.now))) }
{
    let (done, trace) = enforce_watched(alloc, ground, header, verdicts, envelope, None, trace)?;
    let used = done.used;
    counted(alloc, ground, header, verdicts, envelope, done, used, trace)
}

/// A run with what counts of it.
fn counted<G: Ground>(
    alloc: Global,
    ground: &G,
    header: &Header,
    verdicts: &Verdicts,
    envelope: &Envelope,
    done: TxDone,
    used: Used,
    trace: Trace,
) -> Result<Run, NoMemory>
    requires envelope { envelope_format.fits envelope.now }
    requires settings { IsTrue (are_settings header.now.settings) }
    requires next { IsTrue (has_next header.now) }
    requires done { IsWithin done }
    requires trace { ShowsRun trace header.now verdicts.now (G.map ground.now) envelope.now }
    ensures { IfOk result (λ run. IsRunOf run header.now verdicts.now (G.map ground.now)
        (record { envelope = envelope.now; effect = effect_of done; used = used })) }
{
    let archived = archived_of(alloc, ground, header, envelope, &done)?;
    let bytes = bytes_of(alloc, ground, header, verdicts, envelope, &done)?;
    Ok(Run {
        done,
        used,
        trace,
        archived,
        bytes,
    })
}

/// The lines of a run: its trace, the events of its effect, what it read, wrote and used, and its result.
fn lines_of(alloc: Global, run: &Run, json: bool) -> Result<Vec<u8>, AllocError>
    ensures { IfOk result (λ v. EndsBy json v.items run.now.bytes run.now.used run.now.done.result.result.outcome) }
{
    if json {
        document_of(alloc, run)
    } else {
        text_of(alloc, run)
    }
}

/// The lines for a person.
fn text_of(alloc: Global, run: &Run) -> Result<Vec<u8>, AllocError>
    ensures { IfOk result (λ v. EndsIn (last_lines run.now.bytes run.now.used run.now.done.result.result.outcome) v.items) }
{
    let mut lines = Vec::new(alloc);
    push_lines(alloc, &mut lines, &run.trace.lines, run.trace.left_out)?;
    push_archived(alloc, &mut lines, &run.archived)?;
    push_events(alloc, &mut lines, events_of(&run.done))?;
    push_sums(&mut lines, run)?;
    Ok(lines)
}

/// Appends what a run read, wrote and used, and its result.
fn push_sums(lines: &mut Vec<u8>, run: &Run) -> Result<(), AllocError>
    ensures { OnOk result (lines.new.items ≡ lines.old.items ++ last_lines run.now.bytes run.now.used
        run.now.done.result.result.outcome) }
{
    push_bytes(lines, run.bytes)?;
    push_used(lines, run.used)?;
    push_result(lines, &run.done.result.result.outcome)
}

/// The line of the document of a run, and that of its result.
fn document_of(alloc: Global, run: &Run) -> Result<Vec<u8>, AllocError>
    ensures { IfOk result (λ v. EndsIn (result_line run.now.done.result.result.outcome) v.items) }
{
    let outcome = &run.done.result.result.outcome;
    let mut codes = Vec::new(alloc);
    push_codes(&mut codes, outcome)?;
    let trace = &run.trace;
    let summary = Summary {
        archived: run.archived.as_slice(),
        events: events_of(&run.done),
        bytes: run.bytes,
        used: run.used,
        codes: codes.as_slice(),
    };
    let text = document(alloc, &trace.lines, trace.left_out, summary)?;
    let mut lines = Vec::new(alloc);
    lines.extend_from_slice(text.as_bytes())?;
    lines.extend_from_slice(b"\n")?;
    push_result(&mut lines, outcome)?;
    Ok(lines)
}
