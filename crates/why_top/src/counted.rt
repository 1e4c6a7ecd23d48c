//! What counts of a call: the archived keys that it declares, its events, and the bytes that it reads and writes.

ghost use Rattle.std.specs.Prelude.{◌≡◌, All, IfOk, IsTrue};
ghost use Rattle.tx_xdr.specs.Ext.{ext_format};
ghost use Rattle.tx_xdr.specs.Envelope.{envelope_format, transaction_in};
ghost use Rattle.tx_xdr.specs.Soroban.{footprint_format};
ghost use Rattle.tx_results.specs.Results.{outcome_in as outcome_of};
ghost use Rattle.ledger_spec.specs.LedgerFile.{are_settings, has_next};
ghost use Rattle.call_spec.specs.World.{next_seq};
ghost use Rattle.apply_spec.specs.Enforced.{enforced};
ghost use Rattle.tx_apply.specs.Done.{effect_of, CanChange};
ghost use Rattle.why_top.specs.Counted.{invoke_cause, operation_cause, first_cause, cause_of as cause_in, begins_with_call};
ghost use Rattle.why_top.specs.Counted.{archived_by, archived_of as archived_keys_of, tx_unlimited, unlimited as unlimited_in};
ghost use Rattle.why_top.specs.Counted.{events_in, bytes_by, bytes_if, bytes_of as bytes_in};

use declared_bytes::{archived_keys, read_bytes, written_bytes};
use entry_lookup::Ground;
use invoke_types::ContractEvent;
use ledger_types::{Header, LedgerKey, Verdicts};
use run_trace::Bytes;
use stage_runs::Change;
use std::alloc::{AllocError, Global};
use tx_apply::{TxDone, enforce};
use tx_results::{EnvelopeOutcome, InnerResult, InvokeResult, OperationResult, TransactionOutcome};
use tx_xdr::{Envelope, Operation, OperationBody, SorobanData, Transaction, TransactionExt};
use xdr_core::NoMemory;

/// Why a call did not succeed.
#[derive(Clone, Copy, Debug, PartialEq, Eq)]
pub enum Cause {
    /// The entry of a declared key is archived.
    Archived,
    /// It exceeded a limit.
    Exceeded,
    /// Anything else; or it succeeded, or there is none.
    Other,
}

// ---- the cause

fn invoke_cause(invoked: &InvokeResult) -> Cause
    ensures { result ≡ invoke_cause invoked.now }
{
    match invoked {
        InvokeResult::EntryArchived => Cause::Archived,
        InvokeResult::ResourceLimitExceeded => Cause::Exceeded,
        InvokeResult::Success(_) | InvokeResult::Malformed | InvokeResult::Trapped => Cause::Other,
    }
}

fn operation_cause(done: &OperationResult) -> Cause
    ensures { result ≡ operation_cause done.now }
{
    match done {
        OperationResult::Inner(InnerResult::Invoke(invoked)) => invoke_cause(invoked),
        OperationResult::Inner(InnerResult::Extend(_)) | OperationResult::NotSupported => {
            Cause::Other
        }
    }
}

fn first_cause(results: &[OperationResult]) -> Cause
    ensures { result ≡ first_cause results.now }
{
    match results {
        [] => Cause::Other,
        [first, ..] => operation_cause(first),
    }
}

fn transaction_cause(outcome: &TransactionOutcome) -> Cause
    ensures { result ≡ cause_in outcome.now }
{
    match outcome {
        TransactionOutcome::Failed(results) => first_cause(results.as_slice()),
        TransactionOutcome::Success(_)
        | TransactionOutcome::TooEarly
        | TransactionOutcome::TooLate
        | TransactionOutcome::MissingOperation
        | TransactionOutcome::Malformed
        | TransactionOutcome::SorobanInvalid => Cause::Other,
    }
}

/// Why the call of an envelope did not succeed, by its result.
fn cause_of(outcome: &EnvelopeOutcome) -> Cause
    ensures { result ≡ cause_in (outcome_of outcome.now) }
{
    match outcome {
        EnvelopeOutcome::Transaction(outcome) => transaction_cause(outcome),
        EnvelopeOutcome::FeeBumpInnerSuccess(inner) => transaction_cause(&inner.result.outcome),
        EnvelopeOutcome::FeeBumpInnerFailed(inner) => transaction_cause(&inner.result.outcome),
    }
}

// ---- archived keys

/// The archived keys that an extension declares, if they are the cause.
#[tactic(auto, using(crate::proofs::Fitting::footprint_fits))]
fn archived_by<G: Ground>(
    alloc: Global,
    ground: &G,
    n: u32,
    ext: &TransactionExt,
    cause: Cause,
) -> Result<Vec<LedgerKey>, AllocError>
    requires { ext_format.fits ext.now }
    ensures { IfOk result (λ keys. keys.items ≡ archived_by n (G.map ground.now) ext.now cause) }
{
    match cause {
        Cause::Archived => match ext {
            TransactionExt::None => Ok(Vec::new(alloc)),
            TransactionExt::Soroban(resources) => {
                archived_keys(alloc, ground, n, &resources.footprint)
            }
        },
        Cause::Exceeded | Cause::Other => Ok(Vec::new(alloc)),
    }
}

/// The declared keys whose entries are archived, if the result of the call is ENTRY_ARCHIVED.
#[tactic(auto, using(crate::proofs::Fitting::ext_fits))]
pub fn archived_of<G: Ground>(
    alloc: Global,
    ground: &G,
    header: &Header,
    envelope: &Envelope,
    done: &TxDone,
) -> Result<Vec<LedgerKey>, AllocError>
    requires envelope { envelope_format.fits envelope.now }
    requires next { IsTrue (has_next header.now) }
    ensures { IfOk result (λ keys. keys.items
        ≡ archived_keys_of header.now (G.map ground.now) envelope.now (effect_of done.now)) }
{
    let cause = cause_of(&done.result.result.outcome);
    archived_by(
        alloc,
        ground,
        header.seq + 1,
        &envelope.transaction().ext,
        cause,
    )
}

// ---- events

/// The events of the call, if it succeeded. Those that were dropped with a failure that it caught are not among them.
pub fn events_of(done: &TxDone) -> &[ContractEvent]
    ensures { result.now ≡ events_in done.now.success }
{
    match &done.success {
        Some(success) => success.events.as_slice(),
        None => &[],
    }
}

// ---- bytes

/// Lets a transaction write as many bytes as can be declared.
fn lift(tx: &mut Transaction)
    ensures { tx.new ≡ tx_unlimited tx.old }
{
    if let TransactionExt::Soroban(resources) = &mut tx.ext {
        resources.write_bytes = u32::MAX;
    }
}

/// The envelope whose transaction may write as many bytes as can be declared, of a fee bump the inner one.
#[tactic(auto, using(crate::proofs::Fitting::unlimited_fits))]
fn unlimited(mut envelope: Envelope) -> Envelope
    requires { envelope_format.fits envelope }
    ensures with { result ≡ unlimited_in envelope }
    ensures fits { envelope_format.fits result }
{
    match &mut envelope {
        Envelope::Transaction(signed) => lift(&mut signed.tx),
        Envelope::FeeBump(signed) => lift(&mut signed.fee_bump.inner.tx),
    }
    envelope
}

/// Whether the first operation is a call.
fn begins_with_call(operations: &[Operation]) -> bool
    ensures { result ≡ begins_with_call operations.now }
{
    match operations {
        [] => false,
        [first, ..] => matches!(first.body, OperationBody::InvokeHostFunction { .. }),
    }
}

/// The bytes of a call with these resources and changes.
#[tactic(auto, using(crate::proofs::Fitting::can_count))]
fn bytes_by<G: Ground>(ground: &G, n: u32, changes: &[Change], resources: &SorobanData) -> Bytes
    requires footprint { footprint_format.fits resources.now.footprint }
    requires changes { All CanChange changes.now }
    ensures { result ≡ bytes_by n (G.map ground.now) changes.now resources.now }
{
    Bytes {
        read: read_bytes(ground, n, &resources.footprint),
        most_read: resources.disk_read_bytes,
        written: written_bytes(ground, n, changes),
        most_written: resources.write_bytes,
    }
}

/// The bytes of a transaction, if it calls.
#[tactic(auto, using(crate::proofs::Fitting::footprint_fits))]
fn bytes_if<G: Ground>(ground: &G, n: u32, tx: &Transaction, changes: &[Change]) -> Option<Bytes>
    requires ext { ext_format.fits tx.now.ext }
    requires changes { All CanChange changes.now }
    ensures { result
        ≡ bytes_if (begins_with_call tx.now.operations) n (G.map ground.now) changes.now tx.now.ext }
{
    match &tx.ext {
        TransactionExt::None => None,
        TransactionExt::Soroban(resources) => {
            if begins_with_call(tx.operations.as_slice()) {
                Some(bytes_by(ground, n, changes, resources))
            } else {
                None
            }
        }
    }
}

/// The bytes of a call that exceeded a limit. Its changes are not in its effect: it runs once more, and may write more bytes.
#[tactic(auto, using(crate::proofs::Fitting::ext_fits))]
fn exceeded_bytes<G: Ground>(
    alloc: Global,
    ground: &G,
    header: &Header,
    verdicts: &Verdicts,
    envelope: &Envelope,
) -> Result<Option<Bytes>, NoMemory>
    requires envelope { envelope_format.fits envelope.now }
    requires settings { IsTrue (are_settings header.now.settings) }
    requires next { IsTrue (has_next header.now) }
    ensures { IfOk result (λ bytes. bytes
        ≡ bytes_if (begins_with_call (transaction_in envelope.now).operations) (next_seq header.now) (G.map ground.now)
        (enforced header.now verdicts.now (G.map ground.now) (unlimited_in envelope.now)).changes
        (transaction_in envelope.now).ext) }
{
    let tx = envelope.transaction();
    let again = unlimited(envelope.clone()?);
    let lifted = enforce(alloc, ground, header, verdicts, &again, None)?;
    Ok(bytes_if(ground, header.seq + 1, tx, lifted.changes.as_slice()))
}

/// The bytes that a call reads and writes, beside its limits.
#[tactic(auto, using(crate::proofs::Fitting::ext_fits))]
pub fn bytes_of<G: Ground>(
    alloc: Global,
    ground: &G,
    header: &Header,
    verdicts: &Verdicts,
    envelope: &Envelope,
    done: &TxDone,
) -> Result<Option<Bytes>, NoMemory>
    requires envelope { envelope_format.fits envelope.now }
    requires settings { IsTrue (are_settings header.now.settings) }
    requires next { IsTrue (has_next header.now) }
    requires changes { All CanChange done.now.changes }
    ensures { IfOk result (λ bytes. bytes
        ≡ bytes_in header.now verdicts.now (G.map ground.now) envelope.now (effect_of done.now)) }
{
    let n = header.seq + 1;
    let tx = envelope.transaction();
    match cause_of(&done.result.result.outcome) {
        Cause::Exceeded => exceeded_bytes(alloc, ground, header, verdicts, envelope),
        Cause::Archived | Cause::Other => Ok(bytes_if(ground, n, tx, done.changes.as_slice())),
    }
}
