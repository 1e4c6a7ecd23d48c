//! Records the authorisation entries of a transaction.

ghost use Rattle.std.specs.Prelude.{◌≡◌, ◌≢◌, ◌≤◌, ◌^◌, ◌&&◌, [], false, IfOk, IsTrue, nat_lt, if◌then◌else◌};
ghost use Rattle.std.specs.Option.{option_map};
ghost use Rattle.value_types.specs.Views.{datum, datums};
ghost use Rattle.host_spec.specs.Hosted.{AreHosted};
ghost use Rattle.ledger_spec.specs.LedgerFile.{are_settings, has_next};
ghost use Rattle.invoke_types.specs.HostFunction.{host_function_format};
ghost use Rattle.call_spec.specs.WholeRuns.{work_of};
ghost use Rattle.tx_xdr.specs.Envelope.{envelope_format, transaction_in};
ghost use Rattle.tx_xdr.specs.Operation.{body_format};
ghost use Rattle.tx_xdr.specs.Transaction.{transaction_format};
ghost use Rattle.tx_apply.specs.Jobs.{work_in, values_in, IsSpelled};
ghost use Rattle.tx_apply.specs.Recording.{ran_out};
ghost use Rattle.record_spec.specs.Agreed.{IsEnough};
ghost use Rattle.record_spec.specs.Recorded.{recording, recorded, recorded_at, recorded_of, nothing_recorded, ran_by, body_run};
ghost use Rattle.auth_record.specs.Given.{terms_in};
ghost use Rattle.auth_record.specs.Views.{recorded_in, recorded_with, has_failed, value_in, entered_recording, IsSpelledRow};

use crate::spelled::entries_fit;
use crate::trees::{Terms, entries_of};
use auth_notes::Recorder;
use auth_types::AuthEntry;
use budget_meter::Budget;
use code_cache::Cache;
use contract_storage::{NoWatch, Storage};
use entry_lookup::Ground;
use host_spec::{HostErr, ValueErr};
use invoke_types::HostFunction;
use ledger_types::{Header, Verdicts};
use std::alloc::Global;
use tx_apply::{Host, Job, budget_of, enter_all, job_of, refusal_of, run_job, source_of, values};
use tx_xdr::{Envelope, Operation, OperationBody, Transaction, TransactionExt};
use value_types::{AccountId, Items, ScVal};
use xdr_core::NoMemory;

/// The authorisation entries that a transaction needs.
#[derive(Drop)]
pub struct Recorded {
    /// In the order in which their first demands came.
    pub entries: Items<AuthEntry, 4294967295>,
    /// Whether there was a demand in a call whose failure was caught.
    pub caught: bool,
    /// The value of the run, if it ended well.
    pub value: Option<ScVal>,
}

/// Nothing ran.
#[tactic(auto, unfolding(xdr_spec::specs::Format::list))]
fn nothing(alloc: Global) -> Recorded
    ensures nothing { recorded_in result ≡ nothing_recorded }
    ensures fits { IsSpelledRow result.entries }
{
    Recorded {
        entries: Items::from_vec(Vec::new(alloc)),
        caught: false,
        value: None,
    }
}

/// Whether a run failed. Then the run itself was undone.
fn has_failed(end: &Result<ScVal, HostErr>) -> bool
    ensures { result ≡ has_failed end.now }
{
    match end {
        Ok(_value) => false,
        Err(end) => matches!(end, HostErr::Failed(_)),
    }
}

/// The number of failures that were undone, but were not caught: 1 if the run failed with demands in it.
fn own_undone(failed: bool, demands: usize) -> usize
    ensures { result ≡ (if failed && nat_lt 0 demands then 1 else 0) }
{
    if failed && 0 < demands { 1 } else { 0 }
}

/// Returns the value of a run, if it has one.
fn value_in(end: Result<ScVal, HostErr>) -> Result<Option<ScVal>, NoMemory>
    ensures ended { IfOk result (λ _. ran_out end ≡ false) }
    ensures value { IfOk result (λ value. option_map datum value ≡ value_in end) }
{
    match end {
        Ok(value) => Ok(Some(value)),
        Err(end) => match end {
            HostErr::NoMemory => Err(NoMemory),
            _ => Ok(None),
        },
    }
}

/// What was recorded in a run that ended so. A run that fails is undone itself, which is no failure that was caught.
///
/// Each function that a contract demands has a spelling, but no contract says it, so it is tested here. Where it had none, this
/// would run out of memory.
fn recorded_with(
    alloc: Global,
    recorder: Recorder,
    source: AccountId,
    terms: Terms,
    end: Result<ScVal, HostErr>,
) -> Result<Recorded, NoMemory>
    ensures ended { IfOk result (λ _. ran_out end ≡ false) }
    ensures recorded { IfOk result (λ r. recorded_in r
        ≡ recorded_with (terms_in terms) source (value_in end) (has_failed end) recorder.noted) }
    ensures fits { IfOk result (λ r. IsSpelledRow r.entries) }
{
    let own = own_undone(has_failed(&end), recorder.demands());
    let value = value_in(end)?;
    let caught = own < recorder.undone();
    let notes = recorder.into_notes();
    let entries = entries_of(alloc, notes.as_slice(), source, terms)?;
    if !entries_fit(entries.as_slice()) {
        return Err(NoMemory);
    }
    Ok(Recorded {
        entries: Items::from_vec(entries),
        caught,
        value,
    })
}

/// No signatures.
fn no_verdicts(alloc: Global) -> Verdicts
    ensures { result ≡ record { pairs = [] } }
{
    Verdicts {
        pairs: Items::from_vec(Vec::new(alloc)),
    }
}

/// Runs a host function whose arguments have entered the host, and records its demands.
fn run<G: Ground>(
    alloc: Global,
    ground: &G,
    header: &Header,
    source: AccountId,
    terms: Terms,
    job: &Job<'_>,
    budget: Budget,
    codes: Option<&Cache<'_>>,
) -> Result<Recorded, NoMemory>
    requires spelled { IsSpelled job.now }
    requires hosted { AreHosted (datums (values_in job.now)) }
    requires settings { IsTrue (are_settings header.now.settings) }
    requires next { IsTrue (has_next header.now) }
    ensures recorded { IfOk result (λ r. recorded_in r ≡ recorded_at (terms_in terms) source
        (entered_recording header.now source budget (work_in job.now) (G.map ground.now))) }
    ensures fits { IfOk result (λ r. IsSpelledRow r.entries) }
{
    let verdicts = no_verdicts(alloc);
    let storage = Storage::recording(alloc, ground, header.seq + 1, &header.settings, NoWatch);
    let recorder = Recorder::new(alloc, source);
    let mut host = Host::new(alloc, storage, header, budget, recorder, &verdicts, codes);
    let end = run_job(alloc, &mut host, job);
    let Host { marks, .. } = host;
    recorded_with(alloc, marks.into_authority(), source, terms, end)
}

/// Nothing is recorded of a host function whose arguments do not enter the host.
fn not_entered(alloc: Global, error: ValueErr) -> Result<Recorded, NoMemory>
    ensures ended { IfOk result (λ _. error ≢ ValueErr.NoMemory) }
    ensures nothing { IfOk result (λ r. recorded_in r ≡ nothing_recorded) }
    ensures fits { IfOk result (λ r. IsSpelledRow r.entries) }
{
    match error {
        ValueErr::NoMemory => Err(NoMemory),
        ValueErr::Failed(_) | ValueErr::Spent => Ok(nothing(alloc)),
    }
}

/// Runs a host function, its arguments first, and records its demands.
fn record_job<G: Ground>(
    alloc: Global,
    ground: &G,
    header: &Header,
    instructions: u32,
    source: AccountId,
    terms: Terms,
    job: &Job<'_>,
    codes: Option<&Cache<'_>>,
) -> Result<Recorded, NoMemory>
    requires spelled { IsSpelled job.now }
    requires settings { IsTrue (are_settings header.now.settings) }
    requires next { IsTrue (has_next header.now) }
    ensures recorded { IfOk result (λ r. recorded_in r ≡ recorded_at (terms_in terms) source
        (recording header.now source instructions (work_in job.now) (G.map ground.now))) }
    ensures fits { IfOk result (λ r. IsSpelledRow r.entries) }
{
    let mut budget = budget_of(&header.settings, instructions);
    match enter_all(&mut budget, values(job)) {
        Ok(()) => run(alloc, ground, header, source, terms, job, budget, codes),
        Err(error) => not_entered(alloc, error),
    }
}

/// Records INVOKE_HOST_FUNCTION.
fn record_call<G: Ground>(
    alloc: Global,
    ground: &G,
    header: &Header,
    instructions: u32,
    source: AccountId,
    terms: Terms,
    function: &HostFunction,
    codes: Option<&Cache<'_>>,
) -> Result<Recorded, NoMemory>
    requires function { host_function_format.fits function.now }
    requires settings { IsTrue (are_settings header.now.settings) }
    requires next { IsTrue (has_next header.now) }
    ensures recorded { IfOk result (λ r. recorded_in r ≡ recorded_of header.now (terms_in terms) (G.map ground.now)
        (option_map (ran_by source instructions) (work_of function.now))) }
    ensures fits { IfOk result (λ r. IsSpelledRow r.entries) }
{
    match job_of(function) {
        None => Ok(nothing(alloc)),
        Some(job) => record_job(
            alloc,
            ground,
            header,
            instructions,
            source,
            terms,
            &job,
            codes,
        ),
    }
}

/// Records the only operation of a transaction that passed its checks.
fn record_operation<G: Ground>(
    alloc: Global,
    ground: &G,
    header: &Header,
    tx: &Transaction,
    operation: &Operation,
    terms: Terms,
    codes: Option<&Cache<'_>>,
) -> Result<Recorded, NoMemory>
    requires body { body_format.fits operation.now.body }
    requires settings { IsTrue (are_settings header.now.settings) }
    requires next { IsTrue (has_next header.now) }
    ensures recorded { IfOk result (λ r. recorded_in r ≡ recorded_of header.now (terms_in terms) (G.map ground.now)
        (body_run tx.now tx.now.ext operation.now.source operation.now.body)) }
    ensures fits { IfOk result (λ r. IsSpelledRow r.entries) }
{
    let TransactionExt::Soroban(resources) = &tx.ext else {
        return Ok(nothing(alloc));
    };
    let OperationBody::InvokeHostFunction { host_function, .. } = &operation.body else {
        return Ok(nothing(alloc));
    };
    record_call(
        alloc,
        ground,
        header,
        resources.instructions,
        source_of(tx, operation.source),
        terms,
        host_function,
        codes,
    )
}

/// Records a transaction that stands in an envelope.
fn record_transaction<G: Ground>(
    alloc: Global,
    ground: &G,
    header: &Header,
    tx: &Transaction,
    terms: Terms,
    codes: Option<&Cache<'_>>,
) -> Result<Recorded, NoMemory>
    requires fits { transaction_format.fits tx.now }
    requires settings { IsTrue (are_settings header.now.settings) }
    requires next { IsTrue (has_next header.now) }
    ensures recorded { IfOk result (λ r. recorded_in r ≡ recorded header.now (terms_in terms) (G.map ground.now) tx.now) }
    ensures fits { IfOk result (λ r. IsSpelledRow r.entries) }
{
    if refusal_of(alloc, header, tx)?.is_some() {
        return Ok(nothing(alloc));
    }
    match tx.operations.as_slice() {
        [] => Ok(nothing(alloc)),
        [operation, ..] => record_operation(alloc, ground, header, tx, operation, terms, codes),
    }
}

/// Records as `record_auth` does. `codes` keeps each code that it loads for later runs.
pub fn record_auth_with<G: Ground>(
    alloc: Global,
    ground: &G,
    header: &Header,
    tx: &Envelope,
    nonce: u64,
    expiration: u32,
    codes: Option<&Cache<'_>>,
) -> Result<Recorded, NoMemory>
    requires fits { envelope_format.fits tx.now }
    requires settings { IsTrue (are_settings header.now.settings) }
    requires next { IsTrue (has_next header.now) }
    requires nonce { nonce ≤ 2 ^ 62 }
    ensures recorded { IfOk result (λ r. recorded_in r ≡ recorded header.now
        (record { nonce = nonce; expiration = expiration }) (G.map ground.now) (transaction_in tx.now)) }
    ensures fits { IfOk result (λ r. IsSpelledRow r.entries) }
    ensures enough { IfOk result (λ r. IsEnough header.now (record { nonce = nonce; expiration = expiration }) (G.map ground.now)
        (transaction_in tx.now) (recorded_in r)) }
{
    let terms = Terms { nonce, expiration };
    record_transaction(alloc, ground, header, tx.transaction(), terms, codes)
}

/// Finds the authorisation entries that the transaction of an envelope needs over the entries of a ledger, by one run that knows
/// no footprint and no entries. Of a fee bump that is the inner transaction. A transaction that runs nothing needs none: one that
/// a check rejects, another operation, or a malformed call.
///
/// `header` is that of the previous ledger, with the close time of the ledger that is being made. Each entry of the source
/// account has SOURCE_ACCOUNT credentials. The k-th other entry, from 0, has the nonce `nonce` + k. Its signature is Void, to be
/// put in, and is valid up to the ledger `expiration`.
///
/// Where no demand stood in a call whose failure was caught, the transaction with these entries, signed, does what was recorded.
pub fn record_auth<G: Ground>(
    alloc: Global,
    ground: &G,
    header: &Header,
    tx: &Envelope,
    nonce: u64,
    expiration: u32,
) -> Result<Recorded, NoMemory>
    requires fits { envelope_format.fits tx.now }
    requires settings { IsTrue (are_settings header.now.settings) }
    requires next { IsTrue (has_next header.now) }
    requires nonce { nonce ≤ 2 ^ 62 }
    ensures recorded { IfOk result (λ r. recorded_in r ≡ recorded header.now
        (record { nonce = nonce; expiration = expiration }) (G.map ground.now) (transaction_in tx.now)) }
    ensures fits { IfOk result (λ r. IsSpelledRow r.entries) }
    ensures enough { IfOk result (λ r. IsEnough header.now (record { nonce = nonce; expiration = expiration }) (G.map ground.now)
        (transaction_in tx.now) (recorded_in r)) }
{
    record_auth_with(alloc, ground, header, tx, nonce, expiration, None)
}
