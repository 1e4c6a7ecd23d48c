//! Failures that leave the state as it was.

ghost use Rattle.std.specs.Prelude.{◌≡◌, ◌≤◌, length, Ok, IfOk, IfErr, OnOk, OnErr};
ghost use Rattle.value_types.specs.Datum.{Datum, error as error_datum};
ghost use Rattle.value_types.specs.Views.{datum};
ghost use Rattle.host_spec.specs.Hosted.{IsHosted};
ghost use Rattle.call_spec.specs.World.{Env};
ghost use Rattle.call_spec.specs.Acts.{Act};
ghost use Rattle.call_spec.specs.Calling.{catching, undoing};
ghost use Rattle.call_spec.specs.Frames.{passed_on as passed_on_in};
ghost use Rattle.call_host.specs.Worlds.{DoesAround, Stays};
ghost use Rattle.call_host.specs.Undone.{opened, IsMark, IsWithin, IsBack, IsReleasedHost, IsHalfReleasedHost};
ghost use Rattle.call_host.specs.Undone.{Undoes, Catches};
ghost use Rattle.call_host.specs.declared.host.Host.{Host as Host'};
ghost use Rattle.host_ledger.specs.Spelled.{IsKeySpelled};

use crate::errors::HIDDEN_ERROR;
use crate::host::Host;
use auth_spec::Point as MarksPoint;
use auth_trees::Authority;
use contract_storage::Watch;
use entry_lookup::Ground;
use host_spec::HostErr;
use value_types::{ScError, ScVal};

/// What a failure goes back to, beside the newest snapshot of the storage.
#[derive(Clone, Copy)]
pub struct Mark {
    /// The number of events.
    pub events: usize,
    pub marks: MarksPoint,
}

impl<'a, G: Ground, A: Authority, W: Watch> Host<'a, G, A, W> {
    /// Opens a snapshot of the ledger, and notes how many events and used authorisations there are. `ended` or `caught` closes
    /// it.
    pub fn mark(&mut self) -> Result<Mark, HostErr>
        ensures mark { IfOk result (λ mark. IsMark mark self.old) }
        ensures ok { OnOk result (self.new ≡ opened self.old) }
        ensures memory { IfErr result (λ e. e ≡ HostErr.NoMemory) }
        ensures err { OnErr result (self.new ≡ self.old) }
    {
        if self.ledger.storage.snapshot().is_err() {
            return Err(HostErr::NoMemory);
        }
        Ok(Mark {
            events: self.ledger.events.len(),
            marks: self.marks.snapshot(),
        })
    }

    /// Goes back to the ledger's entries at the newest snapshot, which is closed, and to the events and the used authorisations
    /// of a mark. It takes no memory.
    fn restore(&mut self, mark: Mark)
        requires { IsWithin mark self.old }
        ensures { IsBack mark self.old self.new }
    {
        self.ledger.storage.restore();
        self.ledger.events.truncate(mark.events);
        self.marks.restore(mark.marks);
    }

    /// Closes the newest snapshot, and keeps the writes since. If memory runs out, each key has its entry before the call, or
    /// that at the snapshot.
    fn release(&mut self) -> Result<(), HostErr>
        requires { 1 ≤ length self.old.ledger.storage.snapshots }
        ensures ok { OnOk result (IsReleasedHost self.old self.new) }
        ensures memory { IfErr result (λ e. e ≡ HostErr.NoMemory) }
        ensures err { OnErr result (IsHalfReleasedHost self.old self.new) }
    {
        match self.ledger.storage.release() {
            Ok(()) => Ok(()),
            Err(_) => Err(HostErr::NoMemory),
        }
    }
}

/// Goes back to a mark if the end is a failure, and else releases the snapshot. Returns the end, unless memory runs out.
fn undo<G: Ground, A: Authority, W: Watch>(
    host: &mut Host<'_, G, A, W>,
    mark: Mark,
    error: HostErr,
) -> HostErr
    requires { IsWithin mark host.old }
    ensures { Undoes mark error result host.old host.new }
{
    match error {
        HostErr::Failed(failure) => {
            host.restore(mark);
            HostErr::Failed(failure)
        }
        error => match host.release() {
            Ok(()) => error,
            Err(_) => HostErr::NoMemory,
        },
    }
}

/// Ends what a mark began. After a failure the state is that of the mark. After any other end the snapshot of the mark is
/// released. Returns the result, unless memory runs out.
pub fn ended<T: Drop, G: Ground, A: Authority, W: Watch>(
    host: &mut Host<'_, G, A, W>,
    mark: Mark,
    made: Result<T, HostErr>,
) -> Result<T, HostErr>
    requires { IsWithin mark host.old }
    ensures does { (view : T → Datum) (start : Host' G A W) (act : Env → Act Datum) → IsMark mark start
        → Stays (opened start) host.old → DoesAround made view act start host.old
        → DoesAround result view (λ env. undoing (act env)) start host.new }
    ensures stays { (start : Host' G A W) → IsMark mark start → Stays (opened start) host.old → Stays start host.new }
    ensures value { IfOk result (λ value. made ≡ Ok value) }
    ensures key { IfErr made IsKeySpelled → IfErr result IsKeySpelled }
{
    match made {
        Ok(value) => {
            host.release()?;
            Ok(value)
        }
        Err(error) => Err(undo(host, mark, error)),
    }
}

/// An error of a contract.
fn contract_error(code: u32) -> ScError
    ensures error { result ≡ ScError.Contract code }
    ensures hosted { IsHosted (error_datum result) }
{
    ScError::Contract(code)
}

/// The error that a failed call shows to the contract that called.
fn passed_on(error: ScError) -> ScError
    ensures passed_on { result ≡ passed_on_in error }
    ensures hosted { IsHosted (error_datum result) }
{
    match error {
        ScError::Contract(code) => contract_error(code),
        _ => HIDDEN_ERROR,
    }
}

/// Goes back to a mark if the end is a failure, and returns the value of its error. Else it releases the snapshot, and returns
/// the end, unless memory runs out.
fn caught_end<G: Ground, A: Authority, W: Watch>(
    host: &mut Host<'_, G, A, W>,
    mark: Mark,
    error: HostErr,
) -> Result<ScVal, HostErr>
    requires { IsWithin mark host.old }
    ensures catches { Catches mark error result host.old host.new }
    ensures hosted { IfOk result (λ value. IsHosted (datum value)) }
    ensures key { IsKeySpelled error → IfErr result IsKeySpelled }
{
    match error {
        HostErr::Failed(failure) => {
            host.restore(mark);
            Ok(ScVal::Error(passed_on(failure)))
        }
        error => match host.release() {
            Ok(()) => Err(error),
            Err(_) => Err(HostErr::NoMemory),
        },
    }
}

/// Catches a failure: the value of its error comes in its place, and the state is that of the mark. Any other end stays as it is,
/// and the snapshot of the mark is released, unless memory runs out.
pub fn caught<G: Ground, A: Authority, W: Watch>(
    host: &mut Host<'_, G, A, W>,
    mark: Mark,
    made: Result<ScVal, HostErr>,
) -> Result<ScVal, HostErr>
    requires made { IfOk made (λ value. IsHosted (datum value)) }
    requires room { IsWithin mark host.old }
    ensures does { (start : Host' G A W) (act : Env → Act Datum) → IsMark mark start → Stays (opened start) host.old
        → DoesAround made datum act start host.old
        → DoesAround result datum (λ env. catching (act env)) start host.new }
    ensures stays { (start : Host' G A W) → IsMark mark start → Stays (opened start) host.old → Stays start host.new }
    ensures hosted { IfOk result (λ value. IsHosted (datum value)) }
    ensures key { IfErr made IsKeySpelled → IfErr result IsKeySpelled }
{
    match made {
        Ok(value) => {
            host.release()?;
            Ok(value)
        }
        Err(error) => caught_end(host, mark, error),
    }
}
