//! What becomes of pending extensions before a transaction runs.

ghost use Rattle.std.specs.Prelude.{◌≡◌, not, IfOk, OnOk, filter};
ghost use Rattle.tx_xdr.specs.Envelope.{envelope_format};
ghost use Rattle.stage_runs.specs.Runs.{is_written, put_all_in};
ghost use Rattle.set_steps.specs.Lives.{AreLives};

use crate::lives::Life;
use crate::pending::Pending;
use ledger_parts::Entries;
use std::alloc::Global;
use tx_steps::read_write_of;
use tx_xdr::Envelope;
use xdr_core::NoMemory;

/// Puts in the pending extensions of the keys that a transaction declares read-write. Returns the lives before, where there were
/// any.
pub fn put_written<E: Entries>(
    alloc: Global,
    entries: &mut E,
    pending: &mut Pending,
    envelope: &Envelope,
) -> Result<Vec<Life>, NoMemory>
    requires { envelope_format.fits envelope.now }
    ensures entries { OnOk result (E.own entries.new ≡ put_all_in (E.own entries.old)
        (filter (is_written envelope.now) pending.old)) }
    ensures pending { OnOk result (pending.new ≡ filter (λ e. not (is_written envelope.now e)) pending.old) }
    ensures shown { OnOk result (E.shown entries.new ≡ E.shown entries.old) }
    ensures lives { IfOk result (λ lives. AreLives (E.map entries.old) (E.map entries.new) lives.items) }
{
    let keys = read_write_of(envelope.transaction());
    let mut lives = Vec::new(alloc);
    for key in keys {
        pending.put_in(alloc, entries, key, &mut lives)?;
    }
    Ok(lives)
}
