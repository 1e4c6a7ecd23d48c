//! What is said of a run after its lines.

ghost use Rattle.std.specs.Prelude.{◌≡◌, ◌++◌, OnOk};
ghost use Rattle.run_trace.specs.Summed.{share, bytes_line, bytes_lines};

use budget_meter::Used;
use invoke_types::ContractEvent;
use ledger_types::LedgerKey;
use std::alloc::AllocError;
use text_lines::push_number;

/// The bytes that count of a call, beside the limits that its transaction declares.
#[derive(Clone, Copy, Debug, PartialEq, Eq)]
pub struct Bytes {
    pub read: u64,
    pub most_read: u32,
    pub written: u64,
    pub most_written: u32,
}

/// What is said of a run after its lines.
#[derive(Clone, Copy)]
pub struct Summary<'s> {
    /// The declared keys whose entries are archived, if the call was not run for them.
    pub archived: &'s [LedgerKey],
    /// The events of the effect.
    pub events: &'s [ContractEvent],
    /// Only a call reads and writes bytes.
    pub bytes: Option<Bytes>,
    /// What the run took.
    pub used: Used,
    /// The codes of the result.
    pub codes: &'s [u8],
}

/// Appends `N of M`, and what follows.
#[tactic(auto, unfolding(crate::specs::Summed::share))]
fn push_share(out: &mut Vec<u8>, number: u64, most: u32, after: &[u8]) -> Result<(), AllocError>
    ensures { OnOk result (out.new.items ≡ out.old.items ++ share number most after.now) }
{
    push_number(out, number, b" of ")?;
    push_number(out, u64::from(most), after)
}

/// Appends `bytes R of L read, W of M written`.
fn push_bytes_line(out: &mut Vec<u8>, bytes: Bytes) -> Result<(), AllocError>
    ensures { OnOk result (out.new.items ≡ out.old.items ++ bytes_line bytes) }
{
    out.extend_from_slice(b"bytes ")?;
    push_share(out, bytes.read, bytes.most_read, b" read, ")?;
    push_share(out, bytes.written, bytes.most_written, b" written\n")
}

/// Appends the line of the bytes, if there are any.
pub fn push_bytes(out: &mut Vec<u8>, bytes: Option<Bytes>) -> Result<(), AllocError>
    ensures { OnOk result (out.new.items ≡ out.old.items ++ bytes_lines bytes) }
{
    match bytes {
        Some(bytes) => push_bytes_line(out, bytes),
        None => Ok(()),
    }
}
