//! The checks of a transaction before it runs.

ghost use Rattle.std.specs.Prelude.{◌≡◌, All, IfOk, IsTrue};
ghost use Rattle.ledger_types.specs.Key.{key_format};
ghost use Rattle.ledger_spec.specs.LedgerFile.{has_next};
ghost use Rattle.apply_spec.specs.Checks.{refusal_of as refusal_in, first_failed, form_checks, footprint_checks, footprint_of};
ghost use Rattle.apply_spec.specs.Checks.{is_soroban as is_soroban_in};

use crate::bounds::{is_too_early, is_too_late};
use crate::footprint::{may_be_footprint, read_only_of, read_write_of};
use ledger_types::Header;
use std::alloc::Global;
use tx_results::TransactionOutcome;
use tx_xdr::{Transaction, TransactionExt};
use xdr_core::NoMemory;

fn is_soroban(ext: &TransactionExt) -> bool
    ensures { result ≡ is_soroban_in ext.now }
{
    matches!(ext, TransactionExt::Soroban(_))
}

/// Returns the result code of the first check that fails, of all but the footprint's.
pub fn form_refusal(header: &Header, tx: &Transaction) -> Option<TransactionOutcome>
    requires { IsTrue (has_next header.now) }
    ensures { result ≡ first_failed (form_checks header.now tx.now) }
{
    let operations = tx.operations.as_slice();
    if operations.is_empty() {
        return Some(TransactionOutcome::MissingOperation);
    }
    if is_too_early(header, tx) {
        return Some(TransactionOutcome::TooEarly);
    }
    if is_too_late(header, tx) {
        return Some(TransactionOutcome::TooLate);
    }
    if operations.len() > 1 || !is_soroban(&tx.ext) {
        return Some(TransactionOutcome::Malformed);
    }
    None
}

/// Returns the result code of the footprint's check, if it fails.
pub fn footprint_refusal(
    alloc: Global,
    tx: &Transaction,
) -> Result<Option<TransactionOutcome>, NoMemory>
    requires read_only { All (λ key. key_format.fits key) (footprint_of tx.now).read_only }
    requires read_write { All (λ key. key_format.fits key) (footprint_of tx.now).read_write }
    ensures { IfOk result (λ outcome. outcome ≡ first_failed (footprint_checks tx.now)) }
{
    if may_be_footprint(alloc, read_only_of(tx), read_write_of(tx))? {
        Ok(None)
    } else {
        Ok(Some(TransactionOutcome::SorobanInvalid))
    }
}

/// Returns the result code of the first check that fails.
#[tactic(auto, using(crate::proofs::Checked::refused_first, crate::proofs::Checked::passed_first))]
pub fn refusal_of(
    alloc: Global,
    header: &Header,
    tx: &Transaction,
) -> Result<Option<TransactionOutcome>, NoMemory>
    requires read_only { All (λ key. key_format.fits key) (footprint_of tx.now).read_only }
    requires read_write { All (λ key. key_format.fits key) (footprint_of tx.now).read_write }
    requires next { IsTrue (has_next header.now) }
    ensures { IfOk result (λ outcome. outcome ≡ refusal_in header.now tx.now) }
{
    match form_refusal(header, tx) {
        Some(outcome) => Ok(Some(outcome)),
        None => footprint_refusal(alloc, tx),
    }
}
