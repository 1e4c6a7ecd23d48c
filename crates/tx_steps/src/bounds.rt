//! The time and ledger bounds of a transaction.

ghost use Rattle.std.specs.Prelude.{◌≡◌, IsTrue};
ghost use Rattle.ledger_spec.specs.LedgerFile.{has_next};
ghost use Rattle.apply_spec.specs.Checks as checks;

use ledger_types::Header;
use tx_parts::{LedgerBounds, Preconditions, TimeBounds};
use tx_xdr::Transaction;

fn time_bounds_of(preconditions: &Preconditions) -> Option<TimeBounds>
    ensures { result ≡ checks.time_bounds_of preconditions.now }
{
    match preconditions {
        Preconditions::None => None,
        Preconditions::Time(bounds) => Some(*bounds),
        Preconditions::V2(more) => more.time_bounds,
    }
}

fn ledger_bounds_of(preconditions: &Preconditions) -> Option<LedgerBounds>
    ensures { result ≡ checks.ledger_bounds_of preconditions.now }
{
    match preconditions {
        Preconditions::None | Preconditions::Time(_) => None,
        Preconditions::V2(more) => more.ledger_bounds,
    }
}

fn is_before_time(close_time: u64, bounds: Option<TimeBounds>) -> bool
    ensures { result ≡ checks.is_before_time close_time bounds }
{
    match bounds {
        Some(bounds) => close_time < bounds.min_time,
        None => false,
    }
}

fn is_after_time(close_time: u64, bounds: Option<TimeBounds>) -> bool
    ensures { result ≡ checks.is_after_time close_time bounds }
{
    match bounds {
        Some(bounds) => bounds.max_time != 0 && bounds.max_time < close_time,
        None => false,
    }
}

fn is_before_ledger(n: u32, bounds: Option<LedgerBounds>) -> bool
    ensures { result ≡ checks.is_before_ledger n bounds }
{
    match bounds {
        Some(bounds) => n < bounds.min_ledger,
        None => false,
    }
}

fn is_after_ledger(n: u32, bounds: Option<LedgerBounds>) -> bool
    ensures { result ≡ checks.is_after_ledger n bounds }
{
    match bounds {
        Some(bounds) => bounds.max_ledger != 0 && bounds.max_ledger <= n,
        None => false,
    }
}

/// Whether the next ledger is too early for the transaction (txTOO_EARLY).
pub fn is_too_early(header: &Header, tx: &Transaction) -> bool
    requires { IsTrue (has_next header.now) }
    ensures { result ≡ checks.is_too_early header.now tx.now }
{
    is_before_time(header.close_time, time_bounds_of(&tx.preconditions))
        || is_before_ledger(header.seq + 1, ledger_bounds_of(&tx.preconditions))
}

/// Whether the next ledger is too late for the transaction (txTOO_LATE).
pub fn is_too_late(header: &Header, tx: &Transaction) -> bool
    requires { IsTrue (has_next header.now) }
    ensures { result ≡ checks.is_too_late header.now tx.now }
{
    is_after_time(header.close_time, time_bounds_of(&tx.preconditions))
        || is_after_ledger(header.seq + 1, ledger_bounds_of(&tx.preconditions))
}
