//! The keys that transactions and clusters declare.

ghost use Rattle.std.specs.Prelude.{◌≡◌};
ghost use Rattle.stage_runs.specs.Transactions.{declared_by};
ghost use Rattle.stage_plan.specs.Listed.{lists_write, lists, some_write, some_list, meet_at_key};

use ledger_types::LedgerKey;
use tx_xdr::{Cluster, Envelope, TransactionExt};

/// Returns the keys that a transaction declares read-only.
pub fn read_only_of(envelope: &Envelope) -> &[LedgerKey]
    ensures { result.now ≡ (declared_by envelope.now).read_only }
{
    match &envelope.transaction().ext {
        TransactionExt::None => &[],
        TransactionExt::Soroban(soroban) => soroban.footprint.read_only.as_slice(),
    }
}

/// Returns the keys that a transaction declares read-write.
pub fn read_write_of(envelope: &Envelope) -> &[LedgerKey]
    ensures { result.now ≡ (declared_by envelope.now).read_write }
{
    match &envelope.transaction().ext {
        TransactionExt::None => &[],
        TransactionExt::Soroban(soroban) => soroban.footprint.read_write.as_slice(),
    }
}

/// Whether a transaction declares a key read-write.
fn writes(envelope: &Envelope, key: &LedgerKey) -> bool
    ensures { result ≡ lists_write envelope.now key.now }
{
    read_write_of(envelope).contains(key)
}

/// Whether a transaction declares a key, read-only or read-write.
fn declares(envelope: &Envelope, key: &LedgerKey) -> bool
    ensures { result ≡ lists envelope.now key.now }
{
    read_only_of(envelope).contains(key) || writes(envelope, key)
}

/// Whether some transaction of a cluster declares a key read-write.
fn writes_in(cluster: &Cluster, key: &LedgerKey) -> bool
    ensures { result ≡ some_write cluster.now.envelopes key.now }
{
    cluster
        .envelopes
        .as_slice()
        .iter()
        .any(|envelope| writes(envelope, key))
}

/// Whether some transaction of a cluster declares a key.
fn declares_in(cluster: &Cluster, key: &LedgerKey) -> bool
    ensures { result ≡ some_list cluster.now.envelopes key.now }
{
    cluster
        .envelopes
        .as_slice()
        .iter()
        .any(|envelope| declares(envelope, key))
}

/// Whether one of two clusters declares a key read-write and the other one declares it.
pub fn meet_at(first: &Cluster, second: &Cluster, key: &LedgerKey) -> bool
    ensures { result ≡ meet_at_key first.now.envelopes second.now.envelopes key.now }
{
    writes_in(first, key) && declares_in(second, key)
        || writes_in(second, key) && declares_in(first, key)
}
