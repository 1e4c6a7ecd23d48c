//! What may meet demands of authorisation in an operation.

ghost use Rattle.std.specs.Prelude.{◌≡◌};
ghost use Rattle.apply_spec.specs.Enforced as enforced;
ghost use Rattle.tx_apply.specs.Authorities.{authority_in};

use auth_types::AuthEntry;
use ledger_types::Verdicts;
use tx_parts::MuxedAccount;
use tx_xdr::Transaction;
use value_types::AccountId;

/// What may meet demands of authorisation in an operation.
#[derive(Drop)]
pub(crate) struct Authority<'a> {
    /// The operation's authorisation entries.
    pub entries: &'a [AuthEntry],
    /// The account that is the operation's source.
    pub source: AccountId,
    /// The signatures that are good.
    pub verdicts: &'a Verdicts,
}

/// Returns the account without the id of a muxed account.
fn account_of(account: MuxedAccount) -> AccountId
    ensures { result ≡ enforced.account_of account }
{
    match account {
        MuxedAccount::Ed25519(key) => AccountId(key),
        MuxedAccount::MuxedEd25519 { ed25519, .. } => AccountId(ed25519),
    }
}

/// Returns the account that is an operation's source. Without one it is the transaction's.
pub fn source_of(tx: &Transaction, source: Option<MuxedAccount>) -> AccountId
    ensures { result ≡ enforced.source_of tx.now source }
{
    match source {
        Some(account) => account_of(account),
        None => account_of(tx.source),
    }
}

/// Returns what may meet demands in an operation of the transaction with this source and these entries.
pub(crate) fn authority_of<'a>(
    verdicts: &'a Verdicts,
    tx: &Transaction,
    source: Option<MuxedAccount>,
    entries: &'a [AuthEntry],
) -> Authority<'a>
    ensures { authority_in result ≡ enforced.authority_of verdicts.now tx.now source entries.now }
{
    Authority {
        entries,
        source: source_of(tx, source),
        verdicts,
    }
}
