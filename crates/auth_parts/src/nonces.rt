//! Nonces: an address uses each of them once.

ghost use Rattle.std.specs.Prelude.{◌≡◌, IfErr};
ghost use Rattle.auth_types.specs.Credentials.{address_credentials_format};
ghost use Rattle.ledger_types.specs.Entry.{entry_format};
ghost use Rattle.ledger_spec.specs.LedgerMap.{HasCodeHash};
ghost use Rattle.contract_storage.specs.Stored.{IsLater};
ghost use Rattle.call_spec.specs.World.{Write, made_seq};
ghost use Rattle.call_spec.specs.Accesses.{access};
ghost use Rattle.call_spec.specs.Asking.{nonce_key, nonce_entry, uses, is_valid_until, uses_nonce};
ghost use Rattle.call_parts.specs.Steps.{Steps};
ghost use Rattle.host_ledger.specs.Spelled.{IsKeySpelled};

use crate::errors::{EXPIRED, USED_NONCE};
use auth_types::AddressCredentials;
use budget_meter::{Budget, Kind};
use call_parts::pay;
use contract_storage::{Storage, Watch};
use entry_lookup::Ground;
use host_ledger::{end_of, size_of};
use host_spec::HostErr;
use ledger_types::{
    ContractDataEntry, Durability, LedgerEntry, LedgerEntryData, LedgerKey, Settings,
};
use value_types::ScVal;

/// The key of the nonce of a signature.
fn nonce_key(signer: &AddressCredentials) -> LedgerKey
    ensures { result ≡ nonce_key signer.now.address signer.now.nonce }
{
    LedgerKey::ContractData {
        contract: signer.address,
        key: ScVal::LedgerKeyNonce(signer.nonce),
        durability: Durability::Temporary,
    }
}

/// The entry of the nonce of a signature, modified in ledger `n`.
fn nonce_entry(n: u32, signer: &AddressCredentials) -> LedgerEntry
    requires { address_credentials_format.fits signer.now }
    ensures entry { result ≡ nonce_entry n signer.now.address signer.now.nonce }
    ensures fits { entry_format.fits result }
    ensures hashed { HasCodeHash result.data }
{
    LedgerEntry {
        last_modified_ledger_seq: n,
        data: LedgerEntryData::ContractData(ContractDataEntry {
            contract: signer.address,
            key: ScVal::LedgerKeyNonce(signer.nonce),
            durability: Durability::Temporary,
            val: ScVal::Void,
        }),
    }
}

/// Whether a signature that is valid until a ledger is valid in ledger `n`, and ends in a ledger that an entry may reach.
fn is_valid_until(n: u32, max_ttl: u32, until: u32) -> bool
    ensures { result ≡ is_valid_until n max_ttl until }
{
    n <= until && until - n < max_ttl
}

/// Makes the entry of the nonce of a signature in ledger `n`, unless the nonce is used. It lives until the signature ends.
fn make_nonce<G: Ground, W: Watch>(
    storage: &mut Storage<'_, G, W>,
    budget: &mut Budget,
    n: u32,
    signer: &AddressCredentials,
) -> Result<(), HostErr>
    requires fits { address_credentials_format.fits signer.now }
    requires number { storage.old.n ≡ n }
    ensures does { Steps result (λ u. u) (λ env. access env Write (nonce_key signer.now.address signer.now.nonce)
        (uses (made_seq env) signer.now)) storage.old storage.new budget.old budget.new }
    ensures later { IsLater storage.old storage.new }
    ensures key { IfErr result IsKeySpelled }
{
    let entry = nonce_entry(n, signer);
    let size = size_of(&entry);
    let key = nonce_key(signer);
    match storage.make(&key, entry, signer.signature_expiration_ledger) {
        Ok(true) => pay(budget, Kind::ValSer, size),
        Ok(false) => Err(USED_NONCE),
        Err(error) => Err(end_of(key, error)),
    }
}

/// Uses the nonce of a signature in ledger `n`, if the signature is valid there.
pub(crate) fn use_nonce<G: Ground, W: Watch>(
    storage: &mut Storage<'_, G, W>,
    budget: &mut Budget,
    n: u32,
    settings: &Settings,
    signer: &AddressCredentials,
) -> Result<(), HostErr>
    requires fits { address_credentials_format.fits signer.now }
    requires number { storage.old.n ≡ n }
    requires lives { storage.old.lives ≡ settings.now }
    ensures does { Steps result (λ u. u) (λ env. uses_nonce env signer.now)
        storage.old storage.new budget.old budget.new }
    ensures later { IsLater storage.old storage.new }
    ensures key { IfErr result IsKeySpelled }
{
    if is_valid_until(
        n,
        settings.max_entry_ttl,
        signer.signature_expiration_ledger,
    ) {
        make_nonce(storage, budget, n, signer)
    } else {
        Err(EXPIRED)
    }
}
