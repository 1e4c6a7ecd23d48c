//! The keys of ledger entries.

ghost use Rattle.std.specs.Prelude.{◌≡◌, IfOk};
ghost use Rattle.xdr_core.specs.Reads.{Reads};
ghost use Rattle.ledger_types.specs.Key.{kind, arms, key_format, key_lawful};

use crate::asset::TrustLineAsset;
use crate::durability::Durability;
use crate::entry_type::LedgerEntryType;
use std::alloc::{AllocError, Global};
use value_types::{AccountId, Bytes, Hash, ScAddress, ScVal};
use value_xdr::{Xdr, read_balance_id, size_of_balance_id, write_balance_id};
use xdr_core::{NoMemory, Out, ReadXdr, Words, add_sizes};

/// The key of a ledger entry (`LedgerKey`, without configuration settings).
#[derive(Drop)]
pub enum LedgerKey {
    /// 0.
    Account(AccountId),
    /// 1.
    Trustline {
        account: AccountId,
        asset: TrustLineAsset,
    },
    /// 2.
    Offer {
        seller: AccountId,
        offer: i64,
    },
    /// 3.
    Data {
        account: AccountId,
        name: Bytes<64>,
    },
    /// 4: the balance's id, of type 0.
    ClaimableBalance(Hash),
    /// 5.
    LiquidityPool(Hash),
    /// 6.
    ContractData {
        contract: ScAddress,
        key: ScVal,
        durability: Durability,
    },
    /// 7: the SHA-256 of the code.
    ContractCode(Hash),
    /// 9: the SHA-256 of the key of the entry that it belongs to.
    Ttl(Hash),
}

impl Clone for LedgerKey {
    ghost is_clone = { λ v w. w ≡ v };

    fn clone(&self) -> Result<LedgerKey, AllocError> {
        match self {
            LedgerKey::Account(account) => Ok(LedgerKey::Account(*account)),
            LedgerKey::Trustline { account, asset } => Ok(LedgerKey::Trustline {
                account: *account,
                asset: *asset,
            }),
            LedgerKey::Offer { seller, offer } => Ok(LedgerKey::Offer {
                seller: *seller,
                offer: *offer,
            }),
            LedgerKey::Data { account, name } => Ok(LedgerKey::Data {
                account: *account,
                name: name.clone()?,
            }),
            LedgerKey::ClaimableBalance(id) => Ok(LedgerKey::ClaimableBalance(*id)),
            LedgerKey::LiquidityPool(id) => Ok(LedgerKey::LiquidityPool(*id)),
            LedgerKey::ContractData {
                contract,
                key,
                durability,
            } => Ok(LedgerKey::ContractData {
                contract: *contract,
                key: key.clone()?,
                durability: *durability,
            }),
            LedgerKey::ContractCode(hash) => Ok(LedgerKey::ContractCode(*hash)),
            LedgerKey::Ttl(hash) => Ok(LedgerKey::Ttl(*hash)),
        }
    }
}

impl LedgerKey {
    /// The type of the entry that the key identifies.
    pub fn kind(&self) -> LedgerEntryType
        ensures { result ≡ kind self.now }
    {
        match self {
            LedgerKey::Account(_) => LedgerEntryType::Account,
            LedgerKey::Trustline { .. } => LedgerEntryType::Trustline,
            LedgerKey::Offer { .. } => LedgerEntryType::Offer,
            LedgerKey::Data { .. } => LedgerEntryType::Data,
            LedgerKey::ClaimableBalance(_) => LedgerEntryType::ClaimableBalance,
            LedgerKey::LiquidityPool(_) => LedgerEntryType::LiquidityPool,
            LedgerKey::ContractData { .. } => LedgerEntryType::ContractData,
            LedgerKey::ContractCode(_) => LedgerEntryType::ContractCode,
            LedgerKey::Ttl(_) => LedgerEntryType::Ttl,
        }
    }
}

#[tactic(auto, unfolding(crate::specs::Key::key_format))]
fn read_trustline<W: Words>(alloc: Global, input: &mut W) -> Result<LedgerKey, ReadXdr>
    ensures value { Reads (arms LedgerEntryType.Trustline).read (W.seen input.old) (W.seen input.new) result }
    ensures fits { IfOk result key_format.fits }
{
    let account = AccountId::read(alloc, input)?;
    let asset = TrustLineAsset::read(alloc, input)?;
    Ok(LedgerKey::Trustline { account, asset })
}

#[tactic(auto, unfolding(crate::specs::Key::key_format))]
fn read_offer<W: Words>(alloc: Global, input: &mut W) -> Result<LedgerKey, ReadXdr>
    ensures value { Reads (arms LedgerEntryType.Offer).read (W.seen input.old) (W.seen input.new) result }
    ensures fits { IfOk result key_format.fits }
{
    let seller = AccountId::read(alloc, input)?;
    let offer = i64::read(alloc, input)?;
    Ok(LedgerKey::Offer { seller, offer })
}

#[tactic(auto, unfolding(crate::specs::Key::key_format))]
fn read_data<W: Words>(alloc: Global, input: &mut W) -> Result<LedgerKey, ReadXdr>
    ensures value { Reads (arms LedgerEntryType.Data).read (W.seen input.old) (W.seen input.new) result }
    ensures fits { IfOk result key_format.fits }
{
    let account = AccountId::read(alloc, input)?;
    let name = Bytes::<64>::read(alloc, input)?;
    Ok(LedgerKey::Data { account, name })
}

#[tactic(auto, unfolding(crate::specs::Key::key_format))]
fn read_contract_data<W: Words>(alloc: Global, input: &mut W) -> Result<LedgerKey, ReadXdr>
    ensures value { Reads (arms LedgerEntryType.ContractData).read (W.seen input.old) (W.seen input.new) result }
    ensures fits { IfOk result key_format.fits }
{
    let contract = ScAddress::read(alloc, input)?;
    let key = ScVal::read(alloc, input)?;
    let durability = Durability::read(alloc, input)?;
    Ok(LedgerKey::ContractData {
        contract,
        key,
        durability,
    })
}

#[tactic(auto, unfolding(crate::specs::Key::key_format))]
fn read_arm<W: Words>(
    alloc: Global,
    input: &mut W,
    kind: LedgerEntryType,
) -> Result<LedgerKey, ReadXdr>
    ensures value { Reads (arms kind).read (W.seen input.old) (W.seen input.new) result }
    ensures fits { IfOk result key_format.fits }
{
    match kind {
        LedgerEntryType::Account => Ok(LedgerKey::Account(AccountId::read(alloc, input)?)),
        LedgerEntryType::Trustline => read_trustline(alloc, input),
        LedgerEntryType::Offer => read_offer(alloc, input),
        LedgerEntryType::Data => read_data(alloc, input),
        LedgerEntryType::ClaimableBalance => {
            Ok(LedgerKey::ClaimableBalance(read_balance_id(alloc, input)?))
        }
        LedgerEntryType::LiquidityPool => Ok(LedgerKey::LiquidityPool(Hash::read(alloc, input)?)),
        LedgerEntryType::ContractData => read_contract_data(alloc, input),
        LedgerEntryType::ContractCode => Ok(LedgerKey::ContractCode(Hash::read(alloc, input)?)),
        LedgerEntryType::Ttl => Ok(LedgerKey::Ttl(Hash::read(alloc, input)?)),
    }
}

#[tactic(auto, unfolding(crate::specs::Key::key_format, crate::specs::EntryType::type_format, xdr_core::specs::Sizes::capped))]
impl Xdr for LedgerKey {
    ghost format = { key_format };

    fn read_parts<W: Words>(alloc: Global, input: &mut W) -> Result<LedgerKey, ReadXdr> {
        let kind = LedgerEntryType::read(alloc, input)?;
        read_arm(alloc, input, kind)
    }

    fn write_parts(&self, out: &mut Out) -> Result<(), NoMemory> {
        self.kind().write(out)?;
        match self {
            LedgerKey::Account(account) => account.write(out),
            LedgerKey::Trustline { account, asset } => {
                account.write(out)?;
                asset.write(out)
            }
            LedgerKey::Offer { seller, offer } => {
                seller.write(out)?;
                offer.write(out)
            }
            LedgerKey::Data { account, name } => {
                account.write(out)?;
                name.write(out)
            }
            LedgerKey::ClaimableBalance(id) => write_balance_id(id, out),
            LedgerKey::LiquidityPool(id) => id.write(out),
            LedgerKey::ContractData {
                contract,
                key,
                durability,
            } => {
                contract.write(out)?;
                key.write(out)?;
                durability.write(out)
            }
            LedgerKey::ContractCode(hash) => hash.write(out),
            LedgerKey::Ttl(hash) => hash.write(out),
        }
    }

    fn size(&self) -> u64 {
        let body = match self {
            LedgerKey::Account(account) => account.size(),
            LedgerKey::Trustline { account, asset } => add_sizes(account.size(), asset.size()),
            LedgerKey::Offer { seller, offer } => add_sizes(seller.size(), offer.size()),
            LedgerKey::Data { account, name } => add_sizes(account.size(), name.size()),
            LedgerKey::ClaimableBalance(id) => size_of_balance_id(id),
            LedgerKey::LiquidityPool(id) => id.size(),
            LedgerKey::ContractData {
                contract,
                key,
                durability,
            } => add_sizes(add_sizes(contract.size(), key.size()), durability.size()),
            LedgerKey::ContractCode(hash) => hash.size(),
            LedgerKey::Ttl(hash) => hash.size(),
        };
        add_sizes(self.kind().size(), body)
    }

    ghost lawful = { key_lawful };
}
