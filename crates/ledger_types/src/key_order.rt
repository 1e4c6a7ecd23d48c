//! The order of ledger keys: that of their XDR bytes, without writing the bytes and without memory.

ghost use Rattle.std.specs.Prelude.{◌≡◌, ◌++◌};
ghost use Rattle.std.specs.Bool.{Decides};
ghost use Rattle.std.specs.Ordering.{nat_cmp, as_partial_cmp, eq_by_cmp};
ghost use Rattle.std.specs.Cmp.{IsTotalOrder, partial_equiv_from_equiv, eq_by_cmp_equiv, partial_order_from_total};
ghost use Rattle.std.specs.Cmp.Lexicographic.{slice_cmp};
ghost use Rattle.std.proofs.Common.{refl};
ghost use Rattle.value_xdr.specs.Bytes.{word};
ghost use Rattle.spelled_order.specs.Against.{Against};
ghost use Rattle.spelled_order.specs.Ranked.{ranked_value};
ghost use Rattle.ledger_types.specs.Durability.{durability_format};
ghost use Rattle.ledger_types.specs.TrustLineAsset.{number as asset_number, kind as asset_kind};
ghost use Rattle.ledger_types.specs.EntryType.{number};
ghost use Rattle.ledger_types.specs.Key.{key_format, kind};
ghost use Rattle.ledger_types.specs.declared.key.LedgerKey.TheVariants as keys;
ghost use Rattle.ledger_types.specs.KeyOrder.{asset_rest, ranked_rest, ranked_key, key_cmp, key_total};

use crate::asset::{AssetCode4, AssetCode12, TrustLineAsset};
use crate::durability::Durability;
use crate::key::LedgerKey;
use spelled_order::{Ranked, cmp_text, cmp_value, cmp_word};
use std::cmp::Ordering;
use value_types::{ScAddress, ScVal};

impl Ranked for Durability {
    fn rank(&self, other: &Durability) -> Ordering {
        cmp_word(self.number(), other.number())
    }
}

impl Ranked for AssetCode4 {
    fn rank(&self, other: &AssetCode4) -> Ordering {
        self.0.cmp(&other.0)
    }
}

impl Ranked for AssetCode12 {
    fn rank(&self, other: &AssetCode12) -> Ordering {
        self.0.cmp(&other.0)
    }
}

/// Compares the bodies of two assets of one type. The other branches are never taken.
#[tactic(auto, using(spelled_order::proofs::Lemmas::both))]
fn cmp_asset_rests(one: &TrustLineAsset, other: &TrustLineAsset) -> Ordering
    requires { asset_number (asset_kind one.now) ≡ asset_number (asset_kind other.now) }
    ensures { Against (asset_rest one.now) (asset_rest other.now) result }
{
    match one {
        TrustLineAsset::Native => Ordering::Equal,
        TrustLineAsset::CreditAlphanum4 { code, issuer } => match other {
            TrustLineAsset::CreditAlphanum4 { code: c, issuer: i } => {
                code.rank(c).then(issuer.rank(i))
            }
            _ => Ordering::Equal,
        },
        TrustLineAsset::CreditAlphanum12 { code, issuer } => match other {
            TrustLineAsset::CreditAlphanum12 { code: c, issuer: i } => {
                code.rank(c).then(issuer.rank(i))
            }
            _ => Ordering::Equal,
        },
        TrustLineAsset::PoolShare(pool) => match other {
            TrustLineAsset::PoolShare(p) => pool.rank(p),
            _ => Ordering::Equal,
        },
    }
}

/// Compares the XDR bytes of two assets.
fn cmp_assets(one: &TrustLineAsset, other: &TrustLineAsset) -> Ordering
    ensures { Against (word (asset_number (asset_kind one.now)) ++ asset_rest one.now)
        (word (asset_number (asset_kind other.now)) ++ asset_rest other.now) result }
{
    let (number, another) = (one.kind().number(), other.kind().number());
    if number == another {
        cmp_asset_rests(one, other)
    } else {
        cmp_word(number, another)
    }
}

impl Ranked for TrustLineAsset {
    fn rank(&self, other: &TrustLineAsset) -> Ordering {
        cmp_assets(self, other)
    }
}

/// Compares what follows the contract in two keys of contract data. The durabilities are not read if the values differ.
#[tactic(auto, using(spelled_order::proofs::Lemmas::both, spelled_order::proofs::Lemmas::first))]
fn cmp_data_rests(
    key: &ScVal,
    durability: &Durability,
    other_key: &ScVal,
    other_durability: &Durability,
) -> Ordering
    ensures { Against (ranked_value key.now ++ durability_format.spell durability.now)
        (ranked_value other_key.now ++ durability_format.spell other_durability.now) result }
{
    match cmp_value(key, other_key) {
        Ordering::Equal => durability.rank(other_durability),
        unequal => unequal,
    }
}

/// Compares with the key `$key` if it is of this form. Both keys are of one type, so the other branch is never taken.
macro_rules! among {
    ($key:expr, $form:pat, $order:expr) => {
        match $key {
            $form => $order,
            _ => Ordering::Equal,
        }
    };
}

/// Compares the bodies of two keys of contract data.
#[tactic(auto, using(spelled_order::proofs::Lemmas::both, spelled_order::proofs::Lemmas::first))]
#[inline]
fn cmp_data(
    contract: &ScAddress,
    key: &ScVal,
    durability: &Durability,
    other: &LedgerKey,
) -> Ordering
    requires { number (kind other.now) ≡ 6 }
    ensures { Against (ranked_rest (keys.ContractData contract.now key.now durability.now)) (ranked_rest other.now) result }
{
    among!(
        other,
        LedgerKey::ContractData {
            contract: c,
            key: k,
            durability: d
        },
        match contract.rank(c) {
            Ordering::Equal => cmp_data_rests(key, durability, k, d),
            unequal => unequal,
        }
    )
}

/// Compares the bodies of two keys of one type.
#[tactic(auto, using(spelled_order::proofs::Lemmas::both, spelled_order::proofs::Lemmas::word_first))]
fn cmp_rests(one: &LedgerKey, other: &LedgerKey) -> Ordering
    requires { number (kind one.now) ≡ number (kind other.now) }
    ensures { Against (ranked_rest one.now) (ranked_rest other.now) result }
{
    match one {
        LedgerKey::Account(x) => among!(other, LedgerKey::Account(y), x.rank(y)),
        LedgerKey::Trustline { account, asset } => among!(
            other,
            LedgerKey::Trustline {
                account: a,
                asset: t
            },
            account.rank(a).then(asset.rank(t))
        ),
        LedgerKey::Offer { seller, offer } => among!(
            other,
            LedgerKey::Offer {
                seller: s,
                offer: o
            },
            seller.rank(s).then(offer.rank(o))
        ),
        LedgerKey::Data { account, name } => among!(
            other,
            LedgerKey::Data {
                account: a,
                name: n
            },
            account.rank(a).then(cmp_text(name.as_blob().as_slice(), n.as_blob().as_slice()))
        ),
        LedgerKey::ClaimableBalance(x) => among!(other, LedgerKey::ClaimableBalance(y), x.rank(y)),
        LedgerKey::LiquidityPool(x) => among!(other, LedgerKey::LiquidityPool(y), x.rank(y)),
        LedgerKey::ContractData {
            contract,
            key,
            durability,
        } => cmp_data(contract, key, durability, other),
        LedgerKey::ContractCode(x) => among!(other, LedgerKey::ContractCode(y), x.rank(y)),
        LedgerKey::Ttl(x) => among!(other, LedgerKey::Ttl(y), x.rank(y)),
    }
}

/// Compares the XDR bytes of two keys.
fn cmp_ranked(one: &LedgerKey, other: &LedgerKey) -> Ordering
    ensures { Against (ranked_key one.now) (ranked_key other.now) result }
{
    let (number, another) = (one.kind().number(), other.kind().number());
    if number == another {
        cmp_rests(one, other)
    } else {
        cmp_word(number, another)
    }
}

impl Ord for LedgerKey {
    ghost cmp = { key_cmp };

    ghost total = { key_total };

    ghost matches_partial_cmp = { λ x y. refl };

    ghost matches_eq = { λ x y. refl };

    fn cmp(&self, other: &LedgerKey) -> Ordering {
        cmp_ranked(self, other)
    }
}

impl PartialOrd for LedgerKey {
    ghost partial_cmp = { as_partial_cmp key_cmp };

    ghost laws = { partial_order_from_total key_total };

    fn partial_cmp(&self, other: &LedgerKey) -> Option<Ordering> {
        Some(self.cmp(other))
    }
}

impl Eq for LedgerKey {
    ghost laws = { eq_by_cmp_equiv key_total };
}

impl PartialEq for LedgerKey {
    ghost eq = { eq_by_cmp key_cmp };

    ghost laws = { partial_equiv_from_equiv (eq_by_cmp_equiv key_total) };

    fn eq(&self, other: &LedgerKey) -> bool
        ensures eq { result ≡ eq_by_cmp key_cmp self.now other.now }
        // Two keys that have a spelling are equal in it only if they are the same.
        ensures exact { key_format.fits self.now → key_format.fits other.now → Decides result (self.now ≡ other.now) }
    {
        self.cmp(other) == Ordering::Equal
    }
}

/// Compares the XDR bytes of two keys. It takes no memory.
pub fn cmp_keys(one: &LedgerKey, other: &LedgerKey) -> Ordering
    requires fits { key_format.fits one.now }
    requires other_fits { key_format.fits other.now }
    ensures { result ≡ slice_cmp nat_cmp (key_format.spell one.now) (key_format.spell other.now) }
{
    one.cmp(other)
}
