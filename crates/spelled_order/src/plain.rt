//! The plain types that values and keys are made of.

ghost use Rattle.std.specs.Prelude.{◌≡◌, ◌++◌};
ghost use Rattle.value_types.specs.Address.{number, kind};
ghost use Rattle.value_xdr.specs.Bytes.{word};
ghost use Rattle.spelled_order.specs.Against.{Against};
ghost use Rattle.spelled_order.specs.Ranked.{address_rest};

use crate::ranked::{Ranked, cmp_word};
use std::cmp::Ordering;
use value_types::{
    AccountId, Executable, Int128Parts, Int256Parts, ScAddress, ScError, UInt128Parts, UInt256Parts,
};

#[tactic(auto, unfolding(value_types::specs::Numbers::u128_format), using(crate::proofs::Deciding::both))]
impl Ranked for UInt128Parts {
    fn rank(&self, other: &UInt128Parts) -> Ordering {
        self.hi.rank(&other.hi).then(self.lo.rank(&other.lo))
    }
}

#[tactic(auto, unfolding(value_types::specs::Numbers::i128_format), using(crate::proofs::Deciding::both))]
impl Ranked for Int128Parts {
    fn rank(&self, other: &Int128Parts) -> Ordering {
        self.hi.rank(&other.hi).then(self.lo.rank(&other.lo))
    }
}

#[tactic(auto, unfolding(value_types::specs::Numbers::u256_format), using(crate::proofs::Deciding::both))]
impl Ranked for UInt256Parts {
    fn rank(&self, other: &UInt256Parts) -> Ordering {
        let low = self
            .lo_hi
            .rank(&other.lo_hi)
            .then(self.lo_lo.rank(&other.lo_lo));
        self.hi_hi
            .rank(&other.hi_hi)
            .then(self.hi_lo.rank(&other.hi_lo).then(low))
    }
}

#[tactic(auto, unfolding(value_types::specs::Numbers::i256_format), using(crate::proofs::Deciding::both))]
impl Ranked for Int256Parts {
    fn rank(&self, other: &Int256Parts) -> Ordering {
        let low = self
            .lo_hi
            .rank(&other.lo_hi)
            .then(self.lo_lo.rank(&other.lo_lo));
        self.hi_hi
            .rank(&other.hi_hi)
            .then(self.hi_lo.rank(&other.hi_lo).then(low))
    }
}

#[tactic(auto, unfolding(value_types::specs::AccountId::account_id_format), using(crate::proofs::Deciding::word_first))]
impl Ranked for AccountId {
    fn rank(&self, other: &AccountId) -> Ordering {
        self.0.rank(&other.0)
    }
}

/// Compares the bodies of two addresses of one kind. The other branches are never taken.
#[tactic(auto, using(crate::proofs::Deciding::both, crate::proofs::Deciding::word_first))]
fn cmp_address_rests(one: &ScAddress, other: &ScAddress) -> Ordering
    requires { number (kind one.now) ≡ number (kind other.now) }
    ensures { Against (address_rest one.now) (address_rest other.now) result }
{
    match one {
        ScAddress::Account(account) => match other {
            ScAddress::Account(a) => account.rank(a),
            _ => Ordering::Equal,
        },
        ScAddress::Contract(id) => match other {
            ScAddress::Contract(i) => id.rank(i),
            _ => Ordering::Equal,
        },
        ScAddress::MuxedAccount { id, ed25519 } => match other {
            ScAddress::MuxedAccount {
                id: i,
                ed25519: key,
            } => id.rank(i).then(ed25519.rank(key)),
            _ => Ordering::Equal,
        },
        ScAddress::ClaimableBalance(id) => match other {
            ScAddress::ClaimableBalance(i) => id.rank(i),
            _ => Ordering::Equal,
        },
        ScAddress::LiquidityPool(id) => match other {
            ScAddress::LiquidityPool(i) => id.rank(i),
            _ => Ordering::Equal,
        },
    }
}

/// Compares the XDR bytes of two addresses.
fn cmp_addresses(one: &ScAddress, other: &ScAddress) -> Ordering
    ensures { Against (word (number (kind one.now)) ++ address_rest one.now)
        (word (number (kind other.now)) ++ address_rest other.now) result }
{
    let (number, another) = (one.kind().number(), other.kind().number());
    if number == another {
        cmp_address_rests(one, other)
    } else {
        cmp_word(number, another)
    }
}

impl Ranked for ScAddress {
    fn rank(&self, other: &ScAddress) -> Ordering {
        cmp_addresses(self, other)
    }
}

#[tactic(auto, unfolding(value_types::specs::Executable::executable_format), using(crate::proofs::Deciding::word_first))]
impl Ranked for Executable {
    fn rank(&self, other: &Executable) -> Ordering {
        match (self, other) {
            (Executable::Wasm(x), Executable::Wasm(y)) => x.rank(y),
            (Executable::Wasm(_), Executable::StellarAsset) => Ordering::Less,
            (Executable::StellarAsset, Executable::Wasm(_)) => Ordering::Greater,
            (Executable::StellarAsset, Executable::StellarAsset) => Ordering::Equal,
        }
    }
}

impl Ranked for ScError {
    fn rank(&self, other: &ScError) -> Ordering {
        cmp_word(self.kind().number(), other.kind().number()).then(cmp_word(
            self.code(),
            other.code(),
        ))
    }
}
