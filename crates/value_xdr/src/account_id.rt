//! The spelling of accounts.

ghost use Rattle.value_types.specs.AccountId.{account_id_format, account_id_lawful};

use crate::head::read_head;
use crate::xdr::Xdr;
use std::alloc::Global;
use value_types::{AccountId, Hash};
use xdr_core::{NoMemory, Out, ReadXdr, Words};

/// The number of the only type of key, ed25519.
const ED25519: u32 = 0;

#[tactic(auto, unfolding(value_types::specs::AccountId::account_id_format, xdr_core::specs::Sizes::capped))]
impl Xdr for AccountId {
    ghost format = { account_id_format };

    fn read_parts<W: Words>(alloc: Global, input: &mut W) -> Result<AccountId, ReadXdr> {
        read_head(input, ED25519)?;
        Ok(AccountId(Hash::read(alloc, input)?))
    }

    fn write_parts(&self, out: &mut Out) -> Result<(), NoMemory> {
        out.put_u32(ED25519)?;
        self.0.write(out)
    }

    fn size(&self) -> u64 {
        self.0.size().saturating_add(4)
    }

    ghost lawful = { account_id_lawful };
}
