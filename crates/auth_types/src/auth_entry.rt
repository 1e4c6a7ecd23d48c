//! Authorisation entries.

ghost use Rattle.std.specs.Prelude.{◌≡◌};
ghost use Rattle.auth_types.specs.AuthEntry.{auth_entry_format, auth_entry_lawful};

use crate::credentials::Credentials;
use crate::invocation::Invocation;
use std::alloc::{AllocError, Global};
use value_xdr::Xdr;
use xdr_core::{NoMemory, Out, ReadXdr, Words, add_sizes};

/// An authorisation entry: credentials, and the tree of invocations that they authorise (the XDR files'
/// `SorobanAuthorizationEntry`).
#[derive(Drop)]
pub struct AuthEntry {
    pub credentials: Credentials,
    pub root_invocation: Invocation,
}

impl Clone for AuthEntry {
    ghost is_clone = { λ v w. w ≡ v };

    fn clone(&self) -> Result<AuthEntry, AllocError> {
        let credentials = self.credentials.clone()?;
        let root_invocation = self.root_invocation.clone()?;
        Ok(AuthEntry {
            credentials,
            root_invocation,
        })
    }
}

#[tactic(auto, unfolding(crate::specs::AuthEntry::auth_entry_format, xdr_core::specs::Sizes::capped))]
impl Xdr for AuthEntry {
    ghost format = { auth_entry_format };

    fn read_parts<W: Words>(alloc: Global, input: &mut W) -> Result<AuthEntry, ReadXdr> {
        let credentials = Credentials::read(alloc, input)?;
        let root_invocation = Invocation::read(alloc, input)?;
        Ok(AuthEntry {
            credentials,
            root_invocation,
        })
    }

    fn write_parts(&self, out: &mut Out) -> Result<(), NoMemory> {
        self.credentials.write(out)?;
        self.root_invocation.write(out)
    }

    fn size(&self) -> u64 {
        add_sizes(self.credentials.size(), self.root_invocation.size())
    }

    ghost lawful = { auth_entry_lawful };
}
