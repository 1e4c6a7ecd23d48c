//! Verdicts: the good signatures.

ghost use Rattle.std.specs.Prelude.{◌≡◌, ◌↔◌, ⊤, IfOk, IsTrue, Contains};
ghost use Rattle.ledger_types.specs.Verdicts.{verdict_of, verdict_format, verdict_lawful, verdicts_format, verdicts_lawful};

use std::alloc::{AllocError, Global};
use value_types::{Hash, Items};
use value_xdr::Xdr;
use xdr_core::{NoMemory, Out, ReadXdr, Words, add_sizes};

/// A verdict (own): the signature of this key for this payload is good.
#[derive(Debug, PartialEq, Eq)]
pub struct Verdict {
    /// An ed25519 public key.
    pub key: Hash,
    /// The SHA-256 of the signed bytes.
    pub payload: Hash,
}

impl Clone for Verdict {
    ghost is_clone = { λ v w. w ≡ v };

    ghost is_infallible = { λ _. ⊤ };

    fn clone(&self) -> Result<Verdict, AllocError> {
        Ok(*self)
    }
}

impl Copy for Verdict {}

#[tactic(auto, unfolding(crate::specs::Verdicts::verdict_format, xdr_core::specs::Sizes::capped))]
impl Xdr for Verdict {
    ghost format = { verdict_format };

    fn read_parts<W: Words>(alloc: Global, input: &mut W) -> Result<Verdict, ReadXdr> {
        let key = Hash::read(alloc, input)?;
        let payload = Hash::read(alloc, input)?;
        Ok(Verdict { key, payload })
    }

    fn write_parts(&self, out: &mut Out) -> Result<(), NoMemory> {
        self.key.write(out)?;
        self.payload.write(out)
    }

    fn size(&self) -> u64 {
        add_sizes(self.key.size(), self.payload.size())
    }

    ghost lawful = { verdict_lawful };
}

/// The signatures that are good: the content of a verdicts file (own).
#[derive(Drop)]
pub struct Verdicts {
    /// In any order.
    pub pairs: Items<Verdict, 4294967295>,
}

impl Clone for Verdicts {
    ghost is_clone = { λ v w. w ≡ v };

    fn clone(&self) -> Result<Verdicts, AllocError>
        ensures { IfOk result (λ v. v ≡ self.now) }
    {
        let pairs = self.pairs.clone()?;
        Ok(Verdicts { pairs })
    }
}

impl Verdicts {
    /// Whether the verdicts say that the key's signature for the payload is good.
    pub fn holds(&self, key: &Hash, payload: &Hash) -> bool
        ensures { IsTrue result ↔ Contains self.now.pairs (verdict_of (key.now, payload.now)) }
    {
        let wanted = Verdict {
            key: *key,
            payload: *payload,
        };
        self.pairs.as_slice().contains(&wanted)
    }
}

#[tactic(auto, unfolding(crate::specs::Verdicts::verdicts_format))]
impl Xdr for Verdicts {
    ghost format = { verdicts_format };

    fn read_parts<W: Words>(alloc: Global, input: &mut W) -> Result<Verdicts, ReadXdr> {
        let pairs = Items::<Verdict, 4294967295>::read(alloc, input)?;
        Ok(Verdicts { pairs })
    }

    fn write_parts(&self, out: &mut Out) -> Result<(), NoMemory> {
        self.pairs.write(out)
    }

    fn size(&self) -> u64 {
        self.pairs.size()
    }

    ghost lawful = { verdicts_lawful };
}
