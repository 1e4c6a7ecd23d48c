//! Reads transaction sets and envelopes.

ghost use Rattle.std.specs.Prelude.{IfOk, IfErr};
ghost use Rattle.xdr_spec.specs.Refusal.{Spells};
ghost use Rattle.xdr_core.specs.Reads.{IsValueUnlessMemory, IsRefusal};
ghost use Rattle.tx_xdr.specs.Envelope.{envelope_format};
ghost use Rattle.tx_xdr.specs.Set.{set_format};
ghost use Rattle.tx_xdr.specs.declared.set.TxSet.{TxSet as Set};
ghost use Rattle.tx_xdr.specs.declared.envelope.Envelope.{Envelope as Signed};

use crate::envelope::Envelope;
use crate::set::TxSet;
use std::alloc::Global;
use value_xdr::decode;
use xdr_core::ReadXdr;

/// The set that all the bytes spell.
pub fn read_set(alloc: Global, bytes: &[u8]) -> Result<TxSet, ReadXdr>
    // A set that is read is spelled by the bytes.
    ensures found { IfOk result (λ set. Spells set_format set bytes.now) }
    // A set that the bytes spell is read, unless memory runs out.
    ensures only { (set : Set) → Spells set_format set bytes.now → IsValueUnlessMemory set result }
    // An error has the offset and the reason of the refusal.
    ensures refused { IfErr result (λ e. IsRefusal set_format bytes.now e) }
{
    decode(alloc, bytes)
}

/// The envelope that all the bytes spell.
pub fn read_envelope(alloc: Global, bytes: &[u8]) -> Result<Envelope, ReadXdr>
    ensures found { IfOk result (λ envelope. Spells envelope_format envelope bytes.now) }
    ensures only { (envelope : Signed) → Spells envelope_format envelope bytes.now → IsValueUnlessMemory envelope result }
    ensures refused { IfErr result (λ e. IsRefusal envelope_format bytes.now e) }
{
    decode(alloc, bytes)
}
