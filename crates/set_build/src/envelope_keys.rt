//! The keys that a transaction declares, as they are looked up.

ghost use Rattle.std.specs.Prelude.{◌≡◌, All, IfOk, map};
ghost use Rattle.ledger_types.specs.Key.{key_format};
ghost use Rattle.ledger_spec.specs.LedgerMap.{key_bytes};
ghost use Rattle.stage_plan.specs.Spelled.{DeclaresSpelled};
ghost use Rattle.set_build.specs.Known.{fingerprint, IsMarked, bytes_in, AreOf};

use ledger_types::LedgerKey;
use stage_plan::{read_only_of, read_write_of};
use std::alloc::Global;
use tx_xdr::Envelope;
use value_xdr::encode;
use xdr_core::NoMemory;

/// The XDR bytes of a key, behind their fingerprint. Two keys are compared by their fingerprints, and by their bytes if these are
/// equal: many bytes at a time, where `LedgerKey` is compared item by item.
pub(crate) type KeyBytes = (u64, Vec<u8>);

/// The keys that a transaction declares.
#[derive(Drop)]
pub(crate) struct EnvelopeKeys {
    pub(crate) read_write: Vec<KeyBytes>,
    pub(crate) read_only: Vec<KeyBytes>,
}

/// Returns the fingerprint of bytes: a polynomial of them at 257, modulo 2^64. Different bytes can have equal fingerprints.
fn fingerprint(bytes: &[u8]) -> u64
    ensures { result ≡ fingerprint bytes.now }
{
    let mut number = 0_u64;
    for byte in bytes {
        number = number.wrapping_mul(257).wrapping_add(u64::from(*byte));
    }
    number
}

/// Returns the XDR bytes of a key, behind their fingerprint.
fn bytes_of(alloc: Global, key: &LedgerKey) -> Result<KeyBytes, NoMemory>
    requires { key_format.fits key.now }
    ensures marked { IfOk result IsMarked }
    ensures bytes { IfOk result (λ k. k.1.items ≡ key_bytes key.now) }
{
    let bytes = encode(alloc, key)?;
    Ok((fingerprint(&bytes), bytes))
}

/// Returns the XDR bytes of each of these keys.
fn all_bytes(alloc: Global, keys: &[LedgerKey]) -> Result<Vec<KeyBytes>, NoMemory>
    requires { All key_format.fits keys.now }
    ensures marked { IfOk result (λ all. All IsMarked all.items) }
    ensures bytes { IfOk result (λ all. bytes_in all.items ≡ map key_bytes keys.now) }
{
    let mut all = Vec::new(alloc);
    for key in keys {
        all.push(bytes_of(alloc, key)?)?;
    }
    Ok(all)
}

impl EnvelopeKeys {
    /// Returns the XDR bytes of the keys that a transaction declares.
    pub(crate) fn of(alloc: Global, envelope: &Envelope) -> Result<EnvelopeKeys, NoMemory>
        requires { DeclaresSpelled envelope.now }
        ensures { IfOk result (AreOf envelope.now) }
    {
        let read_write = all_bytes(alloc, read_write_of(envelope))?;
        let read_only = all_bytes(alloc, read_only_of(envelope))?;
        Ok(EnvelopeKeys {
            read_write,
            read_only,
        })
    }
}
