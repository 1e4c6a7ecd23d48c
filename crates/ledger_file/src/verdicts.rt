//! Reads verdicts from bytes.

ghost use Rattle.std.specs.Prelude.{IfOk, IfErr};
ghost use Rattle.xdr_spec.specs.Refusal.{Spells};
ghost use Rattle.xdr_core.specs.Reads.{IsValueUnlessMemory, IsRefusal};
ghost use Rattle.ledger_types.specs.Verdicts.{verdicts_format};
ghost use Rattle.ledger_types.specs.declared.verdicts.Verdicts.{Verdicts as VerdictList};

use ledger_types::Verdicts;
use std::alloc::Global;
use value_xdr::decode;
use xdr_core::ReadXdr;

/// Reads the verdicts of a file, which has no bytes after them.
pub fn read_verdicts(alloc: Global, bytes: &[u8]) -> Result<Verdicts, ReadXdr>
    // The bytes are the XDR of the verdicts.
    ensures found { IfOk result (λ v. Spells verdicts_format v bytes.now) }
    // Verdicts with these bytes are read, unless memory runs out.
    ensures only { (v : VerdictList) → Spells verdicts_format v bytes.now → IsValueUnlessMemory v result }
    // Other bytes are rejected, with the offset and reason of the first fault.
    ensures refused { IfErr result (λ e. IsRefusal verdicts_format bytes.now e) }
{
    decode::<Verdicts>(alloc, bytes)
}
