//! The codec of values that stand alone, and of the instances of such values.

ghost use Rattle.std.specs.Prelude.{◌≡◌, length, IfOk, IfErr};
ghost use Rattle.xdr_core.specs.Sizes.{capped};
ghost use Rattle.value_xdr.specs.ValueBytes.{value_bytes, IsValueBounded};
ghost use Rattle.xdr_spec.specs.Refusal.{Spells};
ghost use Rattle.xdr_core.specs.Reads.{IsValueUnlessMemory, IsRefusal};
ghost use Rattle.value_types.specs.declared.value.ScVal.{ScVal as ScValData};
ghost use Rattle.value_types.specs.Formats.{scval_format, contract_instance_format};
ghost use Rattle.value_types.specs.Datum.{Datum};
ghost use Rattle.value_types.specs.XdrSize.{xdr_size_of};
ghost use Rattle.value_xdr.specs.Bytes.{bytes_of, IsBounded};
ghost use Rattle.value_types.proofs.Lemmas.{contract_instance_lawful, scval_lawful};

use crate::xdr::{Xdr, decode, encode};
use crate::{reading, writing};
use std::alloc::Global;
use value_types::{Instance, ScVal, xdr_size, xdr_size_of_instance};
use xdr_core::{NoMemory, Out, ReadXdr, Words};

/// The number of levels below a value that stands alone.
const LEVELS_BELOW: u32 = 99;

#[tactic(auto, unfolding(value_types::specs::Formats::scval_format))]
impl Xdr for ScVal {
    ghost format = { scval_format };

    fn read_parts<W: Words>(alloc: Global, input: &mut W) -> Result<ScVal, ReadXdr> {
        reading::read_value(alloc, input, LEVELS_BELOW)
    }

    fn write_parts(&self, out: &mut Out) -> Result<(), NoMemory> {
        writing::write_value(self, out)
    }

    fn size(&self) -> u64 {
        xdr_size(self)
    }

    ghost lawful = { scval_lawful };
}

#[tactic(auto, unfolding(value_types::specs::Formats::contract_instance_format))]
impl Xdr for Instance {
    ghost format = { contract_instance_format };

    fn read_parts<W: Words>(alloc: Global, input: &mut W) -> Result<Instance, ReadXdr> {
        reading::read_instance(alloc, input, LEVELS_BELOW)
    }

    fn write_parts(&self, out: &mut Out) -> Result<(), NoMemory> {
        writing::write_instance(self, out)
    }

    fn size(&self) -> u64 {
        xdr_size_of_instance(self)
    }

    ghost lawful = { contract_instance_lawful };
}

/// The value that all the bytes spell.
pub fn value_from_bytes(alloc: Global, bytes: &[u8]) -> Result<ScVal, ReadXdr>
    ensures found { IfOk result (λ v. Spells scval_format v bytes.now) }
    ensures only { (v : ScValData) → Spells scval_format v bytes.now → IsValueUnlessMemory v result }
    ensures refused { IfErr result (λ e. IsRefusal scval_format bytes.now e) }
{
    decode(alloc, bytes)
}

/// The value's one spelling.
pub fn value_to_bytes(alloc: Global, value: &ScVal) -> Result<Vec<u8>, NoMemory>
    requires { scval_format.fits value.now }
    ensures { IfOk result (λ v. Spells scval_format value.now v.items) }
{
    encode(alloc, value)
}

/// The length of a value's spelling in bytes, or `u64::MAX` if it is larger. O(1).
pub fn val_size(value: &ScVal) -> u64
    ensures spelling { scval_format.fits value.now → result ≡ capped (length (scval_format.spell value.now)) }
    // A value deeper than the bound of spellings is counted alike.
    ensures deeper { IsValueBounded value.now → result ≡ capped (length (value_bytes value.now)) }
{
    xdr_size(value)
}

/// Lemma: the size of a value within bounds is the length of its bytes.
pub fn size_is_length()
    ensures { (d : Datum) → IsBounded d → xdr_size_of d ≡ length (bytes_of d) }
{}
