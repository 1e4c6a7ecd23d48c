//! The discriminant of a union of one arm.

ghost use Rattle.std.specs.Prelude.{◌≡◌, Some, None, IfOk, IfErr};
ghost use Rattle.xdr_spec.specs.Format.{nothing, refusal};
ghost use Rattle.xdr_core.specs.declared.error.ReadXdr.TheVariants.{Bad};
ghost use Rattle.xdr_spec.specs.declared.Why.TheVariants.{Tag};
ghost use Rattle.xdr_core.specs.Reads.{Reads};
ghost use Rattle.value_types.specs.Headed.{headed};

use xdr_core::{ReadXdr, Why, Words, XdrErr};

/// Reads a word that has to be `number`, and refuses another word as `Why::Tag`. After an error the source may stand anywhere.
pub fn read_head<W: Words>(input: &mut W, number: u32) -> Result<(), ReadXdr>
    ensures { Reads (headed number (nothing tt)).read (W.seen input.old) (W.seen input.new) result }
{
    let place = input.place();
    if input.u32()? != number {
        return Err(ReadXdr::Bad(XdrErr {
            at: place,
            why: Why::Tag,
        }));
    }
    Ok(())
}

/// The variant of an enumeration, if its number has one. Refuses a number without a variant as `Why::Tag`, at its byte offset.
pub fn named<K>(variant: Option<K>, place: u64) -> Result<K, ReadXdr>
    ensures ok { IfOk result (λ k. variant ≡ Some k) }
    ensures err { IfErr result (λ e. (variant ≡ None) × (e ≡ Bad (refusal place Tag))) }
{
    variant.ok_or(ReadXdr::Bad(XdrErr {
        at: place,
        why: Why::Tag,
    }))
}
