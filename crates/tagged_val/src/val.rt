//! Words.

ghost use Rattle.std.specs.Prelude.{◌≡◌, ◌≤◌, Some, None, take, MatchOption};
ghost use Rattle.std.specs.Option.{option_map, option_and_then};
ghost use Rattle.host_spec.specs.Tags.{tag_of};
ghost use Rattle.host_spec.specs.Words.{tag_bits, is_object, small_meaning, small_word};
ghost use Rattle.host_spec.specs.Arguments.{as_u32, as_symbol};
ghost use Rattle.value_types.specs.Datum.{u32 as u32_datum, u64 as u64_datum, i64 as i64_datum, symbol};
ghost use Rattle.tagged_val.specs.Bits.{bits};

use crate::symbols::{symbol_bits, text_into};
use crate::writing::{small_signed, small_unsigned};
use host_spec::Tag;

/// A word of a contract. Not every word means something.
#[derive(Clone, Copy, Debug, PartialEq, Eq)]
pub struct Val(pub u64);

impl Val {
    /// What the lowest byte names, or `None` if it is no tag.
    pub fn tag(self) -> Option<Tag>
        ensures { result ≡ tag_of (tag_bits self.0) }
    {
        Tag::from_number(self.0 % 256)
    }

    /// Whether the word has the tag of an object.
    pub fn is_object(self) -> bool
        ensures { result ≡ is_object self.0 }
    {
        let tag = self.0 % 256;
        64 <= tag && tag <= 78
    }

    /// The word of a U32.
    pub fn of_u32(number: u32) -> Val
        ensures { small_word (u32_datum number) ≡ Some result.0 }
    {
        Val(4 + u64::from(number) * 0x1_0000_0000)
    }

    /// The U32 that the word means, if it means one.
    #[tactic(auto, using(crate::proofs::Numbers::other_tag, crate::proofs::Numbers::other_minor))]
    pub fn as_u32(self) -> Option<u32>
        ensures { result ≡ option_and_then as_u32 (small_meaning self.0) }
    {
        let tag = self.0 % 256;
        if tag != 4 {
            return None;
        }
        let minor = self.0 / 256 % 0x100_0000;
        if minor != 0 {
            return None;
        }
        Some((self.0 / 0x1_0000_0000) as u32)
    }

    /// The small form of a U64, or `None` if 56 bits do not hold it.
    pub fn small_u64(number: u64) -> Option<Val>
        ensures { option_map bits result ≡ small_word (u64_datum number) }
    {
        small_unsigned(6, number)
    }

    /// The small form of an I64, or `None` if 56 bits do not hold it.
    pub fn small_i64(number: i64) -> Option<Val>
        ensures { option_map bits result ≡ small_word (i64_datum number) }
    {
        small_signed(number)
    }

    /// The small form of a symbol, or `None` if it has more than 9 characters or one that no symbol has.
    pub fn small_symbol(text: &[u8]) -> Option<Val>
        ensures { option_map bits result ≡ small_word (symbol text.now) }
    {
        match symbol_bits(text) {
            None => None,
            Some(bits) => Some(Val(14 + bits * 256)),
        }
    }

    /// Writes the text of a small symbol and returns its length, or `None` if the word is no small symbol. The rest of the buffer
    /// may change.
    pub fn symbol_text(self, buffer: &mut [u8; 9]) -> Option<usize>
        ensures { MatchOption result (option_and_then as_symbol (small_meaning self.0) ≡ None)
            (λ n. (n ≤ 9) × (option_and_then as_symbol (small_meaning self.0) ≡ Some (take n buffer.new))) }
    {
        if self.0 % 256 == 14 {
            text_into(self.0 / 256, 9, buffer)
        } else {
            None
        }
    }
}
