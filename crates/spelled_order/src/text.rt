//! Opaques of variable length.

ghost use Rattle.std.specs.Prelude.{◌≡◌, length};
ghost use Rattle.std.specs.declared.cmp.Ordering.TheVariants.{Equal};
ghost use Rattle.spelled_order.specs.Against.{Against};
ghost use Rattle.spelled_order.specs.Ranked.{ranked_length, ranked_text};

use crate::ranked::cmp_word;
use std::cmp::Ordering;

/// The number of values of a 32-bit word.
const WORDS: usize = 4_294_967_296;

/// Compares two lengths or counts.
pub(crate) fn cmp_lengths(one: usize, other: usize) -> Ordering
    ensures against { Against (ranked_length one) (ranked_length other) result }
    ensures same { result ≡ Equal → one ≡ other }
{
    if one < WORDS && other < WORDS {
        cmp_word(one as u32, other as u32)
    } else {
        one.cmp(&other)
    }
}

/// Compares two opaques: first by length, then by their bytes. The padding never decides.
pub fn cmp_text(one: &[u8], other: &[u8]) -> Ordering
    ensures { Against (ranked_text one.now) (ranked_text other.now) result }
{
    match cmp_lengths(one.len(), other.len()) {
        Ordering::Equal => one.cmp(&other),
        unequal => unequal,
    }
}
