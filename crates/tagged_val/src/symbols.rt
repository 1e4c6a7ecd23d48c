//! Small symbols: up to 9 characters of 6 bits each, the first one highest.

ghost use Rattle.std.specs.Prelude.{◌≡◌, ◌≤◌, ◌<◌, ◌^◌, ◌&&◌, Some, None, length, take, nat_le, IfSome, MatchOption};
ghost use Rattle.std.specs.List.{list_all};
ghost use Rattle.host_spec.specs.Characters.{is_character};
ghost use Rattle.host_spec.specs.Words.{only_if, text_bits, text_of};

use crate::characters::{character_of, number_of};

/// The bits of a text, or `None` if no small symbol has it.
pub fn symbol_bits(text: &[u8]) -> Option<u64>
    ensures bits { result ≡ only_if (nat_le (length text.now) 9 && list_all is_character text.now) (text_bits 0 text.now) }
    ensures small { IfSome result (λ bits. bits < 2 ^ 54) }
{
    if text.len() > 9 {
        return None;
    }
    let mut bits = 0;
    for byte in text {
        let Some(number) = number_of(*byte) else {
            return None;
        };
        bits = bits * 64 + number;
    }
    Some(bits)
}

/// Writes the text of at most `left` characters that the bits say, and returns its length. Returns `None` if they say none.
pub fn text_into(bits: u64, left: usize, buffer: &mut [u8]) -> Option<usize>
    requires { left ≤ length buffer.old }
    ensures { MatchOption result (text_of left bits ≡ None) (λ n. (n ≤ left) × (text_of left bits ≡ Some (take n buffer.new))) }
{
    if bits == 0 {
        return Some(0);
    }
    if left == 0 {
        return None;
    }
    let len = text_into(bits / 64, left - 1, buffer)?;
    let character = character_of(bits % 64)?;
    buffer[len] = character;
    Some(len + 1)
}
