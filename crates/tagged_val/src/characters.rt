//! The characters of symbols.

ghost use Rattle.std.specs.Prelude.{◌≡◌, ◌<◌, IfSome};
ghost use Rattle.host_spec.specs.Characters.{number_of, character_of, is_character};

/// The number of a character, from 1 to 63, or `None` for a byte that is no character of symbols.
pub fn number_of(byte: u8) -> Option<u64>
    ensures number { result ≡ number_of byte }
    ensures small { IfSome result (λ n. n < 64) }
{
    match byte {
        95 => Some(1),
        48..=57 => Some(2 + u64::from(byte - 48)),
        65..=90 => Some(12 + u64::from(byte - 65)),
        97..=122 => Some(38 + u64::from(byte - 97)),
        _ => None,
    }
}

/// The character of a number, or `None` if it is not from 1 to 63.
pub fn character_of(number: u64) -> Option<u8>
    ensures { result ≡ character_of number }
{
    match number {
        1 => Some(95),
        2..=11 => Some(48 + (number - 2) as u8),
        12..=37 => Some(65 + (number - 12) as u8),
        38..=63 => Some(97 + (number - 38) as u8),
        _ => None,
    }
}

/// Whether a symbol may hold this byte: an underscore, a digit or a letter.
pub fn is_character(byte: u8) -> bool
    ensures { result ≡ is_character byte }
{
    number_of(byte).is_some()
}
