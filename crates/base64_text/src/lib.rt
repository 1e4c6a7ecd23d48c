//! Decodes base64 text (RFC 4648, section 4).
#![tactic(auto)]

ghost use Rattle.std.specs.Prelude.{◌≡◌, ℕ, List, IfOk};
ghost use Rattle.base64.specs.GeneralPurpose.{IsBytes};
ghost use Rattle.base64_text.specs.Text.{Gives, IsTextOf, OnlyEncodings, bytes_in, without_newline};
ghost use Rattle.base64_text.specs.declared.TextErr.TheVariants.{NotBase64};

use base64::DecodeAllocError;
use base64::engine::general_purpose::STANDARD;
use std::alloc::Global;

/// The error of decoding.
#[derive(Debug, PartialEq, Eq, Drop)]
pub enum TextErr {
    /// The text is not an encoding.
    NotBase64,
    /// Memory ran out.
    NoMemory,
}

/// Decodes a text in the standard alphabet with its padding. One newline at the end of the text is dropped first; nothing else is
/// skipped. The empty text decodes to the empty list of bytes.
///
/// `NotBase64` comes exactly if the text is not an encoding.
#[tactic(auto, unfolding(crate::specs::Text::bytes_in))]
pub fn decode_text(alloc: Global, text: &[u8]) -> Result<Vec<u8>, TextErr>
    ensures given { Gives (λ v. v.items) (bytes_in text.now) result }
    ensures encoding { IfOk result (λ v. IsTextOf v.items text.now) }
    ensures bytes { IfOk result (λ v. IsBytes v.items) }
    ensures none { result ≡ Err NotBase64 → (bytes : List ℕ) → IsBytes bytes → IsTextOf bytes text.now → ⊥ }
{
    match STANDARD.decode(alloc, without_newline(text)) {
        Ok(bytes) => Ok(bytes),
        Err(DecodeAllocError::DecodeError(_)) => Err(TextErr::NotBase64),
        Err(DecodeAllocError::OutOfMemory) => Err(TextErr::NoMemory),
    }
}

/// The text before one newline at its end.
fn without_newline(text: &[u8]) -> &[u8]
    ensures { result.now ≡ without_newline text.now }
{
    if text.last() == Some(&b'\n') {
        &text[..text.len() - 1]
    } else {
        text
    }
}

/// A text decodes to bytes exactly if it is their encoding.
pub fn text_is_encoding()
    ensures { OnlyEncodings }
{}
