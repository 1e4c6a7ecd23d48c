//! The XDR bytes of a ledger key.

ghost use Rattle.std.specs.Prelude.{◌≡◌};

use std::marker::Model;

/// The XDR bytes of a ledger key. Contracts see them as a list.
#[derive(Debug, Drop)]
pub struct KeyBytes {
    bytes: Vec<u8>,
}

impl Model for KeyBytes {
    ghost use Rattle.std.specs.Prelude.{List, ℕ};

    ghost Value = { List ℕ };

    ghost view = { λ b. b.bytes.items };
}

impl KeyBytes {
    /// Takes the bytes over without allocating.
    pub fn from_vec(bytes: Vec<u8>) -> KeyBytes
        ensures { result ≡ bytes.items }
    {
        KeyBytes { bytes }
    }

    /// Lends the bytes.
    pub fn as_slice(&self) -> &[u8]
        ensures { result.now ≡ self.now }
    {
        &self.bytes
    }
}
