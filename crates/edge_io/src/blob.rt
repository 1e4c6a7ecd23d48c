//! The bytes of a whole file.

ghost use Rattle.std.specs.Prelude.{◌≡◌, ◌≤◌, ◌^◌, length};

use std::marker::Model;

/// The bytes of a file, at most 2^30 of them.
#[derive(Debug, Drop)]
pub struct Blob {
    bytes: Vec<u8>,
}

impl Model for Blob {
    ghost use Rattle.std.specs.Prelude.{List, ℕ, ◌≤◌, ◌^◌, length};

    ghost Value = { List ℕ };

    ghost view = { λ b. b.bytes.items };

    ghost invariant = { λ b. length b.bytes.items ≤ 2 ^ 30 };
}

impl Blob {
    /// Takes the bytes over. Takes no memory.
    pub fn new(bytes: Vec<u8>) -> Blob
        requires { length bytes.items ≤ 2 ^ 30 }
        ensures { result ≡ bytes.items }
    {
        Blob { bytes }
    }

    /// The bytes, lent.
    pub fn as_slice(&self) -> &[u8]
        ensures value { result.now ≡ self.now }
        ensures small { length self.now ≤ 2 ^ 30 }
    {
        &self.bytes
    }
}
