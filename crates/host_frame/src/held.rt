//! Values that are owned or lent.

ghost use Rattle.std.specs.Prelude.{◌≡◌};
ghost use Rattle.host_frame.specs.Held.{held, held_text};

use value_types::{Blob, ScVal};

/// A value that a word means: a small form, made here, or an object, which is only lent.
#[derive(Drop)]
pub enum Held<'a> {
    Own(ScVal),
    Lent(&'a ScVal),
}

impl<'a> Held<'a> {
    /// The value, lent.
    pub fn get(&self) -> &ScVal
        ensures { result.now ≡ held self.now }
    {
        match self {
            Held::Own(value) => value,
            Held::Lent(value) => value,
        }
    }
}

/// The text of a symbol: of a small one, made here, or of an object.
#[derive(Drop)]
pub enum HeldText<'a> {
    Own(Blob),
    Lent(&'a [u8]),
}

impl<'a> HeldText<'a> {
    /// The text, lent.
    pub fn get(&self) -> &[u8]
        ensures { result.now ≡ held_text self.now }
    {
        match self {
            HeldText::Own(text) => text.as_slice(),
            HeldText::Lent(text) => text,
        }
    }
}
