//! Discriminants of unions of the Stellar XDR files.

/// An extension point without an extension.
pub const NO_EXT: u32 = 0;
