//! Discriminants of unions of the Stellar XDR files.

/// An extension point without an extension.
pub const NO_EXT: u32 = 0;
/// The type of an envelope with a `Transaction` (ENVELOPE_TYPE_TX), in envelopes and in hashed bytes.
pub const ENVELOPE_TYPE_TX: u32 = 2;
/// The type of an envelope with a `FeeBumpTransaction` (ENVELOPE_TYPE_TX_FEE_BUMP), in hashed bytes.
pub const ENVELOPE_TYPE_TX_FEE_BUMP: u32 = 5;
