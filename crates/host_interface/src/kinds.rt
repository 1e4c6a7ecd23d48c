//! What the words of a host import stand for.

/// What the argument of a host import stands for.
///
/// A word of any kind but the last two is a tagged word. The small form of a type and its object form are both accepted.
#[derive(Clone, Copy, PartialEq, Eq, Debug)]
pub enum ArgKind {
    /// A value of any type.
    Value,
    Error,
    U32,
    U64,
    I64,
    U128,
    I128,
    Timepoint,
    Duration,
    Bytes,
    String,
    Symbol,
    Vec,
    Map,
    /// The address of an account or a contract.
    Address,
    /// The address of a muxed account.
    MuxedAddress,
    /// An unsigned number of 64 bits.
    Unsigned,
    /// A signed number of 64 bits.
    Signed,
}

/// What the result of a host import stands for.
#[derive(Clone, Copy, PartialEq, Eq, Debug)]
pub enum ResultKind {
    /// A value of any type.
    Value,
    Void,
    Bool,
    U32,
    /// A U32, or Void if there is none.
    OptionalU32,
    U64,
    I64,
    U128,
    I128,
    Timepoint,
    Duration,
    Bytes,
    String,
    Symbol,
    Vec,
    Map,
    Address,
    /// An unsigned number of 64 bits.
    Unsigned,
    /// A signed number of 64 bits.
    Signed,
    /// The call never returns.
    Never,
}
