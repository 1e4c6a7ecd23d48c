//! Values (core section 4.2.1) and traps (core section 4.4).

/// A value (core section 4.2.1). Integers are unsigned.
#[derive(Clone, Copy, PartialEq, Eq, Debug)]
pub enum Value {
    I32(u32),
    I64(u64),
}

/// Why an execution traps (core section 4.4).
#[derive(Clone, Copy, PartialEq, Eq, Debug)]
pub enum TrapKind {
    /// `unreachable` was executed.
    Unreachable,
    /// An address beyond the end of the memory, or an index beyond the end of the table.
    OutOfBounds,
    /// A division by zero, or a quotient that does not fit its width.
    Arithmetic,
    /// `call_indirect` of a function whose type differs from the one asked for.
    IndirectType,
    /// `call_indirect` of an element of the table that was never set.
    EmptyElement,
    /// More nested calls than this host allows.
    CallDepth,
}
