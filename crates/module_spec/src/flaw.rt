//! Why bytes are rejected as a module.

/// Why the host rejects bytes as a module.
#[derive(Clone, Copy, Debug, PartialEq, Eq)]
pub enum Flaw {
    /// The bytes encode no module.
    NotAModule,
    /// The module is ill typed: `func` is the index of the first ill-typed function, imports included, or `None` if a
    /// rule outside function bodies is broken.
    Ill { func: Option<u32> },
    /// `import` is the index of the first import that the host interface does not have with its type.
    Unlinked { import: u32 },
}
