//! Types (core section 2.3).

use crate::items::Items;

/// The type of an operand, a local or a global (core section 2.3.1).
#[derive(Clone, Copy, PartialEq, Eq, Debug)]
pub enum ValueType {
    I32,
    I64,
}

/// The types of a function's parameters and results (core section 2.3.3).
#[derive(Drop)]
pub struct FuncType {
    pub params: Items<ValueType>,
    pub results: Items<ValueType>,
}

/// The size of a table in elements, or of a memory in pages of 64 KiB (core sections 2.3.4 and 2.3.5).
#[derive(Clone, Copy, PartialEq, Eq, Debug)]
pub struct ResizableLimits {
    pub min: u32,
    pub max: Option<u32>,
}

/// The type of a table, whose elements are functions (core section 2.3.6).
#[derive(Clone, Copy, PartialEq, Eq, Debug)]
pub struct TableType {
    pub limits: ResizableLimits,
}

/// Whether code may set a global (core section 2.3.7).
#[derive(Clone, Copy, PartialEq, Eq, Debug)]
pub enum Mutability {
    Constant,
    Variable,
}

/// The types of the operands that an instruction pops, the topmost first.
#[derive(Clone, Copy, PartialEq, Eq, Debug)]
pub enum Taken {
    None,
    One(ValueType),
    Two(ValueType, ValueType),
}

/// The types of the operands that an instruction pops and pushes (core section 3.3: `[t1*] -> [t2*]`).
#[derive(Clone, Copy, PartialEq, Eq, Debug)]
pub struct Signature {
    pub takes: Taken,
    pub gives: Option<ValueType>,
}
