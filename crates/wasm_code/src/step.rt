//! Flat code: the steps of all functions in one vector.

use crate::op::Steps;
use wasm_spec::{Items, Plain, ValueType};

/// One step of flat code. Each step but `Skip`, `Import` and `End` counts as one executed instruction.
#[derive(Clone, Copy, PartialEq, Eq, Debug)]
pub enum Step {
    Plain(Plain),
    Unreachable,
    /// The start of a block or a loop.
    Pass,
    /// Pops a number, and continues at this step if the number is 0.
    Unless(usize),
    /// Continues at this later step, past the else branch of an `if`.
    Skip(usize),
    /// Branches to the target with this index. Removes so many operands below those that the branch carries.
    Jump(usize, usize),
    /// Pops a number, and does the same if the number is not 0.
    JumpIf(usize, usize),
    /// Pops a number and executes one of the jumps in the following steps: the jump at that index, or
    /// the default jump at the index given here if the number is not below it.
    Table(usize),
    Call(u32),
    CallIndirect(u32),
    /// Asks the host for the answer of an import.
    Import(u32),
    /// The end of a function.
    End,
}

/// The step that a branch leads to, and the result that it carries.
#[derive(Clone, Copy, PartialEq, Eq, Debug)]
pub struct Target {
    pub pc: usize,
    pub result: Option<ValueType>,
}

/// The code of all functions of a module: the steps, the targets of branches, and the index of the
/// first step of each function that the module defines.
#[derive(Drop)]
pub struct FlatCode {
    pub steps: Steps,
    pub targets: Items<Target>,
    pub entries: Items<usize>,
}
