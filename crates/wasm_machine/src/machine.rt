//! The state of a run.

use crate::frames::Frames;
use crate::operands::Operands;
use crate::store::Store;
use wasm_spec::{TrapKind, Value, ValueType};

/// The state of a run.
#[derive(Drop)]
pub struct MachineState {
    /// The index of the next step in the flat code.
    pub pc: usize,
    pub operands: Operands,
    /// The locals of the innermost call.
    pub locals: Vec<Value>,
    pub frames: Frames,
    pub store: Store,
    /// The number of instructions that can still be executed.
    pub left: u64,
}

/// The outcome of one step.
#[derive(Drop)]
pub enum Outcome {
    /// The next step follows.
    Goes,
    /// The outermost call returned.
    Ends,
    Traps(TrapKind),
    /// The budget cannot pay for the instruction.
    RunsOut,
    /// The run calls the import of this index with these arguments; its result has this type.
    Asks(u32, Vec<u64>, Option<ValueType>),
}

/// The outcome of a step that neither calls nor returns.
#[derive(Clone, Copy, PartialEq, Eq, Debug)]
pub enum Quick {
    /// The next step follows.
    Goes,
    Traps(TrapKind),
    /// The budget cannot pay for the instruction.
    RunsOut,
    /// There was no memory for the operands.
    NoMemory,
}
