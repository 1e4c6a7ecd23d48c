//! The steps as the machine runs them: each is one variant of one enum, so that one jump leads to its code.

ghost use Rattle.std.specs.Prelude.{◌≡◌, ◌<◌, [], ◌∷◌, ◌++◌, length, slice_get, slice_set, Some, None, OnOk, MatchOption, ◌^◌};
ghost use Rattle.wasm_code.specs.Ops.{step_of, op_of_numeric, op_of_plain, op_of};

use crate::step::Step;
use std::alloc::{AllocError, Global};
use std::marker::Model;
use wasm_spec::{
    Binary, Comparison, Conversion, LoadKind, MemArg, Numeric, Plain, StoreKind, Unary, ValueType,
};

/// A step, of which each numeric instruction has its kind in its name.
#[derive(Clone, Copy, PartialEq, Eq, Debug)]
pub enum Op {
    Nop,
    Drop,
    Select,
    LocalGet(u32),
    LocalSet(u32),
    LocalTee(u32),
    GlobalGet(u32),
    GlobalSet(u32),
    Load(LoadKind, MemArg),
    Store(StoreKind, MemArg),
    MemorySize,
    MemoryGrow,
    I32Const(u32),
    I64Const(u64),
    Test(ValueType),
    Compare(ValueType, Comparison),
    Unary(ValueType, Unary),
    Binary(ValueType, Binary),
    Convert(Conversion),
    Unreachable,
    Pass,
    Unless(usize),
    Skip(usize),
    Jump(usize, usize),
    JumpIf(usize, usize),
    Table(usize),
    Call(u32),
    CallIndirect(u32),
    Import(u32),
    End,
}

/// Returns the operation that stands for a numeric instruction.
fn op_of_numeric(operation: Numeric) -> Op
    ensures { result ≡ op_of_numeric operation }
{
    match operation {
        Numeric::Eqz(operand) => Op::Test(operand),
        Numeric::Compare(operand, operation) => Op::Compare(operand, operation),
        Numeric::Unary(operand, operation) => Op::Unary(operand, operation),
        Numeric::Binary(operand, operation) => Op::Binary(operand, operation),
        Numeric::Convert(operation) => Op::Convert(operation),
    }
}

/// Returns the operation that stands for an instruction that never branches.
fn op_of_plain(plain: Plain) -> Op
    ensures { result ≡ op_of_plain plain }
{
    match plain {
        Plain::Nop => Op::Nop,
        Plain::Drop => Op::Drop,
        Plain::Select => Op::Select,
        Plain::LocalGet(index) => Op::LocalGet(index),
        Plain::LocalSet(index) => Op::LocalSet(index),
        Plain::LocalTee(index) => Op::LocalTee(index),
        Plain::GlobalGet(index) => Op::GlobalGet(index),
        Plain::GlobalSet(index) => Op::GlobalSet(index),
        Plain::Load(kind, argument) => Op::Load(kind, argument),
        Plain::Store(kind, argument) => Op::Store(kind, argument),
        Plain::MemorySize => Op::MemorySize,
        Plain::MemoryGrow => Op::MemoryGrow,
        Plain::I32Const(number) => Op::I32Const(number),
        Plain::I64Const(number) => Op::I64Const(number),
        Plain::Numeric(operation) => op_of_numeric(operation),
    }
}

/// Returns the operation that stands for a step.
fn op_of(step: Step) -> Op
    ensures { result ≡ op_of step }
{
    match step {
        Step::Plain(plain) => op_of_plain(plain),
        Step::Unreachable => Op::Unreachable,
        Step::Pass => Op::Pass,
        Step::Unless(to) => Op::Unless(to),
        Step::Skip(to) => Op::Skip(to),
        Step::Jump(target_index, dropped) => Op::Jump(target_index, dropped),
        Step::JumpIf(target_index, dropped) => Op::JumpIf(target_index, dropped),
        Step::Table(count) => Op::Table(count),
        Step::Call(function_index) => Op::Call(function_index),
        Step::CallIndirect(type_index) => Op::CallIndirect(type_index),
        Step::Import(function_index) => Op::Import(function_index),
        Step::End => Op::End,
    }
}

/// The steps of flat code. Contracts see it as the list of the steps.
#[derive(Drop)]
pub struct Steps {
    ops: Vec<Op>,
}

impl Model for Steps {
    ghost use Rattle.std.specs.Prelude.{List, map};
    ghost use Rattle.wasm_code.specs.declared.step.Step.{Step};

    ghost Value = { List Step };

    ghost use Rattle.wasm_code.specs.Ops.{step_of};

    ghost view = { λ s. map step_of s.ops.items };
}

impl Steps {
    /// Makes an empty list.
    pub fn new(alloc: Global) -> Steps
        ensures { result ≡ [] }
    {
        Steps {
            ops: Vec::new(alloc),
        }
    }

    /// Returns the number of steps.
    #[tactic(auto, using(crate::proofs::OpLaws::ops_count))]
    pub fn len(&self) -> usize
        ensures { result ≡ length self.now }
    {
        self.ops.len()
    }

    /// Appends a step.
    #[tactic(auto, using(crate::proofs::OpLaws::op_pushed))]
    pub fn push(&mut self, step: Step) -> Result<(), AllocError>
        ensures { OnOk result (self.new ≡ self.old ++ step ∷ []) }
    {
        self.ops.push(op_of(step))?;
        Ok(())
    }

    /// Replaces the step of the index.
    #[tactic(auto, using(crate::proofs::OpLaws::ops_count, crate::proofs::OpLaws::op_replaced))]
    pub fn set(&mut self, index: usize, step: Step)
        requires { index < length self.old }
        ensures { self.new ≡ slice_set self.old index step }
    {
        self.ops[index] = op_of(step);
    }

    /// Returns the step of the index.
    #[tactic(auto, using(crate::proofs::OpLaws::ops_count, crate::proofs::OpLaws::op_at))]
    pub fn at(&self, index: usize) -> &Op
        requires { index < length self.now }
        ensures step { slice_get self.now index ≡ Some (step_of result.now) }
        ensures small { index < 2 ^ 63 }
    {
        &self.ops[index]
    }

    /// Returns the step of the index, if there is one.
    #[tactic(auto, using(crate::proofs::OpLaws::op_at, crate::proofs::OpLaws::op_past))]
    pub fn get(&self, index: usize) -> Option<Op>
        ensures { MatchOption result (slice_get self.now index ≡ None) (λ o. slice_get self.now index ≡ Some (step_of o)) }
    {
        self.ops.get(index).copied()
    }
}
