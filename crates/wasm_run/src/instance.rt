//! Calls of exports, which pause at each call of an import.

ghost use Rattle.std.specs.Prelude.{◌≡◌, ◌≤◌, ◌<◌, ◌*◌, ◌++◌, ℕ, List, drop, length, replicate, slice_get, Option, Some, Ok};
ghost use Rattle.std.specs.Prelude.{Err, IfOk, OnOk, OnErr};
ghost use Rattle.budget_meter.specs.Meter.{Meter};
ghost use Rattle.wasm_spec.specs.declared.values.Value.TheVariants as value;
ghost use Rattle.wasm_spec.specs.Stores.{answered};
ghost use Rattle.wasm_spec.specs.Runs.{Run};
ghost use Rattle.wasm_spec.specs.Meaning.{meaning};
ghost use Rattle.wasm_spec.specs.Code.{BlockType};
ghost use Rattle.wasm_run.specs.Suspended.{suspended, Does, Awaits, Tells, EventNames, StandsAfter, IsNearer, IsNew, work};
ghost use Rattle.wasm_spec.specs.Spending.{IsLater};
ghost use Rattle.std.specs.Borrow.{sem};
ghost use Rattle.wasm_run.specs.Lending.{LendsMemory};

use crate::error::StartErr;
use crate::placing::placed;
use crate::prepare::{Beginning, begin};
use budget_meter::Budget;
use std::alloc::{AllocError, Global};
use std::marker::Model;
use wasm_check::ValidModule;
use wasm_code::FlatCode;
use wasm_machine::{MachineState, Operands, Paused, go_on, is_import, put_numbers};
use wasm_spec::{Items, Module, TrapKind, Value, ValueType};

/// The phase of a call.
#[derive(Clone, Copy, PartialEq, Eq, Debug)]
pub enum CallPhase {
    /// The call of the function of this index, with so many arguments, has not been started.
    Fresh(u32, usize),
    /// The call can continue.
    Ready,
    /// The call waits for an import's result, which has this type.
    Waiting(Option<ValueType>),
    /// The call is over.
    Over,
}

/// Why a call paused or ended.
#[derive(Drop)]
pub enum Event {
    /// The call returned this result.
    Done(u64),
    /// The call waits for the import of this index, which it called with these arguments.
    HostCall { import: u32, args: Items<u64> },
    /// The call trapped.
    Trap(TrapKind),
    /// The budget cannot pay for the next instruction.
    Spent,
}

/// An instance of a module, made for one call of an export.
#[derive(Drop)]
pub struct Instance<'a> {
    source: &'a Module,
    code: &'a FlatCode,
    phase: CallPhase,
    running: MachineState,
}

impl<'a> Model for Instance<'a> {
    ghost use Rattle.wasm_run.specs.Suspended.{Suspended, suspended};
    ghost use Rattle.wasm_run.specs.Able.{IsAble};
    ghost use Rattle.wasm_run.specs.SuspendedCode.{coded_suspended};

    ghost Value = { Suspended };

    ghost coded = { coded_suspended };

    ghost view = { λ i. suspended i.source.now i.code.now i.phase i.running };

    ghost invariant = { λ i. IsAble (suspended i.source.now i.code.now i.phase i.running) };
}

/// Returns the number of a result, which is an `i64`.
fn word(result_value: Option<Value>) -> u64
    requires { (n : ℕ) × (result_value ≡ Some (value.I64 n)) }
    ensures { result_value ≡ Some (value.I64 result) }
{
    match result_value {
        Some(Value::I64(number)) => number,
        _ => unreachable!(),
    }
}

/// Writes an import's result into the operand that is reserved for it, or removes that operand if there is no result.
fn put_answer(operands: &mut Operands, result_type: Option<ValueType>, answer: u64)
    requires { 0 < length operands.old }
    ensures { operands.new ≡ answered result_type answer ++ drop 1 operands.old }
{
    match result_type {
        None => {
            let _held = operands.pop();
        }
        Some(ValueType::I32) => operands.replace(Value::I32((answer % 0x1_0000_0000) as u32)),
        Some(ValueType::I64) => operands.replace(Value::I64(answer)),
    }
}

impl<'a> Instance<'a> {
    /// Makes an instance for a call of the export, whose type has to be `arity` times `i64` to one `i64`.
    pub fn new(
        alloc: Global,
        source: &'a ValidModule,
        export: &[u8],
        arity: usize,
    ) -> Result<Instance<'a>, StartErr>
        ensures new { IsNew source.now export.now arity result }
        ensures fresh { IfOk result (λ i. (f : ℕ) × (i.phase ≡ CallPhase.Fresh f arity)) }
    {
        let module = source.module();
        let code = source.code();
        let Beginning { function, store } = begin(alloc, module, export, arity)?;
        let running = placed(alloc, module, code, function, arity, store)?;
        Ok(Instance {
            source: module,
            code,
            phase: CallPhase::Fresh(function, arity),
            running,
        })
    }

    /// Sets the arguments of the call. Allocates no memory.
    pub fn start(&mut self, args: &[u64])
        requires { (f : ℕ) × (self.old.phase ≡ CallPhase.Fresh f (length args.now)) }
        ensures ready { self.new.phase ≡ CallPhase.Ready }
        ensures does { (f : ℕ) → self.old.phase ≡ CallPhase.Fresh f (length args.now)
            → Does self.new (meaning self.old.source f args.now self.old.store) }
        ensures store { self.new.store ≡ self.old.store }
        ensures source { self.new.source ≡ self.old.source }
    {
        let CallPhase::Fresh(function, _) = self.phase else {
            unreachable!()
        };
        if is_import(self.source, function) {
            self.running.operands.replace_all(args);
            self.phase = CallPhase::Ready;
            return;
        }
        put_numbers(&mut self.running.locals, args);
        self.phase = CallPhase::Ready;
    }

    /// Runs to the call's end, to the next call of an import, or until the budget is spent. If memory runs out, the call
    /// is over.
    pub fn step_to(&mut self, budget: &mut Budget) -> Result<Event, AllocError>
        requires { self.old.phase ≡ CallPhase.Ready }
        ensures tells { IfOk result (λ event. (go : Meter → Run) → Does self.old go →
            Tells (go budget.old) event budget.new self.new) }
        ensures stands { IfOk result (λ event. StandsAfter event self.new) }
        ensures names { IfOk result (EventNames self.old.source) }
        ensures spends { IsLater budget.old budget.new }
        ensures over { OnErr result (self.new.phase ≡ CallPhase.Over) }
        ensures nearer { IfOk result (λ event. IsNearer event self.old self.new) }
        ensures source { self.new.source ≡ self.old.source }
    {
        self.phase = CallPhase::Over;
        match go_on(self.source, self.code, &mut self.running, budget)? {
            Paused::Done(result_value) => Ok(Event::Done(word(result_value))),
            Paused::Trap(kind) => Ok(Event::Trap(kind)),
            Paused::Spent => Ok(Event::Spent),
            Paused::HostCall(import, words, result_type) => {
                self.running.operands.push(Value::I64(0))?;
                self.phase = CallPhase::Waiting(result_type);
                let args = Items::from_vec(words);
                Ok(Event::HostCall { import, args })
            }
        }
    }

    /// Passes an import's result to the waiting call. Allocates no memory.
    pub fn give(&mut self, answer: u64)
        requires { (r : BlockType) × (self.old.phase ≡ CallPhase.Waiting r) }
        ensures ready { self.new.phase ≡ CallPhase.Ready }
        ensures goes_on { (on : (ℕ → List ℕ → Meter → Run)) → Awaits self.old on →
            Does self.new (on answer self.old.store.memory.bytes) }
        ensures work { work self.new ≡ work self.old }
        ensures store { self.new.store ≡ self.old.store }
        ensures source { self.new.source ≡ self.old.source }
    {
        let CallPhase::Waiting(result_type) = self.phase else {
            unreachable!()
        };
        put_answer(&mut self.running.operands, result_type, answer);
        self.phase = CallPhase::Ready;
    }

    /// Returns the bytes of the memory. Contracts do not say what they are after the call's end.
    pub fn memory(&self) -> &[u8]
        ensures { result.now ≡ self.now.store.memory.bytes }
    {
        self.running.store.memory()
    }

    /// Returns the bytes of the memory, 64 pages at most, for writing, while the call waits for an import's result.
    pub fn memory_mut(&mut self) -> &mut [u8]
        requires { (r : BlockType) × (self.old.phase ≡ CallPhase.Waiting r) }
        ensures* writes_back { sem 𝓛 (LendsMemory self.entry result) }
        ensures value { result.now ≡ self.old.store.memory.bytes }
        ensures small { length result.now ≤ 64 * 65536 }
    {
        self.running.store.memory_mut()
    }
}
