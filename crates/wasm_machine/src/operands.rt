//! The operand stack of all open calls.

ghost use Rattle.std.specs.Prelude.{◌≡◌, ◌<◌, ◌≤◌, List, [], ◌∷◌, ◌++◌, drop, length, map, reverse, slice_get, Some, IsSome};
ghost use Rattle.std.specs.Prelude.{OnOk, OnErr, IfOk};
ghost use Rattle.wasm_spec.specs.declared.values.Value.{Value as Value_};
ghost use Rattle.wasm_spec.specs.declared.types.ValueType.TheVariants.{I32, I64};
ghost use Rattle.wasm_spec.specs.declared.values.Value.TheVariants as value;
ghost use Rattle.wasm_spec.specs.Stores.{value_of};
ghost use Rattle.wasm_spec.specs.Meaning.{arguments};
ghost use Rattle.wasm_machine.specs.Machine.{removed, cut};
ghost use Rattle.wasm_machine.specs.Numbers.{HasTop};

use std::alloc::{AllocError, Global};
use std::marker::Model;
use wasm_spec::{Value, ValueType};

/// A stack of values. Contracts see it as a list, the topmost value first.
#[derive(Drop)]
pub struct Operands {
    values: Vec<Value>,
}

impl Model for Operands {
    ghost use Rattle.std.specs.Prelude.{List, reverse};
    ghost use Rattle.wasm_spec.specs.declared.values.Value.{Value as Operand};

    ghost Value = { List Operand };

    ghost view = { λ o. reverse o.values.items };
}

/// Replaces the first values by these numbers, as `i64`.
pub fn put_numbers(values: &mut [Value], numbers: &[u64])
    requires { length numbers.now ≤ length values.old }
    ensures { values.new ≡ map value.I64 numbers.now ++ drop (length numbers.now) values.old }
{
    for (index, number) in numbers.iter().enumerate() {
        values[index] = Value::I64(*number);
    }
}

impl Operands {
    /// Makes an empty stack.
    pub fn new(alloc: Global) -> Self
        ensures { result ≡ [] }
    {
        Operands {
            values: Vec::new(alloc),
        }
    }

    /// Makes a stack of these values, the last one the topmost. Allocates no memory.
    pub fn from_vec(values: Vec<Value>) -> Self
        ensures { result ≡ reverse values.items }
    {
        Operands { values }
    }

    /// Pushes an operand.
    pub fn push(&mut self, value: Value) -> Result<(), AllocError>
        ensures ok { OnOk result (self.new ≡ value ∷ self.old) }
        ensures err { OnErr result (self.new ≡ self.old) }
    {
        self.values.push(value)?;
        Ok(())
    }

    /// Pops the topmost operand.
    pub fn pop(&mut self) -> Value
        requires { 0 < length self.old }
        ensures { self.old ≡ result ∷ self.new }
    {
        match self.values.pop() {
            Some(value) => value,
            None => unreachable!(),
        }
    }

    /// Returns the topmost operand, if there is one.
    pub fn top(&self) -> Option<Value>
        ensures { result ≡ slice_get self.now 0 }
    {
        self.values.last().copied()
    }

    /// Replaces the topmost operand.
    pub fn replace(&mut self, value: Value)
        requires { 0 < length self.old }
        ensures { (v : Value_) (below : List Value_) → self.old ≡ v ∷ below → self.new ≡ value ∷ below }
    {
        let top = self.values.len() - 1;
        self.values[top] = value;
    }

    /// Replaces all operands by these numbers, as `i64`. The last number becomes the topmost.
    pub fn replace_all(&mut self, numbers: &[u64])
        requires { length self.old ≡ length numbers.now }
        ensures { self.new ≡ reverse (map value.I64 numbers.now) }
    {
        put_numbers(&mut self.values, numbers);
    }

    /// Pops the topmost operand, which is an `i32`.
    pub fn pop32(&mut self) -> u32
        requires { HasTop I32 self.old }
        ensures { self.old ≡ value.I32 result ∷ self.new }
    {
        match self.values.pop() {
            Some(Value::I32(number)) => number,
            _ => unreachable!(),
        }
    }

    /// Pops the topmost operand, which is an `i64`.
    pub fn pop64(&mut self) -> u64
        requires { HasTop I64 self.old }
        ensures { self.old ≡ value.I64 result ∷ self.new }
    {
        match self.values.pop() {
            Some(Value::I64(number)) => number,
            _ => unreachable!(),
        }
    }

    /// Returns the topmost operand, which is an `i32`.
    #[tactic(auto, using(crate::proofs::Stack::top32_is, crate::proofs::Stack::has_top32))]
    pub fn top32(&self) -> u32
        requires { HasTop I32 self.now }
        ensures { (below : List Value_) × (self.now ≡ value.I32 result ∷ below) }
    {
        match self.top() {
            Some(Value::I32(number)) => number,
            _ => unreachable!(),
        }
    }

    /// Returns the topmost operand, which is an `i64`.
    #[tactic(auto, using(crate::proofs::Stack::top64_is, crate::proofs::Stack::has_top64))]
    pub fn top64(&self) -> u64
        requires { HasTop I64 self.now }
        ensures { (below : List Value_) × (self.now ≡ value.I64 result ∷ below) }
    {
        match self.top() {
            Some(Value::I64(number)) => number,
            _ => unreachable!(),
        }
    }

    /// Removes the `count` topmost operands.
    pub fn remove(&mut self, count: usize)
        requires { IsSome (removed count self.old) }
        ensures { removed count self.old ≡ Some self.new }
    {
        self.values.truncate(self.values.len() - count);
    }

    /// Removes `count` operands under the one that a branch carries, if it carries one.
    pub fn cut(&mut self, carried: Option<ValueType>, count: usize)
        requires { IsSome (cut carried count self.old) }
        ensures { cut carried count self.old ≡ Some self.new }
    {
        match carried {
            None => self.remove(count),
            Some(_) => {
                let top = self.values.len() - 1;
                self.values[top - count] = self.values[top];
                self.values.truncate(top + 1 - count);
            }
        }
    }

    /// Pops the `count` topmost operands and returns them in the order in which they were pushed.
    pub fn take_arguments(&mut self, count: usize) -> Result<Vec<Value>, AllocError>
        requires { IsSome (arguments count [] self.old) }
        ensures { IfOk result (λ args. arguments count [] self.old ≡ Some (args.items, self.new)) }
    {
        let rest = self.values.len() - count;
        self.values.split_off(rest)
    }
}
