//! The types of the operands while code is checked (core section 3.3).

ghost use Rattle.std.specs.Prelude.{◌≡◌, ◌≢◌, [], ◌∷◌, Some, None, option_map, MatchBool};
ghost use Rattle.wasm_spec.specs.Typing.{taken_types};
ghost use Rattle.module_spec.specs.Check.{Shape, nothing, anything, push, pop, pop_any, pops, pop_result, push_result, ends};
ghost use Rattle.module_spec.specs.Check.{is_empty, same_type as same, may_be, either, check_select, check_signature};
ghost use Rattle.wasm_check.specs.Checks.{Checks};
ghost use Rattle.wasm_check.specs.Popped.{Pops};

use crate::error::Fault;
use std::alloc::Global;
use std::marker::Model;
use wasm_spec::{Signature, Taken, ValueType};

/// The types of the topmost operands, as far as they are known. Behind a jump the stack is polymorphic: operands of
/// any type may stand under them.
#[derive(Drop)]
pub struct Stack {
    known: Vec<Option<ValueType>>,
    any: bool,
}

impl Model for Stack {
    ghost use Rattle.std.specs.Prelude.{reverse};
    ghost use Rattle.module_spec.specs.Check.{Shape};

    ghost Value = { Shape };

    ghost view = { λ o. record { known = reverse o.known.items; any = o.any } };
}

/// Returns whether two value types are equal.
pub fn same_type(left: ValueType, right: ValueType) -> bool
    ensures { result ≡ same left right }
{
    left == right
}

/// Returns whether an operand may have the type. An operand of unknown type may have any.
fn may_be(known: Option<ValueType>, value_type: ValueType) -> bool
    ensures { result ≡ may_be known value_type }
{
    match known {
        None => true,
        Some(known) => same_type(known, value_type),
    }
}

/// Returns the type of an operand that is one of two, or `None` if the two have different types.
fn either(first: Option<ValueType>, second: Option<ValueType>) -> Option<Option<ValueType>>
    ensures { result ≡ either first second }
{
    match (first, second) {
        (None, known) => Some(known),
        (known, None) => Some(known),
        (Some(one), Some(other)) => same_type(one, other).then_some(first),
    }
}

impl Stack {
    /// Makes the stack at the start of a block, without operands.
    pub fn new(alloc: Global) -> Self
        ensures { result ≡ nothing }
    {
        Stack {
            known: Vec::new(alloc),
            any: false,
        }
    }

    fn push(&mut self, known: Option<ValueType>) -> Result<(), Fault>
        ensures { Checks (Some (push known self.old)) result self.new }
    {
        self.known.push(known)?;
        Ok(())
    }

    /// Pops an operand of any type and returns its type, if that is known. Returns `None` if there is no operand.
    pub fn pop_any(&mut self) -> Option<Option<ValueType>>
        ensures { Pops (pop_any self.old) result self.new }
    {
        match self.known.pop() {
            Some(known) => Some(known),
            None => { if self.any { Some(None) } else { None } }
        }
    }

    /// Returns whether every pop succeeds: the stack is polymorphic, and no operand's type is known.
    pub fn is_bottomless(&self) -> bool
        ensures { MatchBool result (self.now ≡ anything) (self.now ≢ anything) }
    {
        self.any && self.known.is_empty()
    }

    /// Pops an operand of the type. Fails with `Ill` if the topmost operand has another type, or there is none.
    pub fn pop(&mut self, value_type: ValueType) -> Result<(), Fault>
        ensures { Checks (pop value_type self.old) result self.new }
    {
        let known = self.pop_any().ok_or(Fault::Ill)?;
        if may_be(known, value_type) {
            Ok(())
        } else {
            Err(Fault::Ill)
        }
    }

    /// Makes the stack polymorphic, as it is behind an unconditional jump or a trap.
    pub fn forget(&mut self)
        ensures { self.new ≡ anything }
    {
        self.known.clear();
        self.any = true;
    }

    /// Pushes an operand of the result type, if there is one.
    pub fn push_result(&mut self, result_type: Option<ValueType>) -> Result<(), Fault>
        ensures { Checks (Some (push_result result_type self.old)) result self.new }
    {
        match result_type {
            None => Ok(()),
            Some(value_type) => self.push(Some(value_type)),
        }
    }

    /// Pops an operand of the result type, if there is one.
    pub fn pop_result(&mut self, result_type: Option<ValueType>) -> Result<(), Fault>
        ensures { Checks (pop_result result_type self.old) result self.new }
    {
        match result_type {
            None => Ok(()),
            Some(value_type) => self.pop(value_type),
        }
    }

    /// Pops the operands of `select` and pushes its result.
    pub fn select(&mut self) -> Result<(), Fault>
        ensures { Checks (check_select self.old) result self.new }
    {
        self.pop(ValueType::I32)?;
        let second = self.pop_any().ok_or(Fault::Ill)?;
        let first = self.pop_any().ok_or(Fault::Ill)?;
        let known = either(second, first).ok_or(Fault::Ill)?;
        self.push(known)
    }

    fn pop_taken(&mut self, taken: Taken) -> Result<(), Fault>
        ensures { Checks (pops (taken_types taken) self.old) result self.new }
    {
        match taken {
            Taken::None => Ok(()),
            Taken::One(first) => self.pop(first),
            Taken::Two(first, second) => {
                self.pop(first)?;
                self.pop(second)
            }
        }
    }

    /// Pops the operands that the signature takes and pushes its result.
    pub fn apply(&mut self, signature: Signature) -> Result<(), Fault>
        ensures { Checks (check_signature signature self.old) result self.new }
    {
        self.pop_taken(signature.takes)?;
        self.push_result(signature.gives)
    }

    /// Checks the end of a block: the operands are its result and no others.
    pub fn end(&mut self, result_type: Option<ValueType>) -> Result<(), Fault>
        ensures { Checks (ends result_type self.old) result self.new }
    {
        self.pop_result(result_type)?;
        if self.known.is_empty() {
            Ok(())
        } else {
            Err(Fault::Ill)
        }
    }
}
