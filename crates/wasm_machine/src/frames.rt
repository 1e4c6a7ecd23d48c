//! The stack of waiting calls.

ghost use Rattle.std.specs.Prelude.{◌≡◌, [], ◌∷◌, length, OnOk, OnErr, IfSome, IfNone};
ghost use Rattle.wasm_machine.specs.Frames.{frame_of};

use std::alloc::{AllocError, Global};
use std::marker::Model;
use wasm_spec::Value;

/// A call that waits for its callee: the index of the step behind the call, and its locals.
#[derive(Drop)]
pub struct Waiting {
    pub pc: usize,
    pub locals: Vec<Value>,
}

/// The stack of waiting calls. Contracts see it as a list, the innermost call first.
#[derive(Drop)]
pub struct Frames {
    calls: Vec<Waiting>,
}

impl Model for Frames {
    ghost use Rattle.std.specs.Prelude.{List, reverse, map};
    ghost use Rattle.wasm_machine.specs.Machine.{Frame};

    ghost Value = { List Frame };

    ghost use Rattle.wasm_machine.specs.Frames.{frame_of};

    ghost view = { λ f. reverse (map frame_of f.calls.items) };
}

impl Frames {
    /// Makes an empty stack.
    pub fn new(alloc: Global) -> Self
        ensures { result ≡ [] }
    {
        Frames {
            calls: Vec::new(alloc),
        }
    }

    /// Returns the number of waiting calls.
    pub fn count(&self) -> usize
        ensures { result ≡ length self.now }
    {
        self.calls.len()
    }

    /// Pushes a call that waits for its callee.
    pub fn push(&mut self, call: Waiting) -> Result<(), AllocError>
        ensures ok { OnOk result (self.new ≡ frame_of call ∷ self.old) }
        ensures err { OnErr result (self.new ≡ self.old) }
    {
        self.calls.push(call)?;
        Ok(())
    }

    /// Pops the innermost waiting call, if there is one.
    pub fn pop(&mut self) -> Option<Waiting>
        ensures some { IfSome result (λ call. self.old ≡ frame_of call ∷ self.new) }
        ensures none { IfNone result ((self.old ≡ []) × (self.new ≡ [])) }
    {
        self.calls.pop()
    }
}
