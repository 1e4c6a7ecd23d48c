//! The labels in scope while code is compiled.

ghost use Rattle.std.specs.Prelude.{◌≡◌, ◌<◌, [], ◌∷◌, length, slice_get, Some, OnOk};

use std::alloc::{AllocError, Global};
use std::marker::Model;
use wasm_spec::ValueType;

/// A label: the index of its target, the result that a branch to it carries, and the number of
/// operands of the call below its block.
#[derive(Clone, Copy, PartialEq, Eq, Debug)]
pub struct Open {
    pub target: usize,
    pub result: Option<ValueType>,
    pub height: usize,
}

/// The labels, the innermost first.
#[derive(Drop)]
pub struct Labels {
    opens: Vec<Open>,
}

impl Model for Labels {
    ghost use Rattle.std.specs.Prelude.{List, reverse};
    ghost use Rattle.wasm_code.specs.declared.labels.Open.{Open};

    ghost Value = { List Open };

    ghost view = { λ l. reverse l.opens.items };
}

impl Labels {
    /// Starts with no label.
    pub fn new(alloc: Global) -> Self
        ensures { result ≡ [] }
    {
        Labels {
            opens: Vec::new(alloc),
        }
    }

    /// Opens a label.
    pub fn push(&mut self, label: Open) -> Result<(), AllocError>
        ensures { OnOk result (self.new ≡ label ∷ self.old) }
    {
        self.opens.push(label)?;
        Ok(())
    }

    /// Closes the innermost label.
    pub fn pop(&mut self)
        ensures { (o : _) (os : _) → self.old ≡ o ∷ os → self.new ≡ os }
    {
        self.opens.pop();
    }

    /// Returns the label that is `depth` blocks further out than the innermost.
    pub fn at(&self, depth: usize) -> Open
        requires { depth < length self.now }
        ensures { slice_get self.now depth ≡ Some result }
    {
        self.opens[self.opens.len() - 1 - depth]
    }
}
