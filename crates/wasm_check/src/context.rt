//! The context of the code that is checked (core section 3.1).

ghost use Rattle.std.specs.Prelude.{◌≡◌, [], ◌∷◌, slice_get, OnOk};

use std::alloc::{AllocError, Global};
use std::marker::Model;
use wasm_spec::ValueType;

/// The result types of the enclosing labels. Contracts see them as a list, the innermost label first.
#[derive(Drop)]
pub struct Labels {
    results: Vec<Option<ValueType>>,
}

impl Model for Labels {
    ghost use Rattle.std.specs.Prelude.{List, Option, reverse};
    ghost use Rattle.wasm_spec.specs.declared.types.ValueType.{ValueType};

    ghost Value = { List (Option ValueType) };

    ghost view = { λ l. reverse l.results.items };
}

impl Labels {
    /// Makes the labels of code outside all blocks.
    pub fn new(alloc: Global) -> Self
        ensures { result ≡ [] }
    {
        Labels {
            results: Vec::new(alloc),
        }
    }

    /// Enters a block whose label has this result type.
    pub fn push(&mut self, result_type: Option<ValueType>) -> Result<(), AllocError>
        ensures { OnOk result (self.new ≡ result_type ∷ self.old) }
    {
        self.results.push(result_type)?;
        Ok(())
    }

    /// Leaves the innermost block.
    pub fn pop(&mut self)
        ensures { (k : _) (ks : _) → self.old ≡ k ∷ ks → self.new ≡ ks }
    {
        self.results.pop();
    }

    /// Returns the result type of a label, by its depth: 0 is the innermost label.
    pub fn at(&self, depth: usize) -> Option<Option<ValueType>>
        ensures { result ≡ slice_get self.now depth }
    {
        if depth < self.results.len() {
            Some(self.results[self.results.len() - 1 - depth])
        } else {
            None
        }
    }
}

/// The locals, the enclosing labels and the result type of the function whose body is checked.
#[derive(Drop)]
pub struct Scope {
    pub locals: Vec<ValueType>,
    pub labels: Labels,
    pub result: Option<ValueType>,
}
