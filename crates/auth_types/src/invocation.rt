//! Trees of invocations.

ghost use Rattle.std.specs.Prelude.{◌≡◌};

use invoke_types::Function;
use std::alloc::Global;
use std::marker::Model;

/// An authorised invocation with its sub-invocations (the XDR files' `SorobanAuthorizedInvocation`).
#[cycle(invocation)]
#[derive(Drop)]
pub struct Invocation {
    pub function: Function,
    pub sub_invocations: Invocations,
}

/// The sub-invocations of an invocation, in order.
#[cycle(invocation)]
#[derive(Drop)]
pub struct Invocations {
    items: Vec<Invocation>,
}

impl Model for Invocations {
    ghost use Rattle.std.specs.Prelude.{List};
    ghost use Rattle.std.specs.Coded.{coded_list};
    ghost use Rattle.auth_types.specs.Tree.{Tree, row_size};
    ghost use Rattle.auth_types.specs.TreeCode.{coded_tree};

    ghost Value = { List Tree };

    ghost coded = { coded_list coded_tree };

    ghost use Rattle.auth_types.specs.Views.{forest_of};

    ghost view = { λ a. forest_of a.items.items };

    ghost size = { row_size };

    ghost use Rattle.auth_types.specs.Falls.{invocations_fall};

    ghost size_decreases = { invocations_fall };
}

impl Invocations {
    ghost use Rattle.auth_types.specs.Views.{forest_of};

    /// The list of these items. Takes no memory.
    pub fn from_vec(items: Vec<Invocation>) -> Invocations
        ensures { result ≡ forest_of items.items }
    {
        Invocations { items }
    }

    /// The items, lent.
    pub fn as_slice(&self) -> &[Invocation]
        ensures { forest_of result.now ≡ self.now }
    {
        &self.items
    }

    /// The allocator of the list.
    pub fn allocator(&self) -> Global {
        *self.items.allocator()
    }

    /// The items as a `Vec`. Takes no memory.
    pub fn into_vec(self) -> Vec<Invocation>
        ensures { forest_of result.items ≡ self }
    {
        let Invocations { items } = self;
        items
    }
}
