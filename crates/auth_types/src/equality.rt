//! Equality of trees of invocations. A comparison takes no memory.

ghost use Rattle.std.specs.Prelude.{◌≡◌};
ghost use Rattle.std.specs.Bool.{Decides};
ghost use Rattle.std.specs.Cmp.{partial_equiv_from_equiv};
ghost use Rattle.value_types.specs.Equality.{is_same, is_same_equiv};
ghost use Rattle.auth_types.specs.Equality.{coded_invocation, coded_invocations};

use crate::invocation::{Invocation, Invocations};

/// Returns whether the two trees are equal.
#[cycle(equality)]
fn same_invocation(one: &Invocation, other: &Invocation) -> bool
    ensures { Decides result (one.now ≡ other.now) }
{
    one.function == other.function
        && same_row(
            one.sub_invocations.as_slice(),
            other.sub_invocations.as_slice(),
        )
}

/// Returns whether the two rows hold equal trees in the same order.
#[cycle(equality)]
fn same_row(row: &[Invocation], others: &[Invocation]) -> bool
    ensures { Decides result (row.now ≡ others.now) }
{
    if row.len() != others.len() {
        return false;
    }
    for (index, invocation) in row.iter().enumerate() {
        if !same_invocation(invocation, &others[index]) {
            return false;
        }
    }
    true
}

impl PartialEq for Invocation {
    ghost eq = { is_same coded_invocation };

    ghost laws = { partial_equiv_from_equiv (is_same_equiv coded_invocation) };

    fn eq(&self, other: &Invocation) -> bool
        ensures eq { result ≡ is_same coded_invocation self.now other.now }
        ensures exact { Decides result (self.now ≡ other.now) }
    {
        same_invocation(self, other)
    }
}

impl Eq for Invocation {
    ghost laws = { is_same_equiv coded_invocation };
}

impl PartialEq for Invocations {
    ghost eq = { is_same coded_invocations };

    ghost laws = { partial_equiv_from_equiv (is_same_equiv coded_invocations) };

    fn eq(&self, other: &Invocations) -> bool
        ensures eq { result ≡ is_same coded_invocations self.now other.now }
        ensures exact { Decides result (self.now ≡ other.now) }
    {
        same_row(self.as_slice(), other.as_slice())
    }
}

impl Eq for Invocations {
    ghost laws = { is_same_equiv coded_invocations };
}
