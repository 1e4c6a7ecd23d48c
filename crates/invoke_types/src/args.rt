//! The arguments of a call or of a constructor.

ghost use Rattle.std.specs.Prelude.{◌≡◌, [], IfOk};
ghost use Rattle.std.specs.Bool.{Decides};
ghost use Rattle.value_types.specs.Views.{datums};
ghost use Rattle.invoke_types.specs.Arguments.{values_format, values_lawful};

use std::alloc::{AllocError, Global};
use std::marker::Model;
use value_types::{ScVal, ScVals, is_same_scalar};
use value_xdr::{Xdr, read_list, size_of_list, write_list};
use xdr_core::{NoMemory, Out, ReadXdr, Words};

/// The highest number of arguments that have a spelling (RFC 4506, section 4.13).
const MOST: u32 = 4_294_967_295;

/// The arguments of a call or of a constructor, in order. Clones share them. At most 2^32 - 1 have a spelling; more may be held.
///
/// Contracts see them as a list.
#[derive(Drop)]
pub struct Args {
    /// `None` if there are none.
    values: Option<ScVals>,
}

impl Model for Args {
    ghost use Rattle.std.specs.Prelude.{List};
    ghost use Rattle.value_types.specs.declared.value.ScVal.{ScVal as Value'};
    ghost use Rattle.std.specs.Coded.{coded_list};
    ghost use Rattle.value_types.specs.contracts.value.ScVal as value;
    ghost use Rattle.invoke_types.specs.Given.{given};

    ghost Value = { List Value' };

    ghost coded = { coded_list value.the_row.coded };

    ghost view = { λ a. given a.values };
}

impl Args {
    /// No arguments. Takes no memory.
    pub fn none() -> Args
        ensures { result ≡ [] }
    {
        Args { values: None }
    }

    /// The list of these values. It takes memory for what its clones share, and drops the values if there is none.
    pub fn from_vec(values: Vec<ScVal>) -> Result<Args, AllocError>
        ensures { IfOk result (λ args. args ≡ values.items) }
    {
        Ok(Args {
            values: Some(ScVals::from_vec(values)?),
        })
    }

    /// The items of a vec, shared. O(1).
    pub fn of(values: &ScVals) -> Result<Args, AllocError>
        ensures { IfOk result (λ args. datums args ≡ values.now) }
    {
        Ok(Args {
            values: Some(values.clone()?),
        })
    }

    /// The arguments, lent.
    pub fn as_slice(&self) -> &[ScVal]
        ensures { result.now ≡ self.now }
    {
        match &self.values {
            None => &[],
            Some(values) => values.as_slice(),
        }
    }

    /// Returns whether both are the same values in the same order. Takes no memory.
    pub(crate) fn is_same(&self, other: &Args) -> bool
        ensures { Decides result (self.now ≡ other.now) }
    {
        same_values(self.as_slice(), other.as_slice())
    }
}

impl Clone for Args {
    ghost is_clone = { λ v w. w ≡ v };

    fn clone(&self) -> Result<Args, AllocError> {
        match &self.values {
            None => Ok(Args { values: None }),
            Some(values) => Ok(Args {
                values: Some(values.clone()?),
            }),
        }
    }
}

#[tactic(auto, unfolding(xdr_spec::specs::Format::list))]
impl Xdr for Args {
    ghost format = { values_format };

    fn read_parts<W: Words>(alloc: Global, input: &mut W) -> Result<Args, ReadXdr> {
        let values = read_list(alloc, input, MOST)?;
        Ok(Args::from_vec(values)?)
    }

    fn write_parts(&self, out: &mut Out) -> Result<(), NoMemory> {
        write_list(self.as_slice(), out)
    }

    fn size(&self) -> u64 {
        size_of_list(self.as_slice())
    }

    ghost lawful = { values_lawful };
}

/// Returns whether two lists have the same values in the same order. Takes no memory.
fn same_values(one: &[ScVal], other: &[ScVal]) -> bool
    ensures { Decides result (one.now ≡ other.now) }
{
    if one.len() != other.len() {
        return false;
    }
    for i in 0..one.len() {
        if !is_same_value(&one[i], &other[i]) {
            return false;
        }
    }
    true
}

/// Returns whether two values are the same. Equal scalars are told by a quick test.
#[inline]
fn is_same_value(one: &ScVal, other: &ScVal) -> bool
    ensures { Decides result (one.now ≡ other.now) }
{
    is_same_scalar(one, other) || *one == *other
}
