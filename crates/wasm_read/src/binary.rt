//! The trait of what the binary format encodes, and vectors (core section 5.1.3).

ghost use Rattle.std.specs.Prelude.{◌≡◌};
ghost use Rattle.wasm_read.specs.Gives.{Gives, GivesAs};
ghost use Rattle.wasm_read.specs.Reading.{row_at, vector_at, sized_at};

use crate::error::ReadModErr;
use crate::input::Input;
use std::alloc::Global;
use wasm_spec::Items;

/// A value that the binary format encodes.
pub trait Binary {
    ghost use Rattle.std.specs.Prelude.{List, ℕ, Option};

    /// The value that some bytes begin with, and the bytes after it.
    ghost read_at: { List ℕ → Option (Self × List ℕ) };

    /// Reads the value that the input begins with.
    fn read(alloc: Global, input: &mut Input<'_>) -> Result<Self, ReadModErr>
        ensures { Gives read_at input.old input.new result };
}

/// Reads `count` values. The memory grows with the values that are there, never with a count that the bytes only claim.
fn row<T: Binary + Drop>(
    alloc: Global,
    input: &mut Input<'_>,
    count: u32,
) -> Result<Vec<T>, ReadModErr>
    ensures { GivesAs (λ v. v.items) (row_at T.read_at count) input.old input.new result }
{
    let mut items = Vec::new(alloc);
    for _ in 0..count {
        items.push(T::read(alloc, input)?)?;
    }
    Ok(items)
}

/// Reads a vector (core section 5.1.3).
#[tactic(auto, unfolding(crate::specs::Reading::vector_at))]
pub fn vector<T: Binary + Drop>(
    alloc: Global,
    input: &mut Input<'_>,
) -> Result<Items<T>, ReadModErr>
    ensures { Gives (vector_at T.read_at) input.old input.new result }
{
    let count = input.u32()?;
    let items = row(alloc, input, count)?;
    Ok(Items::from_vec(items))
}
