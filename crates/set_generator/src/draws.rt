//! The random numbers of generated transactions.

ghost use Rattle.std.specs.Prelude.{◌≡◌, map, IfOk};
ghost use Rattle.std.specs.List.{range_with_len};
ghost use Rattle.set_generator.specs.RandomNumbers.{called, contract_of as contract_of_in, next_draw as next_draw_in};

use std::alloc::Global;
use xdr_core::NoMemory;

/// The multiplier and the increment of the generator MMIX (D. Knuth, The Art of Computer Programming, volume 2).
const MULTIPLIER: u64 = 6364136223846793005;

const INCREMENT: u64 = 1442695040888963407;

/// The number of contracts.
pub const CONTRACTS: u8 = 64;

/// Returns the number after a number of the generator.
fn next_draw(x: u64) -> u64
    ensures { result ≡ next_draw_in x }
{
    x.wrapping_mul(MULTIPLIER).wrapping_add(INCREMENT)
}

/// Returns the contract that a number of the generator stands for.
fn contract_of(x: u64) -> u8
    ensures { result ≡ contract_of_in x }
{
    (x / (1 << 33) % 64) as u8
}

/// Draws the contract that each transaction calls.
pub fn draw_contracts(alloc: Global, count: u32, seed: u64) -> Result<Vec<u8>, NoMemory>
    ensures { IfOk result (λ drawn. drawn.items ≡ map (called seed) (range_with_len 0 count)) }
{
    let mut drawn = Vec::new(alloc);
    let mut x = seed;
    for _k in 0..count {
        let next = next_draw(x);
        drawn.push(contract_of(next))?;
        x = next;
    }
    Ok(drawn)
}
