//! Types whose values are compared by their XDR bytes.

ghost use Rattle.std.specs.Prelude.{◌≡◌, ◌≤◌, ◌+◌, take, drop};
ghost use Rattle.std.specs.Int.{w32, w64, to_be_bytes};
ghost use Rattle.spelled_order.specs.Against.{Against};

use std::cmp::Ordering;
use value_types::Hash;
use value_xdr::Xdr;

/// A type whose values can be compared by their XDR bytes. A comparison takes no memory.
pub trait Ranked: Xdr {
    /// Compares the XDR bytes of two values.
    fn rank(&self, other: &Self) -> Ordering
        ensures { Against (Self.format.spell self.now) (Self.format.spell other.now) result };
}

/// Compares two numbers by their four bytes.
#[inline]
pub fn cmp_word(one: u32, other: u32) -> Ordering
    ensures { Against (to_be_bytes w32 one) (to_be_bytes w32 other) result }
{
    one.cmp(&other)
}

/// Compares two numbers by their eight bytes.
#[inline]
fn cmp_words(one: u64, other: u64) -> Ordering
    ensures { Against (to_be_bytes w64 one) (to_be_bytes w64 other) result }
{
    one.cmp(&other)
}

/// Returns eight bytes, from an index on, as a number.
#[inline(always)]
fn word_at(bytes: &[u8; 32], at: usize) -> u64
    requires { at + 8 ≤ 32 }
    ensures { to_be_bytes w64 result ≡ take 8 (drop at bytes.now) }
{
    u64::from_be_bytes([
        bytes[at],
        bytes[at + 1],
        bytes[at + 2],
        bytes[at + 3],
        bytes[at + 4],
        bytes[at + 5],
        bytes[at + 6],
        bytes[at + 7],
    ])
}

/// Compares eight bytes of each, from an index on, as numbers.
#[inline(always)]
fn cmp_at(one: &[u8; 32], other: &[u8; 32], at: usize) -> Ordering
    requires { at + 8 ≤ 32 }
    ensures { Against (take 8 (drop at one.now)) (take 8 (drop at other.now)) result }
{
    cmp_words(word_at(one, at), word_at(other, at))
}

/// Compares 32 bytes as four numbers.
#[inline]
fn cmp_ids(one: &[u8; 32], other: &[u8; 32]) -> Ordering
    ensures { Against one.now other.now result }
{
    match cmp_at(one, other, 0) {
        Ordering::Equal => {}
        unequal => return unequal,
    }
    match cmp_at(one, other, 8) {
        Ordering::Equal => {}
        unequal => return unequal,
    }
    match cmp_at(one, other, 16) {
        Ordering::Equal => {}
        unequal => return unequal,
    }
    cmp_at(one, other, 24)
}

#[tactic(auto, unfolding(xdr_spec::specs::Format::number32))]
impl Ranked for u32 {
    #[inline]
    fn rank(&self, other: &u32) -> Ordering {
        cmp_word(*self, *other)
    }
}

#[tactic(auto, unfolding(xdr_spec::specs::Format::number64))]
impl Ranked for u64 {
    #[inline]
    fn rank(&self, other: &u64) -> Ordering {
        cmp_words(*self, *other)
    }
}

#[tactic(auto, unfolding(xdr_spec::specs::Format::signed32))]
impl Ranked for i32 {
    #[inline]
    fn rank(&self, other: &i32) -> Ordering {
        cmp_word(self.cast_unsigned(), other.cast_unsigned())
    }
}

#[tactic(auto, unfolding(xdr_spec::specs::Format::signed64))]
impl Ranked for i64 {
    #[inline]
    fn rank(&self, other: &i64) -> Ordering {
        cmp_words(self.cast_unsigned(), other.cast_unsigned())
    }
}

#[tactic(auto, unfolding(xdr_spec::specs::Format::boolean))]
impl Ranked for bool {
    #[inline]
    fn rank(&self, other: &bool) -> Ordering {
        cmp_word(u32::from(*self), u32::from(*other))
    }
}

impl Ranked for Hash {
    #[inline]
    fn rank(&self, other: &Hash) -> Ordering {
        cmp_ids(&self.0, &other.0)
    }
}
