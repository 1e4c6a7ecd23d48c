//! The nodes that met demands.

ghost use Rattle.std.specs.Prelude.{◌≡◌, ◌≤◌, ℕ, ◌<◌, ◌+◌, ◌++◌, ◌∷◌, [], length, vec_len, vec_capacity, All};
ghost use Rattle.std.specs.Prelude.{Decides, IfOk, Some, None};
ghost use Rattle.auth_spec.specs.Pairs.{is_below};

use std::alloc::{AllocError, Global};
use std::marker::Model;

/// The path of a frame.
#[derive(Drop)]
pub(crate) struct Path {
    numbers: [u64; 130],
    length: usize,
}

impl Model for Path {
    ghost use Rattle.std.specs.Prelude.{ℕ, ◌≤◌, List, take};

    ghost Value = { List ℕ };

    ghost view = { λ a. take a.length a.numbers };

    ghost invariant = { λ a. a.length ≤ 130 };
}

impl Path {
    /// Copies a path.
    pub(crate) fn new(path: &[u64]) -> Path
        requires { length path.now ≤ 130 }
        ensures { result ≡ path.now }
    {
        let mut numbers = [0; 130];
        for (index, number) in path.iter().enumerate() {
            numbers[index] = *number;
        }
        Path {
            numbers,
            length: path.len(),
        }
    }

    /// Borrows the path.
    pub(crate) fn as_slice(&self) -> &[u64]
        ensures { result.now ≡ self.now }
    {
        &self.numbers[..self.length]
    }
}

/// The path of a frame, if one is known. There is room for its numbers on the heap, so that a value that has a known path is
/// small: a function fills the room of its local values with zeros.
#[derive(Drop)]
pub(crate) struct KnownPath {
    numbers: Vec<u64>,
    is_known: bool,
}

impl Model for KnownPath {
    ghost use Rattle.std.specs.Prelude.{ℕ, ◌≤◌, List, Option, Some, None, if◌then◌else◌, vec_capacity};
    ghost use Rattle.std.specs.Coded.{coded_list, coded_option, coded_ℕ};

    ghost Value = { Option (List ℕ) };

    ghost coded = { coded_option (coded_list coded_ℕ) };

    ghost view = { λ k. if k.is_known then Some k.numbers.items else None };

    ghost invariant = { λ k. 130 ≤ vec_capacity k.numbers };
}

impl KnownPath {
    /// No path, with room for one.
    pub(crate) fn none(alloc: Global) -> Result<KnownPath, AllocError>
        ensures { IfOk result (λ known. known ≡ None) }
    {
        let numbers = Vec::with_capacity(alloc, 130)?;
        Ok(KnownPath {
            numbers,
            is_known: false,
        })
    }

    /// Copies a path.
    pub(crate) fn set(&mut self, path: &[u64])
        requires { length path.now ≤ 130 }
        ensures { self.new ≡ Some path.now }
    {
        self.numbers.clear();
        let copied = self.numbers.extend_from_slice(path);
        drop(copied);
        self.is_known = true;
    }

    /// Forgets the path.
    pub(crate) fn forget(&mut self)
        ensures { self.new ≡ None }
    {
        self.is_known = false;
    }

    /// Whether this path is known.
    pub(crate) fn is(&self, path: &[u64]) -> bool
        ensures { Decides result (self.now ≡ Some path.now) }
    {
        self.is_known && self.numbers.as_slice() == path
    }
}

/// A node that met a demand.
#[derive(Drop)]
pub(crate) struct Record {
    /// The index of the entry.
    pub entry: usize,
    /// The index of the node in the list of all nodes.
    pub node: usize,
    /// The path of the frame.
    pub path: Path,
}

/// Whether the second path is a proper prefix of the first.
pub(crate) fn is_below(path: &[u64], above: &[u64]) -> bool
    ensures { result ≡ is_below path.now above.now }
{
    path.starts_with(above) && above.len() < path.len()
}

/// Adds a record, for which there is room.
pub(crate) fn add(records: &mut Vec<Record>, entry: usize, node: usize, path: &[u64])
    requires path { length path.now ≤ 130 }
    requires room { vec_len records.old < vec_capacity records.old }
    ensures items { records.new.items ≡ records.old.items ++ record { entry = entry; node = node; path = path.now } ∷ [] }
    ensures capacity { vec_capacity records.old ≤ vec_capacity records.new }
{
    let path = Path::new(path);
    let added = records.push(Record { entry, node, path });
    drop(added);
}
