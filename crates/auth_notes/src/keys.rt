//! The keys under which nodes are found and counted.

ghost use Rattle.std.specs.Prelude.{◌≡◌, IfOk};
ghost use Rattle.value_types.specs.declared.address.ScAddress.TheVariants.{Account};
ghost use Rattle.auth_notes.specs.Recording.{pair_of};
ghost use Rattle.auth_notes.specs.Indices.{account_key, spelled, place_key, row_of};

use crate::noted::Noted;
use std::alloc::Global;
use value_types::AccountId;
use xdr_core::NoMemory;

/// The numbers that the keys of an account begin with.
pub(crate) fn account_key(alloc: Global, account: AccountId) -> Result<Vec<u64>, NoMemory>
    ensures { IfOk result (λ key. key.items ≡ account_key account) }
{
    let bytes = account.0.0;
    let mut key = Vec::new(alloc);
    key.push(bytes.len() as u64)?;
    for byte in bytes {
        key.push(u64::from(byte))?;
    }
    Ok(key)
}

/// The key of an account and a path.
pub(crate) fn spell(alloc: Global, account: AccountId, path: &[u64]) -> Result<Vec<u64>, NoMemory>
    ensures { IfOk result (λ key. key.items ≡ spelled (Account account) path.now) }
{
    let mut key = account_key(alloc, account)?;
    key.extend_from_slice(path)?;
    Ok(key)
}

/// Makes the key of the children of a place: the index of the tree, and the indices of the children that lead to the place.
pub fn place_key(alloc: Global, tree: usize, node: &[usize]) -> Result<Vec<u64>, NoMemory>
    ensures { IfOk result (λ key. key.items ≡ place_key tree node.now) }
{
    let mut key = Vec::new(alloc);
    key.push(tree as u64)?;
    for index in node {
        key.push(*index as u64)?;
    }
    Ok(key)
}

/// Makes the key of the place above a node. That of a root is empty, and no place has it.
pub fn row_key(alloc: Global, note: &Noted) -> Result<Vec<u64>, NoMemory>
    ensures { IfOk result (λ key. key.items ≡ row_of (pair_of note.now)) }
{
    let mut key = place_key(alloc, note.tree, note.place.as_slice())?;
    key.truncate(note.place.len());
    Ok(key)
}
