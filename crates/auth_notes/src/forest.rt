//! The nodes that were noted, and what finds them.

ghost use Rattle.std.specs.Prelude.{◌≡◌, ◌<◌, ◌^◌, ◌++◌, ◌∷◌, [], true, false, Some, IfOk, vec_len, vec_capacity};
ghost use Rattle.std.specs.Option.{option_map, is_some};
ghost use Rattle.value_types.specs.declared.address.ScAddress.TheVariants.{Account};
ghost use Rattle.auth_spec.specs.Noted.{last_child, new_place};
ghost use Rattle.auth_notes.specs.Recording.{pair_of, note_of, notes_of, keeps, best, pair_at, place_of, new_note, trees_with};
ghost use Rattle.auth_notes.specs.Recording.{AreTrees};
ghost use Rattle.auth_notes.specs.Indices.{number_at, count_at, HaveSame, HasOneMore, spelled, row_of, joined, AreBest, IsForest};

use crate::keys::{account_key, place_key, row_key, spell};
use crate::noted::{Noted, Place, may_stand, stays, trees_with};
use crate::numbers::{count_at, number_at, put};
use invoke_types::Function;
use std::alloc::Global;
use std::collections::BTreeMap;
use value_types::{AccountId, ScAddress};
use xdr_core::NoMemory;

/// The nodes that were noted, in the order of their making, and what finds them.
#[derive(Drop)]
pub(crate) struct Forest {
    pub notes: Vec<Noted>,
    /// The number of trees.
    pub trees: usize,
    /// By account and path, the index of the best node there.
    pub best: BTreeMap<Vec<u64>, usize>,
    /// By tree and place, the number of children there.
    pub children: BTreeMap<Vec<u64>, usize>,
}

/// No nodes.
pub(crate) fn no_trees(alloc: Global) -> Forest
    ensures ready { IsForest result }
    ensures notes { result.notes.items ≡ [] }
{
    Forest {
        notes: Vec::new(alloc),
        trees: 0,
        best: BTreeMap::new(alloc),
        children: BTreeMap::new(alloc),
    }
}

/// Borrows a node by its index, if there is one.
fn node_at(notes: &[Noted], index: Option<usize>) -> Option<&Noted>
    ensures { option_map (λ n. pair_of n.now) result ≡ pair_at notes.now index }
{
    match index {
        None => None,
        Some(at) => notes.get(at),
    }
}

/// Whether a node, if there is one, stays before another one, which was made later or has a longer path.
fn keeps(notes: &[Noted], best: Option<usize>, later: &Noted) -> bool
    ensures { result ≡ keeps (pair_at notes.now best) (pair_of later.now) }
{
    match node_at(notes, best) {
        None => false,
        Some(best) => stays(best, later),
    }
}

/// The better one of two nodes, if there are two. The second one has a longer path.
fn joined(notes: &[Noted], first: Option<usize>, second: Option<usize>) -> Option<usize>
    ensures { pair_at notes.now result ≡ joined (pair_at notes.now first) (pair_at notes.now second) }
{
    match node_at(notes, second) {
        None => first,
        Some(later) => {
            if keeps(notes, first, later) {
                first
            } else {
                second
            }
        }
    }
}

/// Finds the node that gets a new child. It looks up each proper prefix of the path.
fn find(
    alloc: Global,
    forest: &Forest,
    account: AccountId,
    path: &[u64],
) -> Result<Option<usize>, NoMemory>
    requires { IsForest forest.now }
    ensures { IfOk result (λ found. pair_at forest.now.notes.items found
        ≡ best (notes_of forest.now.notes.items) path.now (Account account)) }
{
    let mut key = account_key(alloc, account)?;
    let mut found = None;
    for number in path {
        found = joined(
            forest.notes.as_slice(),
            found,
            number_at(&forest.best, key.as_slice()),
        );
        key.push(*number)?;
    }
    Ok(found)
}

/// The place of a new last child of a node.
fn last_child(alloc: Global, forest: &Forest, parent: &Noted) -> Result<Place, NoMemory>
    requires { IsForest forest.now }
    ensures { IfOk result (λ p. place_of p ≡ last_child (notes_of forest.now.notes.items) (pair_of parent.now)) }
{
    let key = place_key(alloc, parent.tree, parent.place.as_slice())?;
    let count = count_at(&forest.children, key.as_slice());
    let mut node = Vec::from_slice(alloc, parent.place.as_slice())?;
    node.push(count)?;
    Ok(Place {
        tree: parent.tree,
        node,
    })
}

/// The place of a new node.
fn new_place(
    alloc: Global,
    forest: &Forest,
    account: AccountId,
    path: &[u64],
) -> Result<Place, NoMemory>
    requires { IsForest forest.now }
    ensures { IfOk result (λ p. place_of p ≡ new_place (notes_of forest.now.notes.items) path.now (Account account)) }
{
    let found = find(alloc, forest, account, path)?;
    match node_at(forest.notes.as_slice(), found) {
        None => Ok(Place {
            tree: forest.trees,
            node: Vec::new(alloc),
        }),
        Some(parent) => last_child(alloc, forest, parent),
    }
}

/// Makes the node for a demand for an account, if its tree may have it.
pub(crate) fn new_note(
    alloc: Global,
    forest: &Forest,
    account: AccountId,
    path: &[u64],
    function: &Function,
) -> Result<Option<Noted>, NoMemory>
    requires { IsForest forest.now }
    ensures { IfOk result (λ note. option_map note_of note
        ≡ new_note (notes_of forest.now.notes.items) path.now (Account account) function.now) }
{
    let place = new_place(alloc, forest, account, path)?;
    if !may_stand(place.node.len()) {
        return Ok(None);
    }
    let function = function.clone()?;
    let path = Vec::from_slice(alloc, path)?;
    Ok(Some(Noted {
        address: ScAddress::Account(account),
        function,
        tree: place.tree,
        place: place.node,
        path,
    }))
}

// ---- one node more

/// Gives a key the number 0 if it has none. Returns whether there was memory for it.
fn begin_count(alloc: Global, children: &mut BTreeMap<Vec<u64>, usize>, key: &[u64]) -> bool
    ensures same { HaveSame children.old.entries children.new.entries }
    ensures there { result ≡ true → is_some (number_at children.new.entries key.now) ≡ true }
{
    match number_at(children, key) {
        Some(_) => true,
        None => match Vec::from_slice(alloc, key) {
            Err(_) => false,
            Ok(key) => put(children, key, 0),
        },
    }
}

/// Counts one child more at a key that has a number.
fn count_up(children: &mut BTreeMap<Vec<u64>, usize>, key: Vec<u64>)
    requires there { is_some (number_at children.old.entries key.items) ≡ true }
    requires few { count_at children.old.entries key.items < 2 ^ 63 }
    ensures { HasOneMore children.old.entries key.items children.new.entries }
{
    let count = count_at(children, key.as_slice());
    let counted = put(children, key, count + 1);
    let _ = counted;
}

/// Keeps a new node as the best one at its key, unless a better one is there. Returns whether there was memory for it.
fn put_best(
    best: &mut BTreeMap<Vec<u64>, usize>,
    key: Vec<u64>,
    notes: &[Noted],
    note: &Noted,
) -> bool
    requires best { AreBest notes.now best.old.entries }
    requires key { key.items ≡ spelled note.now.address note.now.path.items }
    ensures put { result ≡ true → AreBest (notes.now ++ note.now ∷ []) best.new.entries }
    ensures refused { result ≡ false → best.new.entries ≡ best.old.entries }
{
    if keeps(notes, number_at(best, key.as_slice()), note) {
        return true;
    }
    put(best, key, notes.len())
}

/// Pushes a node, for which there is room.
fn push_note(notes: &mut Vec<Noted>, note: Noted)
    requires { vec_len notes.old < vec_capacity notes.old }
    ensures { notes.new.items ≡ notes.old.items ++ note ∷ [] }
{
    let added = notes.push(note);
    drop(added);
}

/// Adds a node with the key under which it is found and the key under which it is counted. Returns whether there was memory for
/// it; without, nothing changes.
fn grow_by(alloc: Global, forest: &mut Forest, key: Vec<u64>, row: Vec<u64>, note: Noted) -> bool
    requires ready { IsForest forest.old }
    requires key { key.items ≡ spelled note.address note.path.items }
    requires row { row.items ≡ row_of (pair_of note) }
    requires trees { AreTrees (notes_of forest.old.notes.items ++ note_of note ∷ [])
        (trees_with forest.old.trees (note_of note)) }
    ensures ready { IsForest forest.new }
    ensures added { result ≡ true → forest.new.notes.items ≡ forest.old.notes.items ++ note ∷ [] }
    ensures refused { result ≡ false → forest.new.notes.items ≡ forest.old.notes.items }
{
    if forest.notes.reserve(1).is_err() {
        return false;
    }
    if !begin_count(alloc, &mut forest.children, row.as_slice()) {
        return false;
    }
    if !put_best(&mut forest.best, key, forest.notes.as_slice(), &note) {
        return false;
    }
    count_up(&mut forest.children, row);
    forest.trees = trees_with(forest.trees, &note);
    push_note(&mut forest.notes, note);
    true
}

/// Adds a node of an account. Returns whether there was memory for it; without, nothing changes.
pub(crate) fn grow(alloc: Global, forest: &mut Forest, account: AccountId, note: Noted) -> bool
    requires ready { IsForest forest.old }
    requires address { note.address ≡ Account account }
    requires trees { AreTrees (notes_of forest.old.notes.items ++ note_of note ∷ [])
        (trees_with forest.old.trees (note_of note)) }
    ensures ready { IsForest forest.new }
    ensures added { result ≡ true → forest.new.notes.items ≡ forest.old.notes.items ++ note ∷ [] }
    ensures refused { result ≡ false → forest.new.notes.items ≡ forest.old.notes.items }
{
    let Ok(key) = spell(alloc, account, note.path.as_slice()) else {
        return false;
    };
    let Ok(row) = row_key(alloc, &note) else {
        return false;
    };
    grow_by(alloc, forest, key, row, note)
}
