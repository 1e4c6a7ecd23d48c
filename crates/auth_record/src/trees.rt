//! From noted nodes to authorisation entries.

ghost use Rattle.std.specs.Prelude.{◌≡◌, IfOk, OnOk, IfSome};
ghost use Rattle.value_types.specs.declared.address.ScAddress.TheVariants.{Account};
ghost use Rattle.auth_types.specs.Views.{tree_of as tree_in};
ghost use Rattle.auth_types.specs.Tree.{node as tree_with, no_trees, trees_of};
ghost use Rattle.auth_types.specs.Views.{forest_of};
ghost use Rattle.auth_spec.specs.Demands.{same_address, is_root};
ghost use Rattle.auth_notes.specs.Recording.{note_of, notes_of};
ghost use Rattle.record_spec.specs.Trees.{tree_below, credentials_by, entry_of, entries_of, next_terms};
ghost use Rattle.auth_record.specs.Children.{list_at, HasAdded, AreChildren};
ghost use Rattle.auth_record.specs.Given.{terms_in};

use auth_notes::{Noted, place_key, row_key};
use auth_types::{AddressCredentials, AuthEntry, Credentials, Invocation, Invocations};
use std::alloc::Global;
use std::collections::BTreeMap;
use value_types::{AccountId, ScAddress, ScVal};
use xdr_core::NoMemory;

/// What the entries of accounts get.
#[derive(Clone, Copy)]
pub(crate) struct Terms {
    /// The first nonce.
    pub nonce: u64,
    /// The last ledger in which a signature is valid.
    pub expiration: u32,
}

/// By the key of a place, the indices of the notes that stand right below it, in their order.
type Children = BTreeMap<Vec<u64>, Vec<usize>>;

/// Adds an index to the list at a key, in O(log n) comparisons.
fn add(alloc: Global, children: &mut Children, key: Vec<u64>, index: usize) -> Result<(), NoMemory>
    ensures { OnOk result (HasAdded children.old.entries key.items index children.new.entries) }
{
    let mut list = match children.remove(key.as_slice()) {
        None => Vec::new(alloc),
        Some(list) => list,
    };
    list.push(index)?;
    let _none = children.insert(key, list)?;
    Ok(())
}

/// Lists the children at each place, in O(n log n) comparisons.
fn children_of(alloc: Global, notes: &[Noted]) -> Result<Children, NoMemory>
    ensures { IfOk result (λ children. AreChildren notes.now notes.now children.entries) }
{
    let mut children = BTreeMap::new(alloc);
    let mut index = 0;
    for note in notes {
        let key = row_key(alloc, note)?;
        add(alloc, &mut children, key, index)?;
        index += 1;
    }
    Ok(children)
}

/// Borrows the list at a key, in O(log n) comparisons. Without one, it is empty.
fn list_at<'a>(children: &'a Children, key: &[u64]) -> &'a [usize]
    ensures { result.now ≡ list_at children.now.entries key.now }
{
    match children.get(key) {
        None => &[],
        Some(list) => list.as_slice(),
    }
}

/// Makes the tree of a node without its children.
fn bare(alloc: Global, node: &Noted) -> Result<Invocation, NoMemory>
    ensures { IfOk result (λ i. tree_in i ≡ tree_with node.now.function no_trees) }
{
    with_children(node, Vec::new(alloc))
}

/// Makes the tree of a node.
fn with_children(node: &Noted, children: Vec<Invocation>) -> Result<Invocation, NoMemory>
    ensures { IfOk result (λ i. tree_in i ≡ tree_with node.now.function (trees_of (forest_of children.items))) }
{
    let function = node.function.clone()?;
    Ok(Invocation {
        function,
        sub_invocations: Invocations::from_vec(children),
    })
}

/// Makes the tree of a node, with so many levels below it at most.
fn tree_of(
    alloc: Global,
    notes: &[Noted],
    children: &Children,
    node: &Noted,
    levels: u32,
) -> Result<Invocation, NoMemory>
    requires { AreChildren notes.now notes.now children.now.entries }
    ensures { IfOk result (λ i. tree_in i ≡ tree_below levels (notes_of notes.now) (note_of node.now)) }
{
    if levels == 0 {
        return bare(alloc, node);
    }
    let key = place_key(alloc, node.tree, node.place.as_slice())?;
    let mut trees = Vec::new(alloc);
    for index in list_at(children, key.as_slice()) {
        if let Some(note) = notes.get(*index) {
            let tree = tree_of(alloc, notes, children, note, levels - 1)?;
            trees.push(tree)?;
        }
    }
    with_children(node, trees)
}

/// Whether the address is the source account's.
fn is_source(source: AccountId, address: ScAddress) -> bool
    ensures { result ≡ same_address address (Account source) }
{
    address == ScAddress::Account(source)
}

/// The credentials of an address: the source account needs none, and another address gets the next nonce. `None` if the nonce
/// does not fit 64 signed bits.
fn credentials_of(source: AccountId, address: ScAddress, terms: Terms) -> Option<Credentials>
    ensures { IfSome result (λ c. c ≡ credentials_by (terms_in terms) source address) }
{
    if is_source(source, address) {
        return Some(Credentials::SourceAccount);
    }
    let Ok(nonce) = i64::try_from(terms.nonce) else {
        return None;
    };
    Some(Credentials::Address(AddressCredentials {
        address,
        nonce,
        signature_expiration_ledger: terms.expiration,
        signature: ScVal::Void,
    }))
}

/// The terms of the entry after that of an address.
fn next_terms(source: AccountId, address: ScAddress, terms: Terms) -> Option<Terms>
    ensures { IfSome result (λ t. terms_in t ≡ next_terms (terms_in terms) source address) }
{
    if is_source(source, address) {
        return Some(terms);
    }
    match terms.nonce.checked_add(1) {
        None => None,
        Some(nonce) => Some(Terms { nonce, ..terms }),
    }
}

/// Whether a node is the root of its tree.
fn is_root(note: &Noted) -> bool
    ensures { result ≡ is_root note.now.place.items }
{
    note.place.is_empty()
}

/// Makes the entry of a root.
fn entry_of(
    alloc: Global,
    notes: &[Noted],
    children: &Children,
    source: AccountId,
    root: &Noted,
    terms: Terms,
) -> Result<AuthEntry, NoMemory>
    requires { AreChildren notes.now notes.now children.now.entries }
    ensures { IfOk result (λ e. e ≡ entry_of (notes_of notes.now) (credentials_by (terms_in terms) source root.now.address)
        (note_of root.now)) }
{
    let Some(credentials) = credentials_of(source, root.address, terms) else {
        return Err(NoMemory);
    };
    let root_invocation = tree_of(alloc, notes, children, root, 100)?;
    Ok(AuthEntry {
        credentials,
        root_invocation,
    })
}

/// Makes an entry of each tree, in the order of their making. The first one that is not the source account's has this nonce, and
/// each later one the next number. For n notes it takes O(n log n) comparisons.
pub(crate) fn entries_of(
    alloc: Global,
    notes: &[Noted],
    source: AccountId,
    terms: Terms,
) -> Result<Vec<AuthEntry>, NoMemory>
    ensures { IfOk result (λ entries. entries.items ≡ entries_of (terms_in terms) source (notes_of notes.now)) }
{
    let children = children_of(alloc, notes)?;
    let mut entries = Vec::new(alloc);
    let mut now = terms;
    for root in notes {
        if is_root(root) {
            let entry = entry_of(alloc, notes, &children, source, root, now)?;
            entries.push(entry)?;
            let Some(next) = next_terms(source, root.address, now) else {
                return Err(NoMemory);
            };
            now = next;
        }
    }
    Ok(entries)
}
