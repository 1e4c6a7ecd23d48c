//! Nodes of trees that a recorder noted.

ghost use Rattle.std.specs.Prelude.{◌≡◌, ◌+◌, ◌<◌, ◌^◌, nat_lt, is_some, IfSome};
ghost use Rattle.value_types.specs.declared.address.ScAddress.TheVariants.{Account};
ghost use Rattle.auth_spec.specs.Noted.{is_account, MOST_LEVELS};
ghost use Rattle.auth_notes.specs.Recording.{pair_of, note_of, stays, trees_with};

use invoke_types::Function;
use value_types::{AccountId, ScAddress};

/// A node that was noted.
#[derive(Drop)]
pub struct Noted {
    pub address: ScAddress,
    pub function: Function,
    /// The index of its tree.
    pub tree: usize,
    /// The indices of the children that lead to it from the root.
    pub place: Vec<usize>,
    /// The path of the frame.
    pub path: Vec<u64>,
}

/// The place of a node: the index of its tree, and the indices of the children that lead to it from the root.
#[derive(Drop)]
pub(crate) struct Place {
    pub tree: usize,
    pub node: Vec<usize>,
}

/// The account, if the address is an account's.
pub(crate) fn account_of(address: ScAddress) -> Option<AccountId>
    ensures kind { is_some result ≡ is_account address }
    ensures account { IfSome result (λ account. address ≡ Account account) }
{
    match address {
        ScAddress::Account(account) => Some(account),
        _ => None,
    }
}

/// Whether the first of two nodes stays before the second, which was made later.
pub(crate) fn stays(best: &Noted, later: &Noted) -> bool
    ensures { result ≡ stays (pair_of best.now) (pair_of later.now) }
{
    best.tree < later.tree || (best.tree == later.tree && later.path.len() < best.path.len())
}

/// Whether a tree may have a node this far below its root.
#[tactic(auto, unfolding(auth_spec::specs::Noted::MOST_LEVELS))]
pub(crate) fn may_stand(below: usize) -> bool
    ensures { result ≡ nat_lt below MOST_LEVELS }
{
    below < 100
}

/// The number of trees, if a node is added.
pub(crate) fn trees_with(trees: usize, note: &Noted) -> usize
    requires { trees + 1 < 2 ^ 64 }
    ensures { result ≡ trees_with trees (note_of note.now) }
{
    if note.place.is_empty() {
        trees + 1
    } else {
        trees
    }
}
