//! The nodes of entries in one list.

ghost use Rattle.std.specs.Prelude.{◌≡◌, ◌++◌, map, OnOk, IfOk};
ghost use Rattle.auth_types.specs.Tree.{trees_of};
ghost use Rattle.auth_types.specs.Views.{tree_of, forest_of};
ghost use Rattle.auth_trees.specs.Listed.{roots, kept, nodes_of, nodes_of_row};

use auth_types::{AuthEntry, Invocation};
use std::alloc::Global;
use xdr_core::NoMemory;

/// A node of an entry's tree.
#[derive(Drop)]
pub(crate) struct Node<'a> {
    /// The tree that the node is the root of.
    pub tree: &'a Invocation,
    /// The number of nodes in the tree.
    pub size: usize,
}

/// Lists the nodes of all entries: each before its children, these in order.
pub(crate) fn list_entries<'a>(
    alloc: Global,
    entries: &'a [AuthEntry],
) -> Result<Vec<Node<'a>>, NoMemory>
    ensures { IfOk result (λ nodes. map kept nodes.items ≡ nodes_of_row (trees_of (roots entries.now))) }
{
    let mut nodes = Vec::new(alloc);
    for entry in entries {
        list_tree(&entry.root_invocation, &mut nodes)?;
    }
    Ok(nodes)
}

/// Adds the nodes of a tree.
#[cycle(list)]
fn list_tree<'a>(tree: &'a Invocation, nodes: &mut Vec<Node<'a>>) -> Result<(), NoMemory>
    ensures { OnOk result (map kept nodes.new.items ≡ map kept nodes.old.items ++ nodes_of (tree_of tree.now)) }
{
    let at = nodes.len();
    nodes.push(Node { tree, size: 0 })?;
    list_row(tree.sub_invocations.as_slice(), nodes)?;
    let size = nodes.len() - at;
    nodes[at] = Node { tree, size };
    Ok(())
}

/// Adds the nodes of trees in a row.
#[cycle(list)]
fn list_row<'a>(row: &'a [Invocation], nodes: &mut Vec<Node<'a>>) -> Result<(), NoMemory>
    ensures { OnOk result (map kept nodes.new.items ≡ map kept nodes.old.items ++ nodes_of_row (trees_of (forest_of row.now))) }
{
    for tree in row {
        list_tree(tree, nodes)?;
    }
    Ok(())
}
