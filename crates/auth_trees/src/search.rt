//! Finds the node that meets a demand.

ghost use Rattle.std.specs.Prelude.{◌≡◌, ◌<◌, ◌&&◌, length, map, not, false};
ghost use Rattle.std.specs.Option.{option_map};
ghost use Rattle.auth_spec.specs.Demands.{same_function};
ghost use Rattle.auth_types.specs.Views.{forest_of};
ghost use Rattle.auth_trees.specs.Listed.{kept};
ghost use Rattle.auth_trees.specs.Flat.{IsRowAt, first_open, open_below, child_in, is_known};
ghost use Rattle.auth_trees.specs.Ready.{IsReady, AreWithin, KnowsNone, HaveChildren, child_found, root_found, found};

use crate::entries::is_known;
use crate::nodes::Node;
use crate::tables::{Deepest, Tables};
use crate::telling::{Hint, is_same};
use auth_types::{AuthEntry, Invocation};
use invoke_types::Function;
use value_paths::Cases;
use value_types::ScAddress;

/// A node that meets a demand.
#[derive(Clone, Copy, Debug, PartialEq, Eq)]
pub(crate) struct Found {
    /// The index of the entry.
    pub entry: usize,
    /// The index of the node in the list of all nodes.
    pub node: usize,
    /// Whether it is the first node of the entry: the root.
    pub first: bool,
}

/// Whether a tree, whose node has a number, is not taken and has this function.
fn is_open(
    cases: &Cases,
    hint: &mut Hint,
    number: usize,
    taken: bool,
    tree: &Invocation,
    function: &Function,
) -> bool
    ensures { result ≡ (not taken && same_function tree.now.function function.now) }
{
    !taken && is_same(cases, hint, number, &tree.function, function)
}

/// Whether the root of an entry, which may meet demands for the known address, is unused and has this function.
fn is_open_root(
    cases: &Cases,
    hint: &mut Hint,
    number: usize,
    used: bool,
    known: &Option<ScAddress>,
    address: ScAddress,
    entry: &AuthEntry,
    function: &Function,
) -> bool
    ensures { result ≡ (not used && is_known address known.now && same_function entry.now.root_invocation.function function.now) }
{
    !used
        && is_known(*known, address)
        && is_same(
            cases,
            hint,
            number,
            &entry.root_invocation.function,
            function,
        )
}

/// Finds the first tree in a row that is not taken and has this function. The nodes of the row stand from an index on.
fn first_open(
    cases: &Cases,
    hint: &mut Hint,
    nodes: &[Node<'_>],
    taken: &[bool],
    start: usize,
    row: &[Invocation],
    function: &Function,
) -> Option<usize>
    requires row { IsRowAt (map kept nodes.now) start (forest_of row.now) }
    requires taken { length taken.now ≡ length nodes.now }
    ensures { result ≡ first_open taken.now function.now start (forest_of row.now) }
{
    let mut id = start;
    for tree in row {
        if is_open(cases, hint, id, taken[id], tree, function) {
            return Some(id);
        }
        id += nodes[id].size;
    }
    None
}

/// Finds the first such child of a node.
fn open_below(
    cases: &Cases,
    hint: &mut Hint,
    nodes: &[Node<'_>],
    taken: &[bool],
    best: Deepest,
    function: &Function,
) -> Option<usize>
    requires rows { HaveChildren (map kept nodes.now) }
    requires taken { length taken.now ≡ length nodes.now }
    requires within { best.node < length nodes.now }
    ensures { result ≡ open_below (map kept nodes.now) taken.now function.now best }
{
    let tree = nodes[best.node].tree;
    let row = tree.sub_invocations.as_slice();
    first_open(cases, hint, nodes, taken, best.node + 1, row, function)
}

/// A node of an entry that is a child of another one.
fn child_of(entry: usize, node: Option<usize>) -> Option<Found>
    ensures { result ≡ option_map (λ id. record { entry = entry; node = id; first = false }) node }
{
    match node {
        None => None,
        Some(node) => Some(Found {
            entry,
            node,
            first: false,
        }),
    }
}

/// Finds the child of an entry that meets a demand.
fn child_in(
    tables: &Tables<'_>,
    hint: &mut Hint,
    address: ScAddress,
    function: &Function,
    entry: usize,
    known: Option<ScAddress>,
) -> Option<Found>
    requires ready { IsReady tables.now }
    requires within { AreWithin tables.now }
    requires entry { entry < length tables.now.entries.now }
    ensures { result ≡ child_in
        (map kept tables.now.nodes.items) tables.now.taken.items tables.now.deepest.items address function.now entry known }
{
    match tables.deepest[entry] {
        None => None,
        Some(best) => {
            if !is_known(known, address) {
                return None;
            }
            child_of(
                entry,
                open_below(
                    &tables.cases,
                    hint,
                    tables.nodes.as_slice(),
                    tables.taken.as_slice(),
                    best,
                    function,
                ),
            )
        }
    }
}

/// Finds the first child that meets a demand.
fn find_child(
    tables: &Tables<'_>,
    hint: &mut Hint,
    address: ScAddress,
    function: &Function,
) -> Option<Found>
    requires ready { IsReady tables.now }
    requires within { AreWithin tables.now }
    requires none { KnowsNone tables.now }
    ensures { result ≡ child_found tables.now address function.now }
{
    if !tables.any {
        return None;
    }
    for (entry, known) in tables.addresses.iter().enumerate() {
        match child_in(tables, hint, address, function, entry, *known) {
            None => (),
            Some(found) => return Some(found),
        }
    }
    None
}

/// Finds the first root that meets a demand.
fn find_root(
    tables: &Tables<'_>,
    hint: &mut Hint,
    address: ScAddress,
    function: &Function,
) -> Option<Found>
    requires { IsReady tables.now }
    ensures { result ≡ root_found tables.now address function.now }
{
    let mut id = 0;
    for (entry, item) in tables.entries.iter().enumerate() {
        let used = tables.used[entry];
        let known = &tables.addresses[entry];
        if is_open_root(
            &tables.cases,
            hint,
            id,
            used,
            known,
            address,
            item,
            function,
        ) {
            return Some(Found {
                entry,
                node: id,
                first: true,
            });
        }
        id += tables.nodes[id].size;
    }
    None
}

/// Finds the node that meets a demand: a child in any entry before a root in any entry.
pub(crate) fn find(tables: &Tables<'_>, address: ScAddress, function: &Function) -> Option<Found>
    requires ready { IsReady tables.now }
    requires within { AreWithin tables.now }
    requires none { KnowsNone tables.now }
    ensures { result ≡ found tables.now address function.now }
{
    let mut hint = Hint::new(&tables.cases, &tables.nodes, function);
    match find_child(tables, &mut hint, address, function) {
        Some(found) => Some(found),
        None => find_root(tables, &mut hint, address, function),
    }
}
