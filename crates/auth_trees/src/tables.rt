//! What is known of the entries, and of their nodes that met demands.

ghost use Rattle.std.specs.Prelude.{◌≡◌, ℕ, ◌<◌, ◌≤◌, length, map, slice_set, All, IfOk, Some, None, true, false};
ghost use Rattle.std.specs.Prelude.{if◌then◌else◌};
ghost use Rattle.std.specs.List.{slice_index_or};
ghost use Rattle.auth_spec.specs.Pairs.{is_below};
ghost use Rattle.auth_trees.specs.Flat.{has_record, has_entry, deepest_record, deeper_known, known, flat, authoriser};
ghost use Rattle.auth_trees.specs.Ready.{IsReady, IsMarked, IsCurrent};

use crate::entries::authorisers;
use crate::nodes::{Node, list_entries};
use crate::records::{KnownPath, Record, is_below};
use crate::telling::tell_apart;
use auth_types::AuthEntry;
use std::alloc::Global;
use value_paths::Cases;
use value_types::{AccountId, ScAddress};
use xdr_core::NoMemory;

/// The entries with what a demand needs to know of them.
#[derive(Drop)]
pub(crate) struct Tables<'a> {
    pub entries: &'a [AuthEntry],
    /// The address whose demands each entry may meet, if it may meet any.
    pub addresses: Vec<Option<ScAddress>>,
    /// The nodes of all entries: each before its children, these in order.
    pub nodes: Vec<Node<'a>>,
    /// Tells nodes with long arguments apart. Nothing that is claimed rests on it.
    pub cases: Cases,
    /// The path for which the rest is that of the records. It is `None` if the rest has to be computed anew.
    pub path: KnownPath,
    /// Whether each node has a record.
    pub taken: Vec<bool>,
    /// Whether each entry has a record.
    pub used: Vec<bool>,
    /// The deepest node of each entry above the path.
    pub deepest: Vec<Option<Deepest>>,
    /// Whether some entry may have a deepest node.
    pub any: bool,
}

/// The deepest node of an entry that met a demand.
#[derive(Clone, Copy, Debug, PartialEq, Eq)]
pub(crate) struct Deepest {
    /// The index of the node in the list of all nodes.
    pub node: usize,
    /// The length of the path of the frame.
    pub length: usize,
}

/// Marks the nodes that have a record.
fn mark_nodes(taken: &mut Vec<bool>, records: &[Record])
    requires { All (λ r. r.node < length taken.old.items) records.now }
    ensures len { length taken.new.items ≡ length taken.old.items }
    ensures marks { (id : ℕ) → id < length taken.old.items → slice_index_or taken.new.items id false ≡ has_record records.now id }
{
    taken.fill(false);
    for record in records {
        taken[record.node] = true;
    }
}

/// Marks the entries that have a record.
fn mark_entries(used: &mut Vec<bool>, records: &[Record])
    requires { All (λ r. r.entry < length used.old.items) records.now }
    ensures len { length used.new.items ≡ length used.old.items }
    ensures marks { (entry : ℕ) → entry < length used.old.items
        → slice_index_or used.new.items entry false ≡ has_entry records.now entry }
{
    used.fill(false);
    for record in records {
        used[record.entry] = true;
    }
}

/// The deeper one, or the later one of the same depth.
fn deeper(best: Option<Deepest>, later: Deepest) -> Option<Deepest>
    ensures { result ≡ deeper_known best later }
{
    match best {
        None => Some(later),
        Some(best) => {
            if later.length < best.length {
                Some(best)
            } else {
                Some(later)
            }
        }
    }
}

/// Keeps a record as the deepest of its entry, if it is above the path and not less deep than the one so far. Returns whether it
/// is above the path.
fn note(deepest: &mut Vec<Option<Deepest>>, record: &Record, path: &[u64]) -> bool
    requires { record.now.entry < length deepest.old.items }
    ensures above { result ≡ is_below path.now record.now.path }
    ensures deepest { deepest.new.items ≡ (if is_below path.now record.now.path
        then slice_set deepest.old.items record.now.entry
        (deeper_known (slice_index_or deepest.old.items record.now.entry None) (known (flat record.now)))
        else deepest.old.items) }
{
    let above = record.path.as_slice();
    if !is_below(path, above) {
        return false;
    }
    let later = Deepest {
        node: record.node,
        length: above.len(),
    };
    let entry = record.entry;
    deepest[entry] = deeper(deepest[entry], later);
    true
}

/// Finds the deepest node of each entry above a path. Returns whether some entry may have one.
fn find_deepest(deepest: &mut Vec<Option<Deepest>>, records: &[Record], path: &[u64]) -> bool
    requires { All (λ r. r.entry < length deepest.old.items) records.now }
    ensures len { length deepest.new.items ≡ length deepest.old.items }
    ensures each { (entry : ℕ) → entry < length deepest.old.items
        → slice_index_or deepest.new.items entry None ≡ deepest_record records.now path.now entry }
    ensures any { result ≡ false → (entry : ℕ) → entry < length deepest.old.items
        → slice_index_or deepest.new.items entry None ≡ None }
{
    deepest.fill(None);
    let mut any = false;
    for record in records {
        if note(deepest, record, path) {
            any = true;
        }
    }
    any
}

/// Makes the tables of entries.
pub(crate) fn prepare<'a>(
    alloc: Global,
    entries: &'a [AuthEntry],
    source: AccountId,
) -> Result<Tables<'a>, NoMemory>
    ensures entries { IfOk result (λ tables. tables.entries.now ≡ entries.now) }
    ensures addresses { IfOk result (λ tables. tables.addresses.items ≡ map (authoriser source) entries.now) }
    ensures ready { IfOk result IsReady }
    ensures unmarked { IfOk result (λ tables. tables.path ≡ None) }
{
    let addresses = authorisers(alloc, entries, source)?;
    let nodes = list_entries(alloc, entries)?;
    let cases = tell_apart(alloc, &nodes)?;
    let taken = vec![in alloc; false; nodes.len()]?;
    let used = vec![in alloc; false; entries.len()]?;
    let deepest = vec![in alloc; None; entries.len()]?;
    let path = KnownPath::none(alloc)?;
    Ok(Tables {
        entries,
        addresses,
        nodes,
        cases,
        path,
        taken,
        used,
        deepest,
        any: false,
    })
}

/// Marks what has a record, and finds the deepest node of each entry above a path.
fn mark_anew(tables: &mut Tables<'_>, records: &[Record], path: &[u64])
    requires path { length path.now ≤ 130 }
    requires ready { IsReady tables.old }
    requires nodes { All (λ r. r.node < length tables.old.taken.items) records.now }
    requires entries { All (λ r. r.entry < length tables.old.used.items) records.now }
    ensures ready { IsReady tables.new }
    ensures marked { IsMarked records.now path.now tables.new }
    ensures path { tables.new.path ≡ Some path.now }
    ensures entries { tables.new.entries.now ≡ tables.old.entries.now }
    ensures addresses { tables.new.addresses.items ≡ tables.old.addresses.items }
    ensures nodes { tables.new.nodes.items ≡ tables.old.nodes.items }
{
    mark_nodes(&mut tables.taken, records);
    mark_entries(&mut tables.used, records);
    tables.any = find_deepest(&mut tables.deepest, records, path);
    tables.path.set(path);
}

/// Marks what has a record, and finds the deepest node of each entry above a path, unless the tables are marked for it.
pub(crate) fn mark(tables: &mut Tables<'_>, records: &[Record], path: &[u64])
    requires path { length path.now ≤ 130 }
    requires ready { IsReady tables.old }
    requires current { IsCurrent records.now tables.old }
    requires nodes { All (λ r. r.node < length tables.old.taken.items) records.now }
    requires entries { All (λ r. r.entry < length tables.old.used.items) records.now }
    ensures ready { IsReady tables.new }
    ensures marked { IsMarked records.now path.now tables.new }
    ensures path { tables.new.path ≡ Some path.now }
    ensures entries { tables.new.entries.now ≡ tables.old.entries.now }
    ensures addresses { tables.new.addresses.items ≡ tables.old.addresses.items }
    ensures nodes { tables.new.nodes.items ≡ tables.old.nodes.items }
{
    if !tables.path.is(path) {
        mark_anew(tables, records, path);
    }
}

/// Marks one node more, and its entry. The deepest nodes above the path stay, since a record of the path is not above it.
pub(crate) fn take(tables: &mut Tables<'_>, entry: usize, node: usize)
    requires entry { entry < length tables.old.used.items }
    requires node { node < length tables.old.taken.items }
    ensures taken { tables.new.taken.items ≡ slice_set tables.old.taken.items node true }
    ensures used { tables.new.used.items ≡ slice_set tables.old.used.items entry true }
    ensures deepest { tables.new.deepest.items ≡ tables.old.deepest.items }
    ensures any { tables.new.any ≡ tables.old.any }
    ensures path { tables.new.path ≡ tables.old.path }
    ensures entries { tables.new.entries.now ≡ tables.old.entries.now }
    ensures addresses { tables.new.addresses.items ≡ tables.old.addresses.items }
    ensures nodes { tables.new.nodes.items ≡ tables.old.nodes.items }
{
    tables.taken[node] = true;
    tables.used[entry] = true;
}
