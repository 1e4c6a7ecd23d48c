//! The authorisation entries of a transaction with the nodes that met demands.

ghost use Rattle.std.specs.Prelude.{◌≡◌, ◌≤◌, [], length, IfOk, option_copied};
ghost use Rattle.std.specs.List.{slice_get};
ghost use Rattle.auth_spec.specs.Demands.{demand, after_demand, restored};

use crate::entries::{is_caller, may_authorise};
use crate::records::{Record, add};
use crate::search::find;
use crate::tables::{Tables, mark, prepare, take};
use auth_spec::{Demand, Point};
use auth_types::AuthEntry;
use invoke_types::Function;
use std::alloc::Global;
use std::marker::Model;
use value_types::{AccountId, ScAddress};
use xdr_core::NoMemory;

/// The authorisation entries of a transaction, and the nodes of their trees that met demands so far. Contracts see the entries,
/// the source account, and the pairs of nodes and paths in the order in which they were made.
#[derive(Drop)]
pub struct Marks<'a> {
    source: AccountId,
    tables: Tables<'a>,
    records: Vec<Record>,
}

impl<'a> Model for Marks<'a> {
    ghost use Rattle.std.specs.Prelude.{vec_capacity};
    ghost use Rattle.auth_types.specs.contracts.auth_entry.AuthEntry as auth_entry;
    ghost use Rattle.value_types.specs.contracts.account_id.AccountId as account_id;
    ghost use Rattle.auth_spec.specs.Demands.{Marked};
    ghost use Rattle.auth_trees.specs.Kept.{marked_code, marked, IsKept};

    ghost Value = { Marked };

    ghost coded = { marked_code auth_entry.the_row.coded account_id.the_row.coded };

    ghost view = { λ m. marked m.tables m.source m.records.items };

    ghost invariant = { λ m. IsKept m.tables m.source m.records.items (vec_capacity m.records) };
}

impl<'a> Marks<'a> {
    /// Prepares the entries of a transaction or operation with this source account. `demand` is then never out of memory: there
    /// is room for a path of 130 numbers for each node.
    pub fn prepare(
        alloc: Global,
        entries: &'a [AuthEntry],
        source: AccountId,
    ) -> Result<Marks<'a>, NoMemory>
        ensures { IfOk result (λ marks. marks ≡ record { entries = entries.now; source = source; pairs = [] }) }
    {
        let tables = prepare(alloc, entries, source)?;
        let records = Vec::with_capacity(alloc, tables.nodes.len())?;
        Ok(Marks {
            source,
            tables,
            records,
        })
    }

    /// Meets a demand for an address in the frame of a path, if anything does, and keeps the node that met it. The caller is the
    /// contract that calls the frame directly; for a create it is the frame's own contract. Never out of memory: where there is
    /// none to tell two long argument lists apart by a place, they are compared in order.
    ///
    /// The first demand of a frame, and the first one after a `restore`, takes time linear in the nodes of all entries and in
    /// those that met demands. A later one of the frame goes through the entries.
    pub fn demand(
        &mut self,
        path: &[u64],
        caller: Option<ScAddress>,
        address: ScAddress,
        function: &Function,
    ) -> Demand
        requires { length path.now ≤ 130 }
        ensures answer { result ≡ demand self.old path.now caller address function.now }
        ensures pairs { self.new ≡ after_demand self.old path.now caller address function.now }
    {
        if !may_authorise(address) {
            return Demand::Denied;
        }
        if is_caller(address, caller) {
            return Demand::ByInvoker;
        }
        mark(&mut self.tables, self.records.as_slice(), path);
        match find(&self.tables, address, function) {
            None => Demand::Denied,
            Some(found) => {
                add(&mut self.records, found.entry, found.node, path);
                take(&mut self.tables, found.entry, found.node);
                Demand::Matched {
                    entry: found.entry,
                    first: found.first,
                }
            }
        }
    }

    /// Borrows the entry at an index, or returns `None` if there is none.
    pub fn entry(&self, index: usize) -> Option<&AuthEntry>
        ensures { option_copied result ≡ slice_get self.now.entries index }
    {
        self.tables.entries.get(index)
    }

    /// Takes a snapshot, in O(1). `restore` goes back to it.
    pub fn snapshot(&self) -> Point
        ensures pairs { result.pairs ≡ length self.now.pairs }
        ensures demands { result.demands ≡ 0 }
    {
        Point {
            pairs: self.records.len(),
            demands: 0,
        }
    }

    /// Goes back to a snapshot: nodes that met demands since are free again. Takes no memory.
    pub fn restore(&mut self, to: Point)
        requires { to.pairs ≤ length self.old.pairs }
        ensures { self.new ≡ restored to.pairs self.old }
    {
        self.tables.path.forget();
        self.records.truncate(to.pairs);
    }
}
