//! An authority that notes demands.

ghost use Rattle.std.specs.Prelude.{◌≡◌, ◌≤◌, ◌++◌, ◌∷◌, length, option_copied, [], true, false, Some};
ghost use Rattle.std.specs.List.{slice_get};
ghost use Rattle.std.specs.Option.{option_map};
ghost use Rattle.auth_spec.specs.Noted.{no_notes};
ghost use Rattle.auth_spec.specs.Authorities.{IsDemanded, point_of, undone_to};
ghost use Rattle.auth_notes.specs.Recording.{notes_of};

use crate::forest::{Forest, grow, new_note, no_trees};
use crate::noted::{Noted, account_of};
use auth_spec::{Demand, Point};
use auth_trees::{Authority, is_caller};
use auth_types::AuthEntry;
use invoke_types::Function;
use std::alloc::Global;
use std::marker::Model;
use value_types::{AccountId, ScAddress};

/// An authority without entries. It notes the demands for accounts, as nodes of the trees that the accounts have to authorise.
#[derive(Drop)]
pub struct Recorder {
    alloc: Global,
    source: AccountId,
    forest: Forest,
    demands: usize,
    undone: usize,
}

impl Model for Recorder {
    ghost use Rattle.value_types.specs.contracts.account_id.AccountId as account_id;
    ghost use Rattle.value_types.specs.contracts.address.ScAddress as address;
    ghost use Rattle.invoke_types.specs.contracts.function.Function as function;
    ghost use Rattle.auth_types.specs.contracts.auth_entry.AuthEntry as auth_entry;
    ghost use Rattle.auth_spec.specs.Authorities.{Authorised, authorised_code};
    ghost use Rattle.auth_notes.specs.Recording.{notes_of, recorded};
    ghost use Rattle.auth_notes.specs.Indices.{IsForest};

    ghost Value = { Authorised };

    ghost coded = { authorised_code auth_entry.the_row.coded account_id.the_row.coded address.the_row.coded
        function.the_row.coded };

    ghost view = { λ r. recorded r.source (notes_of r.forest.notes.items) r.demands r.undone };

    ghost invariant = { λ r. IsForest r.forest };
}

impl Recorder {
    /// A recorder for a transaction or operation with this source account. It has noted nothing.
    pub fn new(alloc: Global, source: AccountId) -> Recorder
        ensures { result ≡ record { entries = []; source = source; pairs = []; noted = Some no_notes } }
    {
        Recorder {
            alloc,
            source,
            forest: no_trees(alloc),
            demands: 0,
            undone: 0,
        }
    }

    /// Notes a demand for an address in the frame of a path. The caller is the contract that calls the frame directly; for a
    /// create it is the frame's own contract. Running out of memory changes nothing.
    ///
    /// If n nodes were noted, it takes O(log n) comparisons of keys for each number of the path. It copies the path and the
    /// function.
    pub fn demand(
        &mut self,
        path: &[u64],
        caller: Option<ScAddress>,
        address: ScAddress,
        function: &Function,
    ) -> Demand
        requires { length path.now ≤ 130 }
        ensures { IsDemanded path.now caller address function.now result self.old self.new }
    {
        let Some(demands) = self.demands.checked_add(1) else {
            return Demand::NoMemory;
        };
        if is_caller(address, caller) {
            self.demands = demands;
            return Demand::ByInvoker;
        }
        let Some(account) = account_of(address) else {
            self.demands = demands;
            return Demand::Denied;
        };
        match new_note(self.alloc, &self.forest, account, path, function) {
            Err(_) => Demand::NoMemory,
            Ok(None) => {
                self.demands = demands;
                Demand::Denied
            }
            Ok(Some(note)) => {
                if !grow(self.alloc, &mut self.forest, account, note) {
                    return Demand::NoMemory;
                }
                self.demands = demands;
                Demand::Noted
            }
        }
    }

    /// Borrows the entry at an index: there is none.
    pub fn entry(&self, index: usize) -> Option<&AuthEntry>
        ensures { option_copied result ≡ slice_get self.now.entries index }
    {
        let _ = &self.alloc;
        let _ = index;
        None
    }

    /// Takes a snapshot, in O(1). `restore` goes back to it.
    pub fn snapshot(&self) -> Point
        ensures { result ≡ point_of self.now }
    {
        Point {
            pairs: 0,
            demands: self.demands,
        }
    }

    /// Undoes a failure since a snapshot: what was noted is kept. It counts as undone if there were demands in it. Takes no
    /// memory.
    pub fn restore(&mut self, to: Point)
        requires { to.pairs ≤ length self.old.pairs }
        ensures { self.new ≡ undone_to to self.old }
    {
        if to.demands < self.demands && self.undone < usize::MAX {
            self.undone += 1;
        }
    }

    /// Returns the number of demands so far.
    pub fn demands(&self) -> usize
        ensures { option_map (λ n. n.demands) self.now.noted ≡ Some result }
    {
        self.demands
    }

    /// Returns the number of failures that were undone with demands in them.
    pub fn undone(&self) -> usize
        ensures { option_map (λ n. n.undone) self.now.noted ≡ Some result }
    {
        self.undone
    }

    /// Returns the nodes that were noted, in the order of their making.
    pub fn into_notes(self) -> Vec<Noted>
        ensures { option_map (λ n. n.nodes) self.noted ≡ Some (notes_of result.items) }
    {
        let Recorder { forest, .. } = self;
        let Forest { notes, .. } = forest;
        notes
    }
}

impl Authority for Recorder {
    ghost authorised = { λ r. r };

    fn demand(
        &mut self,
        path: &[u64],
        caller: Option<ScAddress>,
        address: ScAddress,
        function: &Function,
    ) -> Demand {
        Recorder::demand(self, path, caller, address, function)
    }

    fn entry(&self, index: usize) -> Option<&AuthEntry> {
        Recorder::entry(self, index)
    }

    fn snapshot(&self) -> Point {
        Recorder::snapshot(self)
    }

    fn restore(&mut self, to: Point) {
        Recorder::restore(self, to)
    }
}
