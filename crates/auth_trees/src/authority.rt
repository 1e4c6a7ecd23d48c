//! What meets the demands of a run.

ghost use Rattle.std.specs.Prelude.{◌≡◌, ◌≤◌, length, option_copied};
ghost use Rattle.std.specs.List.{slice_get};
ghost use Rattle.auth_spec.specs.Authorities.{by_entries, IsDemanded, point_of, undone_to};

use crate::marks::Marks;
use auth_spec::{Demand, Point};
use auth_types::AuthEntry;
use invoke_types::Function;
use std::marker::Model;
use value_types::ScAddress;

/// What meets the demands of a run, or notes them: the authorisation entries of a transaction, or a recorder.
pub trait Authority {
    /// The entries, the source account, the nodes that met demands, and what was noted.
    ghost authorised: { Self → Rattle.auth_spec.specs.Authorities.Authorised };

    /// Meets a demand for an address in the frame of a path, if anything does, and keeps what met it. The caller is the contract
    /// that calls the frame directly; for a create it is the frame's own contract.
    fn demand(
        &mut self,
        path: &[u64],
        caller: Option<ScAddress>,
        address: ScAddress,
        function: &Function,
    ) -> Demand
        requires { length path.now ≤ 130 }
        ensures { IsDemanded path.now caller address function.now result (authorised self.old) (authorised self.new) };

    /// Borrows the entry at an index, or returns `None` if there is none. A recorder has no entries.
    fn entry(&self, index: usize) -> Option<&AuthEntry>
        ensures { option_copied result ≡ slice_get (authorised self.now).entries index };

    /// Takes a snapshot, in O(1). `restore` goes back to it.
    fn snapshot(&self) -> Point
        ensures { result ≡ point_of (authorised self.now) };

    /// Goes back to a snapshot: nodes of entries that met demands since are free again. What was noted is kept. Takes no memory.
    fn restore(&mut self, to: Point)
        requires { to.pairs ≤ length (authorised self.old).pairs }
        ensures { authorised self.new ≡ undone_to to (authorised self.old) };
}

impl<'a> Authority for Marks<'a> {
    ghost authorised = { λ m. by_entries m };

    fn demand(
        &mut self,
        path: &[u64],
        caller: Option<ScAddress>,
        address: ScAddress,
        function: &Function,
    ) -> Demand {
        Marks::demand(self, path, caller, address, function)
    }

    fn entry(&self, index: usize) -> Option<&AuthEntry> {
        Marks::entry(self, index)
    }

    fn snapshot(&self) -> Point {
        Marks::snapshot(self)
    }

    fn restore(&mut self, to: Point) {
        Marks::restore(self, to)
    }
}

/// An authority of any kind. Contracts see its entries, its source account, the nodes that met demands, and what was noted.
#[derive(Drop)]
pub struct Authorising<A: Authority> {
    authority: A,
}

impl<A: Authority> Model for Authorising<A> {
    ghost use Rattle.value_types.specs.contracts.account_id.AccountId as account_id;
    ghost use Rattle.value_types.specs.contracts.address.ScAddress as address;
    ghost use Rattle.invoke_types.specs.contracts.function.Function as function;
    ghost use Rattle.auth_types.specs.contracts.auth_entry.AuthEntry as auth_entry;
    ghost use Rattle.auth_spec.specs.Authorities.{Authorised, authorised_code};

    ghost Value = { Authorised };

    ghost coded = { authorised_code auth_entry.the_row.coded account_id.the_row.coded address.the_row.coded
        function.the_row.coded };

    ghost view = { λ s. A.authorised s.authority };
}

impl<A: Authority> Authorising<A> {
    /// Holds an authority.
    pub fn new(authority: A) -> Authorising<A>
        ensures { result ≡ A.authorised authority }
    {
        Authorising { authority }
    }

    /// Returns the authority.
    pub fn into_authority(self) -> A
        ensures { A.authorised result ≡ self }
    {
        let Authorising { authority } = self;
        authority
    }

    /// Meets a demand as the authority does.
    pub fn demand(
        &mut self,
        path: &[u64],
        caller: Option<ScAddress>,
        address: ScAddress,
        function: &Function,
    ) -> Demand
        requires { length path.now ≤ 130 }
        ensures { IsDemanded path.now caller address function.now result self.old self.new }
    {
        self.authority.demand(path, caller, address, function)
    }

    /// Borrows an entry of the authority.
    pub fn entry(&self, index: usize) -> Option<&AuthEntry>
        ensures { option_copied result ≡ slice_get self.now.entries index }
    {
        self.authority.entry(index)
    }

    /// Takes a snapshot of the authority, in O(1).
    pub fn snapshot(&self) -> Point
        ensures { result ≡ point_of self.now }
    {
        self.authority.snapshot()
    }

    /// Goes back to a snapshot. Takes no memory.
    pub fn restore(&mut self, to: Point)
        requires { to.pairs ≤ length self.old.pairs }
        ensures { self.new ≡ undone_to to self.old }
    {
        self.authority.restore(to)
    }
}
