//! Instance storage that knows its size.

ghost use Rattle.std.specs.Prelude.{◌≡◌, ◌<◌, ◌≤◌, [], length, Some, None, MatchOption, IfSome, IfOk};
ghost use Rattle.std.specs.Option.{unwrap_or, option_map};
ghost use Rattle.value_types.specs.Datum.{members_of, map};
ghost use Rattle.value_types.specs.Views.{datum, datum_pairs};
ghost use Rattle.host_spec.specs.Hosted.{IsHosted, IsMade};
ghost use Rattle.host_spec.specs.MapRows.{value_at as value_in, without};
ghost use Rattle.host_frame.specs.KeyIndex.{IsThere, IsGap};
ghost use Rattle.instance_storage.specs.Held.{IsHeld, members_in, members_size, Puts, PutsIn};

use crate::entries::{grown, insert_at, is_within_limits, overwrite, remove_at, size_at};
use host_frame::{index_of, size_of};
use std::alloc::{AllocError, Global};
use std::marker::Model;
use value_types::{Entries, Entry, Hash, ScVal, hash_fits};

/// Instance storage: null, or entries whose keys rise. Contracts see it as an option of a list of pairs.
#[derive(Drop)]
pub struct InstanceStorage {
    entries: Option<Vec<Entry>>,
    /// The bytes of the XDR of the entries, without their count, if the host holds them.
    size: u64,
}

/// Why nothing was put.
#[derive(Clone, Copy, Debug, PartialEq, Eq)]
pub enum Unput {
    /// The instance would be too large or too deep.
    TooLarge,
    NoMemory,
}

impl Model for InstanceStorage {
    ghost use Rattle.std.specs.Prelude.{List, Option};
    ghost use Rattle.std.specs.Coded.{coded_list, coded_option, coded×};
    ghost use Rattle.value_types.specs.Datum.{Datum};
    ghost use Rattle.value_types.specs.RowLaws.{coded_datum};

    ghost Value = { Option (List (Datum × Datum)) };

    ghost coded = { coded_option (coded_list (coded× coded_datum coded_datum)) };

    ghost use Rattle.instance_storage.specs.Held.{held_in, IsSized};

    ghost view = { λ s. held_in s.entries };

    ghost invariant = { λ s. IsSized (held_in s.entries) s.size };
}

/// Copies the list of entries. Their keys and values are shared.
fn listed(entries: &Entries) -> Result<Vec<Entry>, AllocError>
    ensures { IfOk result (λ list. datum_pairs list.items ≡ entries.now) }
{
    entries.as_slice().to_vec(entries.allocator())
}

/// Entries with their size.
fn sized(entries: Entries) -> Result<InstanceStorage, AllocError>
    requires { IsHosted (map (members_of entries)) }
    ensures { IfOk result (λ storage. storage ≡ Some entries) }
{
    let list = listed(&entries)?;
    let size = size_of(&ScVal::Map(Some(entries))) - 12;
    Ok(InstanceStorage {
        entries: Some(list),
        size,
    })
}

/// Puts an entry over the one with its key.
fn put_over(
    entries: Vec<Entry>,
    size: u64,
    code: Hash,
    index: usize,
    entry: Entry,
) -> Result<InstanceStorage, (Vec<Entry>, Unput)>
    requires hosted { IsHosted (map (members_of (datum_pairs entries.items))) }
    requires size { size ≡ members_size (datum_pairs entries.items) }
    requires within { index < length (datum_pairs entries.items) }
    requires stands { IsThere (datum entry.key) (datum_pairs entries.items) index }
    requires key { IsMade (datum entry.key) }
    requires val { IsMade (datum entry.val) }
    ensures { PutsIn result code (datum entry.key) (datum entry.val) (datum_pairs entries.items) }
{
    hash_fits(code);
    let size = grown(size - size_at(&entries, index), &entry);
    if !is_within_limits(size, &entry) {
        return Err((entries, Unput::TooLarge));
    }
    Ok(InstanceStorage {
        entries: Some(overwrite(entries, index, entry)),
        size,
    })
}

/// Puts an entry where its key would stand.
fn put_between(
    entries: Vec<Entry>,
    size: u64,
    code: Hash,
    index: usize,
    entry: Entry,
) -> Result<InstanceStorage, (Vec<Entry>, Unput)>
    requires hosted { IsHosted (map (members_of (datum_pairs entries.items))) }
    requires size { size ≡ members_size (datum_pairs entries.items) }
    requires within { index ≤ length (datum_pairs entries.items) }
    requires stands { IsGap (datum entry.key) (datum_pairs entries.items) index }
    requires key { IsMade (datum entry.key) }
    requires val { IsMade (datum entry.val) }
    ensures { PutsIn result code (datum entry.key) (datum entry.val) (datum_pairs entries.items) }
{
    hash_fits(code);
    let size = grown(size, &entry);
    if !is_within_limits(size, &entry) {
        return Err((entries, Unput::TooLarge));
    }
    match insert_at(entries, index, entry) {
        Ok(entries) => Ok(InstanceStorage {
            entries: Some(entries),
            size,
        }),
        Err(entries) => Err((entries, Unput::NoMemory)),
    }
}

/// Puts an entry at its key, if the instance with this code is within the limits of values then.
#[tactic(auto, using(host_frame::proofs::Lemmas::pairs_length))]
fn put_in(
    entries: Vec<Entry>,
    size: u64,
    code: Hash,
    entry: Entry,
) -> Result<InstanceStorage, (Vec<Entry>, Unput)>
    requires hosted { IsHosted (map (members_of (datum_pairs entries.items))) }
    requires size { size ≡ members_size (datum_pairs entries.items) }
    requires key { IsMade (datum entry.key) }
    requires val { IsMade (datum entry.val) }
    ensures { PutsIn result code (datum entry.key) (datum entry.val) (datum_pairs entries.items) }
{
    match index_of(&entry.key, entries.as_slice()) {
        Ok(index) => put_over(entries, size, code, index, entry),
        Err(index) => put_between(entries, size, code, index, entry),
    }
}

/// The entries without a key's entry, and their size.
#[tactic(auto, using(host_frame::proofs::Lemmas::pairs_length))]
fn delete_in(entries: Vec<Entry>, size: u64, key: &ScVal) -> InstanceStorage
    requires hosted { IsHosted (map (members_of (datum_pairs entries.items))) }
    requires size { size ≡ members_size (datum_pairs entries.items) }
    ensures deleted { result ≡ Some (without (datum key.now) (datum_pairs entries.items)) }
    ensures held { IsHeld result }
{
    match index_of(key, entries.as_slice()) {
        Ok(index) => {
            let size = size - size_at(&entries, index);
            InstanceStorage {
                entries: Some(remove_at(entries, index)),
                size,
            }
        }
        Err(_) => InstanceStorage {
            entries: Some(entries),
            size,
        },
    }
}

/// Finds the value of a key.
#[tactic(auto, using(host_frame::proofs::Lemmas::value_there, host_frame::proofs::Lemmas::value_gap, host_frame::proofs::Lemmas::val_made))]
fn value_at<'a>(key: &ScVal, entries: &'a [Entry]) -> Option<&'a ScVal>
    requires { IsHosted (map (members_of (datum_pairs entries.now))) }
    ensures found { MatchOption result (value_in (datum key.now) (datum_pairs entries.now) ≡ None)
        (λ v. value_in (datum key.now) (datum_pairs entries.now) ≡ Some (datum v.now)) }
    ensures made { IfSome result (λ v. IsMade (datum v.now)) }
{
    match index_of(key, entries) {
        Ok(index) => {
            let entry = &entries[index];
            Some(&entry.val)
        }
        Err(_) => None,
    }
}

impl InstanceStorage {
    /// Returns null storage.
    pub fn null() -> InstanceStorage
        ensures { result ≡ None }
    {
        InstanceStorage {
            entries: None,
            size: 0,
        }
    }

    /// Makes storage of entries, which it measures. `None` is null. It takes O(n) time and memory for n entries, whatever their
    /// sizes.
    pub fn new(entries: Option<Entries>) -> Result<InstanceStorage, AllocError>
        requires { IsHeld entries }
        ensures { IfOk result (λ storage. storage ≡ entries) }
    {
        match entries {
            None => Ok(InstanceStorage::null()),
            Some(entries) => sized(entries),
        }
    }

    /// Lends the entries. `None` is null.
    pub fn entries(&self) -> Option<&[Entry]>
        ensures { members_in result ≡ self.now }
    {
        match &self.entries {
            None => None,
            Some(entries) => Some(entries.as_slice()),
        }
    }

    /// Copies the entries. `None` is null. It takes O(n) time and memory for n entries, whatever their sizes.
    pub fn to_entries(&self) -> Result<Option<Entries>, AllocError>
        ensures { IfOk result (λ entries. entries ≡ self.now) }
    {
        match &self.entries {
            None => Ok(None),
            Some(entries) => {
                let list = entries.clone()?;
                Ok(Some(Entries::from_vec(list)?))
            }
        }
    }

    /// Finds the value of a key, in O(log n) comparisons.
    pub fn get(&self, key: &ScVal) -> Option<&ScVal>
        requires { IsHeld self.now }
        ensures found { MatchOption result (value_in (datum key.now) (unwrap_or self.now []) ≡ None)
            (λ v. value_in (datum key.now) (unwrap_or self.now []) ≡ Some (datum v.now)) }
        ensures made { IfSome result (λ v. IsMade (datum v.now)) }
    {
        match &self.entries {
            None => None,
            Some(entries) => value_at(key, entries.as_slice()),
        }
    }

    /// Puts an entry at its key, unless the instance with this code would be too large or too deep then. It measures only the
    /// entry and the one that it replaces.
    pub fn put(&mut self, alloc: Global, code: Hash, entry: Entry) -> Result<(), Unput>
        requires held { IsHeld self.old }
        requires key { IsMade (datum entry.key) }
        requires val { IsMade (datum entry.val) }
        ensures put { Puts result code (datum entry.key) (datum entry.val) self.old self.new }
        ensures held { IsHeld self.new }
    {
        match self.entries.take() {
            None => match put_in(Vec::new(alloc), 0, code, entry) {
                Ok(storage) => {
                    *self = storage;
                    Ok(())
                }
                Err((_, why)) => Err(why),
            },
            Some(entries) => match put_in(entries, self.size, code, entry) {
                Ok(storage) => {
                    *self = storage;
                    Ok(())
                }
                Err((entries, why)) => {
                    self.entries = Some(entries);
                    Err(why)
                }
            },
        }
    }

    /// Deletes a key's entry. It takes no memory.
    pub fn delete(&mut self, key: &ScVal)
        requires { IsHeld self.old }
        ensures deleted { self.new ≡ option_map (λ members. without (datum key.now) members) self.old }
        ensures held { IsHeld self.new }
    {
        if let Some(entries) = self.entries.take() {
            *self = delete_in(entries, self.size, key);
        }
    }
}

impl Clone for InstanceStorage {
    ghost is_clone = { λ v w. w ≡ v };

    fn clone(&self) -> Result<InstanceStorage, AllocError> {
        let entries = match &self.entries {
            None => None,
            Some(entries) => Some(entries.clone()?),
        };
        Ok(InstanceStorage {
            entries,
            size: self.size,
        })
    }
}
