//! The values of a transaction, and which of them were shown in a frame.

ghost use Rattle.std.specs.Prelude.{◌≡◌, ◌<◌, ◌++◌, [], ◌∷◌, length, slice_get, Some, None, OnOk, OnErr, IfOk, MatchOption};
ghost use Rattle.value_types.specs.Views.{datum};
ghost use Rattle.host_spec.specs.Words.{object_tag, object_word, small_word};
ghost use Rattle.host_spec.specs.Addresses.{address_tag};
ghost use Rattle.host_spec.specs.Hosted.{IsHosted};
ghost use Rattle.object_store.specs.Shown.{shown_of, shown_word, shown_with, AreIndices, IsFull};

use std::alloc::{AllocError, Global};
use std::marker::Model;
use tagged_val::{Val, small_word};
use value_types::{ScAddress, ScVal};

/// The number of objects that a frame may show.
const MOST_SHOWN: usize = 1_000_000;

/// All values that were shown in any frame. It only grows.
#[derive(Drop)]
pub struct Objects {
    values: Vec<ScVal>,
}

impl Model for Objects {
    ghost use Rattle.std.specs.Prelude.{List};
    ghost use Rattle.std.specs.Coded.{coded_list};
    ghost use Rattle.value_types.specs.Datum.{Datum};
    ghost use Rattle.value_types.specs.RowLaws.{coded_datum};

    ghost Value = { List Datum };

    ghost coded = { coded_list coded_datum };

    ghost use Rattle.value_types.specs.Views.{datums};
    ghost use Rattle.host_spec.specs.Hosted.{AreHosted};

    ghost view = { λ o. datums o.values.items };

    ghost invariant = { λ o. AreHosted (datums o.values.items) };
}

/// Which values were shown in a frame: their indices among all, in the order of their handles.
#[derive(Drop)]
pub struct Shown {
    indices: Vec<usize>,
}

impl Model for Shown {
    ghost use Rattle.std.specs.Prelude.{List, ℕ};

    ghost Value = { List ℕ };

    ghost view = { λ s. s.indices.items };
}

/// Why a value is not shown.
#[derive(Clone, Copy, Debug, PartialEq, Eq)]
pub enum ShowErr {
    /// The frame shows as many objects as it may.
    Full,
    /// Memory ran out.
    NoMemory,
}

impl Shown {
    /// Makes a list of no values.
    pub fn new(alloc: Global) -> Shown
        ensures { result ≡ [] }
    {
        Shown {
            indices: Vec::new(alloc),
        }
    }

    fn len(&self) -> usize
        ensures { result ≡ length self.now }
    {
        self.indices.len()
    }

    fn index(&self, handle: usize) -> Option<usize>
        ensures { result ≡ slice_get self.now handle }
    {
        self.indices.get(handle).copied()
    }

    fn push(&mut self, index: usize) -> Result<(), AllocError>
        ensures ok { OnOk result (self.new ≡ self.old ++ index ∷ []) }
        ensures err { OnErr result (self.new ≡ self.old) }
    {
        self.indices.push(index)?;
        Ok(())
    }
}

impl Objects {
    /// Makes a list of no values.
    pub fn new(alloc: Global) -> Objects
        ensures { result ≡ [] }
    {
        Objects {
            values: Vec::new(alloc),
        }
    }

    /// Where its memory comes from.
    pub fn allocator(&self) -> Global {
        *self.values.allocator()
    }

    fn len(&self) -> usize
        ensures { result ≡ length self.now }
    {
        self.values.len()
    }

    fn get(&self, index: usize) -> Option<&ScVal>
        ensures { MatchOption result (slice_get self.now index ≡ None)
            (λ v. (slice_get self.now index ≡ Some (datum v.now)) × IsHosted (datum v.now)) }
    {
        self.values.get(index)
    }

    /// The value that was shown under a handle. O(1).
    #[tactic(auto, using(crate::proofs::Resolving::shown_member, crate::proofs::Resolving::shown_none, crate::proofs::Resolving::shown_never))]
    pub fn shown(&self, shown: &Shown, handle: usize) -> Option<&ScVal>
        requires { AreIndices self.now shown.now }
        ensures { MatchOption result (slice_get (shown_of self.now shown.now) handle ≡ None)
            (λ v. (slice_get (shown_of self.now shown.now) handle ≡ Some (datum v.now)) × IsHosted (datum v.now)) }
    {
        match shown.index(handle) {
            None => None,
            Some(index) => self.get(index),
        }
    }

    fn push(&mut self, value: ScVal) -> Result<(), AllocError>
        requires { IsHosted (datum value) }
        ensures ok { OnOk result (self.new ≡ self.old ++ datum value ∷ []) }
        ensures err { OnErr result (self.new ≡ self.old) }
    {
        self.values.push(value)?;
        Ok(())
    }

    /// Adds a value under the next handle. If memory runs out, all is as it was.
    #[tactic(auto, using(crate::proofs::Resolving::shown_more, crate::proofs::Resolving::indices_more))]
    fn append(&mut self, shown: &mut Shown, value: ScVal) -> Result<(), AllocError>
        requires hosted { IsHosted (datum value) }
        requires indices { AreIndices self.old shown.old }
        ensures shown { OnOk result (shown_of self.new shown.new ≡ shown_of self.old shown.old ++ datum value ∷ []) }
        ensures grown { OnOk result (self.new ≡ self.old ++ datum value ∷ []) }
        ensures indices { AreIndices self.new shown.new }
        ensures err { OnErr result ((self.new ≡ self.old) × (shown.new ≡ shown.old)) }
    {
        let index = self.len();
        shown.push(index)?;
        match self.push(value) {
            Ok(()) => Ok(()),
            Err(error) => {
                let _ = shown.indices.pop();
                Err(error)
            }
        }
    }

    /// Shows a value in a frame: as its small form if it has one, else as an object. After an error all is as it was.
    #[tactic(auto, using(crate::proofs::Showing::object_has_tag))]
    pub fn show(&mut self, shown: &mut Shown, value: ScVal) -> Result<Val, ShowErr>
        requires hosted { IsHosted (datum value) }
        requires indices { AreIndices self.old shown.old }
        ensures ok { IfOk result (λ w. w.0 ≡ shown_word (small_word (datum value)) (datum value) (length shown.old)) }
        ensures shown { OnOk result (shown_of self.new shown.new ≡ shown_with (small_word (datum value)) (datum value)
            (shown_of self.old shown.old)) }
        ensures grown { OnOk result (self.new ≡ shown_with (small_word (datum value)) (datum value) self.old) }
        ensures full { IsFull result (small_word (datum value)) shown.old }
        ensures indices { AreIndices self.new shown.new }
        ensures err { OnErr result ((self.new ≡ self.old) × (shown.new ≡ shown.old)) }
    {
        match small_word(&value) {
            Some(word) => Ok(word),
            None => self.to_object(shown, value),
        }
    }

    /// Shows a value in a frame as an object. After an error all is as it was.
    pub fn to_object(&mut self, shown: &mut Shown, value: ScVal) -> Result<Val, ShowErr>
        requires hosted { IsHosted (datum value) }
        requires indices { AreIndices self.old shown.old }
        // So the word has the tag of an object.
        requires tag { 0 < object_tag (datum value) }
        ensures ok { IfOk result (λ w. w.0 ≡ object_word (datum value) (length shown.old)) }
        ensures shown { OnOk result (shown_of self.new shown.new ≡ shown_of self.old shown.old ++ datum value ∷ []) }
        ensures grown { OnOk result (self.new ≡ self.old ++ datum value ∷ []) }
        ensures full { IsFull result None shown.old }
        ensures indices { AreIndices self.new shown.new }
        ensures err { OnErr result ((self.new ≡ self.old) × (shown.new ≡ shown.old)) }
    {
        let handle = shown.len();
        if handle >= MOST_SHOWN {
            return Err(ShowErr::Full);
        }
        let word = object_tag(&value) + 2 * handle as u64 * 0x1_0000_0000;
        match self.append(shown, value) {
            Ok(()) => Ok(Val(word)),
            Err(_) => Err(ShowErr::NoMemory),
        }
    }
}

fn address_tag(address: ScAddress) -> u64
    ensures { result ≡ address_tag address }
{
    match address {
        ScAddress::Account(_) | ScAddress::Contract(_) => 77,
        ScAddress::MuxedAccount { .. } => 78,
        ScAddress::ClaimableBalance(_) | ScAddress::LiquidityPool(_) => 0,
    }
}

/// The tag of a value as an object, or 0 if its type has no objects.
pub fn object_tag(value: &ScVal) -> u64
    ensures { result ≡ object_tag (datum value.now) }
{
    match value {
        ScVal::U64(_) => 64,
        ScVal::I64(_) => 65,
        ScVal::Timepoint(_) => 66,
        ScVal::Duration(_) => 67,
        ScVal::U128(_) => 68,
        ScVal::I128(_) => 69,
        ScVal::Bytes(_) => 72,
        ScVal::String(_) => 73,
        ScVal::Symbol(_) => 74,
        ScVal::Vec(Some(_)) => 75,
        ScVal::Map(Some(_)) => 76,
        ScVal::Address(address) => address_tag(*address),
        _ => 0,
    }
}
