//! A map from lent keys.

ghost use Rattle.std.specs.Prelude.{◌≡◌, OnOk, OnErr};
ghost use Rattle.std.specs.Borrow.{Bor};
ghost use Rattle.std.specs.List.{AllByRecursion};
ghost use Rattle.std.specs.Map.Iter.{ShowsInOrder, deref_pair};
ghost use Rattle.std.specs.FinMap.{empty, get as get_in, insert as insert_in, entries as entries_of};
ghost use Rattle.ledger_types.specs.Key.{key_format};
ghost use Rattle.ledger_spec.specs.LedgerMap.{key_bytes};
ghost use Rattle.stage_plan.specs.KeyMaps.{IsSpelled, pairs_of};

use ledger_types::LedgerKey;
use std::alloc::Global;
use std::collections::BTreeMap;
use std::collections::btree_map::Iter;
use std::marker::Model;
use xdr_core::NoMemory;

/// Values at lent keys, sorted by the keys' XDR bytes. A look-up and a change take O(log n) comparisons of keys. Contracts see
/// it as a map from the keys' XDR bytes.
#[derive(Drop)]
pub struct KeyMap<'a, X> {
    map: BTreeMap<&'a LedgerKey, X>,
}

impl<'a, X> Model for KeyMap<'a, X> {
    ghost use Rattle.std.specs.FinMap.{code};
    ghost use Rattle.std.specs.Coded.{coded_list, coded_ℕ};
    ghost use Rattle.stage_plan.specs.KeyMaps.{ByKey, map_of, AreKeyed};

    ghost Value = { ByKey X };

    ghost coded = { code (coded_list coded_ℕ) X.code };

    ghost view = { λ t. map_of t.map.entries };

    ghost invariant = { λ t. AreKeyed t.map.entries };
}

impl<'a, X: Copy> KeyMap<'a, X> {
    /// Makes a map without keys.
    pub fn new(alloc: Global) -> KeyMap<'a, X>
        ensures { result ≡ empty }
    {
        KeyMap {
            map: BTreeMap::new(alloc),
        }
    }

    /// Iterates over the keys with their values, sorted by the keys' XDR bytes. It takes no memory.
    pub fn iter(&self) -> Iter<'_, &'a LedgerKey, X>
        ensures entries { pairs_of result ≡ entries_of self.now }
        ensures runs { ShowsInOrder (deref_pair {K = Bor LedgerKey} {X = X}) }
        ensures spelled { AllByRecursion IsSpelled result }
    {
        self.map.iter()
    }

    /// Returns the value at a key. It takes no memory.
    pub fn get(&self, key: &'a LedgerKey) -> Option<X>
        requires { key_format.fits key.now }
        ensures { result ≡ get_in self.now (key_bytes key.now) }
    {
        self.map.get(&key).copied()
    }

    /// Puts a value at a key. Only a new key takes memory.
    pub fn insert(&mut self, key: &'a LedgerKey, value: X) -> Result<(), NoMemory>
        requires { key_format.fits key.now }
        ensures ok { OnOk result (self.new ≡ insert_in self.old (key_bytes key.now) value) }
        ensures err { OnErr result (self.new ≡ self.old) }
    {
        let _old = self.map.insert(key, value)?;
        Ok(())
    }
}
