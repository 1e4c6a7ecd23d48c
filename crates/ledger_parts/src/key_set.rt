//! A set of ledger keys.

ghost use Rattle.std.specs.Prelude.{◌≡◌, ◌||◌, List, ℕ, [], OnOk};
ghost use Rattle.std.specs.Str.{bytes_eq};
ghost use Rattle.ledger_types.specs.Key.{key_format};
ghost use Rattle.ledger_types.specs.KeyOrder.{ranked_key};
ghost use Rattle.ledger_spec.specs.LedgerMap.{key_bytes};
ghost use Rattle.ledger_parts.specs.Shown.{is_read};

use ledger_types::LedgerKey;
use std::alloc::Global;
use std::collections::BTreeMap;
use std::marker::Model;
use xdr_core::NoMemory;

/// Keys of ledger entries, sorted by their XDR bytes, each once. A look-up takes O(log n) comparisons of keys and no memory.
/// Contracts see the list of the keys.
#[derive(Drop)]
pub struct KeySet {
    keys: BTreeMap<LedgerKey, ()>,
}

impl Model for KeySet {
    ghost use Rattle.std.specs.Prelude.{List};
    ghost use Rattle.std.specs.Coded.{coded_list};
    ghost use Rattle.std.specs.Map.{keys_of};
    ghost use Rattle.ledger_types.specs.contracts.key.LedgerKey as key;
    ghost use Rattle.ledger_types.specs.declared.key.LedgerKey.{LedgerKey as KeyData};

    ghost Value = { List KeyData };

    ghost coded = { coded_list key.the_row.coded };

    ghost view = { λ s. keys_of s.keys.entries };
}

impl KeySet {
    /// Makes a set without keys.
    pub fn new(alloc: Global) -> KeySet
        ensures { result ≡ [] }
    {
        KeySet {
            keys: BTreeMap::new(alloc),
        }
    }

    /// Whether a key is in the set. It takes no memory.
    pub fn has(&self, key: &LedgerKey) -> bool
        requires { key_format.fits key.now }
        ensures { result ≡ is_read self.now (key_bytes key.now) }
    {
        self.keys.contains_key(key)
    }

    /// Adds a copy of a key, unless the key is there already.
    pub fn add(&mut self, key: &LedgerKey) -> Result<(), NoMemory>
        ensures { OnOk result ((bytes : List ℕ)
            → is_read self.new bytes ≡ is_read self.old bytes || bytes_eq bytes (ranked_key key.now)) }
    {
        if self.keys.contains_key(key) {
            return Ok(());
        }
        let key = key.clone()?;
        let _old = self.keys.insert(key, ())?;
        Ok(())
    }

    /// Adds copies of keys.
    pub fn add_all(&mut self, keys: &[LedgerKey]) -> Result<(), NoMemory>
        ensures { OnOk result ((bytes : List ℕ) → is_read self.new bytes ≡ is_read self.old bytes || is_read keys.now bytes) }
    {
        for key in keys {
            self.add(key)?;
        }
        Ok(())
    }
}
