//! The codes that were found so far, by their hashes.

ghost use Rattle.std.specs.Prelude.{◌≡◌, ◌∷◌, [], All, IfNone, IfOk, IfSome, OnOk};
ghost use Rattle.std.specs.BTreeMap.{IsOrdered};
ghost use Rattle.std.specs.Cmp.Lexicographic.{slice_cmp};
ghost use Rattle.std.specs.Ordering.{nat_cmp};
ghost use Rattle.ledger_types.specs.Key.{key_format};
ghost use Rattle.ledger_types.specs.declared.key.LedgerKey.TheVariants as keys;
ghost use Rattle.code_cache.specs.Cached.{AreRising};
ghost use Rattle.stage_codes.specs.Found.{Adds, AddsOnly, AreFound, IsCodeIn, IsThere, IsWithout, KeepsHashes, codes_of};

use code_cache::Code;
use entry_lookup::Ground;
use ledger_types::{LedgerEntryData, LedgerKey};
use std::alloc::{AllocError, Global};
use std::collections::BTreeMap;
use value_types::Hash;
use xdr_core::NoMemory;

/// Codes by their hashes.
pub type Codes<'a> = BTreeMap<[u8; 32], &'a [u8]>;

/// Returns the code at a key, if the key is that of a code and the ground has its entry.
fn code_at<'a, G: Ground>(ground: &'a G, key: &LedgerKey) -> Option<Code<'a>>
    requires { key_format.fits key.now }
    ensures key { IfSome result (λ code. key.now ≡ keys.ContractCode code.hash) }
    ensures code { IfSome result (IsCodeIn (G.map ground.now)) }
    ensures none { IfNone result (IsWithout (G.map ground.now) key.now) }
{
    let LedgerKey::ContractCode(hash) = key else {
        return None;
    };
    let Some(found) = ground.find(key) else {
        return None;
    };
    match &found.entry.data {
        LedgerEntryData::ContractCode(entry) => Some(Code {
            hash: *hash,
            code: entry.code.as_slice(),
        }),
        LedgerEntryData::ContractData(_) => None,
    }
}

/// Adds the code at a key, if there is one.
fn add_code<'a, G: Ground>(
    ground: &'a G,
    codes: &mut Codes<'a>,
    key: &LedgerKey,
) -> Result<(), NoMemory>
    requires key { key_format.fits key.now }
    requires found { AreFound (G.map ground.now) codes.old.entries }
    ensures found { OnOk result (AreFound (G.map ground.now) codes.new.entries) }
    ensures keeps { OnOk result (KeepsHashes codes.old codes.new) }
    ensures there { OnOk result (IsThere (G.map ground.now) codes.new key.now) }
    ensures only { OnOk result (AddsOnly codes.old codes.new (key.now ∷ [])) }
{
    if let Some(code) = code_at(ground, key) {
        codes.insert(code.hash.0, code.code)?;
    }
    Ok(())
}

/// Adds the codes at keys.
pub(crate) fn add_codes<'a, G: Ground>(
    ground: &'a G,
    codes: &mut Codes<'a>,
    keys: &[LedgerKey],
) -> Result<(), NoMemory>
    requires keys { All key_format.fits keys.now }
    requires found { AreFound (G.map ground.now) codes.old.entries }
    ensures { OnOk result (Adds (G.map ground.now) codes.old codes.new keys.now) }
{
    for key in keys {
        add_code(ground, codes, key)?;
    }
    Ok(())
}

/// Lists codes as the map has them. The map has them in the order of their hashes.
fn listed<'a>(alloc: Global, codes: Codes<'a>) -> Result<Vec<Code<'a>>, AllocError>
    ensures same { IfOk result (λ list. list.items ≡ codes_of codes.entry.entries) }
    ensures ordered { IsOrdered (slice_cmp nat_cmp) codes.entry }
{
    codes
        .into_iter()
        .map(|(hash, code)| Code {
            hash: Hash(hash),
            code,
        })
        .collect(alloc)
}

/// Returns the codes in the order of their hashes.
pub fn in_order<'a>(alloc: Global, codes: Codes<'a>) -> Result<Vec<Code<'a>>, AllocError>
    ensures rising { IfOk result (λ list. AreRising list.items) }
    ensures same { IfOk result (λ list. list.items ≡ codes_of codes.entry.entries) }
{
    listed(alloc, codes)
}
