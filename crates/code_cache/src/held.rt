//! A module that is borrowed from a cache, or owned.

ghost use Rattle.std.specs.Prelude.{◌≡◌, ◌<◌, IfOk, vec_len};
ghost use Rattle.module_spec.specs.Loading.{module_of};

use crate::cache::{Cache, Got};
use crate::loaded::Loaded;
use module_loader::LinkedModule;
use std::alloc::{AllocError, Global};
use std::marker::Model;
use value_types::Hash;

#[derive(Drop)]
pub(crate) enum Holder<'c> {
    Lent(&'c LinkedModule),
    Own(LinkedModule),
}

/// A module that is borrowed from a cache, or owned. Contracts see the module.
#[derive(Drop)]
pub struct HeldModule<'c> {
    held: Holder<'c>,
}

impl<'c> Model for HeldModule<'c> {
    ghost use Rattle.wasm_spec.specs.declared.module.Module.{Module};
    ghost use Rattle.wasm_spec.specs.contracts.module.Module as modules;
    ghost use Rattle.code_cache.specs.Held.{module_in};

    ghost Value = { Module };

    ghost coded = { modules.the_row.coded };

    ghost view = { λ m. module_in m.held };
}

impl<'c> HeldModule<'c> {
    /// Holds a module that a cache has.
    pub fn lent(module: &'c LinkedModule) -> HeldModule<'c>
        ensures { result ≡ «module».now }
    {
        HeldModule {
            held: Holder::Lent(module),
        }
    }

    /// Holds a module of its own.
    pub fn own(module: LinkedModule) -> HeldModule<'c>
        ensures { result ≡ «module» }
    {
        HeldModule {
            held: Holder::Own(module),
        }
    }

    /// Returns the module.
    pub fn linked(&self) -> &LinkedModule
        ensures { result.now ≡ self.now }
    {
        match &self.held {
            Holder::Lent(module) => module,
            Holder::Own(module) => module,
        }
    }
}

/// Returns the module of a code that a cache has, if there is one.
fn lent_of<'c>(loaded: &'c Loaded) -> Option<HeldModule<'c>>
    ensures { module_of loaded.now.code ≡ result }
{
    match &loaded.module {
        Some(module) => Some(HeldModule::lent(module)),
        None => None,
    }
}

/// Returns the module of a code that was loaded, if there is one.
fn own_of<'c>(loaded: Loaded) -> Option<HeldModule<'c>>
    ensures { module_of loaded.code ≡ result }
{
    let Loaded {
        code: _code,
        module,
    } = loaded;
    match module {
        Some(module) => Some(HeldModule::own(module)),
        None => None,
    }
}

/// Loads the module of a code.
fn made_of<'c>(alloc: Global, code: &[u8]) -> Result<Option<HeldModule<'c>>, AllocError>
    ensures { IfOk result (λ m. module_of code.now ≡ m) }
{
    let loaded = Loaded::of(alloc, code)?;
    Ok(own_of(loaded))
}

/// Returns the module of a code: that of the slot, if the slot's code is this one, and otherwise its own.
fn module_at<'c>(
    alloc: Global,
    cache: &'c Cache<'c>,
    slot: usize,
    code: &[u8],
) -> Result<Option<HeldModule<'c>>, AllocError>
    requires { slot < vec_len cache.now.codes }
    ensures { IfOk result (λ m. module_of code.now ≡ m) }
{
    match cache.find(alloc, slot)? {
        Got::Shared(loaded) => {
            if loaded.code.as_slice() == code {
                Ok(lent_of(loaded))
            } else {
                made_of(alloc, code)
            }
        }
        Got::Made { mine, other: _ } => {
            if mine.code.as_slice() == code {
                Ok(own_of(mine))
            } else {
                made_of(alloc, code)
            }
        }
    }
}

/// Returns the valid, linked module that a code encodes, if it encodes one. If the cache has the code, its module is borrowed
/// from there.
///
/// `hash` is where the cache is asked for the code. The result does not depend on it, nor on the cache.
pub fn module_for<'c>(
    alloc: Global,
    codes: Option<&'c Cache<'c>>,
    hash: &Hash,
    code: &[u8],
) -> Result<Option<HeldModule<'c>>, AllocError>
    ensures { IfOk result (λ m. module_of code.now ≡ m) }
{
    let Some(cache) = codes else {
        return made_of(alloc, code);
    };
    match cache.slot_of(hash) {
        Some(slot) => module_at(alloc, cache, slot, code),
        None => made_of(alloc, code),
    }
}
