//! The frame's copy of the instance.

ghost use Rattle.std.specs.Prelude.{◌≡◌, None, IfOk, IfErr, IfSome, MatchOption, Some};
ghost use Rattle.value_types.specs.Views.{datum};
ghost use Rattle.host_spec.specs.Hosted.{IsMade};
ghost use Rattle.host_spec.specs.MapRows.{value_at as value_in};
ghost use Rattle.host_spec.specs.declared.error.ValueErr.TheVariants as errs;
ghost use Rattle.host_frame.specs.Answered.{answer_of};
ghost use Rattle.call_spec.specs.World.{World};
ghost use Rattle.call_spec.specs.Outcomes.{quiet, Says};
ghost use Rattle.call_spec.specs.Storage.{members, get_in_copy, storage_without};
ghost use Rattle.host_ledger.specs.Worlds.{IsHeld, copied};
ghost use Rattle.host_acts.specs.Answered.{IsMadeIfOk};
ghost use Rattle.host_ledger.specs.Storing.{PutsInCopy};
ghost use Rattle.host_acts.specs.Spelled.{IsKeySpelled};

use crate::errors::TOO_LARGE;
use crate::state::InstanceCopy;
use host_acts::{NO_ENTRY, clone_value};
use host_frame::Answer;
use host_spec::{HostErr, ValueErr};
use instance_storage::Unput;
use std::alloc::Global;
use value_types::{Entry, ScVal};

/// The value of a key in instance storage.
pub(crate) fn in_copy<'a>(copy: &'a InstanceCopy, key: &ScVal) -> Option<&'a ScVal>
    requires { IsHeld copy.now.storage }
    ensures found { MatchOption result (value_in (datum key.now) (members copy.now.storage) ≡ None)
        (λ v. value_in (datum key.now) (members copy.now.storage) ≡ Some (datum v.now)) }
    ensures made { IfSome result (λ v. IsMade (datum v.now)) }
{
    copy.storage.get(key)
}

/// The value of a key in instance storage, as an answer.
pub(crate) fn get_in_copy(copy: &InstanceCopy, key: &ScVal) -> Result<Answer, HostErr>
    requires { IsHeld copy.now.storage }
    ensures does { (w : World) → w.frame.copy ≡ copied copy.now
        → Says result answer_of (get_in_copy (datum key.now) w) (quiet w (λ trace. record w { trace = trace })) }
    ensures made { IsMadeIfOk result }
    ensures key { IfErr result IsKeySpelled }
{
    match in_copy(copy, key) {
        None => Err(NO_ENTRY),
        Some(value) => Ok(Answer::value(clone_value(value)?)),
    }
}

/// An entry with clones of a key and a value.
fn entry_of(key: &ScVal, val: &ScVal) -> Result<Entry, ValueErr>
    ensures key { IfOk result (λ e. e.key ≡ key.now) }
    ensures val { IfOk result (λ e. e.val ≡ val.now) }
    ensures memory { IfErr result (λ e. e ≡ errs.NoMemory) }
{
    let key = clone_value(key)?;
    let val = clone_value(val)?;
    Ok(Entry { key, val })
}

/// Puts an entry into instance storage, unless the instance would be too large or too deep.
fn put_entry(copy: &mut InstanceCopy, alloc: Global, entry: Entry) -> Result<Answer, HostErr>
    requires held { IsHeld copy.old.storage }
    requires key { IsMade (datum entry.key) }
    requires val { IsMade (datum entry.val) }
    ensures does { PutsInCopy result (datum entry.key) (datum entry.val) (copied copy.old) (copied copy.new) }
    ensures made { IsMadeIfOk result }
    ensures held { IsHeld copy.new.storage }
    ensures key { IfErr result IsKeySpelled }
{
    match copy.storage.put(alloc, copy.code, entry) {
        Ok(()) => Ok(Answer::void()),
        Err(Unput::TooLarge) => Err(TOO_LARGE),
        Err(Unput::NoMemory) => Err(HostErr::NoMemory),
    }
}

/// Puts a value at a key of instance storage, unless the instance would be too large or too deep.
pub(crate) fn put_in_copy(
    copy: &mut InstanceCopy,
    alloc: Global,
    key: &ScVal,
    val: &ScVal,
) -> Result<Answer, HostErr>
    requires held { IsHeld copy.old.storage }
    requires key { IsMade (datum key.now) }
    requires val { IsMade (datum val.now) }
    ensures does { PutsInCopy result (datum key.now) (datum val.now) (copied copy.old) (copied copy.new) }
    ensures made { IsMadeIfOk result }
    ensures held { IsHeld copy.new.storage }
    ensures key { IfErr result IsKeySpelled }
{
    let entry = entry_of(key, val)?;
    put_entry(copy, alloc, entry)
}

/// Deletes a key's entry from instance storage. It takes no memory.
pub(crate) fn del_in_copy(copy: &mut InstanceCopy, key: &ScVal)
    requires { IsHeld copy.old.storage }
    ensures does { copied copy.new ≡ record { code = copy.old.code; storage = storage_without (datum key.now) copy.old.storage } }
    ensures held { IsHeld copy.new.storage }
{
    copy.storage.delete(key);
}
