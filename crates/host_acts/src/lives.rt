//! The lives of a contract's instance and of its code.

ghost use Rattle.std.specs.Prelude.{◌≡◌, nat_lt, false, IfErr};
ghost use Rattle.host_frame.specs.Answered.{answer_of};
ghost use Rattle.contract_storage.specs.Stored.{IsLater};
ghost use Rattle.call_spec.specs.World.{World, Env};
ghost use Rattle.call_spec.specs.Acts.{after, with_frame};
ghost use Rattle.call_spec.specs.Keys.{instance_key as instance_key_of, code_key as code_key_of};
ghost use Rattle.call_spec.specs.Outcomes.{Says};
ghost use Rattle.host_acts.specs.Traced.{leaving};
ghost use Rattle.call_spec.specs.Storage.{extending, unless_backward};
ghost use Rattle.host_acts.specs.Served.{Serves};
ghost use Rattle.host_acts.specs.Answered.{IsMadeIfOk};
ghost use Rattle.host_acts.specs.Accessed.{Accesses};
ghost use Rattle.host_acts.specs.Spelled.{IsKeySpelled};

use crate::accesses::{extend, is_backward};
use crate::errors::INVALID_STORAGE_INPUT;
use crate::keys::{code_key, instance_key};
use contract_storage::{Storage, Watch};
use entry_lookup::Ground;
use host_frame::Answer;
use host_spec::HostErr;
use value_types::Hash;

/// Extends the life of a contract's instance, then that of a code.
fn extend_both<G: Ground, W: Watch>(
    storage: &mut Storage<'_, G, W>,
    contract: Hash,
    code: Hash,
    threshold: u32,
    extend_to: u32,
) -> Result<Answer, HostErr>
    requires unless_backward { nat_lt extend_to threshold ≡ false }
    ensures does { Accesses result answer_of
        (λ env. after (extending env (instance_key_of contract) threshold extend_to)
        (λ _. extending env (code_key_of code) threshold extend_to)) storage.old storage.new }
    ensures made { IsMadeIfOk result }
    ensures later { IsLater storage.old storage.new }
    ensures key { IfErr result IsKeySpelled }
{
    match extend(storage, instance_key(contract), threshold, extend_to) {
        Ok(_) => extend(storage, code_key(code), threshold, extend_to),
        Err(error) => Err(error),
    }
}

/// Extends the life of a contract's instance, then that of a code, unless the threshold is above the number of ledgers that is
/// asked for.
pub fn extend_lives<G: Ground, W: Watch>(
    storage: &mut Storage<'_, G, W>,
    contract: Hash,
    code: Hash,
    threshold: u32,
    extend_to: u32,
) -> Result<Answer, HostErr>
    ensures does { (env : Env) → Serves env storage.old → (w : World) → w.entries ≡ storage.old.map → w.frame.contract ≡ contract
        → w.frame.code ≡ code
        → Says result answer_of (unless_backward threshold extend_to (with_frame (λ frame.
        after (extending env (instance_key_of frame.contract) threshold extend_to)
        (λ _. extending env (code_key_of frame.code) threshold extend_to))) w)
        (leaving storage.old storage.new w.trace (λ trace. record w { entries = storage.new.map; trace = trace })) }
    ensures made { IsMadeIfOk result }
    ensures later { IsLater storage.old storage.new }
    ensures key { IfErr result IsKeySpelled }
{
    if is_backward(threshold, extend_to) {
        return Err(INVALID_STORAGE_INPUT);
    }
    extend_both(storage, contract, code, threshold, extend_to)
}
