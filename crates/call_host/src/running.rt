//! The frame that runs, before and after its code does.

ghost use Rattle.std.specs.Prelude.{◌≡◌, length, IfOk, IfErr};
ghost use Rattle.value_types.specs.Views.{datum, datums};
ghost use Rattle.host_spec.specs.Hosted.{IsHosted};
ghost use Rattle.host_frame.specs.Made.{AreMade};
ghost use Rattle.object_store.specs.Shown.{shown_of, AreIndices};
ghost use Rattle.contract_storage.specs.Stored.{IsLater};
ghost use Rattle.call_spec.specs.World.{World, Env};
ghost use Rattle.call_spec.specs.Outcomes.{quiet, Says};
ghost use Rattle.host_ledger.specs.Traced.{leaving};
ghost use Rattle.call_spec.specs.Frames.{finished};
ghost use Rattle.host_ledger.specs.Worlds.{called_args, IsReady, IsHeld, Serves, copied};
ghost use Rattle.host_ledger.specs.Spelled.{IsKeySpelled};
ghost use Rattle.call_host.specs.Worlds.{DoesIn, RunsIn, MayRun};
ghost use Rattle.call_host.specs.Framed.{argument_words as argument_words_in};
ghost use Rattle.call_host.specs.Running.{IsFrameFor, StaysIn};
ghost use Rattle.host_spec.specs.declared.error.HostErr.TheVariants as ends;

use crate::frames::{argument_words, finish};
use crate::functions::{args_of, clone_bytes, function_of_values};
use crate::host::Host;
use auth_trees::Authority;
use call_parts::clone_copy;
use contract_storage::Watch;
use entry_lookup::Ground;
use host_ledger::{Frame, HostLedger, InstanceCopy, made_seq};
use host_spec::HostErr;
use module_loader::LinkedModule;
use object_store::Shown;
use std::alloc::Global;
use value_types::{Hash, ScVal};

/// Makes the frame of a call, before it runs. Takes memory linear in the name and the instance. Its only error is memory.
pub fn new_frame(
    alloc: Global,
    contract: Hash,
    caller: Option<Hash>,
    function: &[u8],
    args: Vec<ScVal>,
    copy: InstanceCopy,
    path: Vec<u64>,
) -> Result<Frame, HostErr>
    requires held { IsHeld copy.storage }
    requires made { AreMade (datums args.items) }
    ensures ok { IfOk result (λ f. IsFrameFor f contract caller function.now args.items copy path.items) }
    ensures memory { IfErr result (λ e. e ≡ ends.NoMemory) }
{
    match clone_bytes(alloc, function) {
        Err(error) => Err(error),
        Ok(name) => match clone_copy(&copy) {
            Err(error) => Err(error),
            Ok(first) => match function_of_values(contract, name, args) {
                Err(error) => Err(error),
                Ok(function) => Ok(Frame {
                    contract,
                    caller,
                    function,
                    code: copy.code,
                    first,
                    copy,
                    shown: Shown::new(alloc),
                    path,
                    begun: 0,
                }),
            },
        },
    }
}

/// Charges for a run of a module's function in the ledger's running frame, and shows its arguments. Returns their words.
fn begin_in<G: Ground, W: Watch>(
    ledger: &mut HostLedger<'_, G, W>,
    module: &LinkedModule,
) -> Result<Vec<u64>, HostErr>
    requires made { AreMade (called_args ledger.old.frame.function) }
    requires ready { IsReady ledger.old }
    ensures does { (w : World) → w.frame.shown ≡ shown_of ledger.old.objects ledger.old.frame.shown → w.meter ≡ ledger.old.budget
        → Says result (λ words. words.items) (argument_words_in «module».now.memories (called_args ledger.old.frame.function) w)
        (quiet w (λ trace. record w {
          frame = record w.frame { shown = shown_of ledger.new.objects ledger.new.frame.shown };
          trace = trace;
          meter = ledger.new.budget;
        })) }
    ensures count { IfOk result (λ words. length words.items ≡ length (called_args ledger.old.frame.function)) }
    ensures indices { AreIndices ledger.new.objects ledger.new.frame.shown }
    ensures stays { ledger.new
        ≡ record ledger.old {
          objects = ledger.new.objects;
          frame = record ledger.old.frame { shown = ledger.new.frame.shown };
          budget = ledger.new.budget;
        } }
    ensures key { IfErr result IsKeySpelled }
{
    argument_words(
        &mut ledger.objects,
        &mut ledger.frame.shown,
        &mut ledger.budget,
        module.valid().module(),
        args_of(&ledger.frame.function),
    )
}

/// Charges for the run of the frame's function, and shows its arguments. Returns their words.
pub fn begin<G: Ground, A: Authority, W: Watch>(
    host: &mut Host<'_, G, A, W>,
    module: &LinkedModule,
) -> Result<Vec<u64>, HostErr>
    requires ready { MayRun host.old }
    requires made { AreMade (called_args host.old.ledger.frame.function) }
    ensures does { DoesIn result (λ words. words.items)
        (λ env. argument_words_in «module».now.memories (called_args host.old.ledger.frame.function)) host.old host.new }
    ensures count { IfOk result (λ words. length words.items ≡ length (called_args host.old.ledger.frame.function)) }
    ensures stays { StaysIn host.old host.new }
    ensures key { IfErr result IsKeySpelled }
{
    begin_in(&mut host.ledger, module)
}

/// The number of the ledger that is made.
fn made_in<G: Ground, W: Watch>(ledger: &HostLedger<'_, G, W>) -> u32
    requires { IsReady ledger.now }
    ensures { result ≡ ledger.now.storage.n }
{
    made_seq(ledger.header)
}

/// Ends the ledger's running frame, whose code returned a word.
fn end_in<G: Ground, W: Watch>(
    ledger: &mut HostLedger<'_, G, W>,
    word: u64,
) -> Result<ScVal, HostErr>
    requires ready { IsReady ledger.old }
    ensures does { (env : Env) → Serves env ledger.old.storage → (w : World) → w.entries ≡ ledger.old.storage.map
        → w.meter ≡ ledger.old.budget
        → w.frame.shown ≡ shown_of ledger.old.objects ledger.old.frame.shown → w.frame.contract ≡ ledger.old.frame.contract
        → w.frame.first ≡ copied ledger.old.frame.first → w.frame.copy ≡ copied ledger.old.frame.copy
        → Says result datum (finished env word w)
        (leaving ledger.old.storage ledger.new.storage w.trace
        (λ trace. record w { entries = ledger.new.storage.map; trace = trace; meter = ledger.new.budget })) }
    ensures hosted { IfOk result (λ value. IsHosted (datum value)) }
    ensures later { IsLater ledger.old.storage ledger.new.storage }
    ensures stays { ledger.new ≡ record ledger.old { storage = ledger.new.storage; budget = ledger.new.budget } }
    ensures key { IfErr result IsKeySpelled }
{
    let n = made_in(ledger);
    finish(
        &mut ledger.storage,
        &mut ledger.budget,
        n,
        &ledger.objects,
        &ledger.frame,
        word,
    )
}

/// Ends the running frame, whose code returned a word: returns the value that the word means, and writes the instance if it
/// has changed.
pub fn end<G: Ground, A: Authority, W: Watch>(
    host: &mut Host<'_, G, A, W>,
    word: u64,
) -> Result<ScVal, HostErr>
    requires ready { MayRun host.old }
    ensures does { RunsIn result datum (λ env. finished env word) host.old host.new }
    ensures hosted { IfOk result (λ value. IsHosted (datum value)) }
    ensures stays { StaysIn host.old host.new }
    ensures key { IfErr result IsKeySpelled }
{
    end_in(&mut host.ledger, word)
}
