//! Host functions that open no frame.

ghost use Rattle.std.specs.Prelude.{◌≡◌, ◌≤◌, ◌<◌, ◌^◌, List, [], ◌∷◌, true, is_some, length, IfOk, IfErr};
ghost use Rattle.std.specs.Option.{option_map};
ghost use Rattle.value_types.specs.Datum.{Datum, bytes};
ghost use Rattle.host_interface.specs.declared.kinds.ArgKind.TheVariants as kinds;
ghost use Rattle.host_spec.specs.Indices.{arguments_of};
ghost use Rattle.host_spec.specs.Answers.{Answer as AnswerData, value, given};
ghost use Rattle.host_spec.specs.ValueFunctions.{value_rule};
ghost use Rattle.host_spec.specs.declared.error.HostErr.TheVariants as ends;
ghost use Rattle.object_store.specs.Shown.{shown_of, AreIndices};
ghost use Rattle.contract_storage.specs.Stored.{IsLater, HasBounds};
ghost use Rattle.host_frame.specs.Answered.{answer_of};
ghost use Rattle.host_frame.specs.Made.{IsAnswerMade, IsMemory};
ghost use Rattle.call_spec.specs.World.{Access, Copied, World, Env, next_seq};
ghost use Rattle.call_spec.specs.Acts.{Act, after, lift};
ghost use Rattle.call_spec.specs.Creating.{uploads, upload_wasm};
ghost use Rattle.call_spec.specs.Frames.{Opener};
ghost use Rattle.call_spec.specs.HostFunctions.{host_function};
ghost use Rattle.call_spec.specs.Outcomes.{Says, quiet};
ghost use Rattle.host_ledger.specs.Traced.{leaving};
ghost use Rattle.call_spec.specs.Rules.{answered, returning};
ghost use Rattle.host_ledger.specs.Accessed.{Runs};
ghost use Rattle.host_ledger.specs.Answered.{Answers, IsMadeIfOk};
ghost use Rattle.host_ledger.specs.Called.{is_over_ledger};
ghost use Rattle.host_ledger.specs.Worlds.{address_of, world_at, IsReady};
ghost use Rattle.host_ledger.specs.Spelled.{IsKeySpelled};
ghost use Rattle.host_values.specs.Called.{IsValueCall};
ghost use Rattle.call_parts.specs.Steps.{Steps};
ghost use Rattle.call_host.specs.Worlds.{with_memory, DoesIn, MayRun};
ghost use Rattle.call_host.specs.Running.{DoesOver, StaysIn};

use auth_trees::Authority;
use budget_meter::Budget;
use call_host::Host;
use call_parts::upload;
use contract_storage::{Storage, Watch};
use entry_lookup::Ground;
use host_frame::{Answer, Values, enter, give};
use host_interface::HostImport;
use host_ledger::{HostLedger, made_seq};
use host_spec::HostErr;
use host_values::call_function;
use ledger_types::Header;
use std::alloc::Global;
use value_types::Hash;

/// Calls a function over values, over the ledger's state.
fn value_in<G: Ground, W: Watch>(
    ledger: &mut HostLedger<'_, G, W>,
    import: HostImport,
    words: &[u64],
    memory: &mut [u8],
) -> Result<u64, HostErr>
    requires call { IsValueCall «import» words.now }
    requires indices { AreIndices ledger.old.objects ledger.old.frame.shown }
    requires memory { IsMemory memory.old }
    ensures does { (env : Env) (opener : Opener) (rest : World) (trace : List Access) → rest.frame.memory ≡ memory.old
        → Says result (λ word. word) (host_function env opener «import» words.now (world_at rest ledger.old trace))
        (leaving ledger.old.storage ledger.new.storage trace (world_at (with_memory memory.new rest) ledger.new)) }
    ensures indices { AreIndices ledger.new.objects ledger.new.frame.shown }
    ensures kept { ledger.new
        ≡ record ledger.old {
          objects = ledger.new.objects;
          budget = ledger.new.budget;
          frame = record ledger.old.frame { shown = ledger.new.frame.shown };
        } }
    ensures key { IfErr result IsKeySpelled }
{
    match call_function(
        &mut ledger.objects,
        &mut ledger.frame.shown,
        memory,
        &mut ledger.budget,
        import,
        words,
    ) {
        Ok(word) => Ok(word),
        Err(error) => Err(HostErr::from(error)),
    }
}

/// Calls a function over values.
pub(crate) fn value_answer<G: Ground, A: Authority, W: Watch>(
    host: &mut Host<'_, G, A, W>,
    import: HostImport,
    words: &[u64],
    memory: &mut [u8],
) -> Result<u64, HostErr>
    requires ready { MayRun host.old }
    requires over_values { is_some (value_rule «import») ≡ true }
    requires arity { length words.now ≡ length (arguments_of «import») }
    requires memory { IsMemory memory.old }
    ensures does { (opener : Opener) → DoesOver memory.old memory.new result (λ word. word)
        (λ env. host_function env opener «import» words.now) host.old host.new }
    ensures stays { StaysIn host.old host.new }
    ensures key { IfErr result IsKeySpelled }
{
    value_in(&mut host.ledger, import, words, memory)
}

/// Calls a function over the ledger and the running frame.
pub(crate) fn ledger_answer<G: Ground, A: Authority, W: Watch>(
    host: &mut Host<'_, G, A, W>,
    import: HostImport,
    words: &[u64],
) -> Result<u64, HostErr>
    requires ready { MayRun host.old }
    requires over_ledger { is_over_ledger «import» ≡ true }
    requires arity { length words.now ≡ length (arguments_of «import») }
    ensures does { (opener : Opener) → DoesIn result (λ word. word)
        (λ env. host_function env opener «import» words.now) host.old host.new }
    ensures stays { StaysIn host.old host.new }
    ensures key { IfErr result IsKeySpelled }
{
    host_ledger::call_function(&mut host.ledger, import, words)
}

/// Shows an answer in the running frame.
fn show<G: Ground, W: Watch>(
    ledger: &mut HostLedger<'_, G, W>,
    answer: Answer,
) -> Result<u64, HostErr>
    requires made { IsAnswerMade (answer_of answer) }
    requires indices { AreIndices ledger.old.objects ledger.old.frame.shown }
    ensures does { (rest : World) (trace : List Access)
        → Says result (λ word. word) (lift (given (answer_of answer)) (world_at rest ledger.old trace))
        (quiet (world_at rest ledger.old trace) (world_at rest ledger.new)) }
    ensures indices { AreIndices ledger.new.objects ledger.new.frame.shown }
    ensures kept { ledger.new
        ≡ record ledger.old {
          objects = ledger.new.objects;
          budget = ledger.new.budget;
          frame = record ledger.old.frame { shown = ledger.new.frame.shown };
        } }
    ensures key { IfErr result IsKeySpelled }
{
    let word = give(
        &mut ledger.objects,
        &mut ledger.frame.shown,
        &mut ledger.budget,
        answer,
    )?;
    Ok(word)
}

/// Shows what a host function returns.
pub(crate) fn shown<G: Ground, A: Authority, W: Watch>(
    host: &mut Host<'_, G, A, W>,
    made: Result<Answer, HostErr>,
) -> Result<u64, HostErr>
    requires ready { MayRun host.old }
    requires made { IsMadeIfOk made }
    ensures does { (start : Host G A W) (act : Env → Act AnswerData) → StaysIn start host.old
        → DoesIn made answer_of act start host.old
        → DoesIn result (λ word. word) (λ env. after (act env) (λ answer. lift (given answer))) start host.new }
    ensures stays { StaysIn host.old host.new }
    ensures key { IfErr made IsKeySpelled → IfErr result IsKeySpelled }
{
    match made {
        Err(error) => Err(error),
        Ok(answer) => show(&mut host.ledger, answer),
    }
}

/// A hash as an answer. Its only error is memory.
fn hash_answer(alloc: Global, hash: Hash) -> Result<Answer, HostErr>
    ensures value { IfOk result (λ a. answer_of a ≡ value (bytes hash.0)) }
    ensures made { IsMadeIfOk result }
    ensures memory { IfErr result (λ e. e ≡ ends.NoMemory) }
{
    match hash.0.to_vec(alloc) {
        Ok(content) => Ok(Answer::bytes(content)),
        Err(_) => Err(HostErr::NoMemory),
    }
}

/// Uploads a code in ledger `n`, and returns its hash as an answer.
fn uploaded<G: Ground, W: Watch>(
    alloc: Global,
    storage: &mut Storage<'_, G, W>,
    budget: &mut Budget,
    n: u32,
    code: &[u8],
) -> Result<Answer, HostErr>
    requires few { length code.now < 2 ^ 32 }
    requires number { storage.old.n ≡ n }
    ensures does { Steps result answer_of
        (λ env. returning (uploads env code.now) (λ hash. bytes hash.0)) storage.old storage.new budget.old budget.new }
    ensures made { IsMadeIfOk result }
    ensures later { IsLater storage.old storage.new }
    ensures key { IfErr result IsKeySpelled }
{
    match upload(alloc, storage, budget, n, code) {
        Err(error) => Err(error),
        Ok(hash) => hash_answer(alloc, hash),
    }
}

/// The body of `upload_wasm`.
#[tactic(auto, using(crate::proofs::Answering::few_bytes))]
fn upload_body<G: Ground, W: Watch>(
    storage: &mut Storage<'_, G, W>,
    budget: &mut Budget,
    values: &Values<'_>,
    n: u32,
    a: u64,
) -> Result<Answer, HostErr>
    requires { storage.old.n ≡ n }
    ensures does { (contract : Hash) (copy : Copied)
        → Runs result (kinds.Bytes ∷ []) upload_wasm
        (a ∷ []) values.now contract storage.old storage.new budget.old budget.new copy copy }
    ensures made { IsMadeIfOk result }
    ensures later { IsLater storage.old storage.new }
    ensures key { IfErr result IsKeySpelled }
{
    let code = values.bytes(a)?;
    enter(budget, &[a])?;
    uploaded(values.allocator(), storage, budget, n, code)
}

/// `upload_wasm` over the ledger's state.
fn upload_in<G: Ground, W: Watch>(
    ledger: &mut HostLedger<'_, G, W>,
    a: u64,
) -> Result<Answer, HostErr>
    requires { IsReady ledger.old }
    ensures does { Answers result (kinds.Bytes ∷ []) upload_wasm (a ∷ []) ledger.old ledger.new }
    ensures key { IfErr result IsKeySpelled }
{
    let n = made_seq(ledger.header);
    let values = Values::new(&ledger.objects, &ledger.frame.shown);
    upload_body(&mut ledger.storage, &mut ledger.budget, &values, n, a)
}

/// `upload_wasm`: the hash of a code.
pub(crate) fn upload_row<G: Ground, A: Authority, W: Watch>(
    host: &mut Host<'_, G, A, W>,
    words: &[u64],
) -> Result<Answer, HostErr>
    requires ready { MayRun host.old }
    requires arity { length words.now ≡ 1 }
    ensures does { DoesIn result answer_of (λ env. answered (kinds.Bytes ∷ []) (upload_wasm env) words.now) host.old host.new }
    ensures made { IsMadeIfOk result }
    ensures stays { StaysIn host.old host.new }
    ensures key { IfErr result IsKeySpelled }
{
    match words {
        [a] => upload_in(&mut host.ledger, *a),
        _ => unreachable!(),
    }
}
