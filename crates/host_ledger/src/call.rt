//! Calls by the function of the host interface, or by its module and its name.

ghost use Rattle.std.specs.Prelude.{ℕ, List, IfErr};
ghost use Rattle.object_store.specs.Shown.{AreIndices};
ghost use Rattle.host_spec.specs.Answers.{given};
ghost use Rattle.host_frame.specs.Answered.{answer_of};
ghost use Rattle.host_frame.specs.Made.{IsAnswerMade};
ghost use Rattle.call_spec.specs.World.{Access, World};
ghost use Rattle.call_spec.specs.Acts.{lift};
ghost use Rattle.call_spec.specs.Outcomes.{Says, quiet};
ghost use Rattle.host_ledger.specs.Worlds.{world_at, IsReady, Shows};
ghost use Rattle.host_interface.specs.Named.{import_named};
ghost use Rattle.host_ledger.specs.Called.{IsLedgerCall, Calls, IsNamedCall, CallsNamed};
ghost use Rattle.host_ledger.specs.Rows.{AnswersRow};
ghost use Rattle.host_acts.specs.Spelled.{IsKeySpelled};

use crate::groups::{four_words, one_word, three_words, two_words, without_words};
use crate::state::HostLedger;
use contract_storage::Watch;
use entry_lookup::Ground;
use host_frame::{Answer, give};
use host_interface::{HostImport, import_named};
use host_spec::HostErr;

/// Returns what a function answers.
#[tactic(auto, using(crate::proofs::Grouping::group_words, crate::proofs::Grouping::no_more))]
fn answer<G: Ground, W: Watch>(
    host: &mut HostLedger<'_, G, W>,
    import: HostImport,
    words: &[u64],
) -> Result<Answer, HostErr>
    requires call { IsLedgerCall «import» words.now }
    requires ready { IsReady host.old }
    ensures does { AnswersRow result «import» words.now host.old host.new }
    ensures key { IfErr result IsKeySpelled }
{
    match words {
        [] => without_words(host, import),
        [a] => one_word(host, import, *a),
        [a, b] => two_words(host, import, *a, *b),
        [a, b, c] => three_words(host, import, *a, *b, *c),
        [a, b, c, d] => four_words(host, import, *a, *b, *c, *d),
        _ => unreachable!(),
    }
}

/// Shows an answer in the running frame.
fn show<G: Ground, W: Watch>(
    host: &mut HostLedger<'_, G, W>,
    answer: Answer,
) -> Result<u64, HostErr>
    requires made { IsAnswerMade (answer_of answer) }
    requires indices { AreIndices host.old.objects host.old.frame.shown }
    ensures does { (rest : World) (trace : List Access)
        → Says result (λ n. n) (lift (given (answer_of answer)) (world_at rest host.old trace))
        (quiet (world_at rest host.old trace) (world_at rest host.new)) }
    ensures indices { AreIndices host.new.objects host.new.frame.shown }
    ensures shows { Shows host.old host.new }
    ensures key { IfErr result IsKeySpelled }
{
    let word = give(
        &mut host.objects,
        &mut host.frame.shown,
        &mut host.budget,
        answer,
    )?;
    Ok(word)
}

/// Calls a function over the ledger and the running frame. It charges the budget and shows what it returns, as the function's row
/// of the host interface says. If memory runs out, the state is to be dropped.
pub fn call_function<G: Ground, W: Watch>(
    host: &mut HostLedger<'_, G, W>,
    import: HostImport,
    words: &[u64],
) -> Result<u64, HostErr>
    requires call { IsLedgerCall «import» words.now }
    requires ready { IsReady host.old }
    ensures does { Calls result «import» words.now host.old host.new }
    ensures key { IfErr result IsKeySpelled }
{
    match answer(host, import, words) {
        Ok(answer) => show(host, answer),
        Err(error) => Err(error),
    }
}

/// Calls the function with this module and this name, as `call_function` does. It searches the table: a caller that has the
/// function itself uses `call_function`.
pub fn ledger_call<G: Ground, W: Watch>(
    host: &mut HostLedger<'_, G, W>,
    module: &[u8],
    name: &[u8],
    args: &[u64],
) -> Result<u64, HostErr>
    requires call { IsNamedCall (import_named «module».now name.now) args.now }
    requires ready { IsReady host.old }
    ensures does { CallsNamed result (import_named «module».now name.now) args.now host.old host.new }
    ensures key { IfErr result IsKeySpelled }
{
    let Some(import) = import_named(module, name) else {
        unreachable!();
    };
    call_function(host, import, args)
}
