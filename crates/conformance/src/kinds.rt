//! The kinds of cases.

ghost use denote.Param.Send.{IsSync};

use crate::host::Prepared;
use crate::{
    applying, bench, budgets, hashes, host, imports, ledgers, modules, orders, spellings, texts,
};
use case_text::{Case, CaseErr, Fragments, Judge};
use std::alloc::Global;
use std::rt::Runtime;
use std::thread::Threads;

/// The kinds of cases below the command, and what lines prepared for calls of functions of the host.
#[derive(Drop)]
pub struct Kinds {
    prepared: Prepared,
}

impl Kinds {
    /// Makes the kinds of cases, with nothing prepared.
    pub fn new(alloc: Global) -> Kinds {
        Kinds {
            prepared: Prepared::new(alloc),
        }
    }
}

impl Judge for Kinds {
    fn begin_table<R: Runtime + AllocGlobal>(&mut self, _rt: &R, alloc: Global) {
        self.prepared = Prepared::new(alloc);
    }

    fn outcome<R: Runtime + AllocGlobal + Threads + Sync>(
        &mut self,
        rt: &R,
        alloc: Global,
        fragments: &Fragments,
        case: Case,
        out: &mut String,
    ) -> Result<(), CaseErr>
        requires sync { IsSync R.row }
    {
        match case.kind {
            "apply" | "applied-report" => applying::applied(rt, alloc, fragments, case, out),
            "small" | "word" | "host" | "within" => {
                host::host_case(alloc, &self.prepared, fragments, case, out)
            }
            "settings" | "frame" | "fill" | "memory" => {
                self.prepared.prepare(alloc, fragments, case)
            }
            "previous" | "read-only" | "read-write" | "contract" | "copy" => {
                self.prepared.ledger.prepare(alloc, fragments, case)
            }
            _ => plain_case(alloc, fragments, case, out),
        }
    }
}

/// A case that finds nothing but its own words.
fn plain_case(
    alloc: Global,
    fragments: &Fragments,
    case: Case,
    out: &mut String,
) -> Result<(), CaseErr> {
    match case.kind {
        "check" | "flaw" | "link" | "call" | "sums" | "begin" | "hosted" => {
            modules::module_case(alloc, fragments, case, out)
        }
        "ledger" | "followed" | "written" | "life" | "raised" | "made" => {
            ledgers::ledger_case(alloc, fragments, case, out)
        }
        "payload" | "contract-id" | "tx-hash" | "envelope-hash" => {
            hashes::in_network(alloc, fragments, case, out)
        }
        "interface" => imports::interface(out),
        "import" => imports::import(case.words, out),
        kind => spelled_case(alloc, fragments, kind, case.words, out),
    }
}

fn spelled_case(
    alloc: Global,
    fragments: &Fragments,
    kind: &str,
    words: &str,
    out: &mut String,
) -> Result<(), CaseErr> {
    match kind {
        "xdr" => spellings::xdr(alloc, fragments, words, out),
        "rises" => orders::rises(alloc, fragments, words, out),
        "against" => orders::against(alloc, fragments, words, out),
        "measure" => orders::measure(alloc, fragments, words, out),
        "key-hash" => hashes::hash_of_key(alloc, fragments, words, out),
        "key-of" => hashes::key_of_entry(alloc, fragments, words, out),
        "verdict" => ledgers::verdict(alloc, fragments, words, out),
        "report" => applying::report(alloc, fragments, words, out),
        "vet" => modules::vet_case(alloc, fragments, words, out),
        "charges" => budgets::charges(alloc, fragments, words, out),
        "bench" => bench::bench_case(alloc, fragments, words, out),
        "base64" => texts::base64(alloc, fragments, words, out),
        "pieces" => texts::pieces(alloc, fragments, words, out),
        _ => Err(CaseErr::Lacks("a kind of case")),
    }
}
