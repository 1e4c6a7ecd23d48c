//! What is reported of transactions.

ghost use Rattle.std.specs.Prelude.{◌≡◌, ◌≤◌, ◌+◌, ◌∷◌, ◌++◌, [], All, OnOk, length, map, vec_len, vec_capacity};
ghost use Rattle.xdr_spec.specs.Format.{optional};
ghost use Rattle.invoke_types.specs.Success.{success_format};
ghost use Rattle.tx_results.specs.Report.{HavePreimages};
ghost use Rattle.tx_results.specs.Results.{pair_format, result_set_format};
ghost use Rattle.set_steps.specs.Reports.{IsSuccess, IsBeside};

use invoke_types::SuccessPreimage;
use std::alloc::Global;
use std::marker::Model;
use tx_results::{ResultSet, TransactionResultPair};
use value_types::Items;
use xdr_core::NoMemory;

/// As many results as a 32-bit count can hold. A run with more is out of memory.
const MOST_RESULTS: usize = 4_294_967_295;

/// The results of transactions, and beside each its success preimage.
///
/// Contracts see the list of what is reported.
#[derive(Drop)]
pub struct Reports {
    results: Vec<TransactionResultPair>,
    successes: Vec<Option<SuccessPreimage>>,
}

impl Model for Reports {
    ghost use Rattle.std.specs.Prelude.{List};
    ghost use Rattle.std.specs.Coded.{coded_list};
    ghost use Rattle.stage_runs.specs.Runs.{Reported};
    ghost use Rattle.set_steps.specs.Reports.{beside, AreReports, reported_code};

    ghost Value = { List Reported };

    ghost coded = { coded_list reported_code };

    ghost view = { λ r. beside r.results.items r.successes.items };

    ghost invariant = { λ r. AreReports r.results.items r.successes.items };
}

/// A success preimage for each result.
type Successes = Items<Option<SuccessPreimage>, 4294967295>;

impl Reports {
    /// Makes an empty list.
    pub fn new(alloc: Global) -> Reports
        ensures { result ≡ [] }
    {
        Reports {
            results: Vec::new(alloc),
            successes: Vec::new(alloc),
        }
    }

    /// Makes room for this many reports. Then that many can be added without memory.
    pub fn reserve(&mut self, more: usize) -> Result<(), NoMemory>
        ensures { self.new ≡ self.old }
    {
        self.results.reserve(more)?;
        self.successes.reserve(more)?;
        Ok(())
    }

    /// Adds a report. A list that would grow past 2^32 - 1 reports is out of memory.
    pub fn push(
        &mut self,
        pair: TransactionResultPair,
        success: Option<SuccessPreimage>,
    ) -> Result<(), NoMemory>
        requires pair { pair_format.fits pair }
        requires success { IsSuccess success }
        requires preimage { IsBeside pair success }
        ensures { OnOk result (self.new ≡ self.old ++ record { result = pair; success = success } ∷ []) }
    {
        if self.results.len() >= MOST_RESULTS {
            return Err(NoMemory);
        }
        self.results.reserve(1)?;
        self.successes.reserve(1)?;
        self.results.push_reserved(pair);
        self.successes.push_reserved(success);
        Ok(())
    }

    /// Adds the reports of another list after its own. If there is room for them, it takes no memory.
    pub fn append(&mut self, more: Reports) -> Result<(), NoMemory>
        ensures { OnOk result (self.new ≡ self.old ++ more) }
    {
        let Reports { results, successes } = more;
        if results.len() > MOST_RESULTS - self.results.len() {
            return Err(NoMemory);
        }
        self.results.reserve(results.len())?;
        self.successes.reserve(successes.len())?;
        append_reserved(&mut self.results, results);
        append_reserved(&mut self.successes, successes);
        Ok(())
    }

    /// Takes the results and the success preimages apart. It takes no memory.
    pub fn into_parts(self) -> (ResultSet, Successes)
        ensures results { result.0.pairs ≡ map (λ r. r.result) self }
        ensures successes { result.1 ≡ map (λ r. r.success) self }
        ensures results_fit { result_set_format.fits result.0 }
        ensures successes_fit { All (λ s. (optional success_format).fits s) result.1 }
        ensures preimages { HavePreimages result.0.pairs result.1 }
        ensures each { length result.1 ≡ length result.0.pairs }
    {
        let Reports { results, successes } = self;
        (
            ResultSet {
                pairs: Items::from_vec(results),
            },
            Items::from_vec(successes),
        )
    }
}

/// Moves items to the end of a list that has room for them.
fn append_reserved<T: Drop>(list: &mut Vec<T>, items: Vec<T>)
    requires { vec_len list.old + vec_len items ≤ vec_capacity list.old }
    ensures { list.new.items ≡ list.old.items ++ items.items }
{
    let mut items = items;
    match list.append(&mut items) {
        Ok(()) => {}
        Err(_) => unreachable!(),
    }
}
