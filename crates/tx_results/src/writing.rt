//! Writes results and reports.

ghost use Rattle.std.specs.Prelude.{All, IfOk, length, ◌≡◌};
ghost use Rattle.xdr_spec.specs.Format.{optional};
ghost use Rattle.xdr_spec.specs.Refusal.{Spells};
ghost use Rattle.invoke_types.specs.Success.{success_format};
ghost use Rattle.tx_results.specs.Results.{result_set_format};
ghost use Rattle.tx_results.specs.Report.{report_bytes};

use crate::results::ResultSet;
use invoke_types::SuccessPreimage;
use std::alloc::Global;
use value_types::Blob;
use value_xdr::Xdr;
use xdr_core::{NoMemory, Out};

/// The results' one spelling.
pub fn write_results(alloc: Global, results: &ResultSet) -> Result<Blob, NoMemory>
    requires { result_set_format.fits results.now }
    ensures { IfOk result (λ bytes. Spells result_set_format results.now bytes) }
{
    let mut out = Out::new(alloc);
    results.write(&mut out)?;
    Ok(Blob::from_vec(out.into_vec()))
}

/// Writes the report (own): the results, and for each transaction its success preimage if its INVOKE_HOST_FUNCTION succeeded.
pub fn write_report(
    alloc: Global,
    results: &ResultSet,
    successes: &[Option<SuccessPreimage>],
) -> Result<Blob, NoMemory>
    requires results { result_set_format.fits results.now }
    requires successes { All (λ success. (optional success_format).fits success) successes.now }
    requires each { length successes.now ≡ length results.now.pairs }
    ensures { IfOk result (λ bytes. bytes ≡ report_bytes results.now successes.now) }
{
    let mut out = Out::new(alloc);
    results.write(&mut out)?;
    for success in successes {
        success.write(&mut out)?;
    }
    Ok(Blob::from_vec(out.into_vec()))
}
