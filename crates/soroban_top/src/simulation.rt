//! The file and the lines of a simulation.

ghost use Rattle.std.specs.Prelude.{◌≡◌, ◌++◌, IfOk, IfSome, IsTrue, OnOk};
ghost use Rattle.ledger_spec.specs.LedgerFile.{are_settings, has_next};
ghost use Rattle.tx_xdr.specs.Envelope.{envelope_format};
ghost use Rattle.tx_xdr.specs.Ext.{as_soroban};
ghost use Rattle.tx_xdr.specs.Soroban.{soroban_format};
ghost use Rattle.apply_spec.specs.Runs.{running_header as running_header_in};
ghost use Rattle.apply_spec.specs.SimulationFile.{data_of, simulation_bytes, footprint_line, simulation_lines};
ghost use Rattle.auth_record.specs.Done.{IsWithin};
ghost use Rattle.auth_record.specs.Simulating.{simulated_in};
ghost use Rattle.command_io.specs.Seen.{seen};
ghost use Rattle.soroban_top.specs.Outcome.{simulation_of};
ghost use Rattle.soroban_top.specs.Views.{simulation_in};

use auth_record::{Simulated, simulate};
use ledger_file::Ledger;
use ledger_types::{Header, Verdicts};
use result_line::{push_result, push_used};
use std::alloc::{AllocError, Global};
use text_lines::push_number;
use tx_xdr::{Envelope, Footprint, SorobanData, TransactionExt};
use value_xdr::Xdr;
use xdr_core::{NoMemory, Out};

/// The bytes to store, and the lines to print.
#[derive(Drop)]
pub struct Simulation {
    pub file: Vec<u8>,
    pub lines: Vec<u8>,
}

/// The header that transactions run on: that of the ledger before, with the close time of the one that is made.
pub fn running_header(header: &Header, close_time: u64) -> Header
    ensures { result ≡ running_header_in header.now close_time }
{
    Header {
        close_time,
        ..*header
    }
}

/// Simulates an envelope over a ledger, and makes the bytes to store and the lines to print. The envelope is dropped here, once,
/// and not at each exit of the caller.
pub fn make_simulation(
    alloc: Global,
    ledger: &Ledger,
    verdicts: &Verdicts,
    envelope: Envelope,
    close_time: u64,
) -> Result<Simulation, NoMemory>
    requires envelope { envelope_format.fits envelope }
    requires settings { IsTrue (are_settings ledger.now.header.settings) }
    requires next { IsTrue (has_next ledger.now.header) }
    ensures { IfOk result (λ s. simulation_in s ≡ simulation_of (seen ledger.now) verdicts.now envelope close_time) }
{
    run(alloc, ledger, verdicts, &envelope, close_time)
}

/// Simulates an envelope that is lent.
fn run(
    alloc: Global,
    ledger: &Ledger,
    verdicts: &Verdicts,
    envelope: &Envelope,
    close_time: u64,
) -> Result<Simulation, NoMemory>
    requires envelope { envelope_format.fits envelope.now }
    requires settings { IsTrue (are_settings ledger.now.header.settings) }
    requires next { IsTrue (has_next ledger.now.header) }
    ensures { IfOk result (λ s. simulation_in s ≡ simulation_of (seen ledger.now) verdicts.now envelope.now close_time) }
{
    let header = running_header(&ledger.header, close_time);
    let simulated = simulate(alloc, ledger, &header, verdicts, envelope)?;
    written(alloc, &simulated)
}

/// Writes the bytes to store and the lines to print.
fn written(alloc: Global, simulated: &Simulated) -> Result<Simulation, NoMemory>
    requires envelope { envelope_format.fits simulated.now.envelope }
    requires done { IsWithin simulated.now.done }
    ensures file { IfOk result (λ s. s.file.items ≡ simulation_bytes (simulated_in simulated.now)) }
    ensures lines { IfOk result (λ s. s.lines.items ≡ simulation_lines (simulated_in simulated.now)) }
{
    let file = file_of(alloc, simulated)?;
    let lines = lines_of(alloc, simulated)?;
    Ok(Simulation { file, lines })
}

// ---- the file

/// Soroban data without keys and resources.
fn no_data(alloc: Global) -> SorobanData
    ensures data { result ≡ data_of TransactionExt.None }
    ensures fits { soroban_format.fits result }
{
    SorobanData {
        footprint: Footprint::empty(alloc),
        instructions: 0,
        disk_read_bytes: 0,
        write_bytes: 0,
        resource_fee: 0,
    }
}

/// Appends the Soroban data of a transaction.
fn put_data(alloc: Global, ext: &TransactionExt, out: &mut Out) -> Result<(), NoMemory>
    requires { IfSome (as_soroban ext.now) soroban_format.fits }
    ensures { OnOk result (out.new ≡ out.old ++ soroban_format.spell (data_of ext.now)) }
{
    match ext {
        TransactionExt::None => no_data(alloc).write(out),
        TransactionExt::Soroban(resources) => resources.write(out),
    }
}

/// Writes the Soroban data with the footprint, the result, and the success preimage of a host function that succeeded.
fn file_of(alloc: Global, simulated: &Simulated) -> Result<Vec<u8>, NoMemory>
    requires envelope { envelope_format.fits simulated.now.envelope }
    requires done { IsWithin simulated.now.done }
    ensures { IfOk result (λ bytes. bytes.items ≡ simulation_bytes (simulated_in simulated.now)) }
{
    let mut out = Out::new(alloc);
    put_data(alloc, &simulated.envelope.transaction().ext, &mut out)?;
    simulated.done.result.result.write(&mut out)?;
    simulated.done.success.write(&mut out)?;
    Ok(out.into_vec())
}

// ---- the lines

/// Appends `footprint R read-only, W read-write`.
fn push_footprint(lines: &mut Vec<u8>, footprint: &Footprint) -> Result<(), AllocError>
    ensures { OnOk result (lines.new.items ≡ lines.old.items ++ footprint_line footprint.now) }
{
    lines.extend_from_slice(b"footprint ")?;
    let read_only = footprint.read_only.as_slice().len();
    push_number(lines, read_only as u64, b" read-only, ")?;
    let read_write = footprint.read_write.as_slice().len();
    push_number(lines, read_write as u64, b" read-write\n")?;
    Ok(())
}

/// Makes the lines of a simulation.
fn lines_of(alloc: Global, simulated: &Simulated) -> Result<Vec<u8>, AllocError>
    ensures { IfOk result (λ v. v.items ≡ simulation_lines (simulated_in simulated.now)) }
{
    let mut lines = Vec::new(alloc);
    push_result(&mut lines, &simulated.done.result.result.outcome)?;
    push_used(&mut lines, simulated.used)?;
    push_footprint(&mut lines, &simulated.footprint)?;
    Ok(lines)
}
