//! Reads a value of a file, of whose bytes at most 65,536 are held at a time.

ghost use Rattle.std.specs.Prelude.{◌≡◌, ◌<◌, [], IfOk, IfErr, IfSome, OnOk, OnErr};
ghost use Rattle.std.specs.FinMap.{get};
ghost use Rattle.edge_io.specs.Contents.{IsThere};
ghost use Rattle.edge_io.specs.Counts.{ChangesOnlyCount, Rose};
ghost use Rattle.xdr_core.specs.Reads.{IfDecoded, Runs, decoded_at};
ghost use Rattle.xdr_core.specs.Sources.{IsTold, GoesOn, Halts};
ghost use Rattle.xdr_core.specs.Windowed.{seen_by};
ghost use Rattle.file_pour.specs.Poured.{IsShort, seen_of};
ghost use Rattle.file_pour.specs.Reading.{Ends, Leaves, OnFault, ReadsFile, Stops};

use crate::error::PouredErr;
use crate::pour::FilePour;
use edge_io::{Files, Word};
use std::alloc::Global;
use value_xdr::{Xdr, decode_from};
use xdr_core::{Held, ReadXdr, Stopped, Window};

/// Reads the value whose XDR is a whole file of at most 2^30 bytes, through a window of 65,536 bytes. The file is taken to its
/// end, also if it is refused, so that a failed call and a file that is too long come before a refusal.
pub fn read_poured<T: Xdr + Drop, F: Files>(
    alloc: Global,
    files: &mut F,
    option: u8,
    name: &Word,
) -> Result<T, PouredErr>
    requires { option < 8 }

    ensures read { IfSome (F.contents files.old) (λ m. ReadsFile T.format result (get m name.now)) }
    ensures fits { IfOk result T.format.fits }
    ensures same { F.contents files.new ≡ F.contents files.old }

    ensures counts { ChangesOnlyCount option (F.faults files.old) (F.faults files.new) }
    ensures cause { OnFault result (Rose (F.faults files.old option) (F.faults files.new option)) }
    ensures steady { F.steady files.old → IsThere (F.contents files.old) name.now →
        OnFault result ⊥ × F.steady files.new × (F.faults files.new option ≡ F.faults files.old option) }
{
    let mut held = Held::new(alloc)?;
    read_through(alloc, &mut held, files, option, name)
}

/// The same, through a buffer that holds nothing.
fn read_through<T: Xdr + Drop, F: Files>(
    alloc: Global,
    held: &mut Held,
    files: &mut F,
    option: u8,
    name: &Word,
) -> Result<T, PouredErr>
    requires option { option < 8 }
    requires empty { held.old ≡ [] }
    ensures read { IfSome (F.contents files.old) (λ m. ReadsFile T.format result (get m name.now)) }
    ensures fits { IfOk result T.format.fits }
    ensures leaves { Leaves (F.contents files.old) (F.contents files.new) (F.faults files.old) (F.faults files.new)
        (F.steady files.old) (F.steady files.new) option name.now result }
{
    let pour = FilePour::new(files, option, name);
    // Made in place, so that the loan of the files is known to end with it.
    let mut window = Window {
        pour,
        held,
        place: 0,
    };
    let read = decode_held(alloc, &mut window);
    ended(read, &mut window)
}

/// Decodes what a window shows.
fn decode_held<T: Xdr + Drop, F: Files>(
    alloc: Global,
    window: &mut Window<'_, FilePour<'_, F>>,
) -> Result<T, ReadXdr>
    ensures same_reference { window.new.pour.files.ghost_name ≡ window.old.pour.files.ghost_name }
    ensures decoded { IsTold (seen_by (seen_of F.contents F.faults F.steady) window.old)
        → IfDecoded (decoded_at T.format (seen_by (seen_of F.contents F.faults F.steady) window.old).input) result }
    ensures fits { IfOk result T.format.fits }
    ensures runs { Runs (seen_of F.contents F.faults F.steady window.old.pour).standing
        (seen_of F.contents F.faults F.steady window.new.pour).standing result }
{
    decode_from(alloc, window)
}

/// What was read, once the rest of the file is taken.
fn ended<T: Drop, F: Files>(
    read: Result<T, ReadXdr>,
    window: &mut Window<'_, FilePour<'_, F>>,
) -> Result<T, PouredErr>
    ensures same_reference { window.new.pour.files.ghost_name ≡ window.old.pour.files.ghost_name }
    ensures ends { Ends (seen_of F.contents F.faults F.steady window.old.pour).standing
        (seen_of F.contents F.faults F.steady window.new.pour).standing window.new.pour.longs
        (IsShort (F.contents window.new.pour.files.now) window.new.pour.name.now) read result }
{
    match read {
        Ok(value) => {
            rest(window)?;
            Ok(value)
        }
        Err(ReadXdr::Bad(e)) => {
            rest(window)?;
            Err(PouredErr::Bad(e))
        }
        Err(ReadXdr::NoMemory) => Err(PouredErr::NoMemory),
        Err(ReadXdr::Stopped) => Err(stopped(&window.pour)),
    }
}

/// Takes the rest of the file.
fn rest<F: Files>(window: &mut Window<'_, FilePour<'_, F>>) -> Result<(), PouredErr>
    ensures same_reference { window.new.pour.files.ghost_name ≡ window.old.pour.files.ghost_name }
    ensures short { OnOk result (IsShort (F.contents window.new.pour.files.now) window.new.pour.name.now) }
    ensures ok { OnOk result (GoesOn (seen_of F.contents F.faults F.steady window.old.pour).standing
        (seen_of F.contents F.faults F.steady window.new.pour).standing) }
    ensures why { IfErr result (Stops window.new.pour.longs) }
    ensures err { OnErr result (Halts (seen_of F.contents F.faults F.steady window.old.pour).standing
        (seen_of F.contents F.faults F.steady window.new.pour).standing) }
{
    match window.pour.drain() {
        Ok(()) => Ok(()),
        Err(Stopped) => Err(stopped(&window.pour)),
    }
}

/// Why a pour stopped.
fn stopped<F: Files>(pour: &FilePour<'_, F>) -> PouredErr
    ensures { Stops pour.now.longs result }
{
    if pour.is_long() {
        PouredErr::TooLong
    } else {
        PouredErr::Fault
    }
}
