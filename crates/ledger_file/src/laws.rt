//! Laws of ledger files.

ghost use Rattle.std.specs.Prelude.{◌≡◌, ◌↔◌, ℕ, Bool, false, List, IsTrue, Ok, Err};
ghost use Rattle.xdr_spec.specs.Format.{IsBytes};
ghost use Rattle.xdr_spec.specs.Refusal.{Refuses};
ghost use Rattle.xdr_spec.specs.declared.Why.{Why};
ghost use Rattle.ledger_types.specs.File.{file_format};
ghost use Rattle.ledger_types.specs.Header.{header_format};
ghost use Rattle.ledger_types.specs.declared.header.Header.{Header};
ghost use Rattle.ledger_spec.specs.LedgerMap.{LedgerMap, IsLedgerMap};
ghost use Rattle.ledger_spec.specs.LedgerFile.{ledger_of, ledger_bytes, can_run, refusal};
ghost use Rattle.ledger_spec.specs.declared.LedgerWhy.TheVariants as ledger_why;
ghost use Rattle.ledger_file.specs.FileOf.{IsFileOf};

/// `ledger_of` returns a ledger exactly for the bytes of that ledger's files.
pub fn files_are_ledgers()
    // if the bytes are read as a ledger, they are its file of version 2, or of version 1 if the protocol is 23
    ensures only { (follows : Bool) (bytes : List ℕ) (header : Header) (entries : LedgerMap) → IsBytes bytes
        → ledger_of follows bytes ≡ Ok (header, entries) → IsFileOf follows bytes header entries }
    // either file of a ledger is read as that ledger
    ensures all { (follows : Bool) (bytes : List ℕ) (header : Header) (entries : LedgerMap)
        → IsFileOf follows bytes header entries → ledger_of follows bytes ≡ Ok (header, entries) }
    // what is written is read as the ledger that was written
    ensures written { (header : Header) (entries : LedgerMap) → header_format.fits header → IsLedgerMap entries
        → IsTrue (can_run header) → ledger_of false (ledger_bytes header entries) ≡ Ok (header, entries) }
    // bytes that are not the XDR of a file are rejected as `Xdr`, at the offset that RFC 4506 determines, before all other tests
    ensures refused { (follows : Bool) (bytes : List ℕ) (at : ℕ) → IsBytes bytes
        → (ledger_of follows bytes ≡ Err (refusal ledger_why.Xdr at)) ↔ ((reason : Why) × Refuses file_format bytes at reason) }
{}
