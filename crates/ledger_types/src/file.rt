//! The file of a ledger.

ghost use Rattle.std.specs.Prelude.{IfOk};
ghost use Rattle.xdr_core.specs.Reads.{Reads};
ghost use Rattle.ledger_types.specs.File.{rest_format, file_format, file_lawful};

use crate::header::{Header, header_size, read_header, write_header};
use crate::record::BoxedRecord;
use file_version::FileVersion;
use std::alloc::Global;
use value_types::Items;
use value_xdr::Xdr;
use xdr_core::{NoMemory, Out, ReadXdr, Words, add_sizes};

/// The content of a ledger's file (own), before it is checked to be a ledger.
#[derive(Drop)]
pub struct LedgerFile {
    pub version: FileVersion,
    pub header: Header,
    pub records: Items<BoxedRecord, 4294967295>,
}

/// Reads what follows the number of this version.
#[tactic(auto, unfolding(crate::specs::File::file_format, crate::specs::File::rest_format))]
fn read_rest<W: Words>(
    alloc: Global,
    input: &mut W,
    version: FileVersion,
) -> Result<LedgerFile, ReadXdr>
    ensures value { Reads (rest_format version).read (W.seen input.old) (W.seen input.new) result }
    ensures fits { IfOk result file_format.fits }
{
    let header = read_header(alloc, input, version)?;
    let records = Items::<BoxedRecord, 4294967295>::read(alloc, input)?;
    Ok(LedgerFile {
        version,
        header,
        records,
    })
}

#[tactic(auto, unfolding(crate::specs::File::file_format, crate::specs::File::rest_format, file_version::specs::FileVersion::version_format, xdr_core::specs::Sizes::capped))]
impl Xdr for LedgerFile {
    ghost format = { file_format };

    fn read_parts<W: Words>(alloc: Global, input: &mut W) -> Result<LedgerFile, ReadXdr> {
        let version = FileVersion::read(alloc, input)?;
        read_rest(alloc, input, version)
    }

    fn write_parts(&self, out: &mut Out) -> Result<(), NoMemory> {
        self.version.write(out)?;
        write_header(&self.header, out, self.version)?;
        self.records.write(out)
    }

    fn size(&self) -> u64 {
        let size = add_sizes(self.version.size(), header_size(&self.header, self.version));
        add_sizes(size, self.records.size())
    }

    ghost lawful = { file_lawful };
}
