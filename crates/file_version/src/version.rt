//! The versions of ledger files.

ghost use Rattle.std.specs.Prelude.{◌≡◌, ◌++◌, length, OnOk, OnErr, IfOk};
ghost use Rattle.xdr_core.specs.Reads.{Reads};
ghost use Rattle.xdr_core.specs.Sizes.{capped};
ghost use Rattle.xdr_core.specs.Writes.{StartsWith};
ghost use Rattle.file_version.specs.FileVersion.{number, version_of, version_format, version_lawful, protocol_format};

use std::alloc::Global;
use value_xdr::Xdr;
use xdr_core::{NoMemory, Out, ReadXdr, Why, Words, XdrErr};

/// The protocol of a ledger whose file does not name one.
const PROTOCOL_OF_VERSION_1: u32 = 23;

/// A version of a ledger's file (own). Both are read, and `V2` is written.
#[derive(Clone, Copy, Debug, PartialEq, Eq)]
pub enum FileVersion {
    /// 1: the file does not have the protocol, which is 23.
    V1,
    /// 2: the file has the protocol, after the network's id.
    V2,
}

impl FileVersion {
    /// The version with this number, or `None` if no version has it.
    pub fn from_number(number: u32) -> Option<FileVersion>
        ensures { result ≡ version_of number }
    {
        match number {
            1 => Some(FileVersion::V1),
            2 => Some(FileVersion::V2),
            _ => None,
        }
    }

    /// The number of the version.
    pub fn number(self) -> u32
        ensures { result ≡ number self }
    {
        match self {
            FileVersion::V1 => 1,
            FileVersion::V2 => 2,
        }
    }
}

#[tactic(auto, unfolding(crate::specs::FileVersion::version_format, xdr_core::specs::Sizes::capped))]
impl Xdr for FileVersion {
    ghost format = { version_format };

    fn read_parts<W: Words>(_alloc: Global, input: &mut W) -> Result<FileVersion, ReadXdr> {
        let place = input.place();
        let number = input.u32()?;
        FileVersion::from_number(number).ok_or(ReadXdr::Bad(XdrErr {
            at: place,
            why: Why::Tag,
        }))
    }

    fn write_parts(&self, out: &mut Out) -> Result<(), NoMemory> {
        out.put_u32(self.number())
    }

    fn size(&self) -> u64 {
        4
    }

    ghost lawful = { version_lawful };
}

/// Reads the protocol of a file of this version. After an error the source may stand anywhere.
pub fn read_protocol<W: Words>(
    alloc: Global,
    input: &mut W,
    version: FileVersion,
) -> Result<u32, ReadXdr>
    ensures value { Reads (protocol_format version).read (W.seen input.old) (W.seen input.new) result }
    ensures fits { IfOk result (protocol_format version).fits }
{
    match version {
        FileVersion::V1 => Ok(PROTOCOL_OF_VERSION_1),
        FileVersion::V2 => Ok(u32::read(alloc, input)?),
    }
}

/// Writes the protocol into a file of this version.
pub fn write_protocol(protocol: u32, out: &mut Out, version: FileVersion) -> Result<(), NoMemory>
    requires { (protocol_format version).fits protocol }
    ensures ok { OnOk result (out.new ≡ out.old ++ (protocol_format version).spell protocol) }
    ensures err { OnErr result (StartsWith out.new out.old) }
{
    match version {
        FileVersion::V1 => Ok(()),
        FileVersion::V2 => protocol.write(out),
    }
}

/// The length of the protocol in a file of this version, in bytes.
#[tactic(auto, unfolding(xdr_core::specs::Sizes::capped))]
pub fn protocol_size(protocol: u32, version: FileVersion) -> u64
    ensures { (protocol_format version).fits protocol → result ≡ capped (length ((protocol_format version).spell protocol)) }
{
    match version {
        FileVersion::V1 => 0,
        FileVersion::V2 => protocol.size(),
    }
}
