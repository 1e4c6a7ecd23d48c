//! Settings and headers of ledgers.

ghost use Rattle.std.specs.Prelude.{◌≡◌, ◌++◌, ⊤, length, OnOk, OnErr, IfOk};
ghost use Rattle.xdr_core.specs.Reads.{Reads};
ghost use Rattle.xdr_core.specs.Sizes.{capped};
ghost use Rattle.xdr_core.specs.Writes.{StartsWith};
ghost use Rattle.ledger_types.specs.Header.{settings_format, settings_lawful, header_in, header_format, header_lawful};

use crate::terms::{TERMS_SIZE, read_terms, write_terms};
use budget_meter::Terms;
use file_version::{FileVersion, protocol_size, read_protocol, write_protocol};
use std::alloc::{AllocError, Global};
use value_types::Hash;
use value_xdr::Xdr;
use xdr_core::{NoMemory, Out, ReadXdr, Words, add_sizes};

/// The settings that the host needs (own, after `ConfigSettingEntry`).
#[derive(Debug, PartialEq, Eq)]
pub struct Settings {
    /// The number of ledgers that a new temporary entry lives, with the first.
    pub min_temporary_ttl: u32,
    /// The number of ledgers that a new persistent entry lives, with the first.
    pub min_persistent_ttl: u32,
    /// The maximum number of ledgers that an entry may live from the current one, with the current one.
    pub max_entry_ttl: u32,
    /// The memory limit of a transaction, in bytes.
    pub memory_limit: u64,
    /// The cost of each kind of work.
    pub terms: Terms,
}

impl Clone for Settings {
    ghost is_clone = { λ v w. w ≡ v };

    ghost is_infallible = { λ _. ⊤ };

    fn clone(&self) -> Result<Settings, AllocError> {
        Ok(*self)
    }
}

impl Copy for Settings {}

#[tactic(auto, unfolding(crate::specs::Header::settings_format, xdr_core::specs::Sizes::capped))]
impl Xdr for Settings {
    ghost format = { settings_format };

    fn read_parts<W: Words>(alloc: Global, input: &mut W) -> Result<Settings, ReadXdr> {
        let min_temporary_ttl = u32::read(alloc, input)?;
        let min_persistent_ttl = u32::read(alloc, input)?;
        let max_entry_ttl = u32::read(alloc, input)?;
        let memory_limit = u64::read(alloc, input)?;
        let terms = read_terms(alloc, input)?;
        Ok(Settings {
            min_temporary_ttl,
            min_persistent_ttl,
            max_entry_ttl,
            memory_limit,
            terms,
        })
    }

    fn write_parts(&self, out: &mut Out) -> Result<(), NoMemory> {
        self.min_temporary_ttl.write(out)?;
        self.min_persistent_ttl.write(out)?;
        self.max_entry_ttl.write(out)?;
        self.memory_limit.write(out)?;
        write_terms(&self.terms, out)
    }

    fn size(&self) -> u64 {
        20 + TERMS_SIZE
    }

    ghost lawful = { settings_lawful };
}

/// A ledger without its entries (own, after `LedgerHeader`).
#[derive(Debug, PartialEq, Eq)]
pub struct Header {
    /// The SHA-256 of the network's passphrase.
    pub network_id: Hash,
    /// The version of the protocol, 23 or higher.
    pub protocol: u32,
    /// The ledger's number.
    pub seq: u32,
    /// The close time, in seconds since 1970.
    pub close_time: u64,
    pub settings: Settings,
}

impl Clone for Header {
    ghost is_clone = { λ v w. w ≡ v };

    ghost is_infallible = { λ _. ⊤ };

    fn clone(&self) -> Result<Header, AllocError> {
        Ok(*self)
    }
}

impl Copy for Header {}

/// Reads the header of a file of this version. After an error the source may stand anywhere.
#[tactic(auto, unfolding(crate::specs::Header::header_in))]
pub fn read_header<W: Words>(
    alloc: Global,
    input: &mut W,
    version: FileVersion,
) -> Result<Header, ReadXdr>
    ensures value { Reads (header_in version).read (W.seen input.old) (W.seen input.new) result }
    ensures fits { IfOk result (header_in version).fits }
{
    let network_id = Hash::read(alloc, input)?;
    let protocol = read_protocol(alloc, input, version)?;
    let seq = u32::read(alloc, input)?;
    let close_time = u64::read(alloc, input)?;
    let settings = Settings::read(alloc, input)?;
    Ok(Header {
        network_id,
        protocol,
        seq,
        close_time,
        settings,
    })
}

/// Writes the header of a file of this version.
#[tactic(auto, unfolding(crate::specs::Header::header_in))]
pub fn write_header(header: &Header, out: &mut Out, version: FileVersion) -> Result<(), NoMemory>
    requires { (header_in version).fits header.now }
    ensures ok { OnOk result (out.new ≡ out.old ++ (header_in version).spell header.now) }
    ensures err { OnErr result (StartsWith out.new out.old) }
{
    header.network_id.write(out)?;
    write_protocol(header.protocol, out, version)?;
    header.seq.write(out)?;
    header.close_time.write(out)?;
    header.settings.write(out)
}

/// The length of the header in a file of this version, in bytes.
#[tactic(auto, unfolding(crate::specs::Header::header_in, xdr_core::specs::Sizes::capped))]
pub fn header_size(header: &Header, version: FileVersion) -> u64
    ensures { (header_in version).fits header.now → result ≡ capped (length ((header_in version).spell header.now)) }
{
    let size = add_sizes(
        header.network_id.size(),
        protocol_size(header.protocol, version),
    );
    let size = add_sizes(size, header.seq.size());
    let size = add_sizes(size, header.close_time.size());
    add_sizes(size, header.settings.size())
}

impl Xdr for Header {
    ghost format = { header_format };

    fn read_parts<W: Words>(alloc: Global, input: &mut W) -> Result<Header, ReadXdr> {
        read_header(alloc, input, FileVersion::V2)
    }

    fn write_parts(&self, out: &mut Out) -> Result<(), NoMemory> {
        write_header(self, out, FileVersion::V2)
    }

    fn size(&self) -> u64 {
        header_size(self, FileVersion::V2)
    }

    ghost lawful = { header_lawful };
}
