//! Equality of ledger entries. A comparison takes no memory.

ghost use Rattle.std.specs.Prelude.{◌≡◌};
ghost use Rattle.std.specs.Bool.{Decides};
ghost use Rattle.std.specs.Cmp.{partial_equiv_from_equiv};
ghost use Rattle.value_types.specs.Equality.{is_same, is_same_equiv};
ghost use Rattle.ledger_types.specs.Equality.{coded_data_entry, coded_code_entry, coded_entry_data, coded_entry};

use crate::contract_entries::{ContractCodeEntry, ContractDataEntry};
use crate::entry::{LedgerEntry, LedgerEntryData};

impl PartialEq for ContractDataEntry {
    ghost eq = { is_same coded_data_entry };

    ghost laws = { partial_equiv_from_equiv (is_same_equiv coded_data_entry) };

    fn eq(&self, other: &ContractDataEntry) -> bool
        ensures eq { result ≡ is_same coded_data_entry self.now other.now }
        ensures exact { Decides result (self.now ≡ other.now) }
    {
        self.contract == other.contract
            && self.key == other.key
            && self.durability == other.durability
            && self.val == other.val
    }
}

impl Eq for ContractDataEntry {
    ghost laws = { is_same_equiv coded_data_entry };
}

impl PartialEq for ContractCodeEntry {
    ghost eq = { is_same coded_code_entry };

    ghost laws = { partial_equiv_from_equiv (is_same_equiv coded_code_entry) };

    fn eq(&self, other: &ContractCodeEntry) -> bool
        ensures eq { result ≡ is_same coded_code_entry self.now other.now }
        ensures exact { Decides result (self.now ≡ other.now) }
    {
        self.hash == other.hash && self.code.as_slice() == other.code.as_slice()
    }
}

impl Eq for ContractCodeEntry {
    ghost laws = { is_same_equiv coded_code_entry };
}

impl PartialEq for LedgerEntryData {
    ghost eq = { is_same coded_entry_data };

    ghost laws = { partial_equiv_from_equiv (is_same_equiv coded_entry_data) };

    fn eq(&self, other: &LedgerEntryData) -> bool
        ensures eq { result ≡ is_same coded_entry_data self.now other.now }
        ensures exact { Decides result (self.now ≡ other.now) }
    {
        match self {
            LedgerEntryData::ContractData(entry) => match other {
                LedgerEntryData::ContractData(o) => *entry == *o,
                LedgerEntryData::ContractCode(_) => false,
            },
            LedgerEntryData::ContractCode(entry) => match other {
                LedgerEntryData::ContractCode(o) => *entry == *o,
                LedgerEntryData::ContractData(_) => false,
            },
        }
    }
}

impl Eq for LedgerEntryData {
    ghost laws = { is_same_equiv coded_entry_data };
}

impl PartialEq for LedgerEntry {
    ghost eq = { is_same coded_entry };

    ghost laws = { partial_equiv_from_equiv (is_same_equiv coded_entry) };

    fn eq(&self, other: &LedgerEntry) -> bool
        ensures eq { result ≡ is_same coded_entry self.now other.now }
        ensures exact { Decides result (self.now ≡ other.now) }
    {
        self.last_modified_ledger_seq == other.last_modified_ledger_seq && self.data == other.data
    }
}

impl Eq for LedgerEntry {
    ghost laws = { is_same_equiv coded_entry };
}
