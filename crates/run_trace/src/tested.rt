//! Which test of a call failed, by what the lines before its end have said.

use crate::line::{Ending, What};
use contract_storage::Met;
use ledger_types::LedgerKey;
use value_types::{Hash, ScAddress, ScError, ScErrorCode};

/// The function by which the host asks a contract to authorise.
const ASKS: &[u8] = b"__check_auth";

/// What is said where no test failed: the call ended before its tests did.
const UNKNOWN: &str = "the call failed before its frame began";

/// What the lines have said of the call that began last.
#[derive(Clone, Copy, Debug)]
pub(crate) struct Tested {
    /// The contract that the host asks next: a demand was met by the root of an entry of it.
    asked: Option<Hash>,
    /// Whether the address is a contract's.
    is_contract: bool,
    /// Whether only the host may call a function of this name, and another one calls.
    is_reserved: bool,
    /// Whether the last access was one of a code.
    reads_code: bool,
}

impl Tested {
    /// No line was seen.
    pub(crate) fn new() -> Tested {
        Tested {
            asked: None,
            is_contract: false,
            is_reserved: false,
            reads_code: false,
        }
    }

    /// Sees the next line.
    pub(crate) fn see(&mut self, what: &What) {
        match what {
            What::Called {
                address,
                function,
                ..
            } => self.begin(*address, function.as_slice()),
            What::Accessed { key, .. } => {
                self.reads_code = matches!(key, LedgerKey::ContractCode(_));
            }
            What::Demanded { address, met, .. } => self.asked = asked_by(*address, *met),
            What::Emitted(_) => {}
            What::Ended { .. } => self.asked = None,
        }
    }

    /// A call begins.
    fn begin(&mut self, address: ScAddress, function: &[u8]) {
        let by_host = self.is_asked(address) && function == ASKS;
        self.asked = None;
        self.is_contract = matches!(address, ScAddress::Contract(_));
        self.is_reserved = function.starts_with(b"__") && !by_host;
        self.reads_code = false;
    }

    /// Whether the host asks this contract next.
    fn is_asked(&self, address: ScAddress) -> bool {
        match (self.asked, address) {
            (Some(asked), ScAddress::Contract(contract)) => asked == contract,
            _ => false,
        }
    }

    /// Why the call that began last did not run, if it ends so. Each test of a call has an error of its own, or is told from the
    /// others with this error by what is called and what was accessed.
    pub(crate) fn reason(&self, ending: &Ending) -> &'static str {
        match ending {
            Ending::Failed(error) => self.test_that_failed(*error),
            _ => UNKNOWN,
        }
    }

    fn test_that_failed(&self, error: ScError) -> &'static str {
        match error {
            ScError::Context(ScErrorCode::ExceededLimit) => "64 frames are open",
            ScError::Context(ScErrorCode::InvalidAction) if self.is_reserved => {
                "only the host may call a function of this name"
            }
            ScError::Context(ScErrorCode::InvalidAction) => "the contract has an open frame",
            ScError::Context(ScErrorCode::InvalidInput) => "the contract's executable is no module",
            ScError::Storage(ScErrorCode::MissingValue) if self.reads_code => {
                "the contract's code is not live"
            }
            ScError::Storage(ScErrorCode::MissingValue) => "the contract's instance is not live",
            ScError::Storage(ScErrorCode::UnexpectedType) => "the instance entry has no instance",
            ScError::Value(_) if self.is_contract => {
                "the instance's storage may not enter the host"
            }
            ScError::Value(ScErrorCode::UnexpectedType) => "the address is no contract's",
            ScError::WasmVm(code) => module_test(code),
            _ => UNKNOWN,
        }
    }
}

/// The contract that the host asks next, if the root of an entry of a contract meets a demand.
fn asked_by(address: ScAddress, met: Met) -> Option<Hash> {
    match (address, met) {
        (ScAddress::Contract(contract), Met::ByEntry { first: true, .. }) => Some(contract),
        _ => None,
    }
}

/// The test of a module that fails with this code.
fn module_test(code: ScErrorCode) -> &'static str {
    match code {
        ScErrorCode::InvalidInput => "the code is no valid module with host imports",
        ScErrorCode::MissingValue => "the module exports no such function",
        ScErrorCode::UnexpectedSize => "the function has other parameters or results",
        ScErrorCode::IndexBounds => "a segment of the module does not fit",
        _ => UNKNOWN,
    }
}
