//! The codes of results. Codes below 0 are in two's complement.

ghost use Rattle.std.specs.Prelude.{◌≡◌};
ghost use Rattle.tx_results.specs.Operations.{invoke_number, invoke_of_number, extend_number, extend_of_number, inner_number};
ghost use Rattle.tx_results.specs.Operations.{inner_of_number, operation_number, operation_of_number};
ghost use Rattle.tx_results.specs.Results.{code_number, code_of_number, envelope_code_number, envelope_code_of_number};

/// The result codes of INVOKE_HOST_FUNCTION that this host uses (`InvokeHostFunctionResultCode`).
#[derive(Clone, Copy, Debug, PartialEq, Eq)]
pub enum InvokeResultCode {
    /// 0.
    Success,
    /// -1.
    Malformed,
    /// -2.
    Trapped,
    /// -3.
    ResourceLimitExceeded,
    /// -4.
    EntryArchived,
}

impl InvokeResultCode {
    /// The variant with this number, or `None` if no variant has it (RFC 4506, section 4.3).
    pub fn from_number(number: u32) -> Option<InvokeResultCode>
        ensures { result ≡ invoke_of_number number }
    {
        match number {
            0 => Some(InvokeResultCode::Success),
            0xffff_ffff => Some(InvokeResultCode::Malformed),
            0xffff_fffe => Some(InvokeResultCode::Trapped),
            0xffff_fffd => Some(InvokeResultCode::ResourceLimitExceeded),
            0xffff_fffc => Some(InvokeResultCode::EntryArchived),
            _ => None,
        }
    }

    /// The number of the variant (RFC 4506, section 4.3).
    pub fn number(self) -> u32
        ensures { result ≡ invoke_number self }
    {
        match self {
            InvokeResultCode::Success => 0,
            InvokeResultCode::Malformed => 0xffff_ffff,
            InvokeResultCode::Trapped => 0xffff_fffe,
            InvokeResultCode::ResourceLimitExceeded => 0xffff_fffd,
            InvokeResultCode::EntryArchived => 0xffff_fffc,
        }
    }
}

/// The result of EXTEND_FOOTPRINT_TTL, with the codes that this host uses (`ExtendFootprintTTLResult`).
#[derive(Clone, Copy, Debug, PartialEq, Eq)]
pub enum ExtendResult {
    /// 0.
    Success,
    /// -1.
    Malformed,
}

impl ExtendResult {
    /// The variant with this number, or `None` if no variant has it (RFC 4506, section 4.3).
    pub fn from_number(number: u32) -> Option<ExtendResult>
        ensures { result ≡ extend_of_number number }
    {
        match number {
            0 => Some(ExtendResult::Success),
            0xffff_ffff => Some(ExtendResult::Malformed),
            _ => None,
        }
    }

    /// The number of the variant (RFC 4506, section 4.3).
    pub fn number(self) -> u32
        ensures { result ≡ extend_number self }
    {
        match self {
            ExtendResult::Success => 0,
            ExtendResult::Malformed => 0xffff_ffff,
        }
    }
}

/// The operations that have a result of their own (`OperationType`).
#[derive(Clone, Copy, Debug, PartialEq, Eq)]
pub enum InnerKind {
    /// 24: INVOKE_HOST_FUNCTION.
    Invoke,
    /// 25: EXTEND_FOOTPRINT_TTL.
    Extend,
}

impl InnerKind {
    /// The variant with this number, or `None` if no variant has it (RFC 4506, section 4.3).
    pub fn from_number(number: u32) -> Option<InnerKind>
        ensures { result ≡ inner_of_number number }
    {
        match number {
            24 => Some(InnerKind::Invoke),
            25 => Some(InnerKind::Extend),
            _ => None,
        }
    }

    /// The number of the variant (RFC 4506, section 4.3).
    pub fn number(self) -> u32
        ensures { result ≡ inner_number self }
    {
        match self {
            InnerKind::Invoke => 24,
            InnerKind::Extend => 25,
        }
    }
}

/// The result codes of operations that this host uses (`OperationResultCode`).
#[derive(Clone, Copy, Debug, PartialEq, Eq)]
pub enum OperationResultCode {
    /// opINNER 0: the body's result follows.
    Inner,
    /// opNOT_SUPPORTED -3.
    NotSupported,
}

impl OperationResultCode {
    /// The variant with this number, or `None` if no variant has it (RFC 4506, section 4.3).
    pub fn from_number(number: u32) -> Option<OperationResultCode>
        ensures { result ≡ operation_of_number number }
    {
        match number {
            0 => Some(OperationResultCode::Inner),
            0xffff_fffd => Some(OperationResultCode::NotSupported),
            _ => None,
        }
    }

    /// The number of the variant (RFC 4506, section 4.3).
    pub fn number(self) -> u32
        ensures { result ≡ operation_number self }
    {
        match self {
            OperationResultCode::Inner => 0,
            OperationResultCode::NotSupported => 0xffff_fffd,
        }
    }
}

/// The result codes of transactions that this host uses (`TransactionResultCode`, without those of fee bumps).
#[derive(Clone, Copy, Debug, PartialEq, Eq)]
pub enum TransactionResultCode {
    /// txSUCCESS 0.
    Success,
    /// txFAILED -1.
    Failed,
    /// txTOO_EARLY -2.
    TooEarly,
    /// txTOO_LATE -3.
    TooLate,
    /// txMISSING_OPERATION -4.
    MissingOperation,
    /// txMALFORMED -16.
    Malformed,
    /// txSOROBAN_INVALID -17.
    SorobanInvalid,
}

impl TransactionResultCode {
    /// The variant with this number, or `None` if no variant has it (RFC 4506, section 4.3).
    pub fn from_number(number: u32) -> Option<TransactionResultCode>
        ensures { result ≡ code_of_number number }
    {
        match number {
            0 => Some(TransactionResultCode::Success),
            0xffff_ffff => Some(TransactionResultCode::Failed),
            0xffff_fffe => Some(TransactionResultCode::TooEarly),
            0xffff_fffd => Some(TransactionResultCode::TooLate),
            0xffff_fffc => Some(TransactionResultCode::MissingOperation),
            0xffff_fff0 => Some(TransactionResultCode::Malformed),
            0xffff_ffef => Some(TransactionResultCode::SorobanInvalid),
            _ => None,
        }
    }

    /// The number of the variant (RFC 4506, section 4.3).
    pub fn number(self) -> u32
        ensures { result ≡ code_number self }
    {
        match self {
            TransactionResultCode::Success => 0,
            TransactionResultCode::Failed => 0xffff_ffff,
            TransactionResultCode::TooEarly => 0xffff_fffe,
            TransactionResultCode::TooLate => 0xffff_fffd,
            TransactionResultCode::MissingOperation => 0xffff_fffc,
            TransactionResultCode::Malformed => 0xffff_fff0,
            TransactionResultCode::SorobanInvalid => 0xffff_ffef,
        }
    }
}

/// The result codes of envelopes that this host uses (`TransactionResultCode`).
#[derive(Clone, Copy, Debug, PartialEq, Eq)]
pub enum EnvelopeResultCode {
    /// txFEE_BUMP_INNER_SUCCESS 1.
    FeeBumpInnerSuccess,
    /// txFEE_BUMP_INNER_FAILED -13.
    FeeBumpInnerFailed,
    /// The code of a transaction that is not in a fee bump.
    Transaction(TransactionResultCode),
}

impl EnvelopeResultCode {
    /// The variant with this number, or `None` if no variant has it (RFC 4506, section 4.3).
    #[tactic(auto, using(crate::proofs::CodeNumbers::found_alone))]
    pub fn from_number(number: u32) -> Option<EnvelopeResultCode>
        ensures { result ≡ envelope_code_of_number number }
    {
        match number {
            1 => Some(EnvelopeResultCode::FeeBumpInnerSuccess),
            0xffff_fff3 => Some(EnvelopeResultCode::FeeBumpInnerFailed),
            _ => match TransactionResultCode::from_number(number) {
                Some(code) => Some(EnvelopeResultCode::Transaction(code)),
                None => None,
            },
        }
    }

    /// The number of the variant (RFC 4506, section 4.3).
    pub fn number(self) -> u32
        ensures { result ≡ envelope_code_number self }
    {
        match self {
            EnvelopeResultCode::FeeBumpInnerSuccess => 1,
            EnvelopeResultCode::FeeBumpInnerFailed => 0xffff_fff3,
            EnvelopeResultCode::Transaction(code) => code.number(),
        }
    }
}
