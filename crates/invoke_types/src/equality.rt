//! Equality of authorised functions and of their parts. A comparison takes no memory.

ghost use Rattle.std.specs.Prelude.{◌≡◌};
ghost use Rattle.std.specs.Bool.{Decides};
ghost use Rattle.std.specs.Cmp.{partial_equiv_from_equiv};
ghost use Rattle.value_types.specs.Equality.{is_same, is_same_equiv};
ghost use Rattle.invoke_types.specs.Equality.{coded_asset, coded_preimage, coded_invoke, coded_create, coded_create_v2};
ghost use Rattle.invoke_types.specs.Equality.{coded_function};

use crate::arguments::{CreateContractArgs, CreateContractArgsV2, InvokeContractArgs};
use crate::asset::Asset;
use crate::function::Function;
use crate::preimage::Preimage;

impl PartialEq for Asset {
    ghost eq = { is_same coded_asset };

    ghost laws = { partial_equiv_from_equiv (is_same_equiv coded_asset) };

    fn eq(&self, other: &Asset) -> bool
        ensures eq { result ≡ is_same coded_asset self.now other.now }
        ensures exact { Decides result (self.now ≡ other.now) }
    {
        match self {
            Asset::Native => match other {
                Asset::Native => true,
                _ => false,
            },
            Asset::CreditAlphanum4 { code, issuer } => match other {
                Asset::CreditAlphanum4 { code: c, issuer: i } => *code == *c && *issuer == *i,
                _ => false,
            },
            Asset::CreditAlphanum12 { code, issuer } => match other {
                Asset::CreditAlphanum12 { code: c, issuer: i } => *code == *c && *issuer == *i,
                _ => false,
            },
        }
    }
}

impl Eq for Asset {
    ghost laws = { is_same_equiv coded_asset };
}

impl PartialEq for Preimage {
    ghost eq = { is_same coded_preimage };

    ghost laws = { partial_equiv_from_equiv (is_same_equiv coded_preimage) };

    fn eq(&self, other: &Preimage) -> bool
        ensures eq { result ≡ is_same coded_preimage self.now other.now }
        ensures exact { Decides result (self.now ≡ other.now) }
    {
        match self {
            Preimage::FromAddress { address, salt } => match other {
                Preimage::FromAddress {
                    address: a,
                    salt: s,
                } => *address == *a && *salt == *s,
                Preimage::FromAsset(_) => false,
            },
            Preimage::FromAsset(asset) => match other {
                Preimage::FromAsset(a) => *asset == *a,
                Preimage::FromAddress { .. } => false,
            },
        }
    }
}

impl Eq for Preimage {
    ghost laws = { is_same_equiv coded_preimage };
}

impl PartialEq for InvokeContractArgs {
    ghost eq = { is_same coded_invoke };

    ghost laws = { partial_equiv_from_equiv (is_same_equiv coded_invoke) };

    fn eq(&self, other: &InvokeContractArgs) -> bool
        ensures eq { result ≡ is_same coded_invoke self.now other.now }
        ensures exact { Decides result (self.now ≡ other.now) }
    {
        self.contract == other.contract
            && self.function == other.function
            && self.args.is_same(&other.args)
    }
}

impl Eq for InvokeContractArgs {
    ghost laws = { is_same_equiv coded_invoke };
}

impl PartialEq for CreateContractArgs {
    ghost eq = { is_same coded_create };

    ghost laws = { partial_equiv_from_equiv (is_same_equiv coded_create) };

    fn eq(&self, other: &CreateContractArgs) -> bool
        ensures eq { result ≡ is_same coded_create self.now other.now }
        ensures exact { Decides result (self.now ≡ other.now) }
    {
        self.preimage == other.preimage && self.executable == other.executable
    }
}

impl Eq for CreateContractArgs {
    ghost laws = { is_same_equiv coded_create };
}

impl PartialEq for CreateContractArgsV2 {
    ghost eq = { is_same coded_create_v2 };

    ghost laws = { partial_equiv_from_equiv (is_same_equiv coded_create_v2) };

    fn eq(&self, other: &CreateContractArgsV2) -> bool
        ensures eq { result ≡ is_same coded_create_v2 self.now other.now }
        ensures exact { Decides result (self.now ≡ other.now) }
    {
        self.preimage == other.preimage
            && self.executable == other.executable
            && self.constructor_args.is_same(&other.constructor_args)
    }
}

impl Eq for CreateContractArgsV2 {
    ghost laws = { is_same_equiv coded_create_v2 };
}

impl PartialEq for Function {
    ghost eq = { is_same coded_function };

    ghost laws = { partial_equiv_from_equiv (is_same_equiv coded_function) };

    fn eq(&self, other: &Function) -> bool
        ensures eq { result ≡ is_same coded_function self.now other.now }
        ensures exact { Decides result (self.now ≡ other.now) }
    {
        match self {
            Function::ContractFn(args) => match other {
                Function::ContractFn(a) => *args == *a,
                _ => false,
            },
            Function::CreateContract(args) => match other {
                Function::CreateContract(a) => *args == *a,
                _ => false,
            },
            Function::CreateContractV2(args) => match other {
                Function::CreateContractV2(a) => *args == *a,
                _ => false,
            },
        }
    }
}

impl Eq for Function {
    ghost laws = { is_same_equiv coded_function };
}
