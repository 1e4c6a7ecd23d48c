//! What a host function does to the ledger.

ghost use Rattle.std.specs.Prelude.{◌≡◌, All, IfSome};
ghost use Rattle.std.specs.Option.{option_map};
ghost use Rattle.value_types.specs.Formats.{scval_format};
ghost use Rattle.invoke_types.specs.HostFunction.{host_function_format};
ghost use Rattle.call_spec.specs.WholeRuns.{work_of, creation_of};
ghost use Rattle.tx_steps.specs.Jobs.{work_in, values_in, values_lent, datums_in, IsSpelled};

use invoke_types::{HostFunction, Preimage};
use value_types::{Executable, Hash, ScAddress, ScVal};

/// What a host function does.
#[derive(Drop)]
pub enum Job<'f> {
    /// Calls a function of a contract.
    Call {
        contract: ScAddress,
        function: &'f [u8],
        args: &'f [ScVal],
    },
    /// Uploads a code.
    Upload(&'f [u8]),
    /// Creates a contract. Without constructor arguments it is a CREATE_CONTRACT, with them, even with none, a
    /// CREATE_CONTRACT_V2.
    Create {
        deployer: ScAddress,
        /// The hash of its code.
        code: Hash,
        salt: Hash,
        args: Option<&'f [ScVal]>,
    },
}

/// Returns the create of a contract, or `None` if the contract would be that of an asset.
fn creation<'f>(
    preimage: &Preimage,
    executable: &Executable,
    args: Option<&'f [ScVal]>,
) -> Option<Job<'f>>
    requires { All scval_format.fits (values_lent args) }
    ensures work { option_map work_in result ≡ creation_of preimage.now executable.now (option_map datums_in args.entry) }
    ensures spelled { IfSome result IsSpelled }
{
    let Preimage::FromAddress { address, salt } = preimage else {
        return None;
    };
    let Executable::Wasm(code) = executable else {
        return None;
    };
    Some(Job::Create {
        deployer: *address,
        code: *code,
        salt: *salt,
        args,
    })
}

/// Returns what a host function does, or `None` if it is malformed.
pub fn job_of(function: &HostFunction) -> Option<Job<'_>>
    requires { host_function_format.fits function.now }
    ensures work { option_map work_in result ≡ work_of function.now }
    ensures spelled { IfSome result IsSpelled }
{
    match function {
        HostFunction::InvokeContract(call) => Some(Job::Call {
            contract: call.contract,
            function: call.function.as_blob().as_slice(),
            args: call.args.as_slice(),
        }),
        HostFunction::UploadContractWasm(code) => Some(Job::Upload(code.as_slice())),
        HostFunction::CreateContract(made) => creation(&made.preimage, &made.executable, None),
        HostFunction::CreateContractV2(made) => creation(
            &made.preimage,
            &made.executable,
            Some(made.constructor_args.as_slice()),
        ),
    }
}

/// Returns the arguments of a call or of a constructor.
pub fn values<'f>(job: &Job<'f>) -> &'f [ScVal]
    ensures { result.now ≡ values_in job.now }
{
    match job {
        Job::Call { args, .. } => args,
        Job::Upload(_) => &[],
        Job::Create { args, .. } => match args {
            None => &[],
            Some(args) => args,
        },
    }
}
