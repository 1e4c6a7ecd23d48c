//! The generated transaction set.

ghost use Rattle.std.specs.Prelude.{◌≡◌, ◌<◌, ◌≤◌, IfOk, length};
ghost use Rattle.tx_xdr.specs.Set.{set_format};
ghost use Rattle.set_generator.specs.GeneratedContracts.{bump_hash as bump_hash_in};
ghost use Rattle.set_generator.specs.GeneratedSet.{bump_call, bump_data, envelope_for, stage_count as stage_count_in};
ghost use Rattle.set_generator.specs.GeneratedSet.{generated_set as generated_set_in};
ghost use Rattle.set_generator.specs.Drawn.{drawn_cluster, drawn_stage, drawn_stages};

use crate::contracts::{address, bump_hash, counter_key, instance_key, text};
use crate::draws::draw_contracts;
use invoke_types::{Args, HostFunction, InvokeContractArgs};
use ledger_types::LedgerKey;
use std::alloc::Global;
use tx_parts::{Memo, MuxedAccount, Preconditions};
use tx_xdr::{
    Cluster, Envelope, Footprint, Operation, OperationBody, Phase, SignedTransaction, SorobanData,
    Stage, Transaction, TransactionExt, TxSet,
};
use value_types::{Bytes, Hash, Items};
use xdr_core::NoMemory;

/// The number of transactions of a full stage.
const STAGE_SIZE: u32 = 512;

/// The number of clusters of a stage.
const CLUSTERS: u32 = 8;

/// Returns the operation that calls `bump` of a contract.
fn bump_call(alloc: Global, number: u8) -> Result<Operation, NoMemory>
    ensures { IfOk result (λ operation. operation ≡ bump_call number) }
{
    let function = Bytes::from_blob(text(alloc, b"bump")?);
    let args = InvokeContractArgs {
        contract: address(number),
        function,
        args: Args::none(),
    };
    Ok(Operation {
        source: None,
        body: OperationBody::InvokeHostFunction {
            host_function: HostFunction::InvokeContract(args),
            auth: Items::from_vec(Vec::new(alloc)),
        },
    })
}

/// Returns the footprint of that call.
fn bump_footprint(alloc: Global, number: u8, code: Hash) -> Result<Footprint, NoMemory>
    requires { code ≡ bump_hash_in }
    ensures { IfOk result (λ footprint. footprint ≡ (bump_data number).footprint) }
{
    let counter = counter_key(alloc, number)?;
    let mut read_only = Vec::new(alloc);
    read_only.push(instance_key(number))?;
    read_only.push(LedgerKey::ContractCode(code))?;
    let mut read_write = Vec::new(alloc);
    read_write.push(counter)?;
    Ok(Footprint {
        read_only: Items::from_vec(read_only),
        read_write: Items::from_vec(read_write),
    })
}

/// Returns transaction `k`, which calls the contract of this number.
fn envelope(alloc: Global, number: u8, k: u32, code: Hash) -> Result<Envelope, NoMemory>
    requires { code ≡ bump_hash_in }
    ensures { IfOk result (λ envelope. envelope ≡ envelope_for number k) }
{
    let footprint = bump_footprint(alloc, number, code)?;
    let operation = bump_call(alloc, number)?;
    let mut operations = Vec::new(alloc);
    operations.push(operation)?;
    let tx = Transaction {
        source: MuxedAccount::Ed25519(Hash([0; 32])),
        fee: 100,
        seq_num: k as i64 + 1,
        preconditions: Preconditions::None,
        memo: Memo::None,
        operations: Items::from_vec(operations),
        ext: TransactionExt::Soroban(SorobanData {
            footprint,
            instructions: 2000,
            disk_read_bytes: 356,
            write_bytes: 76,
            resource_fee: 0,
        }),
    };
    Ok(Envelope::Transaction(SignedTransaction {
        tx,
        signatures: Items::from_vec(Vec::new(alloc)),
    }))
}

/// Returns a cluster of a stage: those transactions of the stage whose contract's number modulo 8 is that of the cluster.
fn cluster(
    alloc: Global,
    drawn: &[u8],
    stage: u32,
    cluster: u32,
    code: Hash,
) -> Result<Cluster, NoMemory>
    requires code { code ≡ bump_hash_in }
    requires drawn { length drawn.now ≤ 100000 }
    requires stages { stage < 1000 }
    ensures { IfOk result (λ made. made ≡ drawn_cluster drawn.now stage cluster) }
{
    let mut envelopes = Vec::new(alloc);
    let first = STAGE_SIZE * stage;
    let size = STAGE_SIZE.min((drawn.len() as u32).saturating_sub(first));
    for j in 0..size {
        let number = drawn[(first + j) as usize];
        if u32::from(number) % CLUSTERS == cluster {
            let envelope = envelope(alloc, number, first + j, code)?;
            envelopes.push(envelope)?;
        }
    }
    Ok(Cluster {
        envelopes: Items::from_vec(envelopes),
    })
}

/// Returns a stage with its 8 clusters.
fn stage(alloc: Global, drawn: &[u8], stage: u32, code: Hash) -> Result<Stage, NoMemory>
    requires code { code ≡ bump_hash_in }
    requires drawn { length drawn.now ≤ 100000 }
    requires stages { stage < 1000 }
    ensures { IfOk result (λ made. made ≡ drawn_stage drawn.now stage) }
{
    let mut clusters = Vec::new(alloc);
    for number in 0..CLUSTERS {
        let cluster = cluster(alloc, drawn, stage, number, code)?;
        clusters.push(cluster)?;
    }
    Ok(Stage {
        clusters: Items::from_vec(clusters),
    })
}

/// Returns the first stages, this many.
fn stages(alloc: Global, drawn: &[u8], count: u32) -> Result<Vec<Stage>, NoMemory>
    requires drawn { length drawn.now ≤ 100000 }
    requires stages { count < 1000 }
    ensures { IfOk result (λ made. made.items ≡ drawn_stages drawn.now count) }
{
    let code = bump_hash();
    let mut stages = Vec::new(alloc);
    for number in 0..count {
        let stage = stage(alloc, drawn, number, code)?;
        stages.push(stage)?;
    }
    Ok(stages)
}

/// Returns the number of stages of a generated set.
pub fn stage_count(count: u32) -> u32
    requires { count ≤ 100000 }
    ensures { result ≡ stage_count_in count }
{
    (count + (STAGE_SIZE - 1)) / STAGE_SIZE
}

/// Makes a set of `count` transactions, which are drawn from a seed. It takes O(count) time and memory.
pub fn generated_set(alloc: Global, count: u32, seed: u64) -> Result<TxSet, NoMemory>
    requires { count ≤ 100000 }
    ensures value { IfOk result (λ set. set ≡ generated_set_in count seed) }
    ensures fits { IfOk result (λ set. set_format.fits set) }
{
    let drawn = draw_contracts(alloc, count, seed)?;
    let stages = stages(alloc, &drawn, stage_count(count))?;
    let mut phases = Vec::new(alloc);
    phases.push(Phase::Parallel {
        base_fee: None,
        stages: Items::from_vec(stages),
    })?;
    Ok(TxSet {
        previous_ledger_hash: Hash([0; 32]),
        phases: Items::from_vec(phases),
    })
}
