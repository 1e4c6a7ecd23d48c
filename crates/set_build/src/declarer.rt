//! Who declares the keys of a stage.

ghost use Rattle.std.specs.Prelude.{◌≡◌, ◌∷◌, [], All, OnOk};
ghost use Rattle.stage_runs.specs.Maps.{Bytes};
ghost use Rattle.set_build.specs.Known.{declared_too, who, named, noted, noted_by, bytes_in, IsMarked, AreMarked};
ghost use Rattle.set_build.specs.Known.{met_on, met_all, met_by};

use crate::envelope_keys::{EnvelopeKeys, KeyBytes};
use crate::met::Met;
use std::collections::BTreeMap;
use xdr_core::NoMemory;

/// Who declares a key in a stage without a conflict. A key that is declared read-write is declared by one cluster alone.
#[derive(Clone, Copy)]
pub(crate) struct Declarer {
    /// The index of the first cluster that declared the key.
    cluster: usize,
    /// Whether that cluster declares it read-write.
    writes: bool,
    /// Whether another cluster declares it, too.
    shared: bool,
}

/// Who declares each key of a stage, by the key's XDR bytes.
pub(crate) type Declarers = BTreeMap<KeyBytes, Declarer>;

// ---- what the keys tell

/// Returns the clusters that a transaction meets on a key.
fn met_on(found: Option<Declarer>, writes: bool) -> Met
    ensures { result ≡ met_on writes found }
{
    match found {
        None => Met::None,
        Some(declarer) => {
            if writes {
                if declarer.shared {
                    Met::Many
                } else {
                    Met::One(declarer.cluster)
                }
            } else if declarer.writes {
                Met::One(declarer.cluster)
            } else {
                Met::None
            }
        }
    }
}

/// Adds the clusters that a transaction meets on these keys.
fn met_all(declarers: &Declarers, keys: &[KeyBytes], writes: bool, met: Met) -> Met
    requires { All IsMarked keys.now }
    ensures { result ≡ met_all (who declarers.now) writes met (bytes_in keys.now) }
{
    let mut all = met;
    for key in keys {
        all = all.with(met_on(declarers.get(key).copied(), writes));
    }
    all
}

/// Returns the clusters that a transaction meets, by O(k log n) comparisons, where it declares k keys.
pub(crate) fn met_by(declarers: &Declarers, keys: &EnvelopeKeys) -> Met
    requires { AreMarked keys.now }
    ensures { result ≡ met_by (who declarers.now) (named keys.now) }
{
    let written = met_all(declarers, &keys.read_write, true, Met::None);
    met_all(declarers, &keys.read_only, false, written)
}

// ---- a transaction that joins a cluster

/// Returns who declares a key after the cluster with this index declares it.
fn declared_too(found: Option<Declarer>, number: usize, writes: bool) -> Declarer
    ensures { result ≡ declared_too number writes found }
{
    match found {
        None => Declarer {
            cluster: number,
            writes,
            shared: false,
        },
        Some(declarer) => {
            if declarer.cluster == number {
                Declarer {
                    writes: declarer.writes || writes,
                    ..declarer
                }
            } else {
                Declarer {
                    shared: true,
                    ..declarer
                }
            }
        }
    }
}

/// Notes that a cluster declares a key.
fn note(
    declarers: &mut Declarers,
    key: KeyBytes,
    number: usize,
    writes: bool,
) -> Result<(), NoMemory>
    requires { IsMarked key }
    ensures { OnOk result
        ((q : Bytes) → who declarers.new q ≡ noted number writes (key.1.items ∷ []) (who declarers.old) q) }
{
    let found = declarers.get(&key).copied();
    declarers.insert(key, declared_too(found, number, writes))?;
    Ok(())
}

/// Notes that a cluster declares these keys.
fn note_all(
    declarers: &mut Declarers,
    keys: Vec<KeyBytes>,
    number: usize,
    writes: bool,
) -> Result<(), NoMemory>
    requires { All IsMarked keys.items }
    ensures { OnOk result
        ((q : Bytes) → who declarers.new q ≡ noted number writes (bytes_in keys.items) (who declarers.old) q) }
{
    for key in keys {
        note(declarers, key, number, writes)?;
    }
    Ok(())
}

/// Notes the keys of a transaction that joins the cluster with this index.
pub(crate) fn note_by(
    declarers: &mut Declarers,
    keys: EnvelopeKeys,
    number: usize,
) -> Result<(), NoMemory>
    requires { AreMarked keys }
    ensures { OnOk result ((q : Bytes) → who declarers.new q ≡ noted_by number (named keys) (who declarers.old) q) }
{
    let EnvelopeKeys {
        read_write,
        read_only,
    } = keys;
    note_all(declarers, read_write, number, true)?;
    note_all(declarers, read_only, number, false)
}
