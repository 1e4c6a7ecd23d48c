//! A gate at which clusters of transactions meet.

use crate::gate::Gate;
use std::sync::atomic::{AtomicU64, Ordering};
use std::thread::yield_now;

/// After this many looks the thread lets other threads run, so that two threads also meet on one processor.
const LOOKS: u32 = 1_000;

/// A gate for tests, at which clusters of a stage meet: it holds each of them until all have entered, for at most so many turns.
/// Other clusters enter at once. One gate serves one stage.
#[derive(Drop)]
pub struct MeetGate {
    expected: u64,
    turns: u32,
    entered: AtomicU64,
    met: AtomicU64,
}

/// Returns the bit of a cluster, or 0 if its index is above 63.
fn bit_of(cluster: usize) -> u64 {
    if cluster < 64 { 1 << cluster } else { 0 }
}

impl MeetGate {
    /// Makes a gate that no cluster has entered. The clusters that meet are those whose bits `expected` has: bit n is that of the
    /// cluster at index n.
    pub fn new(expected: u64, turns: u32) -> MeetGate {
        MeetGate {
            expected,
            turns,
            entered: AtomicU64::new(0),
            met: AtomicU64::new(0),
        }
    }

    /// Whether each of the clusters saw that all had entered, before its turns were spent.
    pub fn met(&self) -> bool {
        self.met.load(Ordering::SeqCst) == self.expected
    }

    /// Whether all clusters that meet have entered.
    fn all_entered(&self) -> bool {
        self.entered.load(Ordering::SeqCst) == self.expected
    }
}

impl Gate for MeetGate {
    fn enter(&self, _stage: usize, cluster: usize) {
        let bit = bit_of(cluster) & self.expected;
        if bit == 0 {
            return;
        }
        self.entered.fetch_or(bit, Ordering::SeqCst);
        for turn in 0..self.turns {
            if self.all_entered() {
                self.met.fetch_or(bit, Ordering::SeqCst);
                return;
            }
            if turn % LOOKS == 0 {
                yield_now();
            }
        }
    }
}
