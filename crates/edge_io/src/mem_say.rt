//! An output in memory.

ghost use Rattle.std.specs.Prelude.{◌≡◌, ℕ, ◌+◌, ◌-◌, ◌<◌, ◌≤◌, ◌^◌, ◌↔◌, [], ◌++◌, Some, refl, take, IsErrOf};
ghost use Rattle.edge_io.specs.Counts.{OnFailed, Rose, UnlessFailed, raised};
ghost use Rattle.edge_io.specs.Text.{Says};

use crate::turns::is_listed;
use crate::{EdgeErr, Say};
use std::alloc::{AllocError, Global};

/// An output in memory. The calls of `say` are numbered from 0, and those with listed numbers fail.
#[derive(Drop)]
pub struct MemSay {
    text: Vec<u8>,
    count: u64,
    calls: u64,
    failing: Vec<u64>,
}

impl MemSay {
    ghost use Rattle.edge_io.specs.MemSay.{calls_of, failing_of, faults_of, text_of, IsSteady};

    /// An empty text; the calls of these numbers will fail.
    pub fn new(alloc: Global, failing: Vec<u64>) -> MemSay
        ensures text { text_of result ≡ Some [] }
        ensures count { faults_of result ≡ 0 }
        ensures calls { calls_of result ≡ 0 }
        ensures listed { failing_of result ≡ failing.items }
        ensures steady { failing.items ≡ [] → IsSteady result }
    {
        MemSay {
            text: Vec::new(alloc),
            count: 0,
            calls: 0,
            failing,
        }
    }

    /// The text so far.
    pub fn text(&self) -> &[u8]
        ensures { Some result.now ≡ text_of self.now }
    {
        &self.text
    }
}

impl Say for MemSay {
    ghost use Rattle.edge_io.specs.MemSay.{faults_of, text_of, CountsCall, FailsNext, IsSteady};

    ghost text = { text_of };

    ghost faults = { faults_of };

    ghost steady = { IsSteady };

    ghost steady_tells = { λ m steady. refl };

    ghost steady_below = { λ m steady. steady.1 };

    fn faults(&self) -> u64 {
        self.count
    }

    fn say(&mut self, bytes: &[u8]) -> Result<(), EdgeErr>
        ensures said { Says result bytes.now (text_of self.old) (text_of self.new) }

        ensures counts { faults_of self.old ≤ faults_of self.new }
        ensures cause { OnFailed result (Rose (faults_of self.old) (faults_of self.new)) }
        ensures steady { IsSteady self.old →
            OnFailed result ⊥ × IsSteady self.new × (faults_of self.new ≡ faults_of self.old) }

        // The call fails exactly if it is listed. Only then the count rises, by one.
        ensures exact { IsErrOf result EdgeErr.Failed ↔ FailsNext self.old }
        ensures raised { OnFailed result (faults_of self.new ≡ raised (faults_of self.old)) }
        ensures kept { UnlessFailed result (faults_of self.new ≡ faults_of self.old) }
        ensures counted { CountsCall self.old self.new }
    {
        if is_listed(&mut self.calls, &self.failing) {
            // A failing call appends the first half of the bytes.
            let _ = self.text.extend_from_slice(&bytes[..bytes.len() / 2]);
            self.count = self.count.saturating_add(1);
            return Err(EdgeErr::Failed);
        }
        match self.text.extend_from_slice(bytes) {
            Ok(()) => Ok(()),
            Err(AllocError) => Err(EdgeErr::NoMemory),
        }
    }
}
