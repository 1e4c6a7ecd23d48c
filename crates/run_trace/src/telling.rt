//! The observer: what it keeps of what it is told.

ghost use Rattle.std.specs.Prelude.{◌≡◌, ◌⊎◌, [], ◌∷◌, IsTrue, IsFalse, IsOkAnd};
ghost use Rattle.value_types.specs.declared.address.ScAddress.TheVariants.{Contract};
ghost use Rattle.contract_storage.specs.Watched.{see};
ghost use Rattle.run_trace.specs.Calls.{call_at, innermost, around, with_call};
ghost use Rattle.run_trace.specs.Endings.{took};
ghost use Rattle.run_trace.specs.Shown.{seen_in};
ghost use Rattle.run_trace.specs.Lines.{calls_of, told_of, Keeps, LeavesOut, Tells, IsQuiet};
ghost use Rattle.run_trace.specs.Telling.{TellsThen, TellsMoment, end_of, running, EndsCall, EndsFrame, BeginsFrame};
ghost use Rattle.run_trace.specs.Telling.{BeginsConstructor};
ghost use Rattle.run_trace.specs.declared.line.Manner.TheVariants.{NotRun};
ghost use Rattle.run_trace.specs.declared.line.What.TheVariants.{Called, Accessed, Demanded, Emitted};

use crate::calls::Open;
use crate::copies::{accessed, called, demanded, emitted, ended};
use crate::line::{Line, Manner, What};
use crate::sizes::{size_of_call, size_of_end};
use crate::trace::Trace;
use budget_meter::Used;
use contract_storage::{Access, End, Met, Moment, Outcome, Watch};
use invoke_types::{ContractEvent, Function};
use ledger_types::LedgerKey;
use std::alloc::AllocError;
use value_types::{Hash, ScAddress, ScVal};
use value_xdr::Xdr;

impl Trace {
    // ---- lines

    /// Whether a line with so many bytes of keys and values fits. If so, they are taken from the room.
    fn takes(&mut self, size: u64) -> bool
        ensures lines { self.new.lines.items ≡ self.old.lines.items }
        ensures missed { self.new.missed.items ≡ self.old.missed.items }
        ensures left_out { self.new.left_out ≡ self.old.left_out }
        ensures calls { calls_of self.new ≡ calls_of self.old }
        ensures most { self.new.most ≡ self.old.most }
    {
        if self.left_out > 0 || self.lines.len() >= self.most || size > self.room {
            return false;
        }
        self.room -= size;
        true
    }

    /// Keeps a line as the last one, if none was left out and there is room and memory for it. Returns whether it does.
    fn keep(&mut self, what: Result<What, AllocError>) -> bool
        ensures kept { IsTrue result → IsOkAnd what (λ what. Keeps what self.old self.new) }
        ensures lines { IsFalse result → self.new.lines.items ≡ self.old.lines.items }
        ensures missed { self.new.missed.items ≡ self.old.missed.items }
        ensures left_out { self.new.left_out ≡ self.old.left_out }
        ensures calls { calls_of self.new ≡ calls_of self.old }
        ensures most { self.new.most ≡ self.old.most }
    {
        match what {
            Ok(what) if self.left_out == 0 && self.lines.len() < self.most => {
                let line = Line {
                    depth: self.calls.count(),
                    what,
                };
                self.lines.push(line).is_ok()
            }
            _ => false,
        }
    }

    /// Keeps a line, or counts it.
    fn tell(&mut self, what: Result<What, AllocError>)
        ensures told { IsOkAnd what (λ what. Keeps what self.old self.new) ⊎ LeavesOut [] self.old self.new }
        ensures calls { calls_of self.new ≡ calls_of self.old }
        ensures most { self.new.most ≡ self.old.most }
    {
        if !self.keep(what) {
            self.leave_out();
        }
    }

    /// Counts a line.
    fn leave_out(&mut self)
        ensures told { LeavesOut [] self.old self.new }
        ensures calls { calls_of self.new ≡ calls_of self.old }
        ensures most { self.new.most ≡ self.old.most }
    {
        self.left_out = self.left_out.saturating_add(1);
    }

    /// Counts a line that was to tell of an access.
    fn miss(&mut self, access: Access, key: &LedgerKey)
        ensures told { LeavesOut ((access, key.now) ∷ []) self.old self.new }
        ensures calls { calls_of self.new ≡ calls_of self.old }
        ensures most { self.new.most ≡ self.old.most }
    {
        self.leave_out();
        self.missed = self.missed.and(&access, key);
    }

    /// Tells of a call that begins.
    fn tell_call(&mut self, address: ScAddress, function: &[u8], args: &[ScVal])
        ensures told { Tells (Called address function.now args.now) self.old self.new }
        ensures calls { calls_of self.new ≡ calls_of self.old }
        ensures most { self.new.most ≡ self.old.most }
    {
        let what = if self.takes(size_of_call(function, args)) {
            called(self.alloc, address, function, args)
        } else {
            Err(AllocError)
        };
        self.tell(what);
    }

    /// Tells of an access that was made.
    fn tell_access(&mut self, access: Access, key: &LedgerKey, outcome: Outcome)
        ensures told { Tells (Accessed access key.now outcome) self.old self.new }
        ensures calls { calls_of self.new ≡ calls_of self.old }
        ensures most { self.new.most ≡ self.old.most }
    {
        let what = if self.takes(key.size()) {
            accessed(access, key, outcome)
        } else {
            Err(AllocError)
        };
        if !self.keep(what) {
            self.miss(access, key);
        }
    }

    /// Tells of a demand that was made.
    fn tell_demand(&mut self, address: ScAddress, function: &Function, met: Met)
        ensures told { Tells (Demanded address function.now met) self.old self.new }
        ensures calls { calls_of self.new ≡ calls_of self.old }
        ensures most { self.new.most ≡ self.old.most }
    {
        let what = if self.takes(function.size()) {
            demanded(address, function, met)
        } else {
            Err(AllocError)
        };
        self.tell(what);
    }

    /// Tells of an event that was emitted.
    fn tell_event(&mut self, event: &ContractEvent)
        ensures told { Tells (Emitted event.now) self.old self.new }
        ensures calls { calls_of self.new ≡ calls_of self.old }
        ensures most { self.new.most ≡ self.old.most }
    {
        let what = if self.takes(event.size()) {
            emitted(event)
        } else {
            Err(AllocError)
        };
        self.tell(what);
    }

    /// Tells that a call ended, where `used` are the sums at its end.
    fn tell_end(&mut self, end: End<'_>, used: Used, call: Open)
        ensures told { Tells (end_of end.entry used call) self.old self.new }
        ensures calls { calls_of self.new ≡ calls_of self.old }
        ensures most { self.new.most ≡ self.old.most }
    {
        let what = if self.takes(size_of_end(end)) {
            ended(end, took(call.used, used), call.manner)
        } else {
            Err(AllocError)
        };
        self.tell(what);
    }

    // ---- calls

    /// A call begins with its tests.
    fn begin(&mut self, address: ScAddress, function: &[u8], args: &[ScVal], used: Used)
        ensures told { TellsThen (Called address function.now args.now) (with_call (call_at used NotRun) (calls_of self.old))
            self.old self.new }
        ensures most { self.new.most ≡ self.old.most }
    {
        self.tell_call(address, function, args);
        self.calls.begin(Open {
            used,
            manner: Manner::NotRun,
        });
    }

    /// The call that began last has passed its tests, and begins to run.
    fn run(&mut self, call: Open)
        ensures told { IsQuiet self.old self.new }
        ensures calls { calls_of self.new ≡ running call (calls_of self.old) }
        ensures most { self.new.most ≡ self.old.most }
    {
        self.calls.end();
        self.calls.begin(Open {
            used: call.used,
            manner: Manner::Run,
        });
    }

    /// The frame of a constructor begins.
    fn construct(&mut self, contract: Hash, function: &[u8], args: &[ScVal], used: Used)
        ensures told { BeginsConstructor (Called (Contract contract) function.now args.now) used self.old self.new }
        ensures most { self.new.most ≡ self.old.most }
    {
        self.tell_call(ScAddress::Contract(contract), function, args);
        self.calls.begin(Open {
            used,
            manner: Manner::Constructor,
        });
    }

    /// A frame begins: that of the call that began last, or that of a constructor.
    fn begin_frame(&mut self, contract: Hash, function: &[u8], args: &[ScVal], used: Used)
        ensures told { BeginsFrame (innermost (calls_of self.old)) (Called (Contract contract) function.now args.now) used
            self.old self.new }
        ensures most { self.new.most ≡ self.old.most }
    {
        match self.calls.last() {
            None => self.construct(contract, function, args, used),
            Some(call) => match call.manner {
                Manner::NotRun => self.run(call),
                Manner::Run | Manner::Constructor => {
                    self.construct(contract, function, args, used);
                }
            },
        }
    }

    /// This call, which began last, ends.
    fn end_call(&mut self, end: End<'_>, used: Used, call: Open)
        ensures told { TellsThen (end_of end.entry used call) (around (calls_of self.old)) self.old self.new }
        ensures most { self.new.most ≡ self.old.most }
    {
        self.tell_end(end, used, call);
        self.calls.end();
    }

    /// The frame that began last ends. The end of a call's frame is that of the call, which is told next.
    fn end_frame(&mut self, end: End<'_>, used: Used)
        ensures told { EndsFrame (innermost (calls_of self.old)) end.entry used self.old self.new }
        ensures most { self.new.most ≡ self.old.most }
    {
        match self.calls.last() {
            None => {}
            Some(call) => match call.manner {
                Manner::Constructor => self.end_call(end, used, call),
                Manner::Run | Manner::NotRun => {}
            },
        }
    }

    /// The call that began last ends.
    fn end(&mut self, end: End<'_>, used: Used)
        ensures told { EndsCall (innermost (calls_of self.old)) end.entry used self.old self.new }
        ensures most { self.new.most ≡ self.old.most }
    {
        match self.calls.last() {
            None => self.leave_out(),
            Some(call) => self.end_call(end, used, call),
        }
    }

    // ---- moments

    /// Tells of a moment.
    fn tell_moment(&mut self, moment: Moment<'_>)
        ensures told { TellsMoment moment.entry self.old self.new }
        ensures most { self.new.most ≡ self.old.most }
    {
        match moment {
            Moment::Called {
                address,
                function,
                args,
                used,
                ..
            } => self.begin(address, function, args, used),
            Moment::Begun {
                contract,
                function,
                args,
                used,
                ..
            } => self.begin_frame(contract, function, args, used),
            Moment::Demanded {
                address,
                function,
                met,
            } => self.tell_demand(address, function, met),
            Moment::Emitted { event } => self.tell_event(event),
            Moment::Ended { end, used } => self.end_frame(end, used),
            Moment::Returned { end, used } => self.end(end, used),
        }
    }
}

/// What was taken between two sums.
fn took(begun: Used, used: Used) -> Used
    ensures { result ≡ took begun used }
{
    Used {
        instructions: used.instructions.saturating_sub(begun.instructions),
        memory: used.memory.saturating_sub(begun.memory),
    }
}

impl Watch for Trace {
    ghost seen = { λ trace. seen_in (told_of trace) };

    fn is_on(&self) -> bool {
        true
    }

    fn accessed(&mut self, access: Access, key: &LedgerKey, outcome: Outcome)
        ensures seen { seen_in (told_of self.new) ≡ see access key.now (seen_in (told_of self.old)) }
        ensures told { TellsThen (Accessed access key.now outcome) (calls_of self.old) self.old self.new }
        ensures most { self.new.most ≡ self.old.most }
    {
        self.tell_access(access, key, outcome);
    }

    fn told(&mut self, moment: Moment<'_>)
        ensures seen { seen_in (told_of self.new) ≡ seen_in (told_of self.old) }
        ensures told { TellsMoment moment.entry self.old self.new }
        ensures most { self.new.most ≡ self.old.most }
    {
        self.tell_moment(moment);
    }
}
