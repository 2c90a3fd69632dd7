ghost use Rattle.std.specs.Prelude.{◌≡◌, ◌↔◌, ◌+◌, ◌≤◌, [], ◌++◌, min, Some, length, take, IsOk, IsErr, IfOk, OnOk, OnErr};
ghost use Rattle.pst_base.specs.Fault.{HasRisen};
ghost use Rattle.pst_io.specs.Planned.{FailsNext, after_answer, after_fault};

use crate::fault::Failed;
use crate::fault_plan::FaultPlan;
use crate::sink::Sink;
use crate::sure_sink::SureSink;
use pst_base::NoMemory;
use std::alloc::Global;
use std::marker::Model;

/// A sink in memory that takes at most a given number of bytes at a time, and some of whose writes fail.
///
/// Writes are counted from 1. A write fails exactly where its number is listed, and then changes nothing but the counts.
#[derive(Drop)]
pub struct MemorySink {
    sink: SureSink,
    plan: FaultPlan,
}

impl Model for MemorySink {
    ghost use Rattle.pst_io.specs.Failing.{FailingSink};

    ghost Value = { FailingSink };

    ghost use Rattle.pst_io.specs.MemorySink.{failing_sink};

    ghost view = { failing_sink };
}

impl MemorySink {
    /// An empty sink that takes at most `most` bytes at a time. The writes of the numbers in `failing` fail.
    pub fn new(alloc: Global, most: usize, failing: Vec<u64>) -> MemorySink
        requires { 1 ≤ most }
        ensures { result ≡ record {
          written = [];
          spare = 0;
          most = most;
          plan = record { failing = failing.items; next = Some 1; faults = 0 };
        } }
    {
        MemorySink {
            sink: SureSink::new(alloc, most),
            plan: FaultPlan::new(failing),
        }
    }

    /// The bytes written so far.
    pub fn bytes(&self) -> &[u8]
        ensures { result.now ≡ self.now.written }
    {
        self.sink.bytes()
    }
}

impl Sink for MemorySink {
    ghost written = { λ sink. Some sink.written };

    ghost spare = { λ sink. sink.spare };

    ghost faults = { λ sink. sink.plan.faults };

    fn reserve(&mut self, more: usize) -> Result<(), NoMemory>
        ensures room { OnOk result (more ≤ self.new.spare) }
        ensures sink { self.new ≡ record self.old { spare = self.new.spare } }
        ensures kept { self.old.spare ≤ self.new.spare }
        ensures refused { OnErr result (self.new ≡ self.old) }
        ensures enough { more ≤ self.old.spare → IsOk result }
    {
        self.sink.reserve(more)
    }

    fn write(&mut self, piece: &[u8]) -> Result<usize, Failed>
        requires { length piece.now ≤ self.old.spare }
        ensures fails { IsErr result ↔ FailsNext self.old.plan }
        ensures failed { OnErr result (self.new ≡ record self.old { plan = after_fault self.old.plan }) }
        ensures risen { OnErr result (HasRisen self.old.plan.faults self.new.plan.faults) }
        ensures answer { IfOk result (λ n. n ≡ min self.old.most (length piece.now)) }
        ensures some { OnOk result (1 ≤ self.old.most) }
        ensures answered { OnOk result (self.new ≡ record self.old {
          written = self.old.written ++ take self.old.most piece.now;
          spare = self.new.spare;
          plan = after_answer self.old.plan;
        }) }
        ensures room { self.old.spare ≤ self.new.spare + min self.old.most (length piece.now) }
    {
        self.plan.count_call()?;
        self.sink.write(piece)
    }
}
