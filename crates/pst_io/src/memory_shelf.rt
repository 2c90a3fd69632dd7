ghost use Rattle.std.specs.Prelude.{◌≡◌, ◌↔◌, [], ◌++◌, min, Some, length, take, drop, IsErr, IfOk, OnOk, OnErr};
ghost use Rattle.std.specs.Option.{is_some, unwrap_or};
ghost use Rattle.pst_base.specs.Fault.{HasRisen};
ghost use Rattle.pst_io.specs.Named.{file_of};
ghost use Rattle.pst_io.specs.Planned.{FailsNext, after_answer, after_fault};
ghost use Rattle.pst_io.specs.SureShelf.{named};

use crate::fault::Failed;
use crate::fault_plan::FaultPlan;
use crate::shelf::Shelf;
use crate::sure_shelf::SureShelf;
use std::marker::Model;

/// A shelf in memory, some of whose calls fail.
///
/// Calls of `open` and `read` are counted together from 1. A call fails exactly where its number is listed, and then
/// changes nothing but the counts. Of two files with one name the first one counts. Before the first file is opened
/// nothing is left to read.
#[derive(Drop)]
pub struct MemoryShelf {
    shelf: SureShelf,
    plan: FaultPlan,
}

impl Model for MemoryShelf {
    ghost use Rattle.pst_io.specs.Failing.{FailingShelf};

    ghost Value = { FailingShelf };

    ghost use Rattle.pst_io.specs.MemoryShelf.{failing_shelf};

    ghost view = { failing_shelf };
}

impl MemoryShelf {
    /// A shelf with these files, none of which is open. The calls of the numbers in `failing` fail.
    pub fn new(files: Vec<(String, Vec<u8>)>, failing: Vec<u64>) -> MemoryShelf
        ensures { result ≡ record {
          files = named files.items;
          rest = [];
          plan = record { failing = failing.items; next = Some 1; faults = 0 };
        } }
    {
        MemoryShelf {
            shelf: SureShelf::new(files),
            plan: FaultPlan::new(failing),
        }
    }
}

impl Shelf for MemoryShelf {
    ghost files = { λ shelf. Some (file_of shelf.files) };

    ghost rest = { λ shelf. Some shelf.rest };

    ghost faults = { λ shelf. shelf.plan.faults };

    fn open(&mut self, name: &str) -> Result<bool, Failed>
        ensures fails { IsErr result ↔ FailsNext self.old.plan }
        ensures failed { OnErr result (self.new ≡ record self.old { plan = after_fault self.old.plan }) }
        ensures risen { OnErr result (HasRisen self.old.plan.faults self.new.plan.faults) }
        ensures answer { IfOk result (λ found. found ≡ is_some (file_of self.old.files name.now)) }
        ensures answered { OnOk result (self.new ≡ record self.old {
          rest = unwrap_or (file_of self.old.files name.now) self.old.rest;
          plan = after_answer self.old.plan;
        }) }
    {
        self.plan.count_call()?;
        self.shelf.open(name)
    }

    fn read(&mut self, into: &mut [u8]) -> Result<usize, Failed>
        ensures fails { IsErr result ↔ FailsNext self.old.plan }
        ensures failed { OnErr result (self.new ≡ record self.old { plan = after_fault self.old.plan }) }
        ensures risen { OnErr result (HasRisen self.old.plan.faults self.new.plan.faults) }
        ensures untouched { OnErr result (into.new ≡ into.old) }
        ensures answer { IfOk result (λ n. n ≡ min (length into.old) (length self.old.rest)) }
        ensures piece { OnOk result
            (into.new ≡ take (length into.old) self.old.rest ++ drop (length self.old.rest) into.old) }
        ensures answered { OnOk result (self.new ≡ record self.old {
          rest = drop (length into.old) self.old.rest;
          plan = after_answer self.old.plan;
        }) }
    {
        self.plan.count_call()?;
        self.shelf.read(into)
    }
}
