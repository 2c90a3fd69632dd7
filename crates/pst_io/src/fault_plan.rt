ghost use Rattle.std.specs.Prelude.{◌≡◌, ◌↔◌, Some, OnOk, OnErr, IsErr};
ghost use Rattle.pst_base.specs.Fault.{HasRisen};
ghost use Rattle.pst_io.specs.Planned.{FailsNext, after_answer, after_fault};

use crate::fault::Failed;
use std::marker::Model;

/// Which calls of an object in memory fail, by their numbers from 1.
#[derive(Drop)]
pub struct FaultPlan {
    failing: Vec<u64>,
    next: Option<u64>,
    faults: u64,
}

impl Model for FaultPlan {
    ghost use Rattle.pst_io.specs.Planned.{PlannedFaults};

    ghost Value = { PlannedFaults };

    ghost use Rattle.pst_io.specs.FaultPlan.{planned_faults};

    ghost view = { planned_faults };
}

impl FaultPlan {
    /// The calls of these numbers fail, and no other.
    pub fn new(failing: Vec<u64>) -> FaultPlan
        ensures { result ≡ record { failing = failing.items; next = Some 1; faults = 0 } }
    {
        FaultPlan {
            failing,
            next: Some(1),
            faults: 0,
        }
    }

    /// Counts a call, which fails exactly where its number is listed.
    pub fn count_call(&mut self) -> Result<(), Failed>
        ensures fails { IsErr result ↔ FailsNext self.old }
        ensures answered { OnOk result (self.new ≡ after_answer self.old) }
        ensures failed { OnErr result (self.new ≡ after_fault self.old) }
        ensures risen { OnErr result (HasRisen self.old.faults self.new.faults) }
    {
        let number = self.next;
        self.next = number.and_then(|n| n.checked_add(1));
        if number.is_some_and(|n| self.failing.contains(&n)) {
            self.faults = self.faults.saturating_add(1);
            return Err(Failed);
        }
        Ok(())
    }
}
