ghost use Rattle.std.specs.Prelude.{◌≡◌, ◌↔◌, [], ◌∷◌, ◌++◌, ◌+◌, min, Some, IfOk, IsErrOf};
ghost use Rattle.pst_base.specs.Fault.{HasRisen, last_count};
ghost use Rattle.pst_target.specs.Scripted.{answer_of, number_after};

use crate::call::Call;
use crate::sure_target::SureTarget;
use crate::target::{CallEnd, Target};
use std::alloc::Global;
use std::marker::Model;

/// A target in memory that answers each call by the function's number, but for one call that fails.
///
/// Calls are counted from 1, also the one that fails. A call that finds no memory changes nothing and isn't counted.
#[derive(Drop)]
pub struct ScriptTarget {
    target: SureTarget,
    failing: u64,
    next: Option<u64>,
    faults: u64,
}

impl Model for ScriptTarget {
    ghost use Rattle.pst_target.specs.Scripted.{AnsweringOrFailing};

    ghost Value = { AnsweringOrFailing };

    ghost use Rattle.pst_target.specs.ScriptTarget.{answering_or_failing};

    ghost view = { answering_or_failing };
}

impl ScriptTarget {
    /// A target that answers `answers[function]`, or 0 beyond the list, and whose call of the number `failing` fails. No
    /// call has the number 0. It takes no memory yet.
    pub fn new(alloc: Global, answers: Vec<i64>, failing: u64) -> ScriptTarget
        ensures { result ≡ record {
          answers = answers.items;
          calls = [];
          failing = failing;
          next = Some 1;
          faults = 0;
        } }
    {
        ScriptTarget {
            target: SureTarget::new(alloc, answers),
            failing,
            next: Some(1),
            faults: 0,
        }
    }

    /// The answered calls, in order.
    pub fn calls(&self) -> &[Call]
        ensures { result.now ≡ self.now.calls }
    {
        self.target.calls()
    }

    /// Counts a call.
    fn count_call(&mut self)
        ensures { self.new ≡ record self.old { next = number_after self.old.next } }
    {
        self.next = self.next.and_then(|n| n.checked_add(1));
    }
}

impl Target for ScriptTarget {
    ghost calls = { λ target. Some target.calls };

    ghost faults = { λ target. target.faults };

    fn call(&mut self, function: u32, arguments: &[i64]) -> Result<i64, CallEnd>
        ensures fails { IsErrOf result CallEnd.Failed ↔ (self.old.next ≡ Some self.old.failing) }
        ensures failed { IsErrOf result CallEnd.Failed → self.new ≡ record self.old {
          next = number_after self.old.next;
          faults = min (self.old.faults + 1) last_count;
        } }
        ensures risen { IsErrOf result CallEnd.Failed → HasRisen self.old.faults self.new.faults }
        ensures answer { IfOk result (λ answer. answer ≡ answer_of self.old.answers function) }
        ensures noted { IfOk result (λ answer. self.new ≡ record self.old {
          calls = self.old.calls ++ record { function = function; arguments = arguments.now; answer = answer } ∷ [];
          next = number_after self.old.next;
        }) }
        ensures no_memory { IsErrOf result CallEnd.NoMemory → self.new ≡ self.old }
    {
        if self.next == Some(self.failing) {
            self.count_call();
            self.faults = self.faults.saturating_add(1);
            return Err(CallEnd::Failed);
        }
        let answer = self.target.call(function, arguments)?;
        self.count_call();
        Ok(answer)
    }
}
