ghost use Rattle.std.specs.Prelude.{◌≡◌, ℕ, List, Option, IfOk, OnErr};
ghost use Rattle.pst_target.specs.declared.call.Call.{Call as AnsweredCall};
ghost use Rattle.pst_target.specs.declared.target.CallEnd.TheVariants.{NoMemory as OutOfMemory};
ghost use Rattle.pst_target.specs.Calls.{with_call};

use std::alloc::{AllocError, AllocFailed};

/// Why a call wasn't answered.
#[derive(Clone, Copy, Debug, PartialEq, Eq)]
pub enum CallEnd {
    /// The target failed, and its count of faults has risen, or stands at its last value.
    Failed,
    /// Memory ran out.
    NoMemory,
}

impl From<AllocError> for CallEnd {
    ghost from_gives = { λ _ end. end ≡ OutOfMemory };

    fn from(_error: AllocError) -> CallEnd {
        CallEnd::NoMemory
    }
}

impl<T: Drop> From<AllocFailed<T>> for CallEnd {
    ghost from_gives = { λ _ end. end ≡ OutOfMemory };

    fn from(_error: AllocFailed<T>) -> CallEnd {
        CallEnd::NoMemory
    }
}

/// A lane that answers the calls of bodies.
///
/// `calls` is the answered calls in order, or `None` where the target doesn't tell them. `faults` counts the calls that
/// failed.
pub trait Target: Drop {
    ghost use Rattle.pst_target.specs.CallEnd.{CountsFault};

    ghost calls: { Self → Option (List AnsweredCall) };

    ghost faults: { Self → ℕ };

    /// Calls a function. Its arguments and its answer are noted in the list; a call that isn't answered isn't in it.
    fn call(&mut self, function: u32, arguments: &[i64]) -> Result<i64, CallEnd>
        ensures answered { IfOk result (λ answer.
            calls self.new ≡ with_call (calls self.old) function arguments.now answer) }
        ensures unanswered { OnErr result (calls self.new ≡ calls self.old) }
        ensures count { CountsFault result (faults self.old) (faults self.new) };
}
