ghost use Rattle.std.specs.Prelude.{◌≡◌, [], ◌∷◌, ◌++◌, Some, IfOk, OnErr, IfErr};
ghost use Rattle.pst_target.specs.Scripted.{answer_of};

use crate::call::{Call, CallArguments};
use crate::target::{CallEnd, Target};
use std::alloc::Global;
use std::marker::Model;

/// A target in memory that answers each call by the function's number, and never fails.
#[derive(Drop)]
pub struct SureTarget {
    answers: Vec<i64>,
    calls: Vec<Call>,
}

impl Model for SureTarget {
    ghost use Rattle.pst_target.specs.Scripted.{Answering};

    ghost Value = { Answering };

    ghost use Rattle.pst_target.specs.SureTarget.{answering};

    ghost view = { answering };
}

impl SureTarget {
    /// A target that answers `answers[function]`, or 0 beyond the list. It takes no memory yet.
    pub fn new(alloc: Global, answers: Vec<i64>) -> SureTarget
        ensures { result ≡ record { answers = answers.items; calls = [] } }
    {
        SureTarget {
            answers,
            calls: Vec::new(alloc),
        }
    }

    /// The answered calls, in order.
    pub fn calls(&self) -> &[Call]
        ensures { result.now ≡ self.now.calls }
    {
        self.calls.as_slice()
    }
}

impl Target for SureTarget {
    ghost calls = { λ target. Some target.calls };

    ghost faults = { λ _. 0 };

    fn call(&mut self, function: u32, arguments: &[i64]) -> Result<i64, CallEnd>
        ensures answer { IfOk result (λ answer. answer ≡ answer_of self.old.answers function) }
        ensures noted { IfOk result (λ answer. self.new ≡ record self.old {
          calls = self.old.calls ++ record { function = function; arguments = arguments.now; answer = answer } ∷ [];
        }) }
        ensures no_memory { IfErr result (λ end. end ≡ CallEnd.NoMemory) }
        ensures unchanged { OnErr result (self.new ≡ self.old) }
    {
        let answer = self.answers.get(function as usize).copied().unwrap_or(0);
        let numbers = Vec::from_slice(*self.calls.allocator(), arguments)?;
        self.calls.push(Call {
            function,
            arguments: CallArguments::new(numbers),
            answer,
        })?;
        Ok(answer)
    }
}
