ghost use Rattle.std.specs.Prelude.{◌≡◌};

use std::marker::Model;

/// The arguments of a call, which contracts see as a list of whole numbers.
#[derive(Debug, Drop)]
pub struct CallArguments {
    numbers: Vec<i64>,
}

impl Model for CallArguments {
    ghost use Rattle.std.specs.Prelude.{ℤ, List};

    ghost Value = { List ℤ };

    ghost use Rattle.pst_target.specs.Arguments.{numbers_of};

    ghost view = { numbers_of };
}

impl CallArguments {
    /// These numbers in order.
    pub fn new(numbers: Vec<i64>) -> CallArguments
        ensures { result ≡ numbers.items }
    {
        CallArguments { numbers }
    }

    /// The numbers in order.
    pub fn as_slice(&self) -> &[i64]
        ensures { result.now ≡ self.now }
    {
        self.numbers.as_slice()
    }
}

/// An answered call of a function of the target.
#[derive(Debug, Drop)]
pub struct Call {
    /// The number of the function.
    pub function: u32,
    /// What it was called with.
    pub arguments: CallArguments,
    /// What it answered.
    pub answer: i64,
}
